//! The items of a result, and the order in which a result has them.
#![tactic(auto)]

pub use item::Item;
pub use limits::MOST_TICK;
pub use order::sort_items;

mod item;
mod limits;
mod order;
#[cfg(test)]
mod tests;
