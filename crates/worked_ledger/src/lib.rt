//! Recordings posted to a ledger, lane by lane in several orders, up to the whole result.
#![tactic(auto)]

pub use measured::Measured;
pub use posting::{advance, post_some};
pub use rounds::{Order, post_all};

mod measured;
mod posting;
#[cfg(test)]
mod recordings;
mod rounds;
#[cfg(test)]
mod tests;
