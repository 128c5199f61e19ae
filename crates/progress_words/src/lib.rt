//! Words of progress for the lanes of a shared value, and the turn in which it is taken and given back.
#![tactic(auto)]

pub use answer::{Closed, Take};
pub use law::shows_words;
pub use out_of_memory::OutOfMemory;
pub use pass::{LanePass, ReadPass, Words};
pub use pass_view::{LaneView, PassView, ReaderView, Role};
pub use shared::{MOST_LANES, Shared};
pub use table::{Opening, RuleOfWords};

mod answer;
mod close;
mod law;
mod opening;
mod out_of_memory;
mod pass;
mod pass_view;
#[cfg(test)]
mod race_tests;
mod shared;
mod split;
mod step;
mod stop;
mod table;
#[cfg(test)]
mod tests;
mod turn;
mod word;
