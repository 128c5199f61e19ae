//! The ledger of posted items.
#![tactic(auto)]

pub use ledger::Ledger;
pub use outbox::Outbox;
pub use step_law::ticks_are_few;
pub use steps::Steps;
pub use subject::Subject;

mod advancing;
mod channel;
mod first_start;
mod known;
mod labels;
mod ledger;
mod ledger_calls;
mod merging;
mod next_due;
mod opening;
mod outbox;
mod posting;
mod queue;
mod roots;
mod segments;
mod settlement;
mod shared;
mod step_law;
mod steps;
mod subject;
#[cfg(test)]
mod tests;
mod tick_places;
mod watch;
