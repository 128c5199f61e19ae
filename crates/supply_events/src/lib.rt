//! The dips, swells and interruptions of a supply, over the half-cycle windows of all its channels.
#![tactic(auto)]

pub use events::supply_events;
pub use queue::Queue;

mod event_lists;
mod events;
mod least;
mod merged;
mod queue;
