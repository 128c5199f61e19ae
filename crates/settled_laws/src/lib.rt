//! Laws about what later samples cannot change, as the contracts of calls that do nothing.
#![tactic(auto)]

pub use event_laws::events_are_settled;
pub use interval_laws::{intervals_are_few, intervals_are_settled};

mod event_laws;
mod interval_laws;
