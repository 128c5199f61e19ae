//! Dips, swells and interruptions over all channels.
#![tactic(auto)]

pub use laws::gives_polyphase_events;
pub use poly::Poly;

mod counts;
mod latest;
mod laws;
mod poly;
