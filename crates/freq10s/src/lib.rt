//! Frequency over ten seconds of the clock: whole cycles by their duration.
#![tactic(auto)]

pub use reading::Reading;
pub use readings::Readings;

mod cycles;
mod intervals;
mod reading;
mod readings;
#[cfg(test)]
mod tests;
