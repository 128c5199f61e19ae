//! Laws of the core machine, of every recording.
#![tactic(auto)]

pub use laws::{recordings_are_measured, withheld_by_own_loads};

mod laws;
#[cfg(test)]
mod tests;
