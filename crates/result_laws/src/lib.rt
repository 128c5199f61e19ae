//! Laws about the definition of the sequential result, as the contracts of calls that do nothing.
#![tactic(auto)]

pub use laws::{keys_are_distinct, two_hours_have_twelve};

mod laws;
