//! The places at which half-cycles begin: zero crossings, and half a cycle on where none is found.
#![tactic(auto)]

pub use boundaries::Boundaries;
pub use boundary::{Boundary, first, next};
pub use laws::{
    boundaries_alternate, boundaries_follow_one_another, boundaries_lie_within,
    cycle_boundaries_are_even,
};
pub use rule::Rule;

mod boundaries;
mod boundary;
mod laws;
mod rule;
#[cfg(test)]
mod tests;
