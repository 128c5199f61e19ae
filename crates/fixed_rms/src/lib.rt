//! Roots in whole microvolts: the integer root, the root of the mean square of samples, and that of
//! values that are roots themselves.
#![tactic(auto)]

pub use integer_root::isqrt;
pub use mean_root::{mean_square, rms, root_mean, root_of_mean, sum_of_squares};

mod integer_root;
mod mean_root;
#[cfg(test)]
mod tests;
