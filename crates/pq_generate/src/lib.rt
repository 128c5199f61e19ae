//! A recording made from a number: a sine on three channels with ten disturbances, as a cfg and a dat.
#![tactic(auto)]

pub use laws::{
    counts_lie_within, dats_are_whole, disturbances_lie_apart, disturbances_lie_within,
};
pub use made::{Made, generate};
pub use recording::generated_recording;
pub use samples::SAMPLES;

mod counts;
mod disturbance;
mod laws;
mod made;
mod recording;
mod records;
mod samples;
#[cfg(test)]
mod tests;
