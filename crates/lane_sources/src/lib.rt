//! The items of a lane of a recording, one after another.
#![tactic(auto)]

pub use lane_source::LaneSource;
pub use lane_sources::LaneSources;

mod lane_kind;
mod lane_source;
mod lane_sources;
mod sampler;
mod spans;
#[cfg(test)]
mod tests;
