//! Lanes: what is measured of a recording, item by item, in the order in which it can be known.
#![tactic(auto)]

pub use lane_item::LaneItem;
pub use laws::{lanes_rise, reaches_tell};

mod lane_item;
mod laws;
