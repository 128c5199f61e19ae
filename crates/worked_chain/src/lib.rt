//! Chains driven on one thread by the lines of schedules, and the core by the same lines.
#![tactic(auto)]

pub use chain_driver::ChainDriver;
pub use core_driver::CoreDriver;
pub use lane_driver::LaneDriver;
pub use reply::Reply;
pub use session_driver::SessionDriver;

mod chain_driver;
mod core_driver;
mod lane_driver;
#[cfg(test)]
mod recordings;
mod reply;
mod session_driver;
#[cfg(test)]
mod tests;
