//! Aggregation of basic intervals to 150/180-cycle, ten-minute and two-hour intervals.
#![tactic(auto)]

pub use aggregator::Aggregator;
pub use group::{Group, Out};
pub use laws::gives_groups;

mod aggregator;
mod group;
mod laws;
mod short;
mod sum;
mod ten;
#[cfg(test)]
mod tests;
mod two_hour;
