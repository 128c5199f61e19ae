//! What the lanes of a chain give: a report, of which each row is printed as its item is given, or a list of
//! items.
#![tactic(auto)]

pub use collecting::lane_items;
pub use reporting::lane_report;

mod collecting;
mod opening;
mod reporting;
mod sink_printer;
#[cfg(test)]
mod tests;
mod writing;
