//! The text of a report: its header, the row of an item, a whole report, and the items that a text reports.
#![tactic(auto)]

pub use fault::ReportFault;
pub use laws::{needs_no_quotes, reads_back};
pub use reading::read_report;
pub use result_summary::summary;
pub use rows::{header, row};
pub use whole_report::{push_rows, report};

mod cutting;
mod fault;
mod kind;
mod laws;
mod moments;
mod reading;
mod result_summary;
mod row_items;
mod rows;
#[cfg(test)]
mod tests;
mod values;
mod whole_report;
