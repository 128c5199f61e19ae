//! The sequential result of a recording of one or several channels: frequency, the basic intervals of each
//! channel and what they are aggregated to, and the events of the whole supply, in order.
#![tactic(auto)]

pub use clock::clock_of;
pub use cycles::{cycles_of_line, recorded_rule, reference_cycles};
pub use items::{Length, event_item, item_of_length};
pub use laws::{cut_is_prefix, events_lie_within, fronts_rise};
pub use runs::{recorded_runs, span_of};
pub use sequential::sequence;

mod basics;
mod clock;
mod cycles;
mod fronts;
mod groups;
mod intervals;
mod items;
mod laws;
mod readings;
mod runs;
mod sequential;
#[cfg(test)]
mod tests;
mod touches;
mod windows;
