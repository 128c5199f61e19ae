// An event.

use crate::kind::Kind;

/// An event of a kind, from the place `start` up to the place `end`. `value` is its worst value in
/// microvolts: the least of a dip and an interruption (the residual voltage), the greatest of a
/// swell (IEC 61000-4-30:2015, 5.4, 5.5). `channel` is the position of the channel that has it
/// first, and `is_open` says that the event had not ended by `end`.
#[derive(Clone, Copy, Debug, PartialEq, Eq)]
pub struct Event {
    pub kind: Kind,
    pub start: u64,
    pub end: u64,
    pub channel: u32,
    pub value: u64,
    pub is_open: bool,
}
