// A half-cycle window.

/// A window of one cycle: from the place `start` up to the place `end`, with its root `value` in
/// microvolts (Urms(1/2), IEC 61000-4-30:2015, 5.4).
#[derive(Clone, Copy, Debug, PartialEq, Eq)]
pub struct Window {
    pub start: u64,
    pub end: u64,
    pub value: u64,
}
