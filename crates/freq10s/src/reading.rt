// A frequency reading.

/// The frequency over a 10-second interval of the clock (IEC 61000-4-30:2015, 5.1).
#[derive(Clone, Copy, Debug, PartialEq, Eq)]
pub struct Reading {
    /// The tick at which the interval begins, a UTC second.
    pub tick: i64,
    /// The places of that tick and of the next: its span of samples, up to but without `end`.
    pub start: u64,
    pub end: u64,
    /// How many whole cycles lie in the interval, and how many samples they last.
    pub cycles: u64,
    pub samples: u64,
    /// Cycles by their duration, in microhertz, rounded down.
    pub microhertz: u64,
}
