// Aggregated intervals.

/// An aggregated interval of all channels (IEC 61000-4-30:2015, 4.5, 4.7).
#[derive(Clone, Copy)]
pub struct Group {
    /// The tick at which a ten-minute or two-hour interval begins, a UTC second.
    pub tick: Option<i64>,
    /// Its span of sample places, up to but without `end`.
    pub start: u64,
    pub end: u64,
    /// How many intervals it contains.
    pub count: u64,
    /// Whether one of them is flagged.
    pub flagged: bool,
    /// The root of the contained values, in microvolts, for each channel by position; 0 past the channels.
    pub values: [u64; 16],
}

/// The intervals that one basic interval completes.
#[derive(Clone, Copy)]
pub struct Out {
    /// The 150/180-cycle interval.
    pub short: Option<Group>,
    /// The ten-minute interval.
    pub ten: Option<Group>,
    /// The two-hour interval.
    pub two: Option<Group>,
}
