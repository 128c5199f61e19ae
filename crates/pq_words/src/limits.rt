// What a recording may be at most. All of it is this project's choice (profile).

/// The most samples of a channel.
pub const MOST_SAMPLES: u64 = 50_000_000;

/// The greatest magnitude of a sample, in microvolts.
pub const MOST_MICROVOLTS: u64 = 10_000_000_000_000;

/// The fewest samples in a cycle of the line frequency.
pub const LEAST_SAMPLES_IN_CYCLE: u64 = 16;

/// The least sampling rate, in microhertz: the fewest samples in a cycle of 50 Hz.
pub const LEAST_RATE: u64 = 800_000_000;

/// The greatest sampling rate, in microhertz.
pub const MOST_RATE: u64 = 200_000_000_000;

/// The greatest distance of the first sample from 1970, in nanoseconds.
pub const MOST_NANOSECONDS: u64 = 8_000_000_000_000_000_000;

/// The greatest number of a channel.
pub const MOST_NUMBER: u32 = 999;

/// The most channels of a recording.
pub const MOST_SELECTED: u64 = 16;
