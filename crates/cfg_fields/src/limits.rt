// What a cfg may have at most. It is this project's choice (profile).

/// The most channels of one kind, analogue or status.
pub const MOST_CHANNELS: u64 = 999;
