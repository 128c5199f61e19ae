// What an item may say at most. All of it is this project's choice (profile).

/// The greatest distance of a tick from 1970, in seconds.
pub const MOST_TICK: u64 = 9_000_000_000;
