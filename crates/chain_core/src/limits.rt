//! Limits by name.

/// How many sessions a list of steps may make, the first one among them.
pub const MOST_SESSIONS: usize = 1000;
