// What is read and measured at most. All of it is this project's choice (profile).

/// The most bytes of a cfg.
pub const MOST_CFG_BYTES: usize = 1_048_576;

/// The greatest magnitude of a sample, in picovolts.
pub const MOST_PICOVOLTS: u128 = 10_000_000_000_000_000_000;
