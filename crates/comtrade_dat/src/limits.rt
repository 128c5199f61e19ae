// The limits of a dat.

/// The most bytes of a dat that is read from outside (profile).
pub const MOST_DAT_BYTES: u64 = 536_870_912;

/// The count that says that there is none (C37.111, binary data record).
pub const MISSING_COUNT: i16 = -32_768;
