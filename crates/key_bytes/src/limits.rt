//! How long keys and values may be.

/// The most bytes of a key.
pub const LONGEST_KEY: usize = 255;

/// The most bytes of a value in an ordered map. Bytes that are no value there may be any number.
pub const LONGEST_VALUE: usize = 1_024;
