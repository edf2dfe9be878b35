//! How long lines and inputs may be.

/// How many bytes a line has at most, without its end.
pub const LONGEST_LINE: usize = 4_096;

/// How many bytes of a line are kept until its end is known: one more, since the last may be a CR, which is dropped.
pub const LINE_ROOM: usize = LONGEST_LINE + 1;

/// How many bytes are taken of one input at most: 2^40.
pub const MOST_INPUT: u64 = 1 << 40;
