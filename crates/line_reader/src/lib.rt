//! Lines of bytes that come in pieces.
//!
//! A reader takes pieces however they are cut and tells the same lines. It keeps no more than one
//! line, in a buffer that is reserved once; a line that is longer than that is told as too long.
#![tactic(auto)]

mod cut;
mod limits;
mod lines;
mod pieces;

pub use limits::{LINE_ROOM, LONGEST_LINE, MOST_INPUT};
pub use lines::{Event, Lines, Taken, Whole};
pub use pieces::read_all;
