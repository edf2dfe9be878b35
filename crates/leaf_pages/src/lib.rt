//! The part of a map that one leaf has: where it ends, and its pairs in a page.
#![tactic(auto)]

mod ends;
mod fills;

pub use ends::lower_end;
pub use fills::{fill, fill_few};
