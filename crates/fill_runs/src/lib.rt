//! Generated requests that are served as one session and summed up.
#![tactic(auto)]

mod fills;
mod laws;
mod summary;
mod tally;
mod words;

pub use fills::{FillEnd, fill};
pub use laws::counts_lines_as_cut;
pub use tally::Tally;
