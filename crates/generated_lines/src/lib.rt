//! Lines of requests that a generator makes out of a number, and a source of them that keeps one line.
#![tactic(auto)]

mod digits;
mod generated;
mod line;

pub use generated::Generated;
