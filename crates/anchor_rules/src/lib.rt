//! Anchors, which part the keys among leaves: which leaf has a key, and what a split and a merge of
//! leaves change.
#![tactic(auto)]

mod anchors;
mod laws;

pub use anchors::Anchors;
pub use laws::{changed_spans, closed_apart, search_ends};
