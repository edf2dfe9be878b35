//! Keys with their values in leaves, which are found through the rows of one table of anchors. When
//! a leaf is split, and when two are merged, is for the caller to say.
#![tactic(auto)]

mod answers;
mod looks;
mod merges;
mod parts;
mod splits;
mod table;
mod writes;

pub use answers::{Neighbours, Place, SplitFault};
pub use table::LeafTable;
