//! Searching the rows of a table for a key: the longest prefix of the key that has an item, by
//! binary search on its length, and from there the leaf whose span has the key.
#![tactic(auto)]

mod answers;
mod bits;
mod ends;
mod hints;
mod leaves;
mod locates;
mod longests;
mod middles;

pub use answers::{Located, Longest, Sought};
pub use ends::locate_end;
pub use hints::Hint;
pub use leaves::at_leaf;
pub use locates::{locate, seek};
pub use longests::longest;
