//! The trie of the prefixes of anchors, in the rows of a table: looking a prefix up, and keeping
//! the rows while anchors come and go.
#![tactic(auto)]

mod adds;
mod beside;
mod buckets;
mod builds;
mod changes;
mod children;
mod finds;
mod free_leaves;
mod free_links;
mod grows;
mod lags;
mod leaf_rows;
mod links;
mod looks;
mod places;
mod puts;
mod removes;
mod shrinks;
mod starts;
mod unlinks;

pub use adds::{add_anchor, add_anchor_words};
pub use beside::{Sides, neighbours};
pub use builds::build;
pub use children::last_of_child;
pub use free_leaves::{free_leaf, free_leaf_from};
pub use lags::{Lag, turn_rows};
pub use looks::{look, look_by_hash};
pub use places::{Place, place_by_hash};
pub use removes::remove_anchor;
pub use starts::{start, start_zeroed};

// An anchor is a prefix of a key, so each has room in a row.
const _: () = prove!(key_bytes::LONGEST_KEY == row_words::layout::LONGEST_ANCHOR);
