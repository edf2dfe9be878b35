//! How the keys of a map lie in the spans of anchors, one span for each leaf; when a leaf is split or
//! merged; and what that and each call does to the leaves. But for two decisions all of this is laws.
#![tactic(auto)]

mod decisions;
mod laws;

pub use decisions::{Side, Wanted, partner, wish};
pub use laws::{
    calls_in_spans, chosen_neighbours, counted_keys, few_keys, parted_halves, spread_changes,
    spread_leaves, spread_moves,
};
