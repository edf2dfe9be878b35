//! A leaf: a map from keys that holds its rows in any order and finds them by tags, and that puts
//! them in the order of their keys only when a part of the map or a cut asks for it.
#![tactic(auto)]

mod leaf;
mod order;
mod place_order;
mod ranks;
mod rows;

pub use leaf::Leaf;
