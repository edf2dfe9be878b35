//! A store that lanes share, for tests: one map, which one lane at a time has, and one history of all their calls.
#![tactic(auto)]

mod deed;
mod lane;
mod moves;
mod rule;
mod shared;
mod view;

pub use lane::SharedLane;
pub use shared::SharedMap;
