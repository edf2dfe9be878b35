//! A lane of the shared index, as a store that sessions serve and that forks further lanes.
#![tactic(auto)]

mod calls;
mod lane;

pub use lane::Lane;
