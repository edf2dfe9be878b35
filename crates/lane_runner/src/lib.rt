//! Serves many scripts at the same time: each has a lane to itself, and all lanes are of one index.
#![tactic(auto)]

mod forks;
mod gated;
mod output;
mod run;
mod script;
mod slot;

pub use run::run_lanes;
pub use slot::LaneEnd;
