//! Gives the lines of an input to lanes: each line names its lane by its first word.
#![tactic(auto)]

mod deal;
mod dealt;
mod lane_word;
#[cfg(test)]
mod tests;

pub use deal::deal_lines;
pub use dealt::Dealt;
pub use lane_word::LANE_DIGITS;
