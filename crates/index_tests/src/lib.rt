//! Tests of the index that lanes share. They stand apart from it, since its proofs are long and would be made once more
//! for them.
#![tactic(auto)]

#[cfg(test)]
mod board_lanes;
#[cfg(test)]
mod held;
#[cfg(test)]
mod keys;
#[cfg(test)]
mod lanes;
#[cfg(test)]
mod passes;
#[cfg(test)]
mod rows;
#[cfg(test)]
mod splits;
#[cfg(test)]
mod turns;
#[cfg(test)]
mod walks;
