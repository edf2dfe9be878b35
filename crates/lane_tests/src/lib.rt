//! Tests of the runner of lanes and of inputs that lanes answer, over a map that lanes share. They stand apart from
//! the crates that they test, so that none is proved once more for them.
#![tactic(auto)]

#[cfg(test)]
mod held_lanes;
#[cfg(test)]
mod many_lanes;
#[cfg(test)]
mod whole_inputs;
