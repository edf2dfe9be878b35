//! What stores of many lanes have in common for their proofs: a number for each index, and that facts
//! of a lane have one proof at most.
#![tactic(auto)]
