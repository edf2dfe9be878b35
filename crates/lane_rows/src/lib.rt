//! Tests of a lane of the index: beside the index for one caller and a plain map, and with others at once.
#![tactic(auto)]

#[cfg(test)]
mod answers;
#[cfg(test)]
mod at_once;
#[cfg(test)]
mod calls;
