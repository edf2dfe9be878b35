//! Small programs over the index, which the documents quote and the gate runs.
#![tactic(auto)]

#[cfg(test)]
mod ranges;
#[cfg(test)]
mod shared;
#[cfg(test)]
mod words;
