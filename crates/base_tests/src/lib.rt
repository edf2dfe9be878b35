//! Tests of what stands below the table of leaves, by public calls alone.
//!
//! A check of a crate with tests of its own proves the crate once more with them, so the tests of all of these
//! crates stand here.
#![tactic(auto)]

#[cfg(test)]
mod anchors;
#[cfg(test)]
mod ends;
#[cfg(test)]
mod fills;
#[cfg(test)]
mod keys;
#[cfg(test)]
mod leaf_cuts;
#[cfg(test)]
mod leaves;
#[cfg(test)]
mod lines;
#[cfg(test)]
mod made_lines;
#[cfg(test)]
mod maps;
#[cfg(test)]
mod options;
#[cfg(test)]
mod replies;
#[cfg(test)]
mod requests;
#[cfg(test)]
mod rows;
#[cfg(test)]
mod searches;
#[cfg(test)]
mod sessions;
#[cfg(test)]
mod shapes;
#[cfg(test)]
mod shared;
#[cfg(test)]
mod sources;
#[cfg(test)]
mod tags;
#[cfg(test)]
mod tries;
