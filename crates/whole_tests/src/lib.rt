//! Tests of the table of leaves and of the index, by public calls alone, and those that cross crates: worked
//! sessions, a table beside the list of its anchors, and the index beside a plain map.
//!
//! A check of a crate with tests of its own proves the crate once more with them, so the tests of the crates from
//! the table of leaves on stand here, and those of the crates below it in `base_tests`.
#![tactic(auto)]

#[cfg(test)]
mod index_calls;
#[cfg(test)]
mod index_scripts;
#[cfg(test)]
mod indexes;
#[cfg(test)]
mod small_tables;
#[cfg(test)]
mod table_changes;
#[cfg(test)]
mod worked_sessions;
