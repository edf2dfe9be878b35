//! Tags of keys, short hashes that stand in ascending order beside the places of the keys' rows.
//! A look-up begins where its tag would stand among evenly spread tags, so that it mostly asks one
//! row or none.
#![tactic(auto)]

mod tags;

pub use tags::Tags;
