//! The index on one thread: one table with its leaves, as an ordered map.
#![tactic(auto)]

mod keys;
mod solo;
mod tending;

pub use solo::Solo;
pub use tending::{Put, Taken, Tended};
