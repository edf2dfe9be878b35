//! What room a table has for the splits that a history asks for.
#![tactic(auto)]

mod laws;

pub use laws::room_for_splits;
