//! A leaf of the board with the version from which on it has its span: how it is looked at, locked
//! by that version, raised to the next one, and given back.
#![tactic(auto)]

mod held;
mod leaf_calls;
mod no_entry;

pub use held::Held;
pub use leaf_calls::{lock, raise, see, unlock};
pub use no_entry::NoEntry;
