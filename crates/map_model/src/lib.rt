//! The sequential map and its histories, and the trait of every store that answers as that map.
#![tactic(auto)]

mod lanes;
mod ordered;
mod page;
mod plain;
mod refusal;

pub use lanes::Lanes;
pub use ordered::Ordered;
pub use page::Page;
pub use plain::{MOST_PAIRS, PlainMap};
pub use refusal::{Again, ForkFault, Full, Refusal, TableFull};
