//! An ordered map in memory, for one thread or shared by many: all that a program of one's own needs of it.
#![tactic(auto)]

mod calls;
mod error;

pub use calls::{del, get, put, scan};
pub use error::Error;
pub use index_lane::Lane;
pub use key_bytes::{Bound, Key, KeyFault, LONGEST_KEY, LONGEST_VALUE};
pub use map_model::{Again, ForkFault, Full, Lanes, Ordered, Page, Refusal, TableFull};
pub use patience::{Bounded, Endless, Patience};
pub use row_words::{MakeFault, Shape, ShapeFault};
pub use solo_index::Solo;
pub use worm_index::Index;
