//! The words of one table of rows: their layout, what may read and write them, and a table that
//! lies in vectors.
#![tactic(auto)]

mod anchor_starts;
mod anchor_words;
mod glances;
mod head_words;
pub mod layout;
mod leaves;
mod padded_words;
mod probes;
mod rows;
mod shape;
mod vec_rows;
mod words;

pub use anchor_words::{AnchorWords, packed_word};
pub use glances::{child_words, glance_words, item_words};
pub use leaves::{leaf_words, previous_words};
pub use probes::probe_words;
pub use rows::{ChildProbe, Glance, ItemRow, LeafRow, Probe, Rows, RowsMut};
pub use shape::{MakeFault, Shape, ShapeFault};
pub use vec_rows::VecRows;
pub use words::{LeafParts, Words, begins};
