//! What a search answers.

use row_words::{AnchorWords, ItemRow};

/// The longest prefix of a key that has an item.
#[derive(Debug, Clone, Copy)]
pub struct Longest {
    /// Its length in bytes.
    pub len: u32,
    pub item: ItemRow,
}

/// The leaf of a key, with the key's hash.
#[derive(Debug, Clone, Copy)]
pub struct Sought {
    /// The leaf of the greatest anchor that isn't above the key.
    pub leaf: u32,
    /// The hash of the whole key, under the salt of the table.
    pub hash: u64,
}

/// Where a key belongs.
#[derive(Debug, Drop)]
pub struct Located {
    /// The leaf of the greatest anchor that isn't above the key.
    pub leaf: u32,
    /// The anchor of the leaf after it, None for the last leaf. The key is below it.
    pub next: Option<AnchorWords>,
}
