//! What calls of a table answer.

ghost use Rattle.std.specs.Prelude.{◌≡◌};
ghost use Rattle.leaf_table.specs.declared.answers.SplitFault.TheVariants.{Table as NoRoom, NoMemory as NoSpace};

use map_model::TableFull;
use std::alloc::AllocError;

/// Where a key belongs.
#[derive(Debug, Clone, Copy, PartialEq, Eq)]
pub struct Place {
    /// The leaf that has the key, if any has.
    pub leaf: u32,
    /// The key's hash, under the table's salt.
    pub hash: u64,
}

/// The leaves on both sides of one.
#[derive(Debug, Clone, Copy, PartialEq, Eq)]
pub struct Neighbours {
    /// The leaf just before it, None for the first leaf.
    pub left: Option<u32>,
    /// The leaf just behind it, None for the last leaf.
    pub right: Option<u32>,
}

/// Why a leaf wasn't split.
#[derive(Debug, Clone, Copy, PartialEq, Eq)]
pub enum SplitFault {
    /// The table has no room for one more leaf or its anchor.
    Table(TableFull),
    /// An allocation failed.
    NoMemory,
}

impl From<AllocError> for SplitFault {
    ghost from_gives = { λ _ fault. fault ≡ NoSpace };

    fn from(_: AllocError) -> Self {
        SplitFault::NoMemory
    }
}

impl From<TableFull> for SplitFault {
    ghost from_gives = { λ why fault. fault ≡ NoRoom why };

    fn from(why: TableFull) -> Self {
        SplitFault::Table(why)
    }
}
