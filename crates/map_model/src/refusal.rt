//! Why a call was refused.
ghost use Rattle.std.specs.Prelude.{◌≡◌};
ghost use Rattle.map_model.specs.declared.refusal.Refusal.TheVariants.{NoMemory};

use std::alloc::{AllocError, AllocFailed};

/// Another lane was in the way. Leaves and lanes are named by their numbers, and a `holder` is the
/// number of the lane that holds what this one wanted.
#[derive(Clone, Copy, Debug, PartialEq, Eq)]
pub enum Again {
    /// The leaf is held by a lane.
    Locked {
        leaf: u32,
        holder: u32,
    },
    /// The leaf's word changed between two looks at it.
    Changed {
        leaf: u32,
        before: u64,
        after: u64,
    },
    /// The leaf expects a later version of the table than the one that was searched.
    Stale {
        leaf: u32,
        expected: u64,
        searched: u64,
    },
    /// The version moved on between two looks at it.
    Moved {
        first: u64,
        second: u64,
    },
    /// The turn to change the table is held by a lane.
    Turn {
        holder: u32,
    },
    /// The table that would be changed is still pinned. `pins` is always 1: the holder of the turn stops at
    /// the first lane that has pinned it.
    Pinned {
        table: u32,
        pins: u64,
    },
    /// The bin of free slots is held by a lane.
    Bin {
        holder: u32,
    },
    /// The leaf was found with this count of keys, which is the most that it may have.
    Filled {
        leaf: u32,
        count: u32,
        hard: u32,
    },
}

/// What a table has no room for.
#[derive(Clone, Copy, Debug, PartialEq, Eq)]
pub enum TableFull {
    /// All leaves are in use.
    Leaves { used: u32, cap: u32 },
    /// The prefixes that an anchor needs are more than the free items.
    Items { needed: u32, free: u32 },
    /// The version stands at the end of its numbers.
    Versions { version: u64 },
}

/// There was no room for a key or a value.
#[derive(Clone, Copy, Debug, PartialEq, Eq)]
pub enum Full {
    /// All slots of values are in use.
    Values {
        drawn: u64,
        cap: u64,
    },
    /// The leaf has the most keys that it may have, and no further leaf can be made.
    Crowded {
        count: u32,
        hard: u32,
        why: TableFull,
    },
}

/// Why a store refused a call, which then has changed nothing.
#[derive(Clone, Copy, Debug, PartialEq, Eq)]
pub enum Refusal {
    /// Another lane was in the way: the call may be tried again.
    Again(Again),
    /// There was no room.
    Full(Full),
    /// An allocation failed.
    NoMemory,
}

impl From<AllocError> for Refusal {
    ghost from_gives = { λ _ refusal. refusal ≡ NoMemory };

    fn from(_: AllocError) -> Self {
        Refusal::NoMemory
    }
}

impl<T: Drop> From<AllocFailed<T>> for Refusal {
    ghost from_gives = { λ _ refusal. refusal ≡ NoMemory };

    fn from(_: AllocFailed<T>) -> Self {
        Refusal::NoMemory
    }
}

/// Why no further lane was made.
#[derive(Clone, Copy, Debug, PartialEq, Eq)]
pub enum ForkFault {
    /// As many lanes were made as there may be.
    Lanes { given: u64, cap: u64 },
    /// An allocation failed.
    NoMemory,
}
