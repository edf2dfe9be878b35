//! The numbers by which an index and its tables are laid out.

ghost use Rattle.std.specs.Prelude.{◌≡◌, ◌<◌, ◌+◌, OnOk, IfErr};
ghost use Rattle.row_words.specs.Layout as layout;
ghost use Rattle.row_words.specs.Shape.{IsShape, IsFirstFault, fault_number};

use crate::layout::{HEADER_WORDS, ITEM_WORDS, LEAF_WORDS};

/// The numbers of an index. Each but the salt has a range, and [`Shape::check`] tells whether they
/// are in it.
#[derive(Debug, Clone, Copy, PartialEq, Eq)]
pub struct Shape {
    /// How many leaves there may be, 1 to 65,536.
    pub leaves: u32,
    /// How many prefixes of anchors there may be, 1 to 4,194,304.
    pub items: u32,
    /// The number of buckets of items, 1 to 1,048,576.
    pub heads: u32,
    /// How many values there may be, 1 to 262,144.
    pub values: u32,
    /// How many lanes there may be, 1 to 64.
    pub lanes: u32,
    /// A leaf with more keys than this is split: an even number, 2 to 1,024.
    pub soft: u32,
    /// A leaf never has more keys than this: above `soft`, at most 4,096.
    pub hard: u32,
    /// Two neighbouring leaves with at most this many keys together are merged: at most half of
    /// `soft`.
    pub merge_sum: u32,
    /// Where the hashes of prefixes begin.
    pub salt: u64,
}

/// A field of a [`Shape`] that is out of its range.
#[derive(Debug, Clone, Copy, PartialEq, Eq)]
pub enum ShapeFault {
    Leaves,
    Items,
    Heads,
    Values,
    Lanes,
    Soft,
    Hard,
    MergeSum,
}

/// Why an index wasn't made.
#[derive(Debug, Clone, Copy, PartialEq, Eq)]
pub enum MakeFault {
    Shape(ShapeFault),
    NoMemory,
}

impl ShapeFault {
    /// The field's place, 1 to 8, in the order in which [`Shape::check`] looks at them.
    pub fn number(self) -> u32
        ensures { result ≡ fault_number self }
    {
        match self {
            ShapeFault::Leaves => 1,
            ShapeFault::Items => 2,
            ShapeFault::Heads => 3,
            ShapeFault::Values => 4,
            ShapeFault::Lanes => 5,
            ShapeFault::Soft => 6,
            ShapeFault::Hard => 7,
            ShapeFault::MergeSum => 8,
        }
    }
}

impl Shape {
    /// The numbers that stand where none are given.
    pub const fn standard() -> Shape
        ensures value { result ≡ record { leaves = 2048; items = 262144; heads = 65536; values = 65536; lanes = 16; soft = 64; hard = 1024; merge_sum = 32; salt = 0 } }
        ensures ranges { IsShape result }
    {
        Shape {
            leaves: 2_048,
            items: 262_144,
            heads: 65_536,
            values: 65_536,
            lanes: 16,
            soft: 64,
            hard: 1_024,
            merge_sum: 32,
            salt: 0,
        }
    }

    /// The first field that is out of its range, if there is one.
    pub fn check(&self) -> Result<(), ShapeFault>
        ensures ok { OnOk result (IsShape self.now) }
        ensures fault { IfErr result (IsFirstFault self.now) }
    {
        if self.leaves < 1 || self.leaves > 65_536 {
            return Err(ShapeFault::Leaves);
        }
        if self.items < 1 || self.items > 4_194_304 {
            return Err(ShapeFault::Items);
        }
        if self.heads < 1 || self.heads > 1_048_576 {
            return Err(ShapeFault::Heads);
        }
        if self.values < 1 || self.values > 262_144 {
            return Err(ShapeFault::Values);
        }
        if self.lanes < 1 || self.lanes > 64 {
            return Err(ShapeFault::Lanes);
        }
        if self.soft % 2 != 0 || self.soft < 2 || self.soft > 1_024 {
            return Err(ShapeFault::Soft);
        }
        if self.hard <= self.soft || self.hard > 4_096 {
            return Err(ShapeFault::Hard);
        }
        if self.merge_sum > self.soft / 2 {
            return Err(ShapeFault::MergeSum);
        }
        Ok(())
    }

    /// The word of the head of a bucket.
    pub fn head_word(&self, bucket: u32) -> u32
        requires shape { IsShape self.now }
        requires bucket { bucket < self.now.heads }
        ensures { result ≡ layout.head_word self.now bucket }
    {
        HEADER_WORDS + bucket
    }

    /// The first word of the item at a place.
    pub fn item_word(&self, at: u32) -> u32
        requires shape { IsShape self.now }
        requires at { at < self.now.items }
        ensures { result ≡ layout.item_word self.now at }
    {
        HEADER_WORDS + self.heads + ITEM_WORDS * at
    }

    /// The first word of a leaf's row.
    pub fn leaf_word(&self, leaf: u32) -> u32
        requires shape { IsShape self.now }
        requires leaf { leaf < self.now.leaves }
        ensures { result ≡ layout.leaf_word self.now leaf }
    {
        HEADER_WORDS + self.heads + ITEM_WORDS * self.items + LEAF_WORDS * leaf
    }

    /// How many words a table has.
    pub fn word_count(&self) -> u32
        requires { IsShape self.now }
        ensures { result ≡ layout.word_count self.now }
    {
        HEADER_WORDS + self.heads + ITEM_WORDS * self.items + LEAF_WORDS * self.leaves
    }
}
