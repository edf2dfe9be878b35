//! What may read and write the rows of a table.

ghost use Rattle.std.specs.Prelude.{◌≡◌, ◌<◌, ◌+◌, ◌%◌, [], ◌∷◌, ◌++◌, length, slice_index, slice_set};
ghost use Rattle.row_words.specs.Layout.{word_count};
ghost use Rattle.row_words.specs.Shape.{IsShape};
ghost use Rattle.row_words.specs.Decode.{longest_at, head_at, item_at, IsUsed, IsLive, Probed, Glanced, ChildProbed, anchor_at, previous_at, next_at};

use crate::{AnchorWords, Shape};
use std::sync::ledger::Ledger;
use steps::Steps;

/// The item of one prefix of an anchor.
#[derive(Debug, Clone, Copy)]
pub struct ItemRow {
    /// The next item of the bucket as place + 1, or 0.
    pub next: u32,
    /// The prefix's length in bytes.
    pub len: u32,
    /// Whether the prefix is itself an anchor.
    pub is_anchor: bool,
    /// The leaf of the first anchor that begins with the prefix.
    pub leftmost: u32,
    /// The leaf of the last anchor that begins with the prefix.
    pub rightmost: u32,
    /// Which bytes may follow the prefix: byte c is bit `c % 64` of word `c / 64`.
    pub bits: [u64; 4],
}

/// The row of one live leaf.
#[derive(Debug, Drop)]
pub struct LeafRow {
    pub anchor: AnchorWords,
    /// The leaf before it as number + 1, or 0.
    pub previous: u32,
    /// The leaf after it as number + 1, or 0.
    pub next: u32,
}

/// What a look at one item tells of a prefix.
#[derive(Debug, Clone, Copy)]
pub enum Probe {
    /// The item is that of the prefix.
    Same(ItemRow),
    /// It isn't; `next` is the next item of the bucket as place + 1, or 0.
    Other { next: u32 },
}

/// What a short look at one item tells of a prefix.
#[derive(Debug, Clone, Copy)]
pub enum Glance {
    /// The item is that of the prefix; `bits` is the asked word of those that say which bytes may follow.
    Hit { bits: u64 },
    /// It isn't; `next` is the next item of the bucket as place + 1, or 0.
    Miss { next: u32 },
}

/// What a look at one item tells of a child of a prefix, where it or a later one of the bucket is that of
/// the child.
#[derive(Debug, Clone, Copy)]
pub enum ChildProbe {
    /// The item is that of the child; `rightmost` is the leaf of the last anchor that begins so.
    Found { rightmost: u32 },
    /// It isn't; `next` is the next item of the bucket as place + 1.
    Further { next: u32 },
}

/// All that a reader of a table has. No call changes a word, and a row is read only by a call that
/// ticks a step. Each such call also raises the number of rows read, which no caller can set: so a
/// bound on it is one on the work, whatever counter the steps are told to. A reader may be lent by an owner who takes it back, so each call and each function
/// over a reader also tells what `stays`: what else the owner finds as it was.
pub trait Rows {
    ghost use Rattle.std.specs.Prelude.{List, ℕ, ◌≡◌, length};
    ghost use Rattle.row_words.specs.declared.shape.Shape.{Shape};
    ghost use Rattle.row_words.specs.Layout.{word_count};
    ghost use Rattle.row_words.specs.Shape.{IsShape};

    ghost shape: { Self → Shape };

    ghost words: { Self → List ℕ };

    // How many rows were read, items and leaf rows together.
    ghost rows_read: { Self → ℕ };

    // What each call leaves as it is beside the words, the shape and the number of rows read.
    ghost stays: { Self → Self → Type 0 };

    /// The number of buckets.
    fn heads(&self) -> u32
        ensures { result ≡ (shape self.now).heads };

    /// Where the hashes of prefixes begin.
    fn salt(&self) -> u64
        ensures { result ≡ (shape self.now).salt };

    /// The length of the longest anchor, by the header.
    fn longest(&mut self) -> u32
        ensures value { result ≡ longest_at (words self.old) }
        ensures read { rows_read self.new ≡ rows_read self.old }
        ensures words { words self.new ≡ words self.old }
        ensures shape { shape self.new ≡ shape self.old }
        ensures stays { stays self.old self.new };

    /// The first item of a bucket as place + 1, or 0.
    fn head(&mut self, bucket: u32) -> u32
        requires { bucket < (shape self.old).heads }
        ensures value { result ≡ head_at (shape self.old) (words self.old) bucket }
        ensures read { rows_read self.new ≡ rows_read self.old }
        ensures words { words self.new ≡ words self.old }
        ensures shape { shape self.new ≡ shape self.old }
        ensures stays { stays self.old self.new };

    /// Whether the item at a place is that of this prefix, whose hash is given. It ticks one step.
    fn probe<L: Ledger>(&mut self, at: u32, prefix: &[u8], hash: u64, steps: &mut Steps<L>) -> Probe
        requires { IsUsed (shape self.old) (words self.old) at }
        ensures value { Probed (shape self.old) (words self.old) at prefix.now hash result }
        ensures steps { steps.new ≡ steps.old + 1 }
        ensures read { rows_read self.new ≡ rows_read self.old + 1 }
        ensures words { words self.new ≡ words self.old }
        ensures shape { shape self.new ≡ shape self.old }
        ensures stays { stays self.old self.new };

    /// As [`Rows::probe`], but of the item no more is told than this word of its bits. It ticks one step.
    fn glance<L: Ledger>(
        &mut self,
        at: u32,
        prefix: &[u8],
        hash: u64,
        word: u32,
        steps: &mut Steps<L>,
    ) -> Glance
        requires used { IsUsed (shape self.old) (words self.old) at }
        requires word { word < 4 }
        ensures value { Glanced (shape self.old) (words self.old) at prefix.now hash word result }
        ensures steps { steps.new ≡ steps.old + 1 }
        ensures read { rows_read self.new ≡ rows_read self.old + 1 }
        ensures words { words self.new ≡ words self.old }
        ensures shape { shape self.new ≡ shape self.old }
        ensures stays { stays self.old self.new };

    /// Whether the item at a place is that of this prefix and one byte more, whose hash is given, or the
    /// last one of its bucket. Who knows that the child has an item, there or later in the bucket, needs
    /// no look at the bytes of the last one. It ticks one step.
    fn probe_child<L: Ledger>(
        &mut self,
        at: u32,
        prefix: &[u8],
        byte: u8,
        hash: u64,
        steps: &mut Steps<L>,
    ) -> ChildProbe
        requires { IsUsed (shape self.old) (words self.old) at }
        ensures value { ChildProbed (shape self.old) (words self.old) at (prefix.now ++ byte ∷ []) hash result }
        ensures steps { steps.new ≡ steps.old + 1 }
        ensures read { rows_read self.new ≡ rows_read self.old + 1 }
        ensures words { words self.new ≡ words self.old }
        ensures shape { shape self.new ≡ shape self.old }
        ensures stays { stays self.old self.new };

    /// The item at a place. It ticks one step.
    fn item<L: Ledger>(&mut self, at: u32, steps: &mut Steps<L>) -> ItemRow
        requires { at < (shape self.old).items }
        ensures value { result ≡ item_at (shape self.old) (words self.old) at }
        ensures steps { steps.new ≡ steps.old + 1 }
        ensures read { rows_read self.new ≡ rows_read self.old + 1 }
        ensures words { words self.new ≡ words self.old }
        ensures shape { shape self.new ≡ shape self.old }
        ensures stays { stays self.old self.new };

    /// The row of a live leaf. It ticks one step.
    fn leaf<L: Ledger>(&mut self, at: u32, steps: &mut Steps<L>) -> LeafRow
        requires { IsLive (shape self.old) (words self.old) at }
        ensures anchor { result.anchor ≡ anchor_at (shape self.old) (words self.old) at }
        ensures previous { result.previous ≡ previous_at (shape self.old) (words self.old) at }
        ensures next { result.next ≡ next_at (shape self.old) (words self.old) at }
        ensures steps { steps.new ≡ steps.old + 1 }
        ensures read { rows_read self.new ≡ rows_read self.old + 1 }
        ensures words { words self.new ≡ words self.old }
        ensures shape { shape self.new ≡ shape self.old }
        ensures stays { stays self.old self.new };

    /// The leaf before a live one as number + 1, or 0. No more of its row is read. It ticks one step.
    fn previous<L: Ledger>(&mut self, at: u32, steps: &mut Steps<L>) -> u32
        requires { IsLive (shape self.old) (words self.old) at }
        ensures value { result ≡ previous_at (shape self.old) (words self.old) at }
        ensures steps { steps.new ≡ steps.old + 1 }
        ensures read { rows_read self.new ≡ rows_read self.old + 1 }
        ensures words { words self.new ≡ words self.old }
        ensures shape { shape self.new ≡ shape self.old }
        ensures stays { stays self.old self.new };

    ghost ranges: { (a : Self) → IsShape (shape a) };

    // There are as many words as the shape says.
    ghost sized: { (a : Self) → length (words a) ≡ word_count (shape a) };

    ghost stays_refl: { (a : Self) → stays a a };

    ghost stays_trans: { (a b c : Self) → stays a b → stays b c → stays a c };
}

/// What a writer has too: the words one by one.
pub trait RowsMut: Rows {
    /// The numbers by which the words are laid out.
    fn layout(&self) -> Shape
        ensures { result ≡ Self.shape self.now };

    /// The word at a place.
    fn word(&mut self, i: u32) -> u64
        requires { i < word_count (Self.shape self.old) }
        ensures value { result ≡ slice_index (Self.words self.old) i }
        ensures words { Self.words self.new ≡ Self.words self.old }
        ensures shape { Self.shape self.new ≡ Self.shape self.old }
        ensures stays { Self.stays self.old self.new };

    /// Writes the word at a place.
    fn set_word(&mut self, i: u32, word: u64)
        requires { i < word_count (Self.shape self.old) }
        ensures words { Self.words self.new ≡ slice_set (Self.words self.old) i word }
        ensures shape { Self.shape self.new ≡ Self.shape self.old }
        ensures stays { Self.stays self.old self.new };
}
