//! Words that can be read, wherever they lie.

ghost use Rattle.std.specs.Prelude.{◌≡◌, ◌≢◌, ◌<◌, ◌≤◌, ◌+◌, ◌*◌, ◌/◌, ◌^◌, ◌%◌, ◌↔◌, ℕ, IsTrue, length, slice_index};
ghost use Rattle.row_words.specs.Bytes.{bytes_from};
ghost use Rattle.row_words.specs.Layout.{leaf_word};

use crate::anchor_words::{whole_four, whole_word};
use crate::layout::{
    BYTES_PART, ITEM_WORDS, LEAF_WORDS, LINK_PART, LONGEST_ANCHOR, PREVIOUS_PART, SIDES_PART, UPPER,
};

/// Leaf rows whose words can be read. No call changes a word, and each tells what `stays`.
///
/// These reads tick no step, so they aren't for readers of rows, who count what they take: a reader
/// has [`crate::Rows`] alone. They are what a table offers to [`crate::leaf_words`] and
/// [`crate::probe_words`], which tick for it.
pub trait LeafParts {
    ghost use Rattle.std.specs.Prelude.{List, ℕ, ◌≡◌, ◌≢◌, ◌<◌, ◌+◌, slice_index};
    ghost use Rattle.row_words.specs.declared.shape.Shape.{Shape};
    ghost use Rattle.row_words.specs.Layout.{leaf_word};

    ghost shape: { Self → Shape };

    ghost words: { Self → List ℕ };

    // How many rows were read.
    ghost rows_read: { Self → ℕ };

    // What each call leaves as it is beside the words, the shape and the number of rows read.
    ghost stays: { Self → Self → Type 0 };

    /// A word of a leaf's row, but not that of the leaf before it.
    fn leaf_part(&mut self, leaf: u32, word: u32) -> u64
        requires leaf { leaf < (shape self.old).leaves }
        requires word { word < LEAF_WORDS }
        requires inner { word ≢ PREVIOUS_PART }
        ensures value { result ≡ slice_index (words self.old) (leaf_word (shape self.old) leaf + word) }
        ensures read { rows_read self.new ≡ rows_read self.old }
        ensures words { words self.new ≡ words self.old }
        ensures shape { shape self.new ≡ shape self.old }
        ensures stays { stays self.old self.new };

    /// The word of a leaf's row that names the leaf before it. By this word the row counts as read.
    fn leaf_before(&mut self, leaf: u32) -> u64
        requires { leaf < (shape self.old).leaves }
        ensures value { result ≡ slice_index (words self.old) (leaf_word (shape self.old) leaf + PREVIOUS_PART) }
        ensures read { rows_read self.new ≡ rows_read self.old + 1 }
        ensures words { words self.new ≡ words self.old }
        ensures shape { shape self.new ≡ shape self.old }
        ensures stays { stays self.old self.new };

    ghost stays_refl: { (a : Self) → stays a a };

    ghost stays_trans: { (a b c : Self) → stays a b → stays b c → stays a c };
}

/// Items and leaf rows whose words can be read. Who has them has the two looks of a reader of rows:
/// [`crate::probe_words`] and [`crate::leaf_words`]. Words are named by their row, so that a table whose
/// items and leaf rows lie apart needn't find out which it is, and those that are always read together
/// are read by one call. No call changes a word, and each tells what `stays`.
///
/// As with [`LeafParts`], no read ticks a step, so this isn't for readers of rows: it is for the
/// implementor of [`crate::Rows`].
pub trait Words: LeafParts {
    ghost use Rattle.std.specs.Prelude.{[], ◌∷◌, ◌≡◌, ◌≢◌, ◌<◌, ◌+◌, ◌↔◌, IsTrue, length, slice_index};
    ghost use Rattle.row_words.specs.Bytes.{bytes_from};
    ghost use Rattle.row_words.specs.Layout.{item_word, leaf_word};
    ghost use Rattle.row_words.specs.Decode.{item_at};

    /// The first three words of the item at a place: those of its hash, of its link and length, and of
    /// its leaves. By the first one the row counts as read.
    fn item_head(&mut self, at: u32) -> [u64; 3]
        requires { at < (Self.shape self.old).items }
        ensures value { result ≡ slice_index (Self.words self.old) (item_word (Self.shape self.old) at) ∷ slice_index (Self.words self.old) (item_word (Self.shape self.old) at + LINK_PART) ∷ slice_index (Self.words self.old) (item_word (Self.shape self.old) at + SIDES_PART) ∷ [] }
        ensures read { Self.rows_read self.new ≡ Self.rows_read self.old + 1 }
        ensures words { Self.words self.new ≡ Self.words self.old }
        ensures shape { Self.shape self.new ≡ Self.shape self.old }
        ensures stays { Self.stays self.old self.new };

    /// A word of the item at a place, but not the first one.
    fn item_part(&mut self, at: u32, word: u32) -> u64
        requires at { at < (Self.shape self.old).items }
        requires word { word < ITEM_WORDS }
        requires inner { word ≢ 0 }
        ensures value { result ≡ slice_index (Self.words self.old) (item_word (Self.shape self.old) at + word) }
        ensures read { Self.rows_read self.new ≡ Self.rows_read self.old }
        ensures words { Self.words self.new ≡ Self.words self.old }
        ensures shape { Self.shape self.new ≡ Self.shape self.old }
        ensures stays { Self.stays self.old self.new };

    /// The four words of the item at a place that say which bytes may follow.
    fn item_bits(&mut self, at: u32) -> [u64; 4]
        requires { at < (Self.shape self.old).items }
        ensures value { result ≡ (item_at (Self.shape self.old) (Self.words self.old) at).bits }
        ensures read { Self.rows_read self.new ≡ Self.rows_read self.old }
        ensures words { Self.words self.new ≡ Self.words self.old }
        ensures shape { Self.shape self.new ≡ Self.shape self.old }
        ensures stays { Self.stays self.old self.new };

    /// Whether the bytes of a leaf's row begin with these. [`begins`] answers it by a call for each word.
    fn leaf_begins(&mut self, leaf: u32, bytes: &[u8]) -> bool
        requires leaf { leaf < (Self.shape self.old).leaves }
        requires short { length bytes.now < LONGEST_ANCHOR + 1 }
        ensures value { IsTrue result ↔ (bytes_from (Self.words self.old) (leaf_word (Self.shape self.old) leaf + BYTES_PART) (length bytes.now) ≡ bytes.now) }
        ensures read { Self.rows_read self.new ≡ Self.rows_read self.old }
        ensures words { Self.words self.new ≡ Self.words self.old }
        ensures shape { Self.shape self.new ≡ Self.shape self.old }
        ensures stays { Self.stays self.old self.new };
}

/// Whether the bytes of a leaf's row begin with these, by one call for each word. Eight bytes are
/// compared at a time, as one word.
pub fn begins<W: LeafParts>(words: &mut W, leaf: u32, bytes: &[u8]) -> bool
    requires leaf { leaf < (W.shape words.old).leaves }
    requires short { length bytes.now < LONGEST_ANCHOR + 1 }
    ensures value { IsTrue result ↔ (bytes_from (W.words words.old) (leaf_word (W.shape words.old) leaf + BYTES_PART) (length bytes.now) ≡ bytes.now) }
    ensures read { W.rows_read words.new ≡ W.rows_read words.old }
    ensures words { W.words words.new ≡ W.words words.old }
    ensures shape { W.shape words.new ≡ W.shape words.old }
    ensures stays { W.stays words.old words.new }
{
    let whole = bytes.len() / 8;
    for i in 0..whole {
        if words.leaf_part(leaf, BYTES_PART + i as u32) != whole_word(bytes, 8 * i) {
            return false;
        }
    }
    let last = words.leaf_part(leaf, BYTES_PART + whole as u32);
    word_begins(last, &bytes[8 * whole..])
}

/// Whether the bytes of some words begin with these, which end within the last of the words. Eight bytes
/// are compared at a time, as one word.
pub(crate) fn words_begin(words: &[u64], bytes: &[u8]) -> bool
    requires { length words.now ≡ length bytes.now / 8 + 1 }
    ensures { IsTrue result ↔ (bytes_from words.now 0 (length bytes.now) ≡ bytes.now) }
{
    let whole = bytes.len() / 8;
    for i in 0..whole {
        if words[i] != whole_word(bytes, 8 * i) {
            return false;
        }
    }
    word_begins(words[whole], &bytes[8 * whole..])
}

/// Whether the bytes of a word begin with these, which are fewer. Four or two of them are compared at a
/// time, and the second look may have bytes of the first again.
fn word_begins(word: u64, bytes: &[u8]) -> bool
    requires { length bytes.now < 8 }
    ensures { IsTrue result ↔ ((j : ℕ) → j < length bytes.now → word / 2 ^ (8 * j) % 256 ≡ slice_index bytes.now j) }
{
    let len = bytes.len();
    if len >= 4 {
        return four_are(word, bytes, 0) && four_are(word, bytes, len - 4);
    }
    if len >= 2 {
        return two_are(word, bytes, 0) && two_are(word, bytes, len - 2);
    }
    len == 0 || (word % 256) as u8 == bytes[0]
}

/// Whether four bytes from a place on are those at the same places of a word.
fn four_are(word: u64, bytes: &[u8], from: usize) -> bool
    requires within { from + 4 ≤ length bytes.now }
    requires short { length bytes.now < 8 }
    ensures { IsTrue result ↔ ((j : ℕ) → j < 4 → word / 2 ^ (8 * (from + j)) % 256 ≡ slice_index bytes.now (from + j)) }
{
    let part = (word >> (8 * from as u32)) % UPPER;
    part as u32 == whole_four(bytes, from)
}

/// Whether two bytes from a place on are those at the same places of a word.
fn two_are(word: u64, bytes: &[u8], from: usize) -> bool
    requires within { from + 2 ≤ length bytes.now }
    requires short { length bytes.now < 8 }
    ensures { IsTrue result ↔ ((j : ℕ) → j < 2 → word / 2 ^ (8 * (from + j)) % 256 ≡ slice_index bytes.now (from + j)) }
{
    let part = (word >> (8 * from as u32)) % 65_536;
    part as u32 == bytes[from] as u32 + bytes[from + 1] as u32 * 256
}
