//! Writing the row of a leaf.

ghost use Rattle.std.specs.Prelude.{◌≡◌, ◌≢◌, ◌<◌, ◌≤◌, ◌+◌, ◌/◌, length};
ghost use Rattle.row_words.specs.Layout.{leaf_word};
ghost use Rattle.meta_trie.specs.Words.{RowPut, RowWords, LinkSet, PreviousSet, RowAdded};

use crate::puts::put;
use row_words::layout::{
    ANCHOR_WORDS, BYTES_PART, LEAF_WORDS, LONGEST_ANCHOR, MARK_PART, NEXT_PART, PREVIOUS_PART,
};
use row_words::{RowsMut, packed_word};

/// Writes the row of a leaf: its anchor, and its neighbours as number + 1 or 0.
pub(crate) fn put_row<R: RowsMut>(rows: &mut R, leaf: u32, anchor: &[u8], previous: u32, next: u32)
    requires leaf { leaf < (R.shape rows.old).leaves }
    requires short { length anchor.now < LONGEST_ANCHOR + 1 }
    ensures words { RowPut (R.shape rows.old) (R.words rows.old) (R.words rows.new) leaf anchor.now previous next }
    ensures shape { R.shape rows.new ≡ R.shape rows.old }
    ensures stays { R.stays rows.old rows.new }
{
    let row = rows.layout().leaf_word(leaf);
    let values = row_values(anchor, previous, next);
    put(rows, row, &values);
}

/// The words of a leaf's row.
fn row_values(anchor: &[u8], previous: u32, next: u32) -> [u64; LEAF_WORDS as usize]
    requires { length anchor.now < LONGEST_ANCHOR + 1 }
    ensures { RowWords result anchor.now previous next }
{
    let mut values = [0; LEAF_WORDS as usize];
    for i in 0..ANCHOR_WORDS {
        values[i + BYTES_PART as usize] = packed_word(anchor, i);
    }
    values[MARK_PART as usize] = anchor.len() as u64 + 1;
    values[PREVIOUS_PART as usize] = previous as u64;
    values[NEXT_PART as usize] = next as u64;
    values
}

/// Links the row of a leaf, in one of its two links, to a leaf as number + 1 or 0.
pub(crate) fn set_link<R: RowsMut>(rows: &mut R, leaf: u32, o: u32, link: u64)
    requires leaf { leaf < (R.shape rows.old).leaves }
    requires o { o < LEAF_WORDS }
    ensures words { LinkSet (R.shape rows.old) (R.words rows.old) (R.words rows.new) leaf o link }
    ensures shape { R.shape rows.new ≡ R.shape rows.old }
    ensures stays { R.stays rows.old rows.new }
{
    let row = rows.layout().leaf_word(leaf);
    rows.set_word(row + o, link);
}

/// Sets the link back in the row that `next` names, if it names one.
pub(crate) fn set_previous<R: RowsMut>(rows: &mut R, next: u32, link: u64)
    requires { next ≤ (R.shape rows.old).leaves }
    ensures words { PreviousSet (R.shape rows.old) (R.words rows.old) (R.words rows.new) next link }
    ensures shape { R.shape rows.new ≡ R.shape rows.old }
    ensures stays { R.stays rows.old rows.new }
{
    if next == 0 {
        return;
    }
    set_link(rows, next - 1, PREVIOUS_PART, link);
}

/// Puts the row of a new leaf behind that of `left`, before the one that `next` names.
pub(crate) fn add_row<R: RowsMut>(rows: &mut R, left: u32, anchor: &[u8], leaf: u32, next: u32)
    requires left { left < (R.shape rows.old).leaves }
    requires leaf { leaf < (R.shape rows.old).leaves }
    requires next { next ≤ (R.shape rows.old).leaves }
    requires short { length anchor.now < LONGEST_ANCHOR + 1 }
    requires apart { left ≢ leaf }
    requires behind { next ≢ leaf + 1 }
    ensures words { RowAdded (R.shape rows.old) (R.words rows.old) (R.words rows.new) left leaf anchor.now next }
    ensures shape { R.shape rows.new ≡ R.shape rows.old }
    ensures stays { R.stays rows.old rows.new }
{
    put_row(rows, leaf, anchor, left + 1, next);
    set_link(rows, left, NEXT_PART, leaf as u64 + 1);
    set_previous(rows, next, leaf as u64 + 1);
}
