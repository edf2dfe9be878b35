//! Removing an anchor.

ghost use Rattle.std.specs.Prelude.{◌≡◌, ◌<◌, ◌≤◌, ◌+◌, ◌-◌, ℕ, List, Option, length, take, slice_index, slice_set};
ghost use Rattle.anchor_rules.specs.Anchors.{Anchors, with_merge};
ghost use Rattle.row_words.specs.Decode.{next_at};
ghost use Rattle.meta_trie.specs.Stands.{StandsFor, IsTable};
ghost use Rattle.meta_trie.specs.Shrinks.{CanMerge, Shrinks, RowCut, RowDropped, IsTopMark, LongestSet};

use crate::adds::share_next;
use crate::leaf_rows::{set_link, set_previous};
use crate::shrinks::shrink;
use row_words::layout::{LIVE_WORD, LONGEST_ANCHOR, LONGEST_WORD, MARK_PART, NEXT_PART};
use row_words::{AnchorWords, RowsMut};
use std::marker::Brand;
use std::sync::ledger::{Blank, Ledger};
use steps::Steps;

/// Removes the anchor of a leaf that isn't the first one. The leaf's keys are then those of the
/// leaf before it. It takes no memory, and reads and writes one item for each byte of the anchor;
/// where no anchor was longer, it reads one word of each leaf's row too.
pub fn remove_anchor<R: RowsMut>(rows: &mut R, leaf: u32)
    requires { CanMerge (R.shape rows.old) (R.words rows.old) leaf }
    ensures removed { (A : Anchors) → StandsFor (R.shape rows.old) (R.words rows.old) A → StandsFor (R.shape rows.old) (R.words rows.new) (with_merge A leaf) }
    ensures shape { R.shape rows.new ≡ R.shape rows.old }
    ensures stays { R.stays rows.old rows.new }
{
    remove_counting::<R, Brand>(rows, leaf, Blank::new(1));
}

/// [`remove_anchor`], with a counter for the steps of its looks.
fn remove_counting<R: RowsMut, L: Ledger>(rows: &mut R, leaf: u32, blank: Blank)
    requires name { blank.name ≡ L.name }
    requires parts { blank.parts ≡ L.parts }
    requires some { 0 < blank.parts }
    requires table { CanMerge (R.shape rows.old) (R.words rows.old) leaf }
    ensures removed { (A : Anchors) → StandsFor (R.shape rows.old) (R.words rows.old) A → StandsFor (R.shape rows.old) (R.words rows.new) (with_merge A leaf) }
    ensures shape { R.shape rows.new ≡ R.shape rows.old }
    ensures stays { R.stays rows.old rows.new }
{
    let mut steps = Steps::<L>::new(blank);
    let row = rows.leaf(leaf, &mut steps);
    let bytes = anchor_bytes(&row.anchor);
    let anchor = &bytes[..row.anchor.len()];
    let front = share_next(rows, row.previous, anchor, &mut steps);
    let back = share_next(rows, row.next, anchor, &mut steps);
    remove_checked(
        rows,
        leaf,
        anchor,
        row.previous - 1,
        row.next,
        front,
        back,
        &mut steps,
    );
}

/// The bytes of an anchor, with zeros behind them.
pub(crate) fn anchor_bytes(anchor: &AnchorWords) -> [u8; LONGEST_ANCHOR]
    requires { length anchor.now < LONGEST_ANCHOR + 1 }
    ensures { take (length anchor.now) result ≡ anchor.now }
{
    let mut bytes = [0; LONGEST_ANCHOR];
    for i in 0..anchor.len() {
        bytes[i] = anchor.byte(i);
    }
    bytes
}

/// Removes an anchor between those of `left` and of the leaf that `next` names.
fn remove_checked<R: RowsMut, L: Ledger>(
    rows: &mut R,
    leaf: u32,
    anchor: &[u8],
    left: u32,
    next: u32,
    front: usize,
    back: usize,
    steps: &mut Steps<L>,
)
    requires table { IsTable (R.shape rows.old) (R.words rows.old) }
    requires next { next ≡ next_at (R.shape rows.old) (R.words rows.old) leaf }
    requires shrinks { (A : Anchors) → StandsFor (R.shape rows.old) (R.words rows.old) A → (lo : List ℕ) × ((hi : Option (List ℕ)) × Shrinks A leaf lo anchor.now hi left (next - 1) front back) }
    ensures removed { (A : Anchors) → StandsFor (R.shape rows.old) (R.words rows.old) A → StandsFor (R.shape rows.old) (R.words rows.new) (with_merge A leaf) }
    ensures shape { R.shape rows.new ≡ R.shape rows.old }
    ensures stays { R.stays rows.old rows.new }
{
    let after = next.saturating_sub(1);
    shrink(rows, anchor, left, after, front, back, steps);
    drop_row(rows, left, leaf, next, anchor.len());
}

/// Takes the row of a leaf out from behind that of `left`, before the one that `next` names.
fn cut_row<R: RowsMut>(rows: &mut R, left: u32, leaf: u32, next: u32)
    requires left { left < (R.shape rows.old).leaves }
    requires leaf { leaf < (R.shape rows.old).leaves }
    requires next { next ≤ (R.shape rows.old).leaves }
    ensures words { RowCut (R.shape rows.old) (R.words rows.old) (R.words rows.new) left leaf next }
    ensures shape { R.shape rows.new ≡ R.shape rows.old }
    ensures stays { R.stays rows.old rows.new }
{
    set_link(rows, left, NEXT_PART, next as u64);
    set_previous(rows, next, left as u64 + 1);
    set_link(rows, leaf, MARK_PART, 0);
}

/// The greatest mark, or 1 if that is more.
fn top_mark<R: RowsMut>(rows: &mut R) -> u64
    ensures top { IsTopMark (R.shape rows.old) (R.words rows.old) result }
    ensures words { R.words rows.new ≡ R.words rows.old }
    ensures shape { R.shape rows.new ≡ R.shape rows.old }
    ensures stays { R.stays rows.old rows.new }
{
    let shape = rows.layout();
    let mut top = 1;
    for leaf in 0..shape.leaves {
        let mark = rows.word(shape.leaf_word(leaf));
        if mark > top {
            top = mark;
        }
    }
    top
}

/// Sets the length of the longest anchor, where it was that of one that has gone.
fn set_longest<R: RowsMut>(rows: &mut R, len: usize)
    ensures words { LongestSet (R.shape rows.old) (R.words rows.old) (R.words rows.new) len }
    ensures shape { R.shape rows.new ≡ R.shape rows.old }
    ensures stays { R.stays rows.old rows.new }
{
    if rows.word(LONGEST_WORD) != len as u64 {
        return;
    }
    let top = top_mark(rows);
    rows.set_word(LONGEST_WORD, top - 1);
}

/// Counts one live leaf less.
fn count_out<R: RowsMut>(rows: &mut R)
    requires { 0 < slice_index (R.words rows.old) LIVE_WORD }
    ensures words { R.words rows.new ≡ slice_set (R.words rows.old) LIVE_WORD (slice_index (R.words rows.old) LIVE_WORD - 1) }
    ensures shape { R.shape rows.new ≡ R.shape rows.old }
    ensures stays { R.stays rows.old rows.new }
{
    let live = rows.word(LIVE_WORD);
    rows.set_word(LIVE_WORD, live - 1);
}

/// Takes the row of a leaf out, and counts it out of the header.
fn drop_row<R: RowsMut>(rows: &mut R, left: u32, leaf: u32, next: u32, len: usize)
    requires left { left < (R.shape rows.old).leaves }
    requires leaf { leaf < (R.shape rows.old).leaves }
    requires next { next ≤ (R.shape rows.old).leaves }
    requires live { 0 < slice_index (R.words rows.old) LIVE_WORD }
    ensures words { RowDropped (R.shape rows.old) (R.words rows.old) (R.words rows.new) left leaf next len }
    ensures shape { R.shape rows.new ≡ R.shape rows.old }
    ensures stays { R.stays rows.old rows.new }
{
    cut_row(rows, left, leaf, next);
    set_longest(rows, len);
    count_out(rows);
}
