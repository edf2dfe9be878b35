//! Adding an anchor.

ghost use Rattle.std.specs.Prelude.{◌≡◌, ◌≢◌, ◌<◌, ◌≤◌, ◌+◌, ◌-◌, ℕ, List, Option, Some, true, length, max, OnOk, OnErr, IfErr, slice_index};
ghost use Rattle.key_bytes.specs.Common.{lcp};
ghost use Rattle.key_bytes.specs.Lengths.{IsKey};
ghost use Rattle.anchor_rules.specs.Anchors.{Anchors, span, splits, with_split};
ghost use Rattle.row_words.specs.Decode.{next_at, IsLive};
ghost use Rattle.meta_trie.specs.Stands.{StandsFor, IsTable, CanSplit, ShareNext, FitsSplit, AreItemsFull, prefix_count};
ghost use Rattle.meta_trie.specs.Words.{RowLaid};
ghost use Rattle.meta_trie.specs.Grows.{back_count};

use crate::grows::grow;
use crate::leaf_rows::add_row;
use crate::removes::anchor_bytes;
use key_bytes::Key;
use map_model::TableFull;
use row_words::layout::{LIVE_WORD, LONGEST_ANCHOR, LONGEST_WORD, UPPER, USED_WORD};
use row_words::{AnchorWords, Rows, RowsMut};
use std::marker::Brand;
use std::sync::ledger::{Blank, Ledger};
use steps::Steps;

/// Adds an anchor with a new leaf behind that of `left`. Where the prefixes of the anchor that have
/// no item yet are more than the free items, nothing is changed. It takes no memory, and looks up
/// and writes at most one item for each prefix of the anchor, from the empty one to the whole: none
/// for a prefix that both neighbours have, and one of them with its next byte too.
pub fn add_anchor<R: RowsMut>(
    rows: &mut R,
    left: u32,
    anchor: &Key,
    leaf: u32,
) -> Result<(), TableFull>
    requires table { CanSplit (R.shape rows.old) (R.words rows.old) left anchor.now leaf }
    requires leaf { leaf < (R.shape rows.old).leaves }
    ensures ok { OnOk result ((A : Anchors) → StandsFor (R.shape rows.old) (R.words rows.old) A → StandsFor (R.shape rows.old) (R.words rows.new) (with_split A left anchor.now leaf)) }
    ensures room { OnOk result ((A : Anchors) → StandsFor (R.shape rows.old) (R.words rows.old) A → FitsSplit (R.shape rows.old) A left anchor.now) }
    ensures full { IfErr result (λ full. (A : Anchors) → StandsFor (R.shape rows.old) (R.words rows.old) A → AreItemsFull (R.shape rows.old) A left anchor.now full) }
    ensures unchanged { OnErr result (R.words rows.new ≡ R.words rows.old) }
    ensures shape { R.shape rows.new ≡ R.shape rows.old }
    ensures stays { R.stays rows.old rows.new }
{
    add_counting::<R, Brand>(rows, left, anchor.bytes(), leaf, Blank::new(1))
}

/// [`add_anchor`] for an anchor that lies in words, as in a row of another table. It takes no memory
/// either.
pub fn add_anchor_words<R: RowsMut>(
    rows: &mut R,
    left: u32,
    anchor: &AnchorWords,
    leaf: u32,
) -> Result<(), TableFull>
    requires key { IsKey anchor.now }
    requires table { CanSplit (R.shape rows.old) (R.words rows.old) left anchor.now leaf }
    requires leaf { leaf < (R.shape rows.old).leaves }
    ensures ok { OnOk result ((A : Anchors) → StandsFor (R.shape rows.old) (R.words rows.old) A → StandsFor (R.shape rows.old) (R.words rows.new) (with_split A left anchor.now leaf)) }
    ensures room { OnOk result ((A : Anchors) → StandsFor (R.shape rows.old) (R.words rows.old) A → FitsSplit (R.shape rows.old) A left anchor.now) }
    ensures full { IfErr result (λ full. (A : Anchors) → StandsFor (R.shape rows.old) (R.words rows.old) A → AreItemsFull (R.shape rows.old) A left anchor.now full) }
    ensures unchanged { OnErr result (R.words rows.new ≡ R.words rows.old) }
    ensures shape { R.shape rows.new ≡ R.shape rows.old }
    ensures stays { R.stays rows.old rows.new }
{
    let bytes = anchor_bytes(anchor);
    let anchor = &bytes[..anchor.len()];
    add_counting::<R, Brand>(rows, left, anchor, leaf, Blank::new(1))
}

/// [`add_anchor`], with a counter for the steps of its looks.
pub(crate) fn add_counting<R: RowsMut, L: Ledger>(
    rows: &mut R,
    left: u32,
    anchor: &[u8],
    leaf: u32,
    blank: Blank,
) -> Result<(), TableFull>
    requires name { blank.name ≡ L.name }
    requires parts { blank.parts ≡ L.parts }
    requires some { 0 < blank.parts }
    requires key { IsKey anchor.now }
    requires table { IsTable (R.shape rows.old) (R.words rows.old) }
    requires leaf { leaf < (R.shape rows.old).leaves }
    requires splits { (A : Anchors) → StandsFor (R.shape rows.old) (R.words rows.old) A → splits A left anchor.now leaf ≡ true }
    ensures ok { OnOk result ((A : Anchors) → StandsFor (R.shape rows.old) (R.words rows.old) A → StandsFor (R.shape rows.old) (R.words rows.new) (with_split A left anchor.now leaf)) }
    ensures room { OnOk result ((A : Anchors) → StandsFor (R.shape rows.old) (R.words rows.old) A → FitsSplit (R.shape rows.old) A left anchor.now) }
    ensures full { IfErr result (λ full. (A : Anchors) → StandsFor (R.shape rows.old) (R.words rows.old) A → AreItemsFull (R.shape rows.old) A left anchor.now full) }
    ensures unchanged { OnErr result (R.words rows.new ≡ R.words rows.old) }
    ensures shape { R.shape rows.new ≡ R.shape rows.old }
    ensures stays { R.stays rows.old rows.new }
{
    let mut steps = Steps::<L>::new(blank);
    let row = rows.leaf(left, &mut steps);
    let front = share_count(&row.anchor, anchor);
    let back = share_next(rows, row.next, anchor, &mut steps);
    let needed = (anchor.len() + 1 - front.max(back)) as u32;
    let free = free_count(rows);
    if needed > free {
        return Err(TableFull::Items { needed, free });
    }
    add_checked(rows, left, anchor, leaf, row.next, front, back, &mut steps);
    Ok(())
}

/// How many prefixes of the bytes are prefixes of the anchor too.
fn share_count(anchor: &AnchorWords, bytes: &[u8]) -> usize
    ensures { result ≡ lcp anchor.now bytes.now + 1 }
{
    let mut i = 0;
    'same: while i < anchor.len() && i < bytes.len() && anchor.byte(i) == bytes[i] {
        i += 1;
    }
    i + 1
}

/// How many prefixes of the bytes are prefixes of the anchor of the leaf that `next` names, if it
/// names one.
pub(crate) fn share_next<R: Rows, L: Ledger>(
    rows: &mut R,
    next: u32,
    bytes: &[u8],
    steps: &mut Steps<L>,
) -> usize
    requires { (r : ℕ) → next ≡ r + 1 → IsLive (R.shape rows.old) (R.words rows.old) r }
    ensures count { ShareNext (R.shape rows.old) (R.words rows.old) next bytes.now result }
    ensures words { R.words rows.new ≡ R.words rows.old }
    ensures shape { R.shape rows.new ≡ R.shape rows.old }
    ensures stays { R.stays rows.old rows.new }
{
    if next == 0 {
        return 0;
    }
    let row = rows.leaf(next - 1, steps);
    share_count(&row.anchor, bytes)
}

/// How many items are free.
fn free_count<R: RowsMut>(rows: &mut R) -> u32
    requires { IsTable (R.shape rows.old) (R.words rows.old) }
    ensures count { (A : Anchors) → StandsFor (R.shape rows.old) (R.words rows.old) A → result + prefix_count A ≡ (R.shape rows.old).items }
    ensures words { R.words rows.new ≡ R.words rows.old }
    ensures shape { R.shape rows.new ≡ R.shape rows.old }
    ensures stays { R.stays rows.old rows.new }
{
    let items = rows.layout().items;
    items - rows.word(USED_WORD) as u32
}

/// Puts the row of a new leaf in, and counts it in the header.
fn lay_row<R: RowsMut>(rows: &mut R, left: u32, anchor: &[u8], leaf: u32, next: u32)
    requires left { left < (R.shape rows.old).leaves }
    requires leaf { leaf < (R.shape rows.old).leaves }
    requires next { next ≤ (R.shape rows.old).leaves }
    requires short { length anchor.now < LONGEST_ANCHOR + 1 }
    requires apart { left ≢ leaf }
    requires behind { next ≢ leaf + 1 }
    requires few { slice_index (R.words rows.old) LIVE_WORD < UPPER }
    ensures words { RowLaid (R.shape rows.old) (R.words rows.old) (R.words rows.new) left leaf anchor.now next }
    ensures shape { R.shape rows.new ≡ R.shape rows.old }
    ensures stays { R.stays rows.old rows.new }
{
    let longest = rows.word(LONGEST_WORD);
    let live = rows.word(LIVE_WORD);
    add_row(rows, left, anchor, leaf, next);
    rows.set_word(LONGEST_WORD, longest.max(anchor.len() as u64));
    rows.set_word(LIVE_WORD, live + 1);
}

/// Adds an anchor for which there is room.
fn add_checked<R: RowsMut, L: Ledger>(
    rows: &mut R,
    left: u32,
    anchor: &[u8],
    leaf: u32,
    next: u32,
    front: usize,
    back: usize,
    steps: &mut Steps<L>,
)
    requires key { IsKey anchor.now }
    requires table { IsTable (R.shape rows.old) (R.words rows.old) }
    requires leaf { leaf < (R.shape rows.old).leaves }
    requires splits { (A : Anchors) → StandsFor (R.shape rows.old) (R.words rows.old) A → splits A left anchor.now leaf ≡ true }
    requires room { (A : Anchors) → StandsFor (R.shape rows.old) (R.words rows.old) A → FitsSplit (R.shape rows.old) A left anchor.now }
    requires next { next ≡ next_at (R.shape rows.old) (R.words rows.old) left }
    requires counts { (A : Anchors) (lo : List ℕ) (hi : Option (List ℕ)) → StandsFor (R.shape rows.old) (R.words rows.old) A → span A left ≡ Some (lo, hi) → (front ≡ lcp lo anchor.now + 1) × (back ≡ back_count anchor.now hi) }
    ensures added { (A : Anchors) → StandsFor (R.shape rows.old) (R.words rows.old) A → StandsFor (R.shape rows.old) (R.words rows.new) (with_split A left anchor.now leaf) }
    ensures shape { R.shape rows.new ≡ R.shape rows.old }
    ensures stays { R.stays rows.old rows.new }
{
    lay_row(rows, left, anchor, leaf, next);
    grow(rows, anchor, leaf, front, back, steps);
}
