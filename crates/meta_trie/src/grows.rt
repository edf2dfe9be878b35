//! Putting the prefixes of a new anchor into the trie.

ghost use Rattle.std.specs.Prelude.{◌≡◌, ◌<◌, ◌≤◌, ◌+◌, ◌/◌, ◌%◌, ◌==◌, ◌||◌, ◌++◌, ◌∷◌, [], ℕ, List, Option, length, take, max, if◌then◌else◌};
ghost use Rattle.key_bytes.specs.Common.{lcp};
ghost use Rattle.key_bytes.specs.Fnv.{prefix_hash};
ghost use Rattle.anchor_rules.specs.Anchors.{Anchors};
ghost use Rattle.anchor_rules.specs.Items.{Item, begins};
ghost use Rattle.meta_trie.specs.Trie.{Says, bit_of};
ghost use Rattle.meta_trie.specs.Words.{SameRest};
ghost use Rattle.meta_trie.specs.Grows.{Grows, Growing, IsGrowing, grown_by, back_count};

use crate::changes::change_item;
use crate::finds::find;
use crate::links::link_item;
use key_bytes::Fnv;
use row_words::layout::LONGEST_ANCHOR;
use row_words::{ItemRow, RowsMut};
use std::sync::ledger::Ledger;
use steps::Steps;

/// A bitmap with byte `c`.
fn with_bit(bits: [u64; 4], c: u8) -> [u64; 4]
    ensures { (e : ℕ) → e < 256 → bit_of result e ≡ (bit_of bits e || (e == c)) }
{
    let mut bits = bits;
    let word = (c / 64) as usize;
    bits[word] |= 1 << (c % 64);
    bits
}

/// A bitmap with the byte of `anchor` behind its first `n`, if there is one.
fn with_child(bits: [u64; 4], anchor: &[u8], n: usize) -> [u64; 4]
    requires { n ≤ length anchor.now }
    ensures { (c : ℕ) → c < 256 → bit_of result c ≡ (bit_of bits c || begins (take n anchor.now ++ c ∷ []) anchor.now) }
{
    if n == anchor.len() {
        return bits;
    }
    with_bit(bits, anchor[n])
}

fn either(a: bool, b: bool) -> bool
    ensures { result ≡ (a || b) }
{
    a || b
}

pub(crate) fn kept_or(keeps: bool, kept: u32, other: u32) -> u32
    ensures { result ≡ (if keeps then kept else other) }
{
    if keeps { kept } else { other }
}

/// The item of the first `n` bytes of an anchor, with that anchor's leaf for each side that isn't
/// kept.
fn grown_row(
    item: &ItemRow,
    anchor: &[u8],
    n: usize,
    leaf: u32,
    keeps_first: bool,
    keeps_last: bool,
) -> ItemRow
    requires within { n ≤ length anchor.now }
    requires short { length anchor.now < LONGEST_ANCHOR + 1 }
    ensures next { result.next ≡ item.now.next }
    ensures len { result.len ≡ n }
    ensures says { (it : Item) → Says item.now it → Says result (grown_by (take n anchor.now) anchor.now leaf keeps_first keeps_last it) }
{
    ItemRow {
        next: item.next,
        len: n as u32,
        is_anchor: either(item.is_anchor, n == anchor.len()),
        leftmost: kept_or(keeps_first, item.leftmost, leaf),
        rightmost: kept_or(keeps_last, item.rightmost, leaf),
        bits: with_child(item.bits, anchor, n),
    }
}

/// Writes the item of the first `n` bytes anew, where a neighbour has them too.
fn grow_known<R: RowsMut, L: Ledger>(
    rows: &mut R,
    anchor: &[u8],
    n: usize,
    hash: u64,
    leaf: u32,
    front: usize,
    back: usize,
    steps: &mut Steps<L>,
)
    requires state { IsGrowing (R.shape rows.old) (R.words rows.old) anchor.now leaf n front back }
    requires hash { hash ≡ prefix_hash (R.shape rows.old).salt (take n anchor.now) }
    requires within { n ≤ length anchor.now }
    requires known { n < max front back }
    ensures grown { (A : Anchors) (left : ℕ) (lo : List ℕ) (hi : Option (List ℕ)) → Grows A left lo hi anchor.now → front ≡ lcp lo anchor.now + 1 → back ≡ back_count anchor.now hi → Growing (R.shape rows.old) (R.words rows.old) A left lo hi anchor.now leaf n → Growing (R.shape rows.old) (R.words rows.new) A left lo hi anchor.now leaf (n + 1) }
    ensures rest { SameRest (R.shape rows.old) (R.words rows.old) (R.words rows.new) }
    ensures shape { R.shape rows.new ≡ R.shape rows.old }
    ensures stays { R.stays rows.old rows.new }
{
    let Some(found) = find(rows, &anchor[..n], hash, steps) else {
        unreachable!();
    };
    let row = grown_row(&found.item, anchor, n, leaf, n < front, n < back);
    change_item(rows, found.at, &row);
}

/// Writes a new item for the first `n` bytes, where no neighbour has them.
fn grow_fresh<R: RowsMut>(
    rows: &mut R,
    anchor: &[u8],
    n: usize,
    hash: u64,
    leaf: u32,
    front: usize,
    back: usize,
)
    requires state { IsGrowing (R.shape rows.old) (R.words rows.old) anchor.now leaf n front back }
    requires hash { hash ≡ prefix_hash (R.shape rows.old).salt (take n anchor.now) }
    requires within { n ≤ length anchor.now }
    requires fresh { max front back ≤ n }
    ensures grown { (A : Anchors) (left : ℕ) (lo : List ℕ) (hi : Option (List ℕ)) → Grows A left lo hi anchor.now → front ≡ lcp lo anchor.now + 1 → back ≡ back_count anchor.now hi → Growing (R.shape rows.old) (R.words rows.old) A left lo hi anchor.now leaf n → Growing (R.shape rows.old) (R.words rows.new) A left lo hi anchor.now leaf (n + 1) }
    ensures rest { SameRest (R.shape rows.old) (R.words rows.old) (R.words rows.new) }
    ensures shape { R.shape rows.new ≡ R.shape rows.old }
    ensures stays { R.stays rows.old rows.new }
{
    let blank = ItemRow {
        next: 0,
        len: 0,
        is_anchor: false,
        leftmost: leaf,
        rightmost: leaf,
        bits: [0; 4],
    };
    let row = grown_row(&blank, anchor, n, leaf, true, true);
    link_item(rows, &anchor[..n], hash, &row);
}

/// Writes the item of the first `n` bytes, where the new anchor changes it. It doesn't where both
/// neighbours have them, and one has the next byte too: the item's first leaf and its last one stay,
/// and its bitmap has that byte. It isn't even read then.
fn grow_item<R: RowsMut, L: Ledger>(
    rows: &mut R,
    anchor: &[u8],
    n: usize,
    hash: u64,
    leaf: u32,
    front: usize,
    back: usize,
    steps: &mut Steps<L>,
)
    requires state { IsGrowing (R.shape rows.old) (R.words rows.old) anchor.now leaf n front back }
    requires hash { hash ≡ prefix_hash (R.shape rows.old).salt (take n anchor.now) }
    requires within { n ≤ length anchor.now }
    ensures grown { (A : Anchors) (left : ℕ) (lo : List ℕ) (hi : Option (List ℕ)) → Grows A left lo hi anchor.now → front ≡ lcp lo anchor.now + 1 → back ≡ back_count anchor.now hi → Growing (R.shape rows.old) (R.words rows.old) A left lo hi anchor.now leaf n → Growing (R.shape rows.old) (R.words rows.new) A left lo hi anchor.now leaf (n + 1) }
    ensures rest { SameRest (R.shape rows.old) (R.words rows.old) (R.words rows.new) }
    ensures shape { R.shape rows.new ≡ R.shape rows.old }
    ensures stays { R.stays rows.old rows.new }
{
    if n < front.min(back) && n + 1 < front.max(back) {
        return;
    }
    if n < front.max(back) {
        grow_known(rows, anchor, n, hash, leaf, front, back, steps);
        return;
    }
    grow_fresh(rows, anchor, n, hash, leaf, front, back);
}

/// Writes the items of all prefixes of a new anchor that it changes, from the shortest on. `front`
/// of the prefixes are those of the anchor before it too, and `back` those of the one behind it.
pub(crate) fn grow<R: RowsMut, L: Ledger>(
    rows: &mut R,
    anchor: &[u8],
    leaf: u32,
    front: usize,
    back: usize,
    steps: &mut Steps<L>,
)
    requires { IsGrowing (R.shape rows.old) (R.words rows.old) anchor.now leaf 0 front back }
    ensures grown { (A : Anchors) (left : ℕ) (lo : List ℕ) (hi : Option (List ℕ)) → Grows A left lo hi anchor.now → front ≡ lcp lo anchor.now + 1 → back ≡ back_count anchor.now hi → Growing (R.shape rows.old) (R.words rows.old) A left lo hi anchor.now leaf 0 → Growing (R.shape rows.old) (R.words rows.new) A left lo hi anchor.now leaf (length anchor.now + 1) }
    ensures rest { SameRest (R.shape rows.old) (R.words rows.old) (R.words rows.new) }
    ensures shape { R.shape rows.new ≡ R.shape rows.old }
    ensures stays { R.stays rows.old rows.new }
{
    let mut hash = Fnv::start(rows.salt());
    for n in 0..anchor.len() {
        grow_item(rows, anchor, n, hash, leaf, front, back, steps);
        hash = Fnv::step(hash, anchor[n]);
    }
    grow_item(rows, anchor, anchor.len(), hash, leaf, front, back, steps);
}
