//! Taking the prefixes of an anchor that goes out of the trie.

ghost use Rattle.std.specs.Prelude.{◌≡◌, ◌<◌, ◌≤◌, ◌+◌, ◌/◌, ◌%◌, ◌==◌, ◌&&◌, ◌||◌, ◌++◌, ◌∷◌, [], not, ℕ, List, Option, length, take, max};
ghost use Rattle.key_bytes.specs.Fnv.{prefix_hash};
ghost use Rattle.anchor_rules.specs.Anchors.{Anchors};
ghost use Rattle.anchor_rules.specs.Items.{Item, begins};
ghost use Rattle.meta_trie.specs.Trie.{Says, bit_of};
ghost use Rattle.meta_trie.specs.Words.{SameRest};
ghost use Rattle.meta_trie.specs.Shrinks.{Shrinks, Shrinking, IsShrinking, shrunk_by};

use crate::buckets::bucket_by_hash;
use crate::changes::change_item;
use crate::finds::find;
use crate::grows::kept_or;
use crate::unlinks::unlink_item;
use key_bytes::Fnv;
use row_words::layout::LONGEST_ANCHOR;
use row_words::{ItemRow, RowsMut};
use std::sync::ledger::Ledger;
use steps::Steps;

/// A bitmap without byte `c`.
fn without_bit(bits: [u64; 4], c: u8) -> [u64; 4]
    ensures { (e : ℕ) → e < 256 → bit_of result e ≡ (bit_of bits e && not (e == c)) }
{
    let mut bits = bits;
    let word = (c / 64) as usize;
    bits[word] &= !(1 << (c % 64));
    bits
}

/// A bitmap without the byte of `anchor` behind its first `n`, if there is one and it isn't kept.
fn without_child(bits: [u64; 4], anchor: &[u8], n: usize, keeps: bool) -> [u64; 4]
    requires { n ≤ length anchor.now }
    ensures { (c : ℕ) → c < 256 → bit_of result c ≡ (bit_of bits c && (keeps || not (begins (take n anchor.now ++ c ∷ []) anchor.now))) }
{
    if keeps {
        return bits;
    }
    if n == anchor.len() {
        return bits;
    }
    without_bit(bits, anchor[n])
}

fn unless(a: bool, b: bool) -> bool
    ensures { result ≡ (a && not b) }
{
    a && !b
}

/// The item of the first `n` bytes of an anchor that goes, with a neighbour's leaf for each side
/// that isn't kept.
fn shrunk_row(
    item: &ItemRow,
    anchor: &[u8],
    n: usize,
    left: u32,
    after: u32,
    keeps_first: bool,
    keeps_last: bool,
    keeps_child: bool,
) -> ItemRow
    requires within { n ≤ length anchor.now }
    requires short { length anchor.now < LONGEST_ANCHOR + 1 }
    ensures next { result.next ≡ item.now.next }
    ensures len { result.len ≡ n }
    ensures says { (it : Item) → Says item.now it → Says result (shrunk_by (take n anchor.now) anchor.now left after keeps_first keeps_last keeps_child it) }
{
    ItemRow {
        next: item.next,
        len: n as u32,
        is_anchor: unless(item.is_anchor, n == anchor.len()),
        leftmost: kept_or(keeps_first, item.leftmost, after),
        rightmost: kept_or(keeps_last, item.rightmost, left),
        bits: without_child(item.bits, anchor, n, keeps_child),
    }
}

/// Writes the item of the first `n` bytes anew, where a neighbour has them too.
fn shrink_kept<R: RowsMut, L: Ledger>(
    rows: &mut R,
    anchor: &[u8],
    n: usize,
    hash: u64,
    left: u32,
    after: u32,
    front: usize,
    back: usize,
    steps: &mut Steps<L>,
)
    requires state { IsShrinking (R.shape rows.old) (R.words rows.old) anchor.now left after n front back }
    requires hash { hash ≡ prefix_hash (R.shape rows.old).salt (take n anchor.now) }
    requires within { n ≤ length anchor.now }
    requires known { n < max front back }
    ensures shrunk { (A : Anchors) (leaf : ℕ) (lo : List ℕ) (hi : Option (List ℕ)) → Shrinks A leaf lo anchor.now hi left after front back → Shrinking (R.shape rows.old) (R.words rows.old) A leaf lo anchor.now hi n → Shrinking (R.shape rows.old) (R.words rows.new) A leaf lo anchor.now hi (n + 1) }
    ensures rest { SameRest (R.shape rows.old) (R.words rows.old) (R.words rows.new) }
    ensures shape { R.shape rows.new ≡ R.shape rows.old }
    ensures stays { R.stays rows.old rows.new }
{
    let Some(found) = find(rows, &anchor[..n], hash, steps) else {
        unreachable!();
    };
    let keeps_child = n + 1 < front.max(back);
    let row = shrunk_row(
        &found.item,
        anchor,
        n,
        left,
        after,
        n < front,
        n < back,
        keeps_child,
    );
    change_item(rows, found.at, &row);
}

/// Takes the item of the first `n` bytes out, where no neighbour has them.
fn shrink_gone<R: RowsMut, L: Ledger>(
    rows: &mut R,
    anchor: &[u8],
    n: usize,
    hash: u64,
    left: u32,
    after: u32,
    front: usize,
    back: usize,
    steps: &mut Steps<L>,
)
    requires state { IsShrinking (R.shape rows.old) (R.words rows.old) anchor.now left after n front back }
    requires hash { hash ≡ prefix_hash (R.shape rows.old).salt (take n anchor.now) }
    requires within { n ≤ length anchor.now }
    requires alone { max front back ≤ n }
    ensures shrunk { (A : Anchors) (leaf : ℕ) (lo : List ℕ) (hi : Option (List ℕ)) → Shrinks A leaf lo anchor.now hi left after front back → Shrinking (R.shape rows.old) (R.words rows.old) A leaf lo anchor.now hi n → Shrinking (R.shape rows.old) (R.words rows.new) A leaf lo anchor.now hi (n + 1) }
    ensures rest { SameRest (R.shape rows.old) (R.words rows.old) (R.words rows.new) }
    ensures shape { R.shape rows.new ≡ R.shape rows.old }
    ensures stays { R.stays rows.old rows.new }
{
    let Some(found) = find(rows, &anchor[..n], hash, steps) else {
        unreachable!();
    };
    let bucket = bucket_by_hash(hash, rows.heads());
    unlink_item(rows, found.at, found.before, bucket);
}

/// Writes the item of the first `n` bytes anew, or takes it out.
fn shrink_item<R: RowsMut, L: Ledger>(
    rows: &mut R,
    anchor: &[u8],
    n: usize,
    hash: u64,
    left: u32,
    after: u32,
    front: usize,
    back: usize,
    steps: &mut Steps<L>,
)
    requires state { IsShrinking (R.shape rows.old) (R.words rows.old) anchor.now left after n front back }
    requires hash { hash ≡ prefix_hash (R.shape rows.old).salt (take n anchor.now) }
    requires within { n ≤ length anchor.now }
    ensures shrunk { (A : Anchors) (leaf : ℕ) (lo : List ℕ) (hi : Option (List ℕ)) → Shrinks A leaf lo anchor.now hi left after front back → Shrinking (R.shape rows.old) (R.words rows.old) A leaf lo anchor.now hi n → Shrinking (R.shape rows.old) (R.words rows.new) A leaf lo anchor.now hi (n + 1) }
    ensures rest { SameRest (R.shape rows.old) (R.words rows.old) (R.words rows.new) }
    ensures shape { R.shape rows.new ≡ R.shape rows.old }
    ensures stays { R.stays rows.old rows.new }
{
    if n < front.max(back) {
        shrink_kept(rows, anchor, n, hash, left, after, front, back, steps);
        return;
    }
    shrink_gone(rows, anchor, n, hash, left, after, front, back, steps);
}

/// Takes the prefixes of an anchor out, from the shortest on. `front` of them are prefixes of the
/// anchor before it too, that of leaf `left`, and `back` of the one behind it, that of `after`.
pub(crate) fn shrink<R: RowsMut, L: Ledger>(
    rows: &mut R,
    anchor: &[u8],
    left: u32,
    after: u32,
    front: usize,
    back: usize,
    steps: &mut Steps<L>,
)
    requires { IsShrinking (R.shape rows.old) (R.words rows.old) anchor.now left after 0 front back }
    ensures shrunk { (A : Anchors) (leaf : ℕ) (lo : List ℕ) (hi : Option (List ℕ)) → Shrinks A leaf lo anchor.now hi left after front back → Shrinking (R.shape rows.old) (R.words rows.old) A leaf lo anchor.now hi 0 → Shrinking (R.shape rows.old) (R.words rows.new) A leaf lo anchor.now hi (length anchor.now + 1) }
    ensures rest { SameRest (R.shape rows.old) (R.words rows.old) (R.words rows.new) }
    ensures shape { R.shape rows.new ≡ R.shape rows.old }
    ensures stays { R.stays rows.old rows.new }
{
    let mut hash = Fnv::start(rows.salt());
    for n in 0..anchor.len() {
        shrink_item(rows, anchor, n, hash, left, after, front, back, steps);
        hash = Fnv::step(hash, anchor[n]);
    }
    shrink_item(
        rows,
        anchor,
        anchor.len(),
        hash,
        left,
        after,
        front,
        back,
        steps,
    );
}
