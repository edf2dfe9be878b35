//! The leaf of a key.

ghost use Rattle.std.specs.Prelude.{◌≡◌, ◌<◌, ◌≤◌, ◌+◌, ℕ, length, take};
ghost use Rattle.key_bytes.specs.Fnv.{prefix_hash};
ghost use Rattle.anchor_rules.specs.Anchors.{Anchors, target};
ghost use Rattle.anchor_rules.specs.Items as items;
ghost use Rattle.anchor_rules.specs.Items.{Item};
ghost use Rattle.row_words.specs.Decode.{item_at};
ghost use Rattle.meta_trie.specs.Trie.{Says};
ghost use Rattle.meta_trie.specs.Stands.{StandsFor, IsTable, MostInBucket};
ghost use Rattle.prefix_search.specs.Search.{IsLocated, IsLongestOf, bound, seek_bound};

use crate::answers::{Located, Sought};
use crate::bits::greatest_byte;
use crate::hints::Hint;
use crate::leaves::{at_leaf, before_leaf};
use crate::longests::{Reached, reach};
use key_bytes::{Fnv, Key};
use meta_trie::last_of_child;
use row_words::layout::LONGEST_ANCHOR;
use row_words::{ItemRow, Rows};
use std::sync::ledger::Ledger;
use steps::Steps;

/// The leaf of the greatest anchor that isn't above the key, and the hash of the key.
///
/// The search goes on from the longest prefix of the key that has an item. It ends in the greatest
/// child below the key's next byte; without one, at the prefix itself where that is an anchor, and
/// else at the leaf before all those that begin with the prefix.
///
/// That is at most a look for each binary digit of the length, one step for the item that they end at,
/// and then a look for the child, or one step for the leaf before, or none. With a hint just below the
/// prefix's length it is mostly one or two looks, and with any hint no more than the digits. The row of the leaf that it ends in isn't read. The hash goes on from
/// that of the prefix, so each byte behind the prefix is hashed once.
pub fn seek<R: Rows, L: Ledger>(
    rows: &mut R,
    key: &Key,
    hint: &mut Hint,
    steps: &mut Steps<L>,
) -> Sought
    requires { IsTable (R.shape rows.old) (R.words rows.old) }
    ensures leaf { (A : Anchors) → StandsFor (R.shape rows.old) (R.words rows.old) A → result.leaf ≡ target A key.now }
    ensures hash { result.hash ≡ prefix_hash (R.shape rows.old).salt key.now }
    ensures cost { (A : Anchors) → StandsFor (R.shape rows.old) (R.words rows.old) A → (c : ℕ) → MostInBucket (R.shape rows.old) A c → steps.new ≤ steps.old + seek_bound A key.now c }
    ensures counted { R.rows_read rows.new + steps.old ≡ R.rows_read rows.old + steps.new }
    ensures words { R.words rows.new ≡ R.words rows.old }
    ensures shape { R.shape rows.new ≡ R.shape rows.old }
    ensures stays { R.stays rows.old rows.new }
{
    let bytes = key.bytes();
    let reached = reach(rows, bytes, hint.len() as usize, steps);
    hint.learn(reached.len as u32);
    let leaf = leaf_from(rows, bytes, &reached, steps);
    let rest = &bytes[reached.len..];
    Sought {
        leaf,
        hash: Fnv::extend(reached.hash, rest),
    }
}

/// The leaf of the greatest anchor that isn't above the key, and the next leaf's anchor. It is the
/// search of [`seek`], and then two steps for the rows of the two leaves.
pub fn locate<R: Rows, L: Ledger>(rows: &mut R, key: &Key, steps: &mut Steps<L>) -> Located
    requires { IsTable (R.shape rows.old) (R.words rows.old) }
    ensures located { (A : Anchors) → StandsFor (R.shape rows.old) (R.words rows.old) A → IsLocated A key.now result }
    ensures cost { (A : Anchors) → StandsFor (R.shape rows.old) (R.words rows.old) A → (c : ℕ) → MostInBucket (R.shape rows.old) A c → steps.new ≤ steps.old + bound A key.now c }
    ensures counted { R.rows_read rows.new + steps.old ≡ R.rows_read rows.old + steps.new }
    ensures words { R.words rows.new ≡ R.words rows.old }
    ensures shape { R.shape rows.new ≡ R.shape rows.old }
    ensures stays { R.stays rows.old rows.new }
{
    let bytes = key.bytes();
    let reached = reach(rows, bytes, 0, steps);
    let leaf = leaf_from(rows, bytes, &reached, steps);
    at_leaf(rows, leaf, steps)
}

/// The leaf of a key, from the longest prefix of the key that has an item. It takes a step for that
/// item, and then at most one look for a child, or one step for the leaf before.
#[inline]
fn leaf_from<R: Rows, L: Ledger>(
    rows: &mut R,
    key: &[u8],
    reached: &Reached,
    steps: &mut Steps<L>,
) -> u32
    requires table { IsTable (R.shape rows.old) (R.words rows.old) }
    requires short { length key.now < LONGEST_ANCHOR + 1 }
    requires within { reached.now.len ≤ length key.now }
    requires hash { reached.now.hash ≡ prefix_hash (R.shape rows.old).salt (take reached.now.len key.now) }
    requires place { reached.now.at < (R.shape rows.old).items }
    requires longest { (A : Anchors) → StandsFor (R.shape rows.old) (R.words rows.old) A → IsLongestOf A key.now reached.now.len (item_at (R.shape rows.old) (R.words rows.old) reached.now.at) }
    ensures leaf { (A : Anchors) → StandsFor (R.shape rows.old) (R.words rows.old) A → result ≡ target A key.now }
    ensures cost { (A : Anchors) → StandsFor (R.shape rows.old) (R.words rows.old) A → (c : ℕ) → MostInBucket (R.shape rows.old) A c → steps.new ≤ steps.old + (c + 2) }
    ensures counted { R.rows_read rows.new + steps.old ≡ R.rows_read rows.old + steps.new }
    ensures words { R.words rows.new ≡ R.words rows.old }
    ensures shape { R.shape rows.new ≡ R.shape rows.old }
    ensures stays { R.stays rows.old rows.new }
{
    let item = rows.item(reached.at, steps);
    let (prefix, rest) = key.split_at(reached.len);
    match child_below(&item, rest) {
        Some(byte) => {
            let hash = Fnv::step(reached.hash, byte);
            last_of_child(rows, prefix, byte, hash, steps)
        }
        None => {
            if item.is_anchor {
                item.leftmost
            } else {
                before_leaf(rows, item.leftmost, steps)
            }
        }
    }
}

/// The greatest child byte of an item that is below the first of these bytes.
#[inline]
fn child_below(item: &ItemRow, rest: &[u8]) -> Option<u8>
    ensures { (it : Item) → Says item.now it → result ≡ items.child_below it rest.now }
{
    if rest.is_empty() {
        return None;
    }
    greatest_byte(&item.bits, rest[0])
}
