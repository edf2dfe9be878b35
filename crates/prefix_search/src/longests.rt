//! The longest prefix of a key that has an item.

ghost use Rattle.std.specs.Prelude.{◌≡◌, ◌<◌, ◌≤◌, ◌+◌, ◌*◌, ◌/◌, ℕ, length, slice_index, take};
ghost use Rattle.key_bytes.specs.Fnv.{prefix_hash};
ghost use Rattle.anchor_rules.specs.Anchors.{Anchors};
ghost use Rattle.anchor_rules.specs.Items.{Item};
ghost use Rattle.row_words.specs.Decode.{item_at};
ghost use Rattle.row_words.specs.declared.rows.ItemRow.{ItemRow};
ghost use Rattle.meta_trie.specs.Trie.{Says};
ghost use Rattle.meta_trie.specs.Stands.{StandsFor, IsTable, MostInBucket};
ghost use Rattle.prefix_search.specs.Search.{IsLongestOf, has_child, length_digits};

use crate::answers::Longest;
use crate::bits::has_byte;
use crate::middles::middle_of;
use key_bytes::{Fnv, Key};
use meta_trie::place_by_hash;
use row_words::Rows;
use std::sync::ledger::Ledger;
use steps::Steps;

/// A prefix of a key that has an item: its length, its hash, and where the item stands.
#[derive(Debug, Clone, Copy)]
pub(crate) struct Reached {
    pub len: usize,
    pub hash: u64,
    pub at: u32,
}

/// The longest prefix of the key that has an item, and its item.
///
/// This is a binary search on the length, which hashes on from the longest prefix known so far. It
/// ends at once at an item that has no child at the key's next byte. It takes at most a look for each
/// binary digit of the length, and a step for the item.
pub fn longest<R: Rows, L: Ledger>(rows: &mut R, key: &Key, steps: &mut Steps<L>) -> Longest
    requires { IsTable (R.shape rows.old) (R.words rows.old) }
    ensures longest { (A : Anchors) → StandsFor (R.shape rows.old) (R.words rows.old) A → IsLongestOf A key.now result.len result.item }
    ensures cost { (A : Anchors) → StandsFor (R.shape rows.old) (R.words rows.old) A → (c : ℕ) → MostInBucket (R.shape rows.old) A c → steps.new ≤ steps.old + (length_digits A key.now * c + 1) }
    ensures counted { R.rows_read rows.new + steps.old ≡ R.rows_read rows.old + steps.new }
    ensures words { R.words rows.new ≡ R.words rows.old }
    ensures shape { R.shape rows.new ≡ R.shape rows.old }
    ensures stays { R.stays rows.old rows.new }
{
    let reached = reach(rows, key.bytes(), 0, steps);
    let item = rows.item(reached.at, steps);
    Longest {
        len: reached.len as u32,
        item,
    }
}

/// Where the search of [`longest`] ends for these bytes. The first look is near the hint. On the way no
/// more is read of an item than tells whether the search goes on, so the item that it ends at is still
/// to be read. The search begins at the item of the empty prefix, which always stands in place 0.
#[inline]
pub(crate) fn reach<R: Rows, L: Ledger>(
    rows: &mut R,
    key: &[u8],
    hint: usize,
    steps: &mut Steps<L>,
) -> Reached
    requires { IsTable (R.shape rows.old) (R.words rows.old) }
    ensures within { result.len ≤ length key.now }
    ensures hash { result.hash ≡ prefix_hash (R.shape rows.old).salt (take result.len key.now) }
    ensures place { result.at < (R.shape rows.old).items }
    ensures longest { (A : Anchors) → StandsFor (R.shape rows.old) (R.words rows.old) A → IsLongestOf A key.now result.len (item_at (R.shape rows.old) (R.words rows.old) result.at) }
    ensures cost { (A : Anchors) → StandsFor (R.shape rows.old) (R.words rows.old) A → (c : ℕ) → MostInBucket (R.shape rows.old) A c → steps.new ≤ steps.old + length_digits A key.now * c }
    ensures counted { R.rows_read rows.new + steps.old ≡ R.rows_read rows.old + steps.new }
    ensures words { R.words rows.new ≡ R.words rows.old }
    ensures shape { R.shape rows.new ≡ R.shape rows.old }
    ensures stays { R.stays rows.old rows.new }
{
    let most = rows.longest() as usize;
    let mut high = key.len().min(most);
    let mut low = 0;
    let mut hash = Fnv::start(rows.salt());
    let mut at = 0;
    while low < high {
        let middle = middle_of(low, high, hint);
        let further = Fnv::extend(hash, &key[low..middle]);
        let rest = &key[middle..];
        match place_by_hash(rows, &key[..middle], further, word_of_next(rest), steps) {
            Some(place) => {
                low = middle;
                hash = further;
                at = place.at;
                if !goes_on(place.bits, rest) {
                    high = middle;
                }
            }
            None => high = middle - 1,
        }
    }
    Reached { len: low, hash, at }
}

/// The word of an item's bits that has the bit of the first of these bytes.
#[inline]
fn word_of_next(rest: &[u8]) -> u32
    ensures word { result < 4 }
    ensures next { result ≡ slice_index rest.now 0 / 64 }
{
    if rest.is_empty() {
        0
    } else {
        u32::from(rest[0] / 64)
    }
}

/// Whether the first of these bytes is a child of an item, by the word of the item's bits that has its bit.
#[inline]
fn goes_on(bits: u64, rest: &[u8]) -> bool
    ensures { (it : Item) (row : ItemRow) → Says row it → bits ≡ slice_index row.bits (slice_index rest.now 0 / 64) → result ≡ has_child it rest.now }
{
    !rest.is_empty() && has_byte(bits, rest[0])
}
