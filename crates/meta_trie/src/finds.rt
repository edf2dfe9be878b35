//! Walking along a bucket to the item of a prefix.

ghost use Rattle.std.specs.Prelude.{◌≡◌, ◌<◌, ◌≤◌, ◌+◌, ℕ, List, length, Option};
ghost use Rattle.key_bytes.specs.Fnv.{prefix_hash};
ghost use Rattle.anchor_rules.specs.Items.{Item};
ghost use Rattle.meta_trie.specs.Trie.{Holds, IsTrie, Walked, bucket_of};

use crate::buckets::bucket_by_hash;
use row_words::{ItemRow, Probe, Rows};
use std::sync::ledger::Ledger;
use steps::Steps;

/// The item of a prefix, with its place.
#[derive(Debug, Clone, Copy)]
pub(crate) struct Found {
    pub at: u32,
    /// The item before it in its bucket as place + 1, or 0.
    pub before: u32,
    pub item: ItemRow,
}

/// The place and item of this prefix, whose hash is given.
#[inline]
pub(crate) fn find<R: Rows, L: Ledger>(
    rows: &mut R,
    prefix: &[u8],
    hash: u64,
    steps: &mut Steps<L>,
) -> Option<Found>
    requires trie { IsTrie (R.shape rows.old) (R.words rows.old) }
    requires hash { hash ≡ prefix_hash (R.shape rows.old).salt prefix.now }
    ensures value { (known : List ℕ → Option Item) (h : Holds (R.shape rows.old) (R.words rows.old) known) → Walked (R.shape rows.old) (R.words rows.old) known h prefix.now result }
    ensures cost { (known : List ℕ → Option Item) (h : Holds (R.shape rows.old) (R.words rows.old) known) → steps.new ≤ steps.old + length (h.buckets (bucket_of (R.shape rows.old) prefix.now)) }
    ensures counted { R.rows_read rows.new + steps.old ≡ R.rows_read rows.old + steps.new }
    ensures words { R.words rows.new ≡ R.words rows.old }
    ensures shape { R.shape rows.new ≡ R.shape rows.old }
    ensures stays { R.stays rows.old rows.new }
{
    let bucket = bucket_by_hash(hash, rows.heads());
    let mut before = 0;
    let mut link = rows.head(bucket);
    while link != 0 {
        match rows.probe(link - 1, prefix, hash, steps) {
            Probe::Same(item) => {
                return Some(Found {
                    at: link - 1,
                    before,
                    item,
                });
            }
            Probe::Other { next } => {
                before = link;
                link = next;
            }
        }
    }
    None
}
