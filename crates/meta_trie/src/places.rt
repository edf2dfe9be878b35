//! Where the item of a prefix stands.

ghost use Rattle.std.specs.Prelude.{◌≡◌, ◌≤◌, ◌<◌, ◌+◌, ℕ};
ghost use Rattle.key_bytes.specs.Fnv.{prefix_hash};
ghost use Rattle.anchor_rules.specs.Anchors.{Anchors};
ghost use Rattle.anchor_rules.specs.Items.{item};
ghost use Rattle.meta_trie.specs.Places.{IsPlaced};
ghost use Rattle.meta_trie.specs.Stands.{StandsFor, IsTable, MostInBucket};

use crate::buckets::bucket_by_hash;
use row_words::{Glance, Rows};
use std::sync::ledger::Ledger;
use steps::Steps;

/// Where an item stands.
#[derive(Debug, Clone, Copy)]
pub struct Place {
    pub at: u32,
    /// The word that was asked for of those that say which bytes may follow.
    pub bits: u64,
}

/// Where the item of this prefix stands, if it is a prefix of an anchor, with this word of its bits. The
/// prefix's hash is given. Each item that is looked at on the way is a step. [`Rows::item`] has the rest
/// of the item, for one step more: a search that goes on to a longer prefix doesn't need it.
#[inline]
pub fn place_by_hash<R: Rows, L: Ledger>(
    rows: &mut R,
    prefix: &[u8],
    hash: u64,
    word: u32,
    steps: &mut Steps<L>,
) -> Option<Place>
    requires table { IsTable (R.shape rows.old) (R.words rows.old) }
    requires hash { hash ≡ prefix_hash (R.shape rows.old).salt prefix.now }
    requires word { word < 4 }
    ensures value { (A : Anchors) → StandsFor (R.shape rows.old) (R.words rows.old) A → IsPlaced (R.shape rows.old) (R.words rows.old) (item A) prefix.now word result }
    ensures cost { (A : Anchors) → StandsFor (R.shape rows.old) (R.words rows.old) A → (c : ℕ) → MostInBucket (R.shape rows.old) A c → steps.new ≤ steps.old + c }
    ensures counted { R.rows_read rows.new + steps.old ≡ R.rows_read rows.old + steps.new }
    ensures words { R.words rows.new ≡ R.words rows.old }
    ensures shape { R.shape rows.new ≡ R.shape rows.old }
    ensures stays { R.stays rows.old rows.new }
{
    let bucket = bucket_by_hash(hash, rows.heads());
    let mut link = rows.head(bucket);
    while link != 0 {
        match rows.glance(link - 1, prefix, hash, word, steps) {
            Glance::Hit { bits } => return Some(Place { at: link - 1, bits }),
            Glance::Miss { next } => link = next,
        }
    }
    None
}
