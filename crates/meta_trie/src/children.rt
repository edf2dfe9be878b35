//! The last leaf of a child of a prefix.

ghost use Rattle.std.specs.Prelude.{◌≡◌, ◌≤◌, ◌+◌, ℕ, true, [], ◌∷◌, ◌++◌};
ghost use Rattle.key_bytes.specs.Fnv.{prefix_hash};
ghost use Rattle.anchor_rules.specs.Anchors.{Anchors};
ghost use Rattle.anchor_rules.specs.Items.{is_prefix, under, last_leaf};
ghost use Rattle.meta_trie.specs.Stands.{StandsFor, IsTable, MostInBucket};

use crate::buckets::bucket_by_hash;
use row_words::{ChildProbe, Rows};
use std::sync::ledger::Ledger;
use steps::Steps;

/// The leaf of the last anchor that begins with a prefix and one byte more, of which there is one. The
/// hash of them is given. Each item that is looked at on the way is a step. The item is in the bucket, so
/// the last one there is it where none before is, and its bytes aren't compared.
#[inline]
pub fn last_of_child<R: Rows, L: Ledger>(
    rows: &mut R,
    prefix: &[u8],
    byte: u8,
    hash: u64,
    steps: &mut Steps<L>,
) -> u32
    requires table { IsTable (R.shape rows.old) (R.words rows.old) }
    requires hash { hash ≡ prefix_hash (R.shape rows.old).salt (prefix.now ++ byte ∷ []) }
    requires child { (A : Anchors) → StandsFor (R.shape rows.old) (R.words rows.old) A → is_prefix A (prefix.now ++ byte ∷ []) ≡ true }
    ensures leaf { (A : Anchors) → StandsFor (R.shape rows.old) (R.words rows.old) A → result ≡ last_leaf (under A (prefix.now ++ byte ∷ [])) }
    ensures cost { (A : Anchors) → StandsFor (R.shape rows.old) (R.words rows.old) A → (c : ℕ) → MostInBucket (R.shape rows.old) A c → steps.new ≤ steps.old + c }
    ensures counted { R.rows_read rows.new + steps.old ≡ R.rows_read rows.old + steps.new }
    ensures words { R.words rows.new ≡ R.words rows.old }
    ensures shape { R.shape rows.new ≡ R.shape rows.old }
    ensures stays { R.stays rows.old rows.new }
{
    let bucket = bucket_by_hash(hash, rows.heads());
    let mut link = rows.head(bucket);
    loop {
        match rows.probe_child(link - 1, prefix, byte, hash, steps) {
            ChildProbe::Found { rightmost } => return rightmost,
            ChildProbe::Further { next } => link = next,
        }
    }
}
