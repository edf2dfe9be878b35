//! Looking a prefix up.

ghost use Rattle.std.specs.Prelude.{◌≡◌, ◌≤◌, ◌+◌, ℕ};
ghost use Rattle.key_bytes.specs.Fnv.{prefix_hash};
ghost use Rattle.anchor_rules.specs.Anchors.{Anchors};
ghost use Rattle.anchor_rules.specs.Items.{item};
ghost use Rattle.meta_trie.specs.Trie.{Looked};
ghost use Rattle.meta_trie.specs.Stands.{StandsFor, IsTable, MostInBucket};

use crate::finds::find;
use key_bytes::prefix_hash;
use row_words::{ItemRow, Rows};
use std::sync::ledger::Ledger;
use steps::Steps;

/// The item of this prefix, if it is a prefix of an anchor. Each item that is looked at on the way
/// is a step.
pub fn look<R: Rows, L: Ledger>(
    rows: &mut R,
    prefix: &[u8],
    steps: &mut Steps<L>,
) -> Option<ItemRow>
    requires { IsTable (R.shape rows.old) (R.words rows.old) }
    ensures value { (A : Anchors) → StandsFor (R.shape rows.old) (R.words rows.old) A → Looked (item A) prefix.now result }
    ensures cost { (A : Anchors) → StandsFor (R.shape rows.old) (R.words rows.old) A → (c : ℕ) → MostInBucket (R.shape rows.old) A c → steps.new ≤ steps.old + c }
    ensures counted { R.rows_read rows.new + steps.old ≡ R.rows_read rows.old + steps.new }
    ensures words { R.words rows.new ≡ R.words rows.old }
    ensures shape { R.shape rows.new ≡ R.shape rows.old }
    ensures stays { R.stays rows.old rows.new }
{
    let hash = prefix_hash(rows.salt(), prefix);
    look_by_hash(rows, prefix, hash, steps)
}

/// [`look`] for a prefix whose hash is known already.
#[inline]
pub fn look_by_hash<R: Rows, L: Ledger>(
    rows: &mut R,
    prefix: &[u8],
    hash: u64,
    steps: &mut Steps<L>,
) -> Option<ItemRow>
    requires table { IsTable (R.shape rows.old) (R.words rows.old) }
    requires hash { hash ≡ prefix_hash (R.shape rows.old).salt prefix.now }
    ensures value { (A : Anchors) → StandsFor (R.shape rows.old) (R.words rows.old) A → Looked (item A) prefix.now result }
    ensures cost { (A : Anchors) → StandsFor (R.shape rows.old) (R.words rows.old) A → (c : ℕ) → MostInBucket (R.shape rows.old) A c → steps.new ≤ steps.old + c }
    ensures counted { R.rows_read rows.new + steps.old ≡ R.rows_read rows.old + steps.new }
    ensures words { R.words rows.new ≡ R.words rows.old }
    ensures shape { R.shape rows.new ≡ R.shape rows.old }
    ensures stays { R.stays rows.old rows.new }
{
    match find(rows, prefix, hash, steps) {
        Some(found) => Some(found.item),
        None => None,
    }
}
