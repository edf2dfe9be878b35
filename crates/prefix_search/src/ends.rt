//! The leaf in which a range of keys begins.

ghost use Rattle.std.specs.Prelude.{◌≡◌, ◌+◌, ◌≤◌, ℕ, List, []};
ghost use Rattle.anchor_rules.specs.Anchors.{Anchors};
ghost use Rattle.meta_trie.specs.Stands.{StandsFor, IsTable, MostInBucket};
ghost use Rattle.prefix_search.specs.Search.{IsLocated, bound};

use crate::answers::Located;
use crate::leaves::at_leaf;
use crate::locates::locate;
use key_bytes::Bound;
use row_words::Rows;
use std::sync::ledger::Ledger;
use steps::Steps;

/// The leaf from which on the keys from an end on are found, and the anchor at which they go on in
/// the next one: the leaf of the key at the end, and the first leaf where there is no key. The first
/// leaf takes two steps.
pub fn locate_end<R: Rows, L: Ledger>(rows: &mut R, from: &Bound, steps: &mut Steps<L>) -> Located
    requires { IsTable (R.shape rows.old) (R.words rows.old) }
    ensures key { (key : List ℕ) → from.now ≡ Bound.At key → (A : Anchors) → StandsFor (R.shape rows.old) (R.words rows.old) A → IsLocated A key result }
    ensures first { ((key : List ℕ) → from.now ≡ Bound.At key → ⊥) → (A : Anchors) → StandsFor (R.shape rows.old) (R.words rows.old) A → IsLocated A [] result }
    ensures key_cost { (key : List ℕ) → from.now ≡ Bound.At key → (A : Anchors) → StandsFor (R.shape rows.old) (R.words rows.old) A → (c : ℕ) → MostInBucket (R.shape rows.old) A c → steps.new ≤ steps.old + bound A key c }
    ensures first_cost { ((key : List ℕ) → from.now ≡ Bound.At key → ⊥) → steps.new ≤ steps.old + 2 }
    ensures counted { R.rows_read rows.new + steps.old ≡ R.rows_read rows.old + steps.new }
    ensures words { R.words rows.new ≡ R.words rows.old }
    ensures shape { R.shape rows.new ≡ R.shape rows.old }
    ensures stays { R.stays rows.old rows.new }
{
    match from {
        Bound::At(key) => locate(rows, key, steps),
        _ => at_leaf(rows, 0, steps),
    }
}
