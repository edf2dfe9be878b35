//! The leaves on both sides of one.

ghost use Rattle.std.specs.Prelude.{◌≡◌, ◌+◌, ℕ, true};
ghost use Rattle.anchor_rules.specs.Anchors.{Anchors, has_leaf};
ghost use Rattle.anchor_rules.specs.Neighbours.{IsBefore, IsBehind};
ghost use Rattle.meta_trie.specs.Stands.{StandsFor, IsTable};
ghost use Rattle.meta_trie.specs.Links.{IsLinked};

use row_words::Rows;
use std::sync::ledger::Ledger;
use steps::Steps;

/// The leaves whose anchors come just before that of a leaf and just behind it.
#[derive(Debug, Clone, Copy)]
pub struct Sides {
    /// None for the first leaf.
    pub before: Option<u32>,
    /// None for the last one.
    pub behind: Option<u32>,
}

/// The neighbours of a leaf. Its row names both, so it takes one step.
pub fn neighbours<R: Rows, L: Ledger>(rows: &mut R, leaf: u32, steps: &mut Steps<L>) -> Sides
    requires table { IsTable (R.shape rows.old) (R.words rows.old) }
    requires live { (A : Anchors) → StandsFor (R.shape rows.old) (R.words rows.old) A → has_leaf A leaf ≡ true }
    ensures before { (A : Anchors) → StandsFor (R.shape rows.old) (R.words rows.old) A → IsBefore A leaf result.before }
    ensures behind { (A : Anchors) → StandsFor (R.shape rows.old) (R.words rows.old) A → IsBehind A leaf result.behind }
    ensures steps { steps.new ≡ steps.old + 1 }
    ensures counted { R.rows_read rows.new + steps.old ≡ R.rows_read rows.old + steps.new }
    ensures words { R.words rows.new ≡ R.words rows.old }
    ensures shape { R.shape rows.new ≡ R.shape rows.old }
    ensures stays { R.stays rows.old rows.new }
{
    let row = rows.leaf(leaf, steps);
    Sides {
        before: linked(row.previous),
        behind: linked(row.next),
    }
}

/// The leaf that a link names, which is its number + 1, or 0.
fn linked(link: u32) -> Option<u32>
    ensures { IsLinked link result }
{
    if link == 0 { None } else { Some(link - 1) }
}
