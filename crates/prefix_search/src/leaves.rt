//! The leaf at which a search ends, with the anchor that follows.

ghost use Rattle.std.specs.Prelude.{◌≡◌, ◌≢◌, ◌+◌, ◌≤◌, [], Some};
ghost use Rattle.anchor_rules.specs.Anchors.{Anchors, Span, span};
ghost use Rattle.anchor_rules.specs.Items.{leaf_before};
ghost use Rattle.meta_trie.specs.Stands.{StandsFor, IsTable};
ghost use Rattle.prefix_search.specs.Search.{IsFollowed};

use crate::answers::Located;
use row_words::Rows;
use std::sync::ledger::Ledger;
use steps::Steps;

/// A leaf of the table, with the anchor that follows its own. It takes two steps, for its row and
/// that of the next leaf.
pub fn at_leaf<R: Rows, L: Ledger>(rows: &mut R, leaf: u32, steps: &mut Steps<L>) -> Located
    requires table { IsTable (R.shape rows.old) (R.words rows.old) }
    requires leaf { (A : Anchors) → StandsFor (R.shape rows.old) (R.words rows.old) A → (s : Span) × (span A leaf ≡ Some s) }
    ensures leaf { result.leaf ≡ leaf }
    ensures next { (A : Anchors) → StandsFor (R.shape rows.old) (R.words rows.old) A → IsFollowed A leaf result.next }
    ensures cost { steps.new ≤ steps.old + 2 }
    ensures counted { R.rows_read rows.new + steps.old ≡ R.rows_read rows.old + steps.new }
    ensures words { R.words rows.new ≡ R.words rows.old }
    ensures shape { R.shape rows.new ≡ R.shape rows.old }
    ensures stays { R.stays rows.old rows.new }
{
    let row = rows.leaf(leaf, steps);
    if row.next == 0 {
        return Located { leaf, next: None };
    }
    let next = rows.leaf(row.next - 1, steps);
    Located {
        leaf,
        next: Some(next.anchor),
    }
}

/// The leaf before this one, which isn't the first. This one's row names it.
#[inline]
pub(crate) fn before_leaf<R: Rows, L: Ledger>(rows: &mut R, leaf: u32, steps: &mut Steps<L>) -> u32
    requires table { IsTable (R.shape rows.old) (R.words rows.old) }
    requires leaf { (A : Anchors) → StandsFor (R.shape rows.old) (R.words rows.old) A → (s : Span) × (span A leaf ≡ Some s) × (s.0 ≢ []) }
    ensures leaf { (A : Anchors) → StandsFor (R.shape rows.old) (R.words rows.old) A → result ≡ leaf_before A leaf }
    ensures cost { steps.new ≤ steps.old + 1 }
    ensures counted { R.rows_read rows.new + steps.old ≡ R.rows_read rows.old + steps.new }
    ensures words { R.words rows.new ≡ R.words rows.old }
    ensures shape { R.shape rows.new ≡ R.shape rows.old }
    ensures stays { R.stays rows.old rows.new }
{
    rows.previous(leaf, steps) - 1
}
