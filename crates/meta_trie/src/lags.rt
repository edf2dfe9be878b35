//! One change of the anchors that a table stands for: told apart from the table, and made in rows.

ghost use Rattle.std.specs.Prelude.{◌≡◌};
ghost use Rattle.anchor_rules.specs.Anchors.{Anchors};
ghost use Rattle.meta_trie.specs.Stands.{StandsFor};
ghost use Rattle.meta_trie.specs.Lags.{CanTurnRows, turned};

use crate::adds::add_anchor_words;
use crate::removes::remove_anchor;
use row_words::{AnchorWords, RowsMut};

/// What one table has that another one lacks: no change, one split, or one merge. It takes no memory
/// of its own: the anchor of a split lies in it as it does in a row.
#[derive(Debug, Drop)]
pub enum Lag {
    Same,
    /// The new leaf `right` has this anchor, just behind that of `left`.
    Split {
        left: u32,
        anchor: AnchorWords,
        right: u32,
    },
    /// The anchor of `right`, which came just behind that of `left`, is gone.
    Merge {
        left: u32,
        right: u32,
    },
}

/// Makes a change in rows that lack it. It takes no memory, and costs what [`crate::add_anchor`] and
/// [`remove_anchor`] do.
pub fn turn_rows<R: RowsMut>(rows: &mut R, lag: &Lag)
    requires { CanTurnRows (R.shape rows.old) (R.words rows.old) lag.now }
    ensures turned { (A : Anchors) → StandsFor (R.shape rows.old) (R.words rows.old) A → StandsFor (R.shape rows.old) (R.words rows.new) (turned A lag.now) }
    ensures shape { R.shape rows.new ≡ R.shape rows.old }
    ensures stays { R.stays rows.old rows.new }
{
    match lag {
        Lag::Same => {}
        Lag::Split {
            left,
            anchor,
            right,
        } => match add_anchor_words(rows, *left, anchor, *right) {
            Ok(()) => {}
            Err(_) => unreachable!(),
        },
        Lag::Merge { left: _, right } => remove_anchor(rows, *right),
    }
}
