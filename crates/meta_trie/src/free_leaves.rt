//! The least leaf that isn't live.

ghost use Rattle.std.specs.Prelude.{◌≡◌, ◌<◌, ℕ, true, IfOk, IfErr};
ghost use Rattle.anchor_rules.specs.Anchors.{Anchors, has_leaf};
ghost use Rattle.meta_trie.specs.Stands.{StandsFor, IsTable, IsFreeLeaf, AreLeavesFull};

use map_model::TableFull;
use row_words::RowsMut;
use row_words::layout::LIVE_WORD;

/// The least number of a leaf that isn't live, or the cap where all are. It reads one word of each
/// leaf's row up to there.
pub fn free_leaf<R: RowsMut>(rows: &mut R) -> Result<u32, TableFull>
    requires { IsTable (R.shape rows.old) (R.words rows.old) }
    ensures ok { IfOk result (λ leaf. (A : Anchors) → StandsFor (R.shape rows.old) (R.words rows.old) A → IsFreeLeaf (R.shape rows.old) A leaf) }
    ensures full { IfErr result (λ full. (A : Anchors) → StandsFor (R.shape rows.old) (R.words rows.old) A → AreLeavesFull (R.shape rows.old) A full) }
    ensures words { R.words rows.new ≡ R.words rows.old }
    ensures shape { R.shape rows.new ≡ R.shape rows.old }
    ensures stays { R.stays rows.old rows.new }
{
    free_leaf_from(rows, 0)
}

/// [`free_leaf`] where it is known that all leaves below a number are live: it reads one word of
/// each leaf's row from this number on.
pub fn free_leaf_from<R: RowsMut>(rows: &mut R, from: u32) -> Result<u32, TableFull>
    requires table { IsTable (R.shape rows.old) (R.words rows.old) }
    requires live { (A : Anchors) → StandsFor (R.shape rows.old) (R.words rows.old) A → (leaf : ℕ) → leaf < from → has_leaf A leaf ≡ true }
    ensures ok { IfOk result (λ leaf. (A : Anchors) → StandsFor (R.shape rows.old) (R.words rows.old) A → IsFreeLeaf (R.shape rows.old) A leaf) }
    ensures full { IfErr result (λ full. (A : Anchors) → StandsFor (R.shape rows.old) (R.words rows.old) A → AreLeavesFull (R.shape rows.old) A full) }
    ensures words { R.words rows.new ≡ R.words rows.old }
    ensures shape { R.shape rows.new ≡ R.shape rows.old }
    ensures stays { R.stays rows.old rows.new }
{
    let shape = rows.layout();
    for leaf in from..shape.leaves {
        let row = shape.leaf_word(leaf);
        if rows.word(row) == 0 {
            return Ok(leaf);
        }
    }
    let used = rows.word(LIVE_WORD) as u32;
    Err(TableFull::Leaves {
        used,
        cap: shape.leaves,
    })
}
