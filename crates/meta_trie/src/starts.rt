//! The table of the one empty anchor.

ghost use Rattle.std.specs.Prelude.{◌≡◌, ◌<◌, ◌∷◌, [], ℕ, slice_index};
ghost use Rattle.meta_trie.specs.Stands.{StandsFor};
ghost use Rattle.meta_trie.specs.Words.{Bare};

use crate::links::link_item;
use crate::puts::put;
use key_bytes::Fnv;
use row_words::layout::LONGEST_WORD;
use row_words::{ItemRow, RowsMut};

/// Makes the rows stand for the empty anchor with leaf 0, whatever they were. It writes each word;
/// for rows that are known to be all 0 there is [`start_zeroed`].
pub fn start<R: RowsMut>(rows: &mut R)
    ensures table { StandsFor (R.shape rows.new) (R.words rows.new) (([], 0) ∷ []) }
    ensures shape { R.shape rows.new ≡ R.shape rows.old }
    ensures stays { R.stays rows.old rows.new }
{
    clear(rows);
    start_zeroed(rows);
}

/// Makes rows that are all 0 stand for the empty anchor with leaf 0. It writes some fifteen words,
/// however many there are: the header, the item of the empty prefix with its bucket's head, and the
/// leaf's mark.
pub fn start_zeroed<R: RowsMut>(rows: &mut R)
    requires { (x : ℕ) → slice_index (R.words rows.old) x ≡ 0 }
    ensures table { StandsFor (R.shape rows.new) (R.words rows.new) (([], 0) ∷ []) }
    ensures shape { R.shape rows.new ≡ R.shape rows.old }
    ensures stays { R.stays rows.old rows.new }
{
    lay_bare(rows);
    let root = ItemRow {
        next: 0,
        len: 0,
        is_anchor: true,
        leftmost: 0,
        rightmost: 0,
        bits: [0; 4],
    };
    let hash = Fnv::start(rows.salt());
    link_item(rows, &[], hash, &root);
}

/// Makes leaf 0 the only live one, with the empty anchor, and item 0 the first free one. The others
/// are behind it as they are, by their links of 0.
fn lay_bare<R: RowsMut>(rows: &mut R)
    requires { (x : ℕ) → slice_index (R.words rows.old) x ≡ 0 }
    ensures words { Bare (R.shape rows.new) (R.words rows.new) }
    ensures shape { R.shape rows.new ≡ R.shape rows.old }
    ensures stays { R.stays rows.old rows.new }
{
    // The four words of the header.
    put(rows, LONGEST_WORD, &[0, 0, 1, 1]);
    let row = rows.layout().leaf_word(0);
    put(rows, row, &[1]);
}

/// Writes 0 into each word.
fn clear<R: RowsMut>(rows: &mut R)
    ensures words { (x : ℕ) → slice_index (R.words rows.new) x ≡ 0 }
    ensures shape { R.shape rows.new ≡ R.shape rows.old }
    ensures stays { R.stays rows.old rows.new }
{
    for i in 0..rows.layout().word_count() {
        rows.set_word(i, 0);
    }
}
