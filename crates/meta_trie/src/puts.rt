//! Writing words one behind the other.

ghost use Rattle.std.specs.Prelude.{◌≡◌, ◌<◌, ◌≤◌, ◌+◌, length};
ghost use Rattle.row_words.specs.Layout.{word_count};
ghost use Rattle.meta_trie.specs.Words.{Put};

use row_words::RowsMut;

/// Writes these words from a place on.
pub(crate) fn put<R: RowsMut>(rows: &mut R, from: u32, values: &[u64])
    requires { from + length values.now ≤ word_count (R.shape rows.old) }
    ensures words { Put (R.words rows.old) (R.words rows.new) from values.now }
    ensures shape { R.shape rows.new ≡ R.shape rows.old }
    ensures stays { R.stays rows.old rows.new }
{
    for (j, value) in values.iter().enumerate() {
        rows.set_word(from + j as u32, *value);
    }
}
