//! Whether the anchor of a leaf begins with a prefix.

ghost use Rattle.std.specs.Prelude.{◌≡◌, ◌+◌, ◌↔◌, IsTrue, [], ◌∷◌, ◌++◌, length, take};
ghost use Rattle.row_words.specs.Decode.{IsLive, anchor_at};

use crate::Words;
use crate::layout::{BYTES_PART, MARK_PART};

/// Whether the anchor of a live leaf begins with these bytes.
#[inline]
pub(crate) fn anchor_begins<W: Words>(words: &mut W, leaf: u32, prefix: &[u8]) -> bool
    requires { IsLive (W.shape words.old) (W.words words.old) leaf }
    ensures value { IsTrue result ↔ (take (length prefix.now) (anchor_at (W.shape words.old) (W.words words.old) leaf) ≡ prefix.now) }
    ensures read { W.rows_read words.new ≡ W.rows_read words.old }
    ensures words { W.words words.new ≡ W.words words.old }
    ensures shape { W.shape words.new ≡ W.shape words.old }
    ensures stays { W.stays words.old words.new }
{
    let mark = words.leaf_part(leaf, MARK_PART);
    if prefix.len() as u64 >= mark {
        return false;
    }
    words.leaf_begins(leaf, prefix)
}

/// Whether the anchor of a live leaf begins with these bytes and this one behind them.
pub(crate) fn anchor_goes_on<W: Words>(words: &mut W, leaf: u32, prefix: &[u8], byte: u8) -> bool
    requires { IsLive (W.shape words.old) (W.words words.old) leaf }
    ensures value { IsTrue result ↔ (take (length prefix.now + 1) (anchor_at (W.shape words.old) (W.words words.old) leaf) ≡ prefix.now ++ byte ∷ []) }
    ensures read { W.rows_read words.new ≡ W.rows_read words.old }
    ensures words { W.words words.new ≡ W.words words.old }
    ensures shape { W.shape words.new ≡ W.shape words.old }
    ensures stays { W.stays words.old words.new }
{
    let len = prefix.len();
    let mark = words.leaf_part(leaf, MARK_PART);
    if len as u64 >= mark - 1 {
        return false;
    }
    let word = words.leaf_part(leaf, BYTES_PART + (len / 8) as u32);
    if (word >> (8 * (len % 8) as u32)) % 256 != byte as u64 {
        return false;
    }
    words.leaf_begins(leaf, prefix)
}
