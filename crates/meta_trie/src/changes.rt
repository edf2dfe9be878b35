//! Writing an item anew.

ghost use Rattle.std.specs.Prelude.{◌≡◌, ◌<◌, ◌+◌};
ghost use Rattle.row_words.specs.Decode.{item_at};
ghost use Rattle.meta_trie.specs.Words.{Changed};

use crate::links::{pack_link, pack_sides};
use crate::puts::put;
use row_words::layout::{LENGTHS, LINK_PART};
use row_words::{ItemRow, RowsMut};

/// Writes an item anew behind its hash. The row's link is the one that stands there.
pub(crate) fn change_item<R: RowsMut>(rows: &mut R, at: u32, item: &ItemRow)
    requires at { at < (R.shape rows.old).items }
    requires next { item.now.next ≡ (item_at (R.shape rows.old) (R.words rows.old) at).next }
    requires len { item.now.len < LENGTHS }
    ensures words { Changed (R.shape rows.old) (R.words rows.old) (R.words rows.new) at item.now }
    ensures shape { R.shape rows.new ≡ R.shape rows.old }
    ensures stays { R.stays rows.old rows.new }
{
    let base = rows.layout().item_word(at);
    let link = pack_link(item.next, item.len, item.is_anchor);
    let sides = pack_sides(item.leftmost, item.rightmost);
    let values = [
        link,
        sides,
        item.bits[0],
        item.bits[1],
        item.bits[2],
        item.bits[3],
    ];
    put(rows, base + LINK_PART, &values);
}
