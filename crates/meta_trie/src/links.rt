//! Writing items: a new one at the front of its bucket, and one anew.

ghost use Rattle.std.specs.Prelude.{◌≡◌, ◌<◌, ◌+◌, ◌/◌, ◌%◌, ◌==◌, length};
ghost use Rattle.key_bytes.specs.Fnv.{prefix_hash};
ghost use Rattle.row_words.specs.Decode.{item_at};
ghost use Rattle.meta_trie.specs.Words.{Written, Linked};
ghost use Rattle.meta_trie.specs.Trie.{IsTrie, free_of, free_after};

use crate::buckets::bucket_by_hash;
use crate::free_links::free_by_link;
use crate::puts::put;
use row_words::layout::{
    ANCHOR_MARK, FREE_WORD, HEADER_WORDS, LENGTHS, LINK_PART, UPPER, USED_WORD,
};
use row_words::{ItemRow, RowsMut};

/// The word of a link, a length and a mark.
pub(crate) fn pack_link(next: u32, len: u32, is_anchor: bool) -> u64
    requires { len < LENGTHS }
    ensures next { result % UPPER ≡ next }
    ensures len { result / UPPER % LENGTHS ≡ len }
    ensures mark { (result / ANCHOR_MARK % 2 == 1) ≡ is_anchor }
{
    if is_anchor {
        next as u64 + len as u64 * UPPER + ANCHOR_MARK
    } else {
        next as u64 + len as u64 * UPPER
    }
}

/// The word of two leaves.
pub(crate) fn pack_sides(leftmost: u32, rightmost: u32) -> u64
    ensures first { result % UPPER ≡ leftmost }
    ensures last { result / UPPER ≡ rightmost }
{
    leftmost as u64 + rightmost as u64 * UPPER
}

/// Writes an item, its bucket's head and the two header words of the items.
fn write_item<R: RowsMut>(
    rows: &mut R,
    at: u32,
    bucket: u32,
    hash: u64,
    item: &ItemRow,
    next: u32,
    used: u64,
    free: u64,
)
    requires at { at < (R.shape rows.old).items }
    requires bucket { bucket < (R.shape rows.old).heads }
    requires len { item.now.len < LENGTHS }
    ensures words { Written (R.shape rows.old) (R.words rows.old) (R.words rows.new) at bucket hash next used free item.now }
    ensures shape { R.shape rows.new ≡ R.shape rows.old }
    ensures stays { R.stays rows.old rows.new }
{
    let base = rows.layout().item_word(at);
    let link = pack_link(next, item.len, item.is_anchor);
    let sides = pack_sides(item.leftmost, item.rightmost);
    let values = [
        hash,
        link,
        sides,
        item.bits[0],
        item.bits[1],
        item.bits[2],
        item.bits[3],
    ];
    put(rows, base, &values);
    put(rows, HEADER_WORDS + bucket, &[at as u64 + 1]);
    put(rows, USED_WORD, &[used, free]);
}

/// The place of the first free item.
fn first_free<R: RowsMut>(rows: &mut R) -> u32
    requires trie { IsTrie (R.shape rows.old) (R.words rows.old) }
    requires some { 0 < free_of (R.words rows.old) }
    ensures at { free_of (R.words rows.old) ≡ result + 1 }
    ensures range { result < (R.shape rows.old).items }
    ensures words { R.words rows.new ≡ R.words rows.old }
    ensures shape { R.shape rows.new ≡ R.shape rows.old }
    ensures stays { R.stays rows.old rows.new }
{
    (rows.word(FREE_WORD) - 1) as u32
}

/// The link of the item at a place: of one in a bucket the next item as place + 1, or 0.
pub(crate) fn next_of<R: RowsMut>(rows: &mut R, at: u32) -> u32
    requires { at < (R.shape rows.old).items }
    ensures next { result ≡ (item_at (R.shape rows.old) (R.words rows.old) at).next }
    ensures words { R.words rows.new ≡ R.words rows.old }
    ensures shape { R.shape rows.new ≡ R.shape rows.old }
    ensures stays { R.stays rows.old rows.new }
{
    let base = rows.layout().item_word(at);
    (rows.word(base + LINK_PART) % UPPER) as u32
}

/// The free item behind the free one at a place, as place + 1, or 0.
fn free_behind<R: RowsMut>(rows: &mut R, at: u32) -> u32
    requires { at < (R.shape rows.old).items }
    ensures free { result ≡ free_after (R.shape rows.old) (R.words rows.old) at }
    ensures words { R.words rows.new ≡ R.words rows.old }
    ensures shape { R.shape rows.new ≡ R.shape rows.old }
    ensures stays { R.stays rows.old rows.new }
{
    let items = rows.layout().items;
    let link = next_of(rows, at);
    free_by_link(items, at, link)
}

/// Makes the first free item that of this prefix, whose hash is given, at the front of its bucket.
pub(crate) fn link_item<R: RowsMut>(rows: &mut R, prefix: &[u8], hash: u64, item: &ItemRow) -> u32
    requires trie { IsTrie (R.shape rows.old) (R.words rows.old) }
    requires some { 0 < free_of (R.words rows.old) }
    requires hash { hash ≡ prefix_hash (R.shape rows.old).salt prefix.now }
    requires len { item.now.len ≡ length prefix.now }
    requires short { item.now.len < LENGTHS }
    ensures words { Linked (R.shape rows.old) (R.words rows.old) (R.words rows.new) result prefix.now item.now }
    ensures shape { R.shape rows.new ≡ R.shape rows.old }
    ensures stays { R.stays rows.old rows.new }
{
    let bucket = bucket_by_hash(hash, rows.heads());
    let at = first_free(rows);
    let next = rows.head(bucket);
    let used = rows.word(USED_WORD);
    let free = free_behind(rows, at);
    write_item(rows, at, bucket, hash, item, next, used + 1, free as u64);
    at
}
