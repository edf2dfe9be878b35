//! Rows of keys and values, and the tags by which they are found.
ghost use Rattle.std.specs.Prelude.{◌≡◌, ℕ, ◌+◌, ◌-◌, ◌<◌, ◌≤◌, List, [], false, true, length, take, drop, slice_index_or, MatchOption};
ghost use Rattle.std.specs.List.{Contains, swap_remove};
ghost use Rattle.key_bytes.specs.Order.{is_same};
ghost use Rattle.leaf_store.specs.Tag.{first_bits, tag_of};
ghost use Rattle.leaf_store.specs.Rows.{AreTags};

use key_bytes::{Key, prefix_hash};
use leaf_tags::Tags;

// The tag in a hash: the first 16 of its 64 bits.
pub(crate) fn first_bits(hash: u64) -> u16
    ensures { result ≡ first_bits hash }
{
    (hash >> 48) as u16
}

// A key's tag, that in its hash.
#[tactic(auto, unfolding(crate::specs::Tag::tag_of))]
pub(crate) fn tag_of(salt: u64, key: &Key) -> u16
    ensures { result ≡ tag_of salt key.now }
{
    first_bits(prefix_hash(salt, key.bytes()))
}

// Whether the row at a place has the key.
fn has_key<V>(rows: &[(Key, V)], place: usize, key: &Key) -> bool
    requires { place < length rows.now }
    ensures { (d : List ℕ × V) → result ≡ is_same (slice_index_or rows.now place d).0 key.now }
{
    rows[place].0.bytes() == key.bytes()
}

// The place of the row that has the key, among the rows of a tag.
pub(crate) fn place_of<V>(rows: &[(Key, V)], tags: &Tags, tag: u16, key: &Key) -> Option<usize>
    requires { (place : ℕ) → Contains tags.now.pairs (tag, place) → place < length rows.now }
    ensures { MatchOption result ((place : ℕ) (d : List ℕ × V) → Contains tags.now.pairs (tag, place) → is_same (slice_index_or rows.now place d).0 key.now ≡ false) (λ place. (place < length rows.now) × ((d : List ℕ × V) → is_same (slice_index_or rows.now place d).0 key.now ≡ true)) }
{
    tags.find(
        tag,
        |place: usize| -> bool
            requires { place < length rows.now }
            ensures { (d : List ℕ × V) → result ≡ is_same (slice_index_or rows.entry.now place d).0 key.entry.now }
        { has_key(rows, place, key) },
    )
}

// Takes out the tag of a row that is about to be exchanged for the last one.
pub(crate) fn take_tag<V>(tags: &mut Tags, rows: &[(Key, V)], salt: u64, tag: u16, place: usize)
    requires tags { AreTags salt rows.now tags.old.pairs }
    requires in_range { place < length rows.now }
    requires tag { (d : List ℕ × V) → tag ≡ tag_of salt (slice_index_or rows.now place d).0 }
    ensures tags { (d : List ℕ × V) → AreTags salt (swap_remove rows.now place d) tags.new.pairs }
    ensures spare { tags.old.spare ≤ tags.new.spare }
{
    let last = tags.len() - 1;
    tags.remove(tag, place);
    if place < last {
        tags.moved(tag_of(salt, &rows[last].0), last, place);
    }
}

// Adds the tags of the rows behind those whose tags are there.
pub(crate) fn add_tags<V>(tags: &mut Tags, rows: &[(Key, V)], salt: u64)
    requires tags { AreTags salt (take (length tags.old.pairs) rows.now) tags.old.pairs }
    requires in_range { length tags.old.pairs ≤ length rows.now }
    requires room { length rows.now - length tags.old.pairs ≤ tags.old.spare }
    ensures tags { AreTags salt rows.now tags.new.pairs }
    ensures spare { tags.old.spare ≤ tags.new.spare + (length rows.now - length tags.old.pairs) }
{
    for place in tags.len()..rows.len() {
        tags.add(tag_of(salt, &rows[place].0), place);
    }
}

// Makes the tags those of rows that have moved, in the room of the old ones.
pub(crate) fn retag<V>(tags: &mut Tags, rows: &[(Key, V)], salt: u64)
    requires { length rows.now ≤ length tags.old.pairs + tags.old.spare }
    ensures tags { AreTags salt rows.now tags.new.pairs }
    ensures spare { length tags.old.pairs + tags.old.spare ≤ length rows.now + tags.new.spare }
{
    tags.clear();
    add_tags(tags, rows, salt);
}

// Cuts the tags of rows at a place: those of the first rows stay, and the others go to `right`,
// which has none, under its own salt. Under equal salts they move as they are, and no key is hashed.
pub(crate) fn cut_tags<V>(
    tags: &mut Tags,
    rows: &[(Key, V)],
    salt: u64,
    stay: usize,
    right: &mut Tags,
    right_salt: u64,
)
    requires tags { AreTags salt rows.now tags.old.pairs }
    requires in_range { stay ≤ length rows.now }
    requires empty { right.old.pairs ≡ [] }
    requires room { length rows.now - stay ≤ right.old.spare }
    ensures stay { AreTags salt (take stay rows.now) tags.new.pairs }
    ensures go { AreTags right_salt (drop stay rows.now) right.new.pairs }
    ensures spare { tags.old.spare ≤ tags.new.spare }
{
    if salt == right_salt {
        tags.split_off(stay, right);
    } else {
        tags.truncate(stay);
        retag(right, &rows[stay..], right_salt);
    }
}
