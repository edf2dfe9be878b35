//! Taking an item out of its bucket, as an anchor that goes will.

ghost use Rattle.std.specs.Prelude.{◌≡◌, ◌≢◌, ◌<◌, ◌≤◌, ◌+◌, ◌-◌, ◌/◌, ◌%◌};
ghost use Rattle.meta_trie.specs.Trie.{free_of, used_of};
ghost use Rattle.meta_trie.specs.Words.{NextSet, Relinked, Unlinked};

use crate::free_links::free_link;
use crate::links::next_of;
use crate::puts::put;
use row_words::RowsMut;
use row_words::layout::{FREE_WORD, HEADER_WORDS, LINK_PART, UPPER, USED_WORD};

/// The word with another link in its low half.
fn with_next(word: u64, next: u32) -> u64
    ensures next { result % UPPER ≡ next }
    ensures rest { result / UPPER ≡ word / UPPER }
{
    word / UPPER * UPPER + next as u64
}

/// Links the item at a place to another one.
fn set_next<R: RowsMut>(rows: &mut R, at: u32, next: u32)
    requires { at < (R.shape rows.old).items }
    ensures words { NextSet (R.shape rows.old) (R.words rows.old) (R.words rows.new) at next }
    ensures shape { R.shape rows.new ≡ R.shape rows.old }
    ensures stays { R.stays rows.old rows.new }
{
    let place = rows.layout().item_word(at) + LINK_PART;
    let word = rows.word(place);
    rows.set_word(place, with_next(word, next));
}

/// Makes the link before the rest of a bucket name another item: that of the item before, given as
/// place + 1, or the head of the bucket where `before` is 0.
fn relink<R: RowsMut>(rows: &mut R, before: u32, bucket: u32, next: u32)
    requires before { before ≤ (R.shape rows.old).items }
    requires bucket { bucket < (R.shape rows.old).heads }
    ensures words { Relinked (R.shape rows.old) (R.words rows.old) (R.words rows.new) before bucket next }
    ensures shape { R.shape rows.new ≡ R.shape rows.old }
    ensures stays { R.stays rows.old rows.new }
{
    if before == 0 {
        rows.set_word(HEADER_WORDS + bucket, next as u64);
        return;
    }
    set_next(rows, before - 1, next);
}

/// Takes the item at a place out of its bucket, from behind a link, and makes it the first free one.
pub(crate) fn unlink_item<R: RowsMut>(rows: &mut R, at: u32, before: u32, bucket: u32)
    requires at { at < (R.shape rows.old).items }
    requires before { before ≤ (R.shape rows.old).items }
    requires apart { before ≢ at + 1 }
    requires bucket { bucket < (R.shape rows.old).heads }
    requires used { 0 < used_of (R.words rows.old) }
    requires free { free_of (R.words rows.old) < UPPER - 1 }
    ensures words { Unlinked (R.shape rows.old) (R.words rows.old) (R.words rows.new) at before bucket }
    ensures shape { R.shape rows.new ≡ R.shape rows.old }
    ensures stays { R.stays rows.old rows.new }
{
    let link = free_link(rows.word(FREE_WORD) as u32);
    let used = rows.word(USED_WORD);
    let next = next_of(rows, at);
    relink(rows, before, bucket, next);
    relink(rows, at + 1, bucket, link);
    put(rows, USED_WORD, &[used - 1, at as u64 + 1]);
}
