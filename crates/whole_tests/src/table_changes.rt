//! Changes of a small table, and what the list of its anchors makes of them.

ghost use Rattle.std.specs.Prelude.{◌≡◌, ◌<◌, ◌≤◌, ℕ, length, true, OnOk, OnSome};
ghost use Rattle.row_words.specs.VecRows.{shape_of, words_of};
ghost use Rattle.meta_trie.specs.Stands.{StandsFor};

use anchor_rules::Anchors;
use key_bytes::Key;
use map_model::TableFull;
use meta_trie::{add_anchor, free_leaf, remove_anchor, start};
use prefix_search::locate;
use row_words::{AnchorWords, Shape, VecRows};
use std::alloc::{AllocError, Global};
use std::marker::Brand;
use std::sync::ledger::{Blank, Ledger};
use steps::Steps;

// So few leaves and items that both run out.
const SMALL: Shape = Shape {
    leaves: 10,
    items: 20,
    heads: 5,
    values: 1,
    lanes: 1,
    soft: 2,
    hard: 3,
    merge_sum: 1,
    salt: 3,
};

// What came of a change.
#[derive(Debug, Clone, Copy, PartialEq, Eq)]
enum Change {
    // An anchor came, with this leaf.
    Added(u32),
    // The anchor of this leaf went.
    Removed(u32),
    // The key is an anchor already.
    Kept,
    Refused(TableFull),
}

// Adds the key as an anchor to the table, with its least free leaf, and to the list.
fn add(rows: &mut VecRows, anchors: &mut Anchors, key: Key) -> Result<Change, AllocError>
    requires { StandsFor (shape_of rows.old) (words_of rows.old) anchors.old }
    ensures { OnOk result (StandsFor (shape_of rows.new) (words_of rows.new) anchors.new) }
{
    let leaf = match free_leaf(rows) {
        Ok(leaf) => leaf,
        Err(full) => return Ok(Change::Refused(full)),
    };
    let left = anchors.target(&key);
    if !anchors.splits(left, &key, leaf) {
        return Ok(Change::Kept);
    }
    match add_anchor(rows, left, &key, leaf) {
        Ok(()) => {
            anchors.with_split(left, key, leaf)?;
            Ok(Change::Added(leaf))
        }
        Err(full) => Ok(Change::Refused(full)),
    }
}

// Removes the right one of two neighbouring leaves from the table and from the list, if they are
// that.
fn remove(rows: &mut VecRows, anchors: &mut Anchors, left: u32, right: u32) -> Change
    requires { StandsFor (shape_of rows.old) (words_of rows.old) anchors.old }
    ensures { StandsFor (shape_of rows.new) (words_of rows.new) anchors.new }
{
    if !anchors.adjacent(left, right) {
        return Change::Kept;
    }
    remove_anchor(rows, right);
    anchors.with_merge(left, right);
    Change::Removed(right)
}

// What is to come of the key, by the list alone: all is counted one by one.
fn expected(anchors: &Anchors, key: &Key) -> Change {
    let Some(leaf) = least_free(anchors) else {
        return Change::Refused(TableFull::Leaves {
            used: number(anchors.len()),
            cap: SMALL.leaves,
        });
    };
    let bytes = key.bytes();
    let needed = fresh_count(anchors, anchors.len(), bytes);
    let free = SMALL.items.saturating_sub(prefix_count(anchors));
    if needed > free {
        return Change::Refused(TableFull::Items { needed, free });
    }
    if is_anchor(anchors, bytes) {
        return Change::Kept;
    }
    Change::Added(leaf)
}

fn number(n: usize) -> u32 {
    u32::try_from(n).unwrap_or(u32::MAX)
}

fn least_free(anchors: &Anchors) -> Option<u32> {
    for leaf in 0..SMALL.leaves {
        if anchors.place(leaf).is_none() {
            return Some(leaf);
        }
    }
    None
}

fn is_anchor(anchors: &Anchors, bytes: &[u8]) -> bool {
    for i in 0..anchors.len() {
        if anchors.anchor(i) == bytes {
            return true;
        }
    }
    false
}

// Whether one of the first anchors begins with these bytes.
fn is_prefix(anchors: &Anchors, first: usize, bytes: &[u8]) -> bool
    requires { first ≤ length anchors.now }
{
    for i in 0..first {
        if anchors.anchor(i).starts_with(bytes) {
            return true;
        }
    }
    false
}

// How many prefixes of the bytes are of none of the first anchors.
fn fresh_count(anchors: &Anchors, first: usize, bytes: &[u8]) -> u32
    requires { first ≤ length anchors.now }
{
    let mut count: u32 = 0;
    for len in 0..bytes.len() + 1 {
        if !is_prefix(anchors, first, &bytes[..len]) {
            count = count.saturating_add(1);
        }
    }
    count
}

// How many prefixes all anchors have.
fn prefix_count(anchors: &Anchors) -> u32 {
    let mut count: u32 = 0;
    for i in 0..anchors.len() {
        count = count.saturating_add(fresh_count(anchors, i, anchors.anchor(i)));
    }
    count
}

// Whether the key is located in the leaf in which the list has it, with the same end.
fn is_same_place<L: Ledger>(rows: &mut VecRows, anchors: &Anchors, key: &Key, blank: Blank) -> bool
    requires name { blank.name ≡ L.name }
    requires parts { blank.parts ≡ L.parts }
    requires some { 0 < blank.parts }
    requires table { StandsFor (shape_of rows.old) (words_of rows.old) anchors.now }
    ensures { StandsFor (shape_of rows.new) (words_of rows.new) anchors.now }
{
    let mut steps = Steps::<L>::new(blank);
    let located = locate(rows, key, &mut steps);
    let leaf = anchors.target(key);
    let (_, end) = anchors.span(leaf);
    located.leaf == leaf && is_same_end(&located.next, end)
}

fn is_same_end(next: &Option<AnchorWords>, end: Option<&[u8]>) -> bool {
    match (next, end) {
        (Some(next), Some(end)) => is_same(next, end),
        (None, None) => true,
        _ => false,
    }
}

fn is_same(anchor: &AnchorWords, bytes: &[u8]) -> bool {
    if anchor.len() != bytes.len() {
        return false;
    }
    for i in 0..anchor.len() {
        if anchor.byte(i) != bytes[i] {
            return false;
        }
    }
    true
}

// So for each of the keys.
fn are_same_places(rows: &mut VecRows, anchors: &Anchors, keys: &[Key]) -> bool
    requires { StandsFor (shape_of rows.old) (words_of rows.old) anchors.now }
    ensures { StandsFor (shape_of rows.new) (words_of rows.new) anchors.now }
{
    for i in 0..keys.len() {
        if !is_same_place::<Brand>(rows, anchors, &keys[i], Blank::new(1)) {
            return false;
        }
    }
    true
}

// The next of some mixed numbers, of which the high digits serve.
fn next_word(word: u64) -> u64 {
    word.wrapping_mul(6_364_136_223_846_793_005)
        .wrapping_add(1_442_695_040_888_963_407)
}

// A key of one to five letters, of three different ones.
fn key_of(alloc: Global, word: u64) -> Option<Key> {
    let mut rest = word / 1_048_576;
    let len = 1 + (rest % 5) as usize;
    let mut bytes = [b'a'; 5];
    for i in 0..5 {
        rest /= 5;
        bytes[i] = b'a' + (rest % 3) as u8;
    }
    Key::new(alloc, &bytes[..len]).ok()
}

fn some_keys(alloc: Global) -> Option<Vec<Key>> {
    let mut keys = Vec::new(alloc);
    let mut word = 7;
    for _ in 0..100 {
        word = next_word(word);
        keys.push(key_of(alloc, word)?).ok()?;
    }
    Some(keys)
}

// Changes the table and the list by this word, and tells what came of it beside what was to come.
fn change_both(
    rows: &mut VecRows,
    anchors: &mut Anchors,
    alloc: Global,
    word: u64,
) -> Option<(Change, Change)>
    requires { StandsFor (shape_of rows.old) (words_of rows.old) anchors.old }
    ensures { OnSome result (StandsFor (shape_of rows.new) (words_of rows.new) anchors.new) }
{
    let many = anchors.len();
    if many > 1 && word / 1_099_511_627_776 % 8 < 3 {
        let place = 1 + (word / 1_048_576) as usize % (many - 1);
        let right = anchors.leaf(place);
        let left = anchors.leaf(place - 1);
        return Some((remove(rows, anchors, left, right), Change::Removed(right)));
    }
    let key = key_of(alloc, word)?;
    let expected = expected(anchors, &key);
    match add(rows, anchors, key) {
        Ok(made) => Some((made, expected)),
        Err(_) => None,
    }
}

// Whether the table agrees with its list through 500 changes, among which all kinds are.
fn agrees_with_its_list(alloc: Global) -> bool {
    let Some(keys) = some_keys(alloc) else {
        return false;
    };
    let Ok(mut anchors) = Anchors::first(alloc, 0) else {
        return false;
    };
    let Ok(mut rows) = VecRows::new(alloc, &SMALL) else {
        return false;
    };
    start(&mut rows);
    let mut word = 1;
    let mut any_went = false;
    let mut leaves_ran_out = false;
    let mut items_ran_out = false;
    for _ in 0..500 {
        word = next_word(word);
        let Some((made, expected)) = change_both(&mut rows, &mut anchors, alloc, word) else {
            return false;
        };
        if made != expected || !are_same_places(&mut rows, &anchors, &keys) {
            return false;
        }
        any_went |= matches!(made, Change::Removed(_));
        leaves_ran_out |= matches!(made, Change::Refused(TableFull::Leaves { .. }));
        items_ran_out |= matches!(made, Change::Refused(TableFull::Items { .. }));
    }
    any_went && leaves_ran_out && items_ran_out
}

#[test]
fn a_table_agrees_with_its_list(rt: HostRuntime) {
    assert!(rt; agrees_with_its_list(rt.alloc()));
}
