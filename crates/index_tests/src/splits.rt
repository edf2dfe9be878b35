//! Splits and merges by two lanes, over keys that one of them puts and takes out.

ghost use Rattle.std.specs.Prelude.{◌≡◌, ◌<◌, IsSome};
ghost use Rattle.board_rule.specs.Passes.{view, IsOf};
ghost use Rattle.worm_index.specs.Idle.{IsIdle};

use crate::keys::{locate, put, refusal, take, tend, word};
use board_rule::{Board, Pass};
use key_bytes::{Bytes, Key};
use map_model::Again;
use row_words::Shape;
use split_merge::{TendFault, Tended};
use std::alloc::Global;
use std::marker::Brand;
use std::sync::ledger::{Blank, Ledger};
use steps::Steps;
use twin_tables::pin;
use worm_index::{Index, fork};

const SMALL: Shape = Shape {
    leaves: 4,
    items: 16,
    heads: 4,
    values: 16,
    lanes: 2,
    soft: 2,
    hard: 4,
    merge_sum: 1,
    salt: 7,
};

// Three keys, and a value for each.
#[derive(Drop)]
struct Keys {
    a: Key,
    b: Key,
    c: Key,
    value: Bytes,
}

fn three_keys(alloc: Global) -> Option<Keys> {
    match (
        Key::new(alloc, b"a"),
        Key::new(alloc, b"b"),
        Key::new(alloc, b"c"),
        Bytes::copied(alloc, b"1"),
    ) {
        (Ok(a), Ok(b), Ok(c), Ok(value)) => Some(Keys { a, b, c, value }),
        _ => None,
    }
}

// Puts the second and the third key.
fn puts_two<L: Ledger>(pass: &mut Pass, board: &Board, keys: &Keys, steps: &mut Steps<L>) -> bool
    requires of { IsOf board.now pass.old }
    requires lane { IsSome pass.old.lane }
    requires idle { IsIdle (view pass.old) }
    ensures of { IsOf board.now pass.new }
    ensures lane { pass.new.lane ≡ pass.old.lane }
    ensures idle { IsIdle (view pass.new) }
{
    put(pass, board, &keys.b, &keys.value, steps) && put(pass, board, &keys.c, &keys.value, steps)
}

// Takes the second and the third key out.
fn takes_two<L: Ledger>(pass: &mut Pass, board: &Board, keys: &Keys, steps: &mut Steps<L>) -> bool
    requires of { IsOf board.now pass.old }
    requires lane { IsSome pass.old.lane }
    requires idle { IsIdle (view pass.old) }
    ensures of { IsOf board.now pass.new }
    ensures lane { pass.new.lane ≡ pass.old.lane }
    ensures idle { IsIdle (view pass.new) }
{
    take(pass, board, &keys.b, steps) && take(pass, board, &keys.c, steps)
}

// Whether tending the leaf of the first key does this.
fn tends_to<L: Ledger>(
    pass: &mut Pass,
    board: &Board,
    keys: &Keys,
    tended: Tended,
    steps: &mut Steps<L>,
) -> bool
    requires of { IsOf board.now pass.old }
    requires lane { IsSome pass.old.lane }
    requires idle { IsIdle (view pass.old) }
    ensures of { IsOf board.now pass.new }
    ensures lane { pass.new.lane ≡ pass.old.lane }
    ensures idle { IsIdle (view pass.new) }
{
    match tend(pass, board, &keys.a, steps) {
        Ok(did) => did == tended,
        Err(_) => false,
    }
}

// Whether a key is in this leaf by this version.
fn is_at<L: Ledger>(
    pass: &mut Pass,
    board: &Board,
    key: &Key,
    leaf: u32,
    version: u64,
    steps: &mut Steps<L>,
) -> bool
    requires of { IsOf board.now pass.old }
    requires lane { IsSome pass.old.lane }
    requires idle { IsIdle (view pass.old) }
    ensures of { IsOf board.now pass.new }
    ensures lane { pass.new.lane ≡ pass.old.lane }
    ensures idle { IsIdle (view pass.new) }
{
    match locate(pass, board, key, steps) {
        Ok(place) => place.leaf == leaf && place.version == version,
        Err(_) => false,
    }
}

// Three keys are split: the third one goes to leaf 1.
fn splits<L: Ledger>(pass: &mut Pass, board: &Board, keys: &Keys, steps: &mut Steps<L>) -> bool
    requires of { IsOf board.now pass.old }
    requires lane { IsSome pass.old.lane }
    requires idle { IsIdle (view pass.old) }
    ensures of { IsOf board.now pass.new }
    ensures lane { pass.new.lane ≡ pass.old.lane }
    ensures idle { IsIdle (view pass.new) }
{
    let put_one = put(pass, board, &keys.a, &keys.value, steps);
    let put_two = puts_two(pass, board, keys, steps);
    let split = tends_to(pass, board, keys, Tended::Split, steps);
    let left = is_at(pass, board, &keys.b, 0, 1, steps);
    let right = is_at(pass, board, &keys.c, 1, 1, steps);
    put_one && put_two && split && left && right
}

// Without two of the keys the leaves are merged.
fn merges<L: Ledger>(pass: &mut Pass, board: &Board, keys: &Keys, steps: &mut Steps<L>) -> bool
    requires of { IsOf board.now pass.old }
    requires lane { IsSome pass.old.lane }
    requires idle { IsIdle (view pass.old) }
    ensures of { IsOf board.now pass.new }
    ensures lane { pass.new.lane ≡ pass.old.lane }
    ensures idle { IsIdle (view pass.new) }
{
    let taken = takes_two(pass, board, keys, steps);
    let merged = tends_to(pass, board, keys, Tended::Merged, steps);
    let left = is_at(pass, board, &keys.c, 0, 2, steps);
    taken && merged && left
}

// Whether tending is refused since this table has one pin.
fn finds_pin<L: Ledger>(pass: &mut Pass, board: &Board, keys: &Keys, steps: &mut Steps<L>) -> bool
    requires of { IsOf board.now pass.old }
    requires lane { IsSome pass.old.lane }
    requires idle { IsIdle (view pass.old) }
    ensures of { IsOf board.now pass.new }
    ensures lane { pass.new.lane ≡ pass.old.lane }
    ensures idle { IsIdle (view pass.new) }
{
    let pinned = Again::Pinned { table: 1, pins: 1 };
    match tend(pass, board, &keys.a, steps) {
        Ok(_) => false,
        Err(fault) => fault == TendFault::Again(pinned),
    }
}

// While a lane has the table of version 1 pinned, another one can merge, which changes the other
// table, but not split again; when the pin is taken back it can.
fn pin_keeps_its_table<L: Ledger>(
    first: &mut Pass,
    second: &mut Pass,
    board: &Board,
    keys: &Keys,
    steps: &mut Steps<L>,
) -> bool
    requires of { IsOf board.now first.old × IsOf board.now second.old }
    requires lanes { IsSome first.old.lane × IsSome second.old.lane }
    requires idle { IsIdle (view first.old) × IsIdle (view second.old) }
    ensures of { IsOf board.now first.new }
    ensures lane { first.new.lane ≡ first.old.lane }
    ensures idle { IsIdle (view first.new) }
{
    let Ok(pinned) = pin(second, board) else {
        return false;
    };
    let version = pinned.version();
    let merged = merges(first, board, keys, steps);
    let put_two = puts_two(first, board, keys, steps);
    let hindered = finds_pin(first, board, keys, steps);
    pinned.unpin();
    let split = tends_to(first, board, keys, Tended::Split, steps);
    let right = is_at(first, board, &keys.c, 1, 3, steps);
    version == 1 && merged && put_two && hindered && split && right
}

fn pin_outlasts_a_merge<L: Ledger>(alloc: Global, blank: Blank) -> bool
    requires name { blank.name ≡ L.name }
    requires parts { blank.parts ≡ L.parts }
    requires some { 0 < blank.parts }
{
    let mut steps = Steps::<L>::new(blank);
    let Some(keys) = three_keys(alloc) else {
        return false;
    };
    let Ok((index, mut first)) = Index::make(alloc, &SMALL) else {
        return false;
    };
    let Ok(mut second) = fork(&mut first, alloc, &index) else {
        return false;
    };
    let board = index.board();
    splits(&mut first, board, &keys, &mut steps)
        && pin_keeps_its_table(&mut first, &mut second, board, &keys, &mut steps)
}

// A lane that sought the third key before a split is refused the leaf that it found, since the
// leaf's span is another one from version 1 on.
fn stale_after_a_split<L: Ledger>(alloc: Global, blank: Blank) -> bool
    requires name { blank.name ≡ L.name }
    requires parts { blank.parts ≡ L.parts }
    requires some { 0 < blank.parts }
{
    let mut steps = Steps::<L>::new(blank);
    let Some(keys) = three_keys(alloc) else {
        return false;
    };
    let Ok((index, mut first)) = Index::make(alloc, &SMALL) else {
        return false;
    };
    let Ok(mut second) = fork(&mut first, alloc, &index) else {
        return false;
    };
    let board = index.board();
    let Ok(place) = locate(&mut second, board, &keys.c, &mut steps) else {
        return false;
    };
    let split = splits(&mut first, board, &keys, &mut steps);
    let stale = Again::Stale {
        leaf: 0,
        expected: 1,
        searched: 0,
    };
    split && refusal(&mut second, board, place, &mut steps) == Some(stale)
}

// The word of a leaf tells the version from which on it has its span, also after a merge took it out
// of the table: 256 times that, while no lane holds it.
fn words_tell_versions<L: Ledger>(alloc: Global, blank: Blank) -> bool
    requires name { blank.name ≡ L.name }
    requires parts { blank.parts ≡ L.parts }
    requires some { 0 < blank.parts }
{
    let mut steps = Steps::<L>::new(blank);
    let Some(keys) = three_keys(alloc) else {
        return false;
    };
    let Ok((index, mut pass)) = Index::make(alloc, &SMALL) else {
        return false;
    };
    let board = index.board();
    let split = splits(&mut pass, board, &keys, &mut steps);
    let live = word(&mut pass, board, 1);
    let merged = merges(&mut pass, board, &keys, &mut steps);
    let dead = word(&mut pass, board, 1);
    let put_two = puts_two(&mut pass, board, &keys, &mut steps);
    let again = tends_to(&mut pass, board, &keys, Tended::Split, &mut steps);
    let used = word(&mut pass, board, 1);
    split && live == 256 && merged && dead == 512 && put_two && again && used == 768
}

// The only leaf of a new index has no key and no neighbour, so it is let be.
fn only_leaf_is_let_be<L: Ledger>(alloc: Global, blank: Blank) -> bool
    requires name { blank.name ≡ L.name }
    requires parts { blank.parts ≡ L.parts }
    requires some { 0 < blank.parts }
{
    let mut steps = Steps::<L>::new(blank);
    let Some(keys) = three_keys(alloc) else {
        return false;
    };
    let Ok((index, mut pass)) = Index::make(alloc, &SMALL) else {
        return false;
    };
    tends_to(&mut pass, index.board(), &keys, Tended::Nothing, &mut steps)
}

fn let_be_row(alloc: Global) -> bool {
    only_leaf_is_let_be::<Brand>(alloc, Blank::new(1))
}

fn pin_row(alloc: Global) -> bool {
    pin_outlasts_a_merge::<Brand>(alloc, Blank::new(1))
}

fn stale_row(alloc: Global) -> bool {
    stale_after_a_split::<Brand>(alloc, Blank::new(1))
}

fn word_row(alloc: Global) -> bool {
    words_tell_versions::<Brand>(alloc, Blank::new(1))
}

#[test]
fn splits_and_merges_beside_another_lane(rt: HostRuntime) {
    assert!(&rt; let_be_row(rt.alloc()));
    assert!(&rt; pin_row(rt.alloc()));
    assert!(&rt; stale_row(rt.alloc()));
    assert!(&rt; word_row(rt.alloc()));
}
