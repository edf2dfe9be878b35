//! Splits and merges that puts and dels bring about, as the parts of a range show them.

ghost use Rattle.std.specs.Prelude.{◌≡◌, ◌<◌, IsSome};
ghost use Rattle.board_rule.specs.Passes.{view, IsOf};
ghost use Rattle.worm_index.specs.Idle.{IsIdle};

use board_rule::Pass;
use key_bytes::{Bound, Key};
use map_model::{Again, Full, Page, TableFull};
use row_words::Shape;
use std::alloc::Global;
use std::cmp::Ordering;
use std::marker::Brand;
use std::sync::ledger::{Blank, Ledger};
use steps::Steps;
use twin_tables::{give_turn, take_turn};
use worm_index::{Index, PutFault, fork, try_del, try_few, try_part, try_put};

const SMALL: Shape = Shape {
    leaves: 4,
    items: 16,
    heads: 4,
    values: 16,
    lanes: 2,
    soft: 2,
    hard: 4,
    merge_sum: 1,
    salt: 7,
};

// Whether the lowest part of the index has so many pairs and ends there.
fn lowest_part_is<L: Ledger>(
    alloc: Global,
    pass: &mut Pass,
    index: &Index,
    count: usize,
    end: &Bound,
    steps: &mut Steps<L>,
) -> bool
    requires of { IsOf index.now.board pass.old }
    requires lane { IsSome pass.old.lane }
    requires idle { IsIdle (view pass.old) }
    ensures of { IsOf index.now.board pass.new }
    ensures lane { pass.new.lane ≡ pass.old.lane }
    ensures idle { IsIdle (view pass.new) }
{
    let mut page = Page::new(alloc);
    match try_part(pass, index, &Bound::Low, &Bound::High, &mut page, steps) {
        Ok(upto) => page.len() == count && upto.order(end) == Ordering::Equal,
        Err(_) => false,
    }
}

// Whether the lowest part of at most so many pairs has just as many and ends there.
fn lowest_few_are<L: Ledger>(
    alloc: Global,
    pass: &mut Pass,
    index: &Index,
    most: usize,
    end: &Bound,
    steps: &mut Steps<L>,
) -> bool
    requires of { IsOf index.now.board pass.old }
    requires lane { IsSome pass.old.lane }
    requires idle { IsIdle (view pass.old) }
    requires some { 0 < most }
    ensures of { IsOf index.now.board pass.new }
    ensures lane { pass.new.lane ≡ pass.old.lane }
    ensures idle { IsIdle (view pass.new) }
{
    let mut page = Page::new(alloc);
    match try_few(
        pass,
        index,
        &Bound::Low,
        &Bound::High,
        most,
        &mut page,
        steps,
    ) {
        Ok(upto) => page.len() == most && upto.order(end) == Ordering::Equal,
        Err(_) => false,
    }
}

// Of a leaf's two pairs one is wanted, and then both.
fn few_end_at_the_next_key<L: Ledger>(
    alloc: Global,
    pass: &mut Pass,
    index: &Index,
    blank: Blank,
) -> bool
    requires of { IsOf index.now.board pass.old }
    requires lane { IsSome pass.old.lane }
    requires idle { IsIdle (view pass.old) }
    requires name { blank.name ≡ L.name }
    requires parts { blank.parts ≡ L.parts }
    requires some { 0 < blank.parts }
{
    let mut steps = Steps::<L>::new(blank);
    let (Ok(a), Ok(b), Ok(next)) = (
        Key::new(alloc, b"a"),
        Key::new(alloc, b"b"),
        Key::new(alloc, b"b"),
    ) else {
        return false;
    };
    let first = try_put(pass, index, &a, b"1", &mut steps) == Ok(true);
    let second = try_put(pass, index, &b, b"2", &mut steps) == Ok(true);
    let one = lowest_few_are(alloc, pass, index, 1, &Bound::At(next), &mut steps);
    let both = lowest_few_are(alloc, pass, index, 2, &Bound::High, &mut steps);
    first && second && one && both
}

fn few_pairs_of_a_leaf(alloc: Global) -> bool {
    let Ok((index, mut pass)) = Index::make(alloc, &SMALL) else {
        return false;
    };
    few_end_at_the_next_key::<Brand>(alloc, &mut pass, &index, Blank::new(1))
}

// Three keys are one too many for a leaf; a leaf with one key and its neighbour with one are too many
// to be merged, and with none they aren't.
fn keys_come_and_go<L: Ledger>(alloc: Global, pass: &mut Pass, index: &Index, blank: Blank) -> bool
    requires of { IsOf index.now.board pass.old }
    requires lane { IsSome pass.old.lane }
    requires idle { IsIdle (view pass.old) }
    requires name { blank.name ≡ L.name }
    requires parts { blank.parts ≡ L.parts }
    requires some { 0 < blank.parts }
{
    let mut steps = Steps::<L>::new(blank);
    let (Ok(a), Ok(b), Ok(c), Ok(end)) = (
        Key::new(alloc, b"a"),
        Key::new(alloc, b"b"),
        Key::new(alloc, b"c"),
        Key::new(alloc, b"c"),
    ) else {
        return false;
    };
    let end = Bound::At(end);
    let first = try_put(pass, index, &a, b"1", &mut steps) == Ok(true);
    let second = try_put(pass, index, &b, b"2", &mut steps) == Ok(true);
    let third = try_put(pass, index, &c, b"3", &mut steps) == Ok(true);
    let split = lowest_part_is(alloc, pass, index, 2, &end, &mut steps);
    let again = try_put(pass, index, &a, b"4", &mut steps) == Ok(false);
    let gone = try_del(pass, index, &b, &mut steps) == Ok(true);
    let apart = lowest_part_is(alloc, pass, index, 1, &end, &mut steps);
    let last = try_del(pass, index, &c, &mut steps) == Ok(true);
    let merged = lowest_part_is(alloc, pass, index, 1, &Bound::High, &mut steps);
    first && second && third && split && again && gone && apart && last && merged
}

fn splits_and_merges(alloc: Global) -> bool {
    let Ok((index, mut pass)) = Index::make(alloc, &SMALL) else {
        return false;
    };
    keys_come_and_go::<Brand>(alloc, &mut pass, &index, Blank::new(1))
}

// A leaf that can't be split takes as many keys as it may have, and then only values of keys that it
// has.
fn leaf_is_crowded<L: Ledger>(
    alloc: Global,
    pass: &mut Pass,
    index: &Index,
    want: PutFault,
    blank: Blank,
) -> bool
    requires of { IsOf index.now.board pass.old }
    requires lane { IsSome pass.old.lane }
    requires idle { IsIdle (view pass.old) }
    requires name { blank.name ≡ L.name }
    requires parts { blank.parts ≡ L.parts }
    requires some { 0 < blank.parts }
{
    let mut steps = Steps::<L>::new(blank);
    let (Ok(a), Ok(b), Ok(c), Ok(d)) = (
        Key::new(alloc, b"a"),
        Key::new(alloc, b"b"),
        Key::new(alloc, b"c"),
        Key::new(alloc, b"d"),
    ) else {
        return false;
    };
    let first = try_put(pass, index, &a, b"1", &mut steps) == Ok(true);
    let second = try_put(pass, index, &b, b"2", &mut steps) == Ok(true);
    let third = try_put(pass, index, &c, b"3", &mut steps) == Ok(true);
    let fourth = try_put(pass, index, &d, b"4", &mut steps) == Err(want);
    let again = try_put(pass, index, &b, b"5", &mut steps) == Ok(false);
    first && second && third && fourth && again
}

// A table of one leaf has no room for a split.
fn one_leaf_is_crowded(alloc: Global) -> bool {
    let lone = Shape {
        leaves: 1,
        hard: 3,
        ..SMALL
    };
    let Ok((index, mut pass)) = Index::make(alloc, &lone) else {
        return false;
    };
    let want = PutFault::Full(Full::Crowded {
        count: 3,
        hard: 3,
        why: TableFull::Leaves { used: 1, cap: 1 },
    });
    leaf_is_crowded::<Brand>(alloc, &mut pass, &index, want, Blank::new(1))
}

// A lane that has the turn keeps another from splitting.
fn turn_keeps_a_leaf_crowded(alloc: Global) -> bool {
    let few = Shape { hard: 3, ..SMALL };
    let Ok((index, mut first)) = Index::make(alloc, &few) else {
        return false;
    };
    let Ok(mut second) = fork(&mut first, alloc, &index) else {
        return false;
    };
    let Ok(turn) = take_turn(&mut second, index.board()) else {
        return false;
    };
    let want = PutFault::Again(Again::Turn { holder: 1 });
    let crowded = leaf_is_crowded::<Brand>(alloc, &mut first, &index, want, Blank::new(1));
    give_turn(&mut second, index.board(), turn);
    crowded
}

#[test]
fn keys_of_a_small_index(rt: HostRuntime) {
    assert!(&rt; splits_and_merges(rt.alloc()));
    assert!(&rt; few_pairs_of_a_leaf(rt.alloc()));
    assert!(&rt; one_leaf_is_crowded(rt.alloc()));
    assert!(&rt; turn_keeps_a_leaf_crowded(rt.alloc()));
}
