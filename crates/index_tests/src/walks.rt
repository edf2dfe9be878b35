//! Walks over a range of keys, a part at a time.

ghost use Rattle.std.specs.Prelude.{◌≡◌, ◌<◌, IsSome};
ghost use Rattle.board_rule.specs.Passes.{view, IsOf};
ghost use Rattle.worm_index.specs.Idle.{IsIdle};

use board_rule::Pass;
use key_bytes::{Bound, Key};
use map_model::Page;
use row_words::Shape;
use std::alloc::Global;
use std::cmp::Ordering;
use std::marker::Brand;
use std::sync::ledger::{Blank, Ledger};
use steps::Steps;
use twin_tables::{give_turn, take_turn};
use worm_index::{Cursor, Index, fork, try_put};

const SMALL: Shape = Shape {
    leaves: 4,
    items: 16,
    heads: 4,
    values: 16,
    lanes: 2,
    soft: 2,
    hard: 4,
    merge_sum: 1,
    salt: 7,
};

// Whether a walk has one part, without pairs, up to the range's end, and then is over.
fn has_one_empty_part<L: Ledger>(
    alloc: Global,
    pass: &mut Pass,
    index: &Index,
    mut cursor: Cursor,
    end: &Bound,
    blank: Blank,
) -> bool
    requires of { IsOf index.now.board pass.old }
    requires lane { IsSome pass.old.lane }
    requires idle { IsIdle (view pass.old) }
    requires name { blank.name ≡ L.name }
    requires parts { blank.parts ≡ L.parts }
    requires some { 0 < blank.parts }
    ensures of { IsOf index.now.board pass.new }
    ensures lane { pass.new.lane ≡ pass.old.lane }
    ensures idle { IsIdle (view pass.new) }
{
    let mut steps = Steps::<L>::new(blank);
    let mut page = Page::new(alloc);
    let first = cursor.next(pass, index, &mut page, &mut steps);
    let is_part = first == Ok(true) && page.len() == 0;
    let at_end = cursor.place().order(end) == Ordering::Equal;
    let second = cursor.next(pass, index, &mut page, &mut steps);
    is_part && at_end && second == Ok(false)
}

// An empty index has one part, up to the range's end.
fn walks_over_nothing(alloc: Global) -> bool {
    let Ok((index, mut pass)) = Index::make(alloc, &SMALL) else {
        return false;
    };
    let all = Cursor::new(Bound::Low, Bound::High);
    has_one_empty_part::<Brand>(alloc, &mut pass, &index, all, &Bound::High, Blank::new(1))
}

// So it has from one key up to another, also while another lane has the turn.
fn walks_beside_a_turn(alloc: Global) -> bool {
    let (Ok(from), Ok(to), Ok(end)) = (
        Key::new(alloc, b"a"),
        Key::new(alloc, b"b"),
        Key::new(alloc, b"b"),
    ) else {
        return false;
    };
    let Ok((index, mut first)) = Index::make(alloc, &SMALL) else {
        return false;
    };
    let Ok(mut second) = fork(&mut first, alloc, &index) else {
        return false;
    };
    let Ok(turn) = take_turn(&mut second, index.board()) else {
        return false;
    };
    let range = Cursor::new(Bound::At(from), Bound::At(to));
    let end = Bound::At(end);
    let one = has_one_empty_part::<Brand>(alloc, &mut first, &index, range, &end, Blank::new(1));
    give_turn(&mut second, index.board(), turn);
    one
}

// A range from an end to itself has no part.
fn empty_range_has_no_part<L: Ledger>(
    alloc: Global,
    pass: &mut Pass,
    index: &Index,
    blank: Blank,
) -> bool
    requires of { IsOf index.now.board pass.old }
    requires lane { IsSome pass.old.lane }
    requires idle { IsIdle (view pass.old) }
    requires name { blank.name ≡ L.name }
    requires parts { blank.parts ≡ L.parts }
    requires some { 0 < blank.parts }
{
    let mut steps = Steps::<L>::new(blank);
    let mut page = Page::new(alloc);
    let mut cursor = Cursor::new(Bound::High, Bound::High);
    cursor.next(pass, index, &mut page, &mut steps) == Ok(false)
}

fn walks_over_no_range(alloc: Global) -> bool {
    let Ok((index, mut pass)) = Index::make(alloc, &SMALL) else {
        return false;
    };
    empty_range_has_no_part::<Brand>(alloc, &mut pass, &index, Blank::new(1))
}

// Puts a new key.
fn puts_key<L: Ledger>(
    alloc: Global,
    pass: &mut Pass,
    index: &Index,
    text: &[u8],
    steps: &mut Steps<L>,
) -> bool
    requires of { IsOf index.now.board pass.old }
    requires lane { IsSome pass.old.lane }
    requires idle { IsIdle (view pass.old) }
    ensures of { IsOf index.now.board pass.new }
    ensures lane { pass.new.lane ≡ pass.old.lane }
    ensures idle { IsIdle (view pass.new) }
{
    let Ok(key) = Key::new(alloc, text) else {
        return false;
    };
    try_put(pass, index, &key, text, steps) == Ok(true)
}

// Whether the next part of a walk has this many pairs, from this key on, and ends there.
fn next_part_is<L: Ledger>(
    pass: &mut Pass,
    index: &Index,
    cursor: &mut Cursor,
    page: &mut Page,
    count: usize,
    first: &[u8],
    end: &Bound,
    steps: &mut Steps<L>,
) -> bool
    requires of { IsOf index.now.board pass.old }
    requires lane { IsSome pass.old.lane }
    requires idle { IsIdle (view pass.old) }
    ensures of { IsOf index.now.board pass.new }
    ensures lane { pass.new.lane ≡ pass.old.lane }
    ensures idle { IsIdle (view pass.new) }
{
    let given = cursor.next(pass, index, page, steps) == Ok(true);
    let many = page.len();
    let starts = many > 0 && page.key(0) == first;
    let ends = cursor.place().order(end) == Ordering::Equal;
    given && many == count && starts && ends
}

// Three keys are one too many for a leaf. So a walk has two parts, and then is over.
fn has_two_parts<L: Ledger>(alloc: Global, pass: &mut Pass, index: &Index, blank: Blank) -> bool
    requires of { IsOf index.now.board pass.old }
    requires lane { IsSome pass.old.lane }
    requires idle { IsIdle (view pass.old) }
    requires name { blank.name ≡ L.name }
    requires parts { blank.parts ≡ L.parts }
    requires some { 0 < blank.parts }
{
    let mut steps = Steps::<L>::new(blank);
    let Ok(middle) = Key::new(alloc, b"c") else {
        return false;
    };
    let middle = Bound::At(middle);
    let high = Bound::High;
    let one = puts_key(alloc, pass, index, b"a", &mut steps);
    let two = puts_key(alloc, pass, index, b"b", &mut steps);
    let three = puts_key(alloc, pass, index, b"c", &mut steps);
    let mut page = Page::new(alloc);
    let mut cursor = Cursor::new(Bound::Low, Bound::High);
    let left = next_part_is(
        pass,
        index,
        &mut cursor,
        &mut page,
        2,
        b"a",
        &middle,
        &mut steps,
    );
    let right = next_part_is(
        pass,
        index,
        &mut cursor,
        &mut page,
        1,
        b"c",
        &high,
        &mut steps,
    );
    let over = cursor.next(pass, index, &mut page, &mut steps) == Ok(false);
    one && two && three && left && right && over
}

fn split_walks(alloc: Global) -> bool {
    let Ok((index, mut pass)) = Index::make(alloc, &SMALL) else {
        return false;
    };
    has_two_parts::<Brand>(alloc, &mut pass, &index, Blank::new(1))
}

#[test]
fn walks_of_an_empty_index(rt: HostRuntime) {
    assert!(&rt; walks_over_nothing(rt.alloc()));
    assert!(&rt; walks_beside_a_turn(rt.alloc()));
    assert!(&rt; walks_over_no_range(rt.alloc()));
}

#[test]
fn walks_of_a_split_leaf(rt: HostRuntime) {
    assert!(&rt; split_walks(rt.alloc()));
}
