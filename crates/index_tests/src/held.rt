//! A leaf that one lane holds, as another lane finds it.

ghost use Rattle.std.specs.Prelude.{◌≡◌, ◌<◌, IsSome};
ghost use Rattle.board_rule.specs.Passes.{view, IsOf};
ghost use Rattle.worm_index.specs.Idle.{IsIdle};

use crate::keys::{hold, locate, put, refusal, release, take, word};
use board_rule::{Board, Pass};
use key_bytes::{Bytes, Key};
use map_model::Again;
use row_words::Shape;
use std::alloc::Global;
use std::marker::Brand;
use std::sync::ledger::{Blank, Ledger};
use steps::Steps;
use worm_index::{Index, fork};

const SMALL: Shape = Shape {
    leaves: 4,
    items: 16,
    heads: 4,
    values: 16,
    lanes: 2,
    soft: 2,
    hard: 4,
    merge_sum: 1,
    salt: 7,
};

// Lane 1 holds leaf 0, whose word then names it to lane 0, and keeps lane 0 from it.
fn holder_is_named<L: Ledger>(
    first: &mut Pass,
    second: &mut Pass,
    board: &Board,
    key: &Key,
    steps: &mut Steps<L>,
) -> bool
    requires of { IsOf board.now first.old × IsOf board.now second.old }
    requires lanes { IsSome first.old.lane × IsSome second.old.lane }
    requires idle { IsIdle (view first.old) × IsIdle (view second.old) }
    requires leaf { 0 < board.now.shape.leaves }
    ensures of { IsOf board.now first.new × IsOf board.now second.new }
    ensures lanes { (first.new.lane ≡ first.old.lane) × (second.new.lane ≡ second.old.lane) }
    ensures idle { IsIdle (view first.new) × IsIdle (view second.new) }
{
    let Ok(place) = locate(second, board, key, steps) else {
        return false;
    };
    let Ok(mine) = locate(first, board, key, steps) else {
        return false;
    };
    let Ok(held) = hold(second, board, place, steps) else {
        return false;
    };
    let refused = refusal(first, board, mine, steps);
    let named = word(first, board, 0);
    release(second, board, held, place.key);
    let locked = Again::Locked { leaf: 0, holder: 1 };
    named == 2 && refused == Some(locked) && word(first, board, 0) == 0
}

// A key that one lane put is there for the other one, once.
fn put_is_found<L: Ledger>(
    first: &mut Pass,
    second: &mut Pass,
    board: &Board,
    key: &Key,
    value: &Bytes,
    steps: &mut Steps<L>,
) -> bool
    requires of { IsOf board.now first.old × IsOf board.now second.old }
    requires lanes { IsSome first.old.lane × IsSome second.old.lane }
    requires idle { IsIdle (view first.old) × IsIdle (view second.old) }
{
    put(second, board, key, value, steps)
        && take(first, board, key, steps)
        && !take(first, board, key, steps)
}

fn two_lanes_share_a_leaf<L: Ledger>(alloc: Global, blank: Blank) -> bool
    requires name { blank.name ≡ L.name }
    requires parts { blank.parts ≡ L.parts }
    requires some { 0 < blank.parts }
{
    let mut steps = Steps::<L>::new(blank);
    let (Ok(key), Ok(value)) = (Key::new(alloc, b"k"), Bytes::copied(alloc, b"1")) else {
        return false;
    };
    let Ok((index, mut first)) = Index::make(alloc, &SMALL) else {
        return false;
    };
    let Ok(mut second) = fork(&mut first, alloc, &index) else {
        return false;
    };
    let board = index.board();
    holder_is_named(&mut first, &mut second, board, &key, &mut steps)
        && put_is_found(&mut first, &mut second, board, &key, &value, &mut steps)
}

fn shared_leaf_row(alloc: Global) -> bool {
    two_lanes_share_a_leaf::<Brand>(alloc, Blank::new(1))
}

#[test]
fn a_held_leaf_names_its_holder(rt: HostRuntime) {
    assert!(&rt; shared_leaf_row(rt.alloc()));
}
