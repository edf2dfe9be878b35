//! Passes of an index: how they are made, meet and end, and gets of keys that aren't there.

ghost use Rattle.std.specs.Prelude.{◌≡◌, ◌<◌, IsSome};
ghost use Rattle.board_rule.specs.Passes.{view, IsOf};
ghost use Rattle.worm_index.specs.Idle.{IsIdle};

use board_rule::Pass;
use key_bytes::Key;
use map_model::ForkFault;
use row_words::{MakeFault, Shape};
use std::alloc::Global;
use std::marker::Brand;
use std::sync::ledger::{Blank, Ledger};
use steps::Steps;
use twin_tables::{give_turn, take_turn};
use worm_index::{GetFault, Index, end, fork, lane, meet, try_get};

const SMALL: Shape = Shape {
    leaves: 4,
    items: 16,
    heads: 4,
    values: 16,
    lanes: 2,
    soft: 2,
    hard: 4,
    merge_sum: 1,
    salt: 7,
};

// The number of the first field that is out of its range, 0 where the index was made.
fn fault_of(alloc: Global, shape: &Shape) -> u32 {
    match Index::make(alloc, shape) {
        Ok(_) => 0,
        Err(MakeFault::Shape(fault)) => fault.number(),
        Err(MakeFault::NoMemory) => 9,
    }
}

// An odd number of keys is no size of a leaf.
fn odd_size_is_refused(alloc: Global) -> bool {
    let odd = Shape { soft: 3, ..SMALL };
    fault_of(alloc, &odd) == 6 && fault_of(alloc, &SMALL) == 0
}

// An index of one lane gives no fork.
fn one_lane_has_no_fork(alloc: Global) -> bool {
    let lone = Shape { lanes: 1, ..SMALL };
    let Ok((index, mut pass)) = Index::make(alloc, &lone) else {
        return false;
    };
    match fork(&mut pass, alloc, &index) {
        Err(ForkFault::Lanes { given, cap }) => given == 1 && cap == 1,
        _ => false,
    }
}

// Whether a get says that the key isn't there, and leaves nothing of what was in the buffer.
fn lacks_counting<L: Ledger>(
    alloc: Global,
    pass: &mut Pass,
    index: &Index,
    key: &Key,
    blank: Blank,
) -> bool
    requires of { IsOf index.now.board pass.old }
    requires lane { IsSome pass.old.lane }
    requires idle { IsIdle (view pass.old) }
    requires name { blank.name ≡ L.name }
    requires parts { blank.parts ≡ L.parts }
    requires some { 0 < blank.parts }
    ensures of { IsOf index.now.board pass.new }
    ensures lane { pass.new.lane ≡ pass.old.lane }
    ensures idle { IsIdle (view pass.new) }
{
    let mut steps = Steps::<L>::new(blank);
    let Ok(mut out) = vec![in alloc; 1u8, 2] else {
        return false;
    };
    let answer: Result<bool, GetFault> = try_get(pass, index, key, &mut out, &mut steps);
    answer == Ok(false) && out.is_empty()
}

fn lacks(alloc: Global, pass: &mut Pass, index: &Index, key: &Key) -> bool
    requires of { IsOf index.now.board pass.old }
    requires lane { IsSome pass.old.lane }
    requires idle { IsIdle (view pass.old) }
    ensures of { IsOf index.now.board pass.new }
    ensures lane { pass.new.lane ≡ pass.old.lane }
    ensures idle { IsIdle (view pass.new) }
{
    lacks_counting::<Brand>(alloc, pass, index, key, Blank::new(1))
}

// Two lanes look for a key in an empty index, meet, and one ends into the other.
fn two_lanes_meet(alloc: Global) -> bool {
    let Ok(key) = Key::new(alloc, b"k") else {
        return false;
    };
    let Ok((index, mut first)) = Index::make(alloc, &SMALL) else {
        return false;
    };
    let Ok(mut second) = fork(&mut first, alloc, &index) else {
        return false;
    };
    let numbers = lane(&first) == 0 && lane(&second) == 1;
    let none = lacks(alloc, &mut first, &index, &key) && lacks(alloc, &mut second, &index, &key);
    meet(&mut first, &mut second, &index);
    end(second, &mut first, &index);
    numbers && none && lacks(alloc, &mut first, &index, &key)
}

// A lane that has the turn keeps nobody from a get.
fn turn_hinders_no_get(alloc: Global) -> bool {
    let Ok(key) = Key::new(alloc, b"k") else {
        return false;
    };
    let Ok((index, mut first)) = Index::make(alloc, &SMALL) else {
        return false;
    };
    let Ok(mut second) = fork(&mut first, alloc, &index) else {
        return false;
    };
    let Ok(turn) = take_turn(&mut second, index.board()) else {
        return false;
    };
    let none = lacks(alloc, &mut first, &index, &key);
    give_turn(&mut second, index.board(), turn);
    none
}

#[test]
fn passes_of_an_index(rt: HostRuntime) {
    assert!(&rt; odd_size_is_refused(rt.alloc()));
    assert!(&rt; one_lane_has_no_fork(rt.alloc()));
    assert!(&rt; two_lanes_meet(rt.alloc()));
    assert!(&rt; turn_hinders_no_get(rt.alloc()));
}
