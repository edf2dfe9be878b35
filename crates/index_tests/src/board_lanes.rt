//! Two lanes on one board.

ghost use Rattle.std.specs.Prelude.{◌<◌};
ghost use Rattle.row_words.specs.Shape.{IsShape};

use board_rule::{Board, enrol, lock, look, split};
use row_words::Shape;
use std::alloc::Global;

const LANES_GIVEN: u32 = 2;

const LEAF_0: u32 = 546;

// The second lane gets number 1 and locks leaf 0, whose word then names it to the first lane.
fn second_lane_locks(alloc: Global, shape: &Shape) -> bool
    requires shape { IsShape shape.now }
    requires lanes { 1 < shape.now.lanes }
{
    let Ok((board, mut first)) = Board::make(alloc, shape) else {
        return false;
    };
    let given = look(&mut first, &board, LANES_GIVEN);
    let number = enrol(&mut first, &board);
    let lane = first.drawn();
    let mut second = split(&mut first, &board, lane);
    let free = look(&mut second, &board, LEAF_0);
    let found = lock(&mut second, &board, 0, 0);
    let held = look(&mut first, &board, LEAF_0);
    given == 1 && number == 1 && second.number() == 1 && free == 0 && found == 0 && held == 2
}

#[test]
fn a_second_lane_locks_a_leaf(rt: HostRuntime) {
    let shape = Shape {
        leaves: 2,
        items: 8,
        heads: 4,
        values: 4,
        lanes: 2,
        soft: 2,
        hard: 4,
        merge_sum: 1,
        salt: 7,
    };
    assert!(&rt; second_lane_locks(rt.alloc(), &shape));
}
