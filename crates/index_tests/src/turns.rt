//! Two lanes on one board, each with its own pins, while one of them has the turn.

ghost use Rattle.std.specs.Prelude.{◌≡◌, ◌<◌, ℕ, false, None, Some, IsSome};
ghost use Rattle.row_words.specs.Shape.{IsShape};
ghost use Rattle.board_rule.specs.Cells.{Holding};
ghost use Rattle.board_rule.specs.Views.{held_at};
ghost use Rattle.board_rule.specs.Passes.{view, IsOf};
ghost use Rattle.twin_tables.specs.Turns.{HasTurn, Lacking};

use board_rule::{Board, Pass, enrol, split};
use key_bytes::Key;
use map_model::Again;
use prefix_search::Hint;
use row_words::Shape;
use std::alloc::Global;
use std::marker::Brand;
use std::sync::ledger::{Blank, Ledger};
use std::test::Fail;
use std::thread::{Threads, join};
use steps::Steps;
use twin_tables::{Turn, catch_up, clear, give_turn, pin, seek_pinned, spare_version, take_turn};

const SMALL: Shape = Shape {
    leaves: 2,
    items: 8,
    heads: 4,
    values: 4,
    lanes: 2,
    soft: 2,
    hard: 4,
    merge_sum: 1,
    salt: 7,
};

// The leaf of a key, by a pin of its own.
fn find_counting<L: Ledger>(
    pass: &mut Pass,
    board: &Board,
    key: &Key,
    blank: Blank,
) -> Result<u32, Again>
    requires of { IsOf board.now pass.old }
    requires lane { IsSome pass.old.lane }
    requires bare { (view pass.old).pin ≡ None }
    requires name { blank.name ≡ L.name }
    requires parts { blank.parts ≡ L.parts }
    requires some { 0 < blank.parts }
    ensures of { IsOf board.now pass.new }
    ensures lane { pass.new.lane ≡ pass.old.lane }
    ensures bare { (view pass.new).pin ≡ None }
{
    let mut steps = Steps::<L>::new(blank);
    let mut hint = Hint::new();
    let mut pinned = pin(pass, board)?;
    let leaf = seek_pinned(&mut pinned, key, &mut hint, &mut steps).leaf;
    pinned.unpin();
    Ok(leaf)
}

fn find(pass: &mut Pass, board: &Board, key: &Key) -> Result<u32, Again>
    requires of { IsOf board.now pass.old }
    requires lane { IsSome pass.old.lane }
    requires bare { (view pass.old).pin ≡ None }
    ensures of { IsOf board.now pass.new }
    ensures lane { pass.new.lane ≡ pass.old.lane }
    ensures bare { (view pass.new).pin ≡ None }
{
    find_counting::<Brand>(pass, board, key, Blank::new(1))
}

// Brings the spare table up to date and gives the turn. The next version, or 0 where there is none.
fn finish(pass: &mut Pass, board: &Board, turn: Turn) -> u64
    requires of { IsOf board.now pass.old }
    requires turn { HasTurn turn (view pass.old) }
    requires lacking { Lacking board.now.shape (view pass.old) }
    requires idle { (i : ℕ) (h : Holding) → held_at (view pass.old) i ≡ Some h → ⊥ }
    ensures of { IsOf board.now pass.new }
    ensures lane { pass.new.lane ≡ pass.old.lane }
    ensures pin { (view pass.new).pin ≡ (view pass.old).pin }
    ensures held { (view pass.new).held ≡ (view pass.old).held }
{
    catch_up(pass, board, &turn);
    let next = spare_version(&turn).unwrap_or(0);
    give_turn(pass, board, turn);
    next
}

// Takes the turn, clears the spare table, brings it up to date, and gives the turn. The next version.
fn refresh(pass: &mut Pass, board: &Board) -> Result<u64, Again>
    requires of { IsOf board.now pass.old }
    requires lane { IsSome pass.old.lane }
    requires bare { (view pass.old).pin ≡ None }
    requires idle { (i : ℕ) (h : Holding) → held_at (view pass.old) i ≡ Some h → ⊥ }
    ensures of { IsOf board.now pass.new }
    ensures lane { pass.new.lane ≡ pass.old.lane }
    ensures bare { (view pass.new).pin ≡ None }
{
    let mut turn = take_turn(pass, board)?;
    match clear(pass, board, &mut turn) {
        Ok(()) => Ok(finish(pass, board, turn)),
        Err(again) => {
            give_turn(pass, board, turn);
            Err(again)
        }
    }
}

// Whether a search finds leaf 0, which is the only one.
fn searches(mut pass: Pass, board: &Board, key: &Key) -> bool
    requires of { IsOf board.now pass }
    requires lane { IsSome pass.lane }
    requires bare { (view pass).pin ≡ None }
{
    find(&mut pass, board, key) == Ok(0)
}

// Whether the spare table can be brought up to date for version 1, and a search then finds leaf 0.
fn works(mut pass: Pass, board: &Board, key: &Key) -> bool
    requires of { IsOf board.now pass }
    requires lane { IsSome pass.lane }
    requires bare { (view pass).pin ≡ None }
    requires idle { (i : ℕ) (h : Holding) → held_at (view pass) i ≡ Some h → ⊥ }
{
    refresh(&mut pass, board) == Ok(1) && find(&mut pass, board, key) == Ok(0)
}

// One lane searches while the other works on the spare table.
fn side_by_side<R: Threads + Sync>(
    rt: &R,
    board: &Board,
    first: Pass,
    second: Pass,
    key: &Key,
) -> bool
    requires of { IsOf board.now first × IsOf board.now second }
    requires lanes { IsSome first.lane × IsSome second.lane }
    requires bare { ((view first).pin ≡ None) × ((view second).pin ≡ None) }
    requires idle { (i : ℕ) (h : Holding) → held_at (view second) i ≡ Some h → ⊥ }
{
    let (one, other) = join(
        rt,
        || -> bool
            requires { IsOf board.now first × IsSome first.lane × ((view first).pin ≡ None) }
        { searches(first, board, key) },
        || -> bool
            requires { IsOf board.now second × IsSome second.lane × ((view second).pin ≡ None) × ((i : ℕ) (h : Holding) → held_at (view second) i ≡ Some h → ⊥) }
        { works(second, board, key) },
    );
    one && other
}

// Two lanes of a new board, side by side.
fn two_lanes<R: Threads + Sync>(rt: &R, alloc: Global, key: &Key) -> bool {
    let Ok((board, mut first)) = Board::make(alloc, &SMALL) else {
        return false;
    };
    enrol(&mut first, &board);
    let lane = first.drawn();
    let second = split(&mut first, &board, lane);
    side_by_side(rt, &board, first, second, key)
}

#[test]
fn a_lane_searches_while_another_has_the_turn(rt: HostRuntime) -> Result<(), Fail> {
    let key = Key::new(rt.alloc(), b"Jo")?;
    assert!(&rt; two_lanes(&rt, rt.alloc(), &key));
    Ok(())
}

// One lane is refused the turn while another has it.
fn one_turn(board: &Board, mut first: Pass, mut second: Pass) -> bool
    requires of { IsOf board.now first × IsOf board.now second }
    requires lanes { IsSome first.lane × IsSome second.lane }
    requires bare { (view first).pin ≡ None }
    requires first_idle { (i : ℕ) (h : Holding) → held_at (view first) i ≡ Some h → ⊥ }
    requires second_idle { (i : ℕ) (h : Holding) → held_at (view second) i ≡ Some h → ⊥ }
{
    let Ok(turn) = take_turn(&mut second, board) else {
        return false;
    };
    let refused = refresh(&mut first, board) == Err(Again::Turn { holder: 1 });
    give_turn(&mut second, board, turn);
    refused
}

// The first lanes of a new board.
fn first_lanes(alloc: Global) -> bool {
    let Ok((board, mut first)) = Board::make(alloc, &SMALL) else {
        return false;
    };
    enrol(&mut first, &board);
    let lane = first.drawn();
    let second = split(&mut first, &board, lane);
    one_turn(&board, first, second)
}

#[test]
fn a_second_lane_is_refused_the_turn(rt: HostRuntime) {
    assert!(&rt; first_lanes(rt.alloc()));
}
