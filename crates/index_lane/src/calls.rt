//! The calls of the index with a counter of steps that nobody reads, each with a look behind it at the
//! lanes given, by which all that the pass has seen is known to be of the index's lanes.

ghost use Rattle.std.specs.Prelude.{◌≡◌, ◌≢◌, ◌<◌, ◌≤◌, ◌++◌, List, [], true, IsSome, IfOk, IfErr, OnErr, IsTrue, length, max};
ghost use Rattle.std.specs.Bool.{OnFalse};
ghost use Rattle.key_bytes.specs.Bound.{bound_cmp};
ghost use Rattle.map_model.specs.Calls.{Get, Put, Del, Part, Pairs};
ghost use Rattle.map_model.specs.History.{Entry};
ghost use Rattle.map_model.specs.Ordered.{got, was_put, was_gone};
ghost use Rattle.map_model.specs.Refusals.{NotAgain, NotFull};
ghost use Rattle.board_rule.specs.Views.{GIVEN, looked};
ghost use Rattle.board_rule.specs.Passes.{lane_of, view, IsOf};
ghost use Rattle.worm_index.specs.Idle.{IsSamePass};
ghost use Rattle.worm_index.specs.Calls.{IsAnswered, IsLast, IsUnanswered};
ghost use Rattle.worm_index.specs.Parts.{IsFewEnd};
ghost use Rattle.index_lane.specs.Steady.{IsSteady, AreOfLanes};
ghost use Rattle.index_lane.specs.Causes.{Fits, IsRefused};

use board_rule::{Pass, look};
use key_bytes::{Bound, Key, LONGEST_VALUE};
use map_model::{Page, Refusal};
use std::cmp::Ordering;
use std::sync::ledger::{Blank, Ledger};
use steps::Steps;
use worm_index::{GetFault, Index, PartFault, PutFault, try_del, try_few, try_get, try_put};

// The place of the number of lanes given among the board's words.
const LANES_GIVEN: u32 = 2;

/// Looks at the lanes given.
pub(crate) fn see_lanes(pass: &mut Pass, index: &Index) -> u64
    requires of { IsOf index.now.board pass.old }
    requires lane { IsSome pass.old.lane }
    ensures of { IsOf index.now.board pass.new }
    ensures lane { pass.new.lane ≡ pass.old.lane }
    ensures view { view pass.new ≡ looked GIVEN result (view pass.old) }
    ensures given { (view pass.old).given ≤ index.now.board.shape.lanes }
    ensures lanes { AreOfLanes index.now.board.shape.lanes (view pass.old).seen }
{
    look(pass, index.board(), LANES_GIVEN)
}

/// [`try_get`].
pub(crate) fn get<L: Ledger>(
    pass: &mut Pass,
    index: &Index,
    key: &Key,
    out: &mut Vec<u8>,
    blank: Blank,
) -> Result<bool, Refusal>
    requires name { blank.name ≡ L.name }
    requires parts { blank.parts ≡ L.parts }
    requires some { 0 < blank.parts }
    requires of { IsOf index.now.board pass.old }
    requires lane { IsSome pass.old.lane }
    requires steady { IsSteady index.now.board.shape (lane_of pass.old.lane) (view pass.old) }
    ensures of { IsOf index.now.board pass.new }
    ensures lane { pass.new.lane ≡ pass.old.lane }
    ensures steady { IsSteady index.now.board.shape (lane_of pass.old.lane) (view pass.new) }
    ensures same { IsSamePass (view pass.old) (view pass.new) }
    ensures answered { IfOk result (λ there. IsAnswered (lane_of pass.old.lane) (Get key.now) (got there out.new.items) (view pass.old) (view pass.new)) }
    ensures last { IfOk result (λ there. IsLast (lane_of pass.old.lane) (Get key.now) (got there out.new.items) (view pass.old) (view pass.new)) }
    ensures absent { IfOk result (λ there. OnFalse there (out.new.items ≡ [])) }
    ensures unanswered { OnErr result (IsUnanswered (lane_of pass.old.lane) (view pass.old) (view pass.new)) }
    ensures cleared { OnErr result (out.new.items ≡ []) }
    ensures cause { IfErr result (IsRefused index.now.board.shape (lane_of pass.old.lane) (Get key.now) (view pass.old) (view pass.new)) }
    ensures sole { IsTrue (view pass.old).sole → NotAgain result }
    ensures room { NotFull result }
{
    let mut steps = Steps::<L>::new(blank);
    match try_get(pass, index, key, out, &mut steps) {
        Ok(there) => {
            see_lanes(pass, index);
            Ok(there)
        }
        Err(GetFault::Again(again)) => {
            see_lanes(pass, index);
            Err(Refusal::Again(again))
        }
        Err(GetFault::NoMemory) => {
            see_lanes(pass, index);
            Err(Refusal::NoMemory)
        }
    }
}

/// [`try_put`].
pub(crate) fn put<L: Ledger>(
    pass: &mut Pass,
    index: &Index,
    key: &Key,
    value: &[u8],
    blank: Blank,
) -> Result<bool, Refusal>
    requires name { blank.name ≡ L.name }
    requires parts { blank.parts ≡ L.parts }
    requires some { 0 < blank.parts }
    requires of { IsOf index.now.board pass.old }
    requires lane { IsSome pass.old.lane }
    requires steady { IsSteady index.now.board.shape (lane_of pass.old.lane) (view pass.old) }
    requires short { length value.now ≤ LONGEST_VALUE }
    ensures of { IsOf index.now.board pass.new }
    ensures lane { pass.new.lane ≡ pass.old.lane }
    ensures steady { IsSteady index.now.board.shape (lane_of pass.old.lane) (view pass.new) }
    ensures same { IsSamePass (view pass.old) (view pass.new) }
    ensures answered { IfOk result (λ first. IsAnswered (lane_of pass.old.lane) (Put key.now value.now) (was_put first) (view pass.old) (view pass.new)) }
    ensures unanswered { OnErr result (IsUnanswered (lane_of pass.old.lane) (view pass.old) (view pass.new)) }
    ensures cause { IfErr result (IsRefused index.now.board.shape (lane_of pass.old.lane) (Put key.now value.now) (view pass.old) (view pass.new)) }
    ensures sole { IsTrue (view pass.old).sole → NotAgain result }
    ensures room { IsTrue (view pass.old).sole → (more : List Entry) → Fits index.now.board.shape ((view pass.old).seen ++ more) → NotFull result }
{
    let mut steps = Steps::<L>::new(blank);
    match try_put(pass, index, key, value, &mut steps) {
        Ok(first) => {
            see_lanes(pass, index);
            Ok(first)
        }
        Err(PutFault::Again(again)) => {
            see_lanes(pass, index);
            Err(Refusal::Again(again))
        }
        Err(PutFault::Full(full)) => {
            see_lanes(pass, index);
            Err(Refusal::Full(full))
        }
        Err(PutFault::NoMemory) => {
            see_lanes(pass, index);
            Err(Refusal::NoMemory)
        }
        Err(PutFault::ValueTooLong(_)) => unreachable!(),
    }
}

/// [`try_del`].
pub(crate) fn del<L: Ledger>(
    pass: &mut Pass,
    index: &Index,
    key: &Key,
    blank: Blank,
) -> Result<bool, Refusal>
    requires name { blank.name ≡ L.name }
    requires parts { blank.parts ≡ L.parts }
    requires some { 0 < blank.parts }
    requires of { IsOf index.now.board pass.old }
    requires lane { IsSome pass.old.lane }
    requires steady { IsSteady index.now.board.shape (lane_of pass.old.lane) (view pass.old) }
    ensures of { IsOf index.now.board pass.new }
    ensures lane { pass.new.lane ≡ pass.old.lane }
    ensures steady { IsSteady index.now.board.shape (lane_of pass.old.lane) (view pass.new) }
    ensures same { IsSamePass (view pass.old) (view pass.new) }
    ensures answered { IfOk result (λ gone. IsAnswered (lane_of pass.old.lane) (Del key.now) (was_gone gone) (view pass.old) (view pass.new)) }
    ensures unanswered { OnErr result (IsUnanswered (lane_of pass.old.lane) (view pass.old) (view pass.new)) }
    ensures cause { IfErr result (IsRefused index.now.board.shape (lane_of pass.old.lane) (Del key.now) (view pass.old) (view pass.new)) }
    ensures sole { IsTrue (view pass.old).sole → NotAgain result }
    ensures room { NotFull result }
{
    let mut steps = Steps::<L>::new(blank);
    match try_del(pass, index, key, &mut steps) {
        Ok(gone) => {
            see_lanes(pass, index);
            Ok(gone)
        }
        Err(again) => {
            see_lanes(pass, index);
            Err(Refusal::Again(again))
        }
    }
}

/// [`try_few`] of as many pairs as the page wants, or of one where it wants none.
pub(crate) fn part<L: Ledger>(
    pass: &mut Pass,
    index: &Index,
    from: &Bound,
    to: &Bound,
    page: &mut Page,
    blank: Blank,
) -> Result<Bound, Refusal>
    requires name { blank.name ≡ L.name }
    requires parts { blank.parts ≡ L.parts }
    requires some { 0 < blank.parts }
    requires of { IsOf index.now.board pass.old }
    requires lane { IsSome pass.old.lane }
    requires steady { IsSteady index.now.board.shape (lane_of pass.old.lane) (view pass.old) }
    requires range { bound_cmp from.now to.now ≡ Ordering.Less }
    ensures of { IsOf index.now.board pass.new }
    ensures lane { pass.new.lane ≡ pass.old.lane }
    ensures steady { IsSteady index.now.board.shape (lane_of pass.old.lane) (view pass.new) }
    ensures same { IsSamePass (view pass.old) (view pass.new) }
    ensures answered { IfOk result (λ upto. IsAnswered (lane_of pass.old.lane) (Part from.now upto) (Pairs page.new.pairs) (view pass.old) (view pass.new)) }
    ensures last { IfOk result (λ upto. IsLast (lane_of pass.old.lane) (Part from.now upto) (Pairs page.new.pairs) (view pass.old) (view pass.new)) }
    ensures above { IfOk result (λ upto. bound_cmp from.now upto ≡ Ordering.Less) }
    ensures within { IfOk result (λ upto. bound_cmp upto to.now ≢ Ordering.Greater) }
    ensures end { IfOk result (λ upto. IsFewEnd from.now to.now (max page.old.wanted 1) page.new.pairs (view pass.old) (view pass.new) upto) }
    ensures unanswered { OnErr result (IsUnanswered (lane_of pass.old.lane) (view pass.old) (view pass.new)) }
    ensures cleared { OnErr result (page.new.pairs ≡ []) }
    ensures cause { IfErr result (IsRefused index.now.board.shape (lane_of pass.old.lane) (Part from.now to.now) (view pass.old) (view pass.new)) }
    ensures sole { IsTrue (view pass.old).sole → NotAgain result }
    ensures room { NotFull result }
{
    let mut steps = Steps::<L>::new(blank);
    let most = page.wanted().max(1);
    match try_few(pass, index, from, to, most, page, &mut steps) {
        Ok(upto) => {
            see_lanes(pass, index);
            Ok(upto)
        }
        Err(PartFault::Again(again)) => {
            see_lanes(pass, index);
            Err(Refusal::Again(again))
        }
        Err(PartFault::NoMemory) => {
            see_lanes(pass, index);
            Err(Refusal::NoMemory)
        }
    }
}
