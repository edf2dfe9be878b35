//! A lane as a store.

ghost use Rattle.std.specs.Prelude.{◌≡◌, ◌≢◌, ◌+◌, ◌-◌, List, [], true, Some, None, IsSome, IfOk, OnErr, IsTrue, max};
ghost use Rattle.key_bytes.specs.Bound.{bound_cmp};
ghost use Rattle.map_model.specs.Calls.{Part, Pairs};
ghost use Rattle.map_model.specs.History.{Entry};
ghost use Rattle.map_model.specs.Ordered.{Follows, EntersLast, Stays};
ghost use Rattle.map_model.specs.Refusals.{HasCause, refusal_of, NotAgain, NotFull};
ghost use Rattle.lane_facts.specs.Names.{origin_of};
ghost use Rattle.board_rule.specs.Passes.{lane_of, view, IsOf};
ghost use Rattle.worm_index.specs.Idle.{IsIdle};
ghost use Rattle.worm_index.specs.Parts.{IsFewEnd};
ghost use Rattle.index_lane.specs.Steady.{IsSteady, steady_prop};
ghost use Rattle.index_lane.specs.Causes.{Fits, IsNoted, IsRefused};

use crate::calls;
use board_rule::Pass;
use counts::raise;
use key_bytes::{Bound, Key};
use map_model::{ForkFault, Lanes, Ordered, Page, Refusal};
use std::cmp::Ordering;
use std::marker::Brand;
use std::sync::ledger::Blank;
use worm_index::{Index, end, fork};

/// One lane's hold on an index that lanes share. Its calls try once, and are refused where another lane is in
/// the way.
#[derive(Drop)]
pub struct Lane<'i> {
    index: &'i Index,
    pass: Pass,
    refusals: u64,
    last: Option<Refusal>,
    ghost of: { IsOf index.now.board pass },
    ghost laned: { IsSome pass.lane },
    ghost steady: { IsSteady index.now.board.shape (lane_of pass.lane) (view pass) } by { steady_prop index.now.board.shape (lane_of pass.lane) (view pass) },
}

impl<'i> Lane<'i> {
    /// The lane of an index's first pass, as [`Index::make`] answers it. It was never refused. It makes one
    /// look at the index and takes no memory.
    pub fn new(index: &'i Index, pass: Pass) -> Lane<'i>
        requires of { IsOf index.now.board pass }
        requires lane { pass.lane ≡ Some 0 }
        requires idle { IsIdle (view pass) }
        requires seen { (view pass).seen ≡ [] }
        requires given { ((view pass).drawn ≡ None) × ((view pass).given ≡ 1) }
        ensures pass { (result.pass.lane ≡ pass.lane) × ((view result.pass).sole ≡ (view pass).sole) × ((view result.pass).room ≡ (view pass).room) }
        ensures seen { (view result.pass).seen ≡ [] }
        ensures index { result.index.now ≡ index.now }
        ensures counted { (result.refusals ≡ 0) × (result.last ≡ None) }
    {
        let mut pass = pass;
        calls::see_lanes(&mut pass, index);
        Lane {
            index,
            pass,
            refusals: 0,
            last: None,
        }
    }

    /// The lane's pass, its count of refusals and the last of them.
    pub fn into_parts(self) -> (Pass, u64, Option<Refusal>)
        ensures { result ≡ (self.entry.pass, self.entry.refusals, self.entry.last) }
    {
        let Lane {
            index: _,
            pass,
            refusals,
            last,
        } = self;
        (pass, refusals, last)
    }

    // Counts a refusal for another lane or for want of room, and answers it.
    fn note(&mut self, refusal: Refusal) -> Refusal
        ensures same { (self.new.index ≡ self.old.index) × (self.new.pass ≡ self.old.pass) }
        ensures result { result ≡ refusal }
        ensures noted { IsNoted self.old.refusals self.old.last self.new.refusals self.new.last refusal }
    {
        match refusal {
            Refusal::NoMemory => {}
            _ => {
                self.refusals = raise(self.refusals);
                self.last = Some(refusal);
            }
        }
        refusal
    }
}

impl Ordered for Lane<'_> {
    ghost use Rattle.std.specs.Prelude.{◌≡◌};
    ghost use Rattle.std.proofs.Common.{subst, sym};
    ghost use Rattle.map_model.specs.History.{IsLegal};
    ghost use Rattle.lane_facts.specs.Names.{origin_of};
    ghost use Rattle.board_rule.specs.Passes.{lane_of, view};
    ghost use Rattle.index_lane.specs.Causes.{Fits, IsRefused};

    ghost lane = { λ s. lane_of s.pass.lane };

    ghost sole = { λ s. (view s.pass).sole };

    ghost origin = { λ s. origin_of s.index.now.board.shape.lanes s.pass.seat.table_id };

    ghost refusals = { λ s. s.refusals };

    ghost last = { λ s. s.last };

    ghost room = { λ s. (view s.pass).room };

    ghost stands = { λ s h. h ≡ (view s.pass).seen };

    ghost fits = { λ s h. Fits s.index.now.board.shape h };

    ghost caused = { λ call s t r. IsRefused s.index.now.board.shape (lane_of s.pass.lane) call (view s.pass) (view t.pass) r };

    ghost stands_legal = { λ s h stood. subst IsLegal (sym stood) s.steady.legal };

    fn get(&mut self, key: &Key, out: &mut Vec<u8>) -> Result<bool, Refusal> {
        match calls::get::<Brand>(&mut self.pass, self.index, key, out, Blank::new(1)) {
            Ok(there) => Ok(there),
            Err(refusal) => Err(self.note(refusal)),
        }
    }

    fn put(&mut self, key: &Key, value: &[u8]) -> Result<bool, Refusal> {
        match calls::put::<Brand>(&mut self.pass, self.index, key, value, Blank::new(1)) {
            Ok(first) => Ok(first),
            Err(refusal) => Err(self.note(refusal)),
        }
    }

    fn del(&mut self, key: &Key) -> Result<bool, Refusal> {
        match calls::del::<Brand>(&mut self.pass, self.index, key, Blank::new(1)) {
            Ok(gone) => Ok(gone),
            Err(refusal) => Err(self.note(refusal)),
        }
    }

    fn part(&mut self, from: &Bound, to: &Bound, page: &mut Page) -> Result<Bound, Refusal>
        requires { bound_cmp from.now to.now ≡ Ordering.Less }
        ensures ok { IfOk result (λ upto. Follows (λ h. h ≡ (view self.old.pass).seen) (λ h. h ≡ (view self.new.pass).seen)
            (EntersLast (lane_of self.old.pass.lane) (view self.old.pass).sole (Part from.now upto) (Pairs page.new.pairs))) }
        ensures above { IfOk result (λ upto. bound_cmp from.now upto ≡ Ordering.Less) }
        ensures within { IfOk result (λ upto. bound_cmp upto to.now ≢ Ordering.Greater) }
        ensures refused { OnErr result (Follows (λ h. h ≡ (view self.old.pass).seen) (λ h. h ≡ (view self.new.pass).seen)
            (Stays (lane_of self.old.pass.lane) (view self.old.pass).sole)) }
        ensures cleared { OnErr result (page.new.pairs ≡ []) }
        ensures kept { (lane_of self.new.pass.lane ≡ lane_of self.old.pass.lane) × ((view self.new.pass).sole ≡ (view self.old.pass).sole)
            × (origin_of self.new.index.now.board.shape.lanes self.new.pass.seat.table_id ≡ origin_of self.old.index.now.board.shape.lanes self.old.pass.seat.table_id) }
        ensures forks { (view self.new.pass).room ≡ (view self.old.pass).room }
        ensures fits { (history : List Entry) → Fits self.old.index.now.board.shape history → Fits self.new.index.now.board.shape history }
        ensures counted { HasCause (λ s. s.refusals) (λ s. s.last)
            (λ s t r. IsRefused s.index.now.board.shape (lane_of s.pass.lane) (Part from.now to.now) (view s.pass) (view t.pass) r)
            self.old self.new (refusal_of result) }
        ensures alone { IsTrue (view self.old.pass).sole → NotAgain result }
        ensures room { NotFull result }

        // How far it goes: up to the end of a leaf or of the range, or by as many pairs as are wanted, and
        // by one where none is.
        ensures end { IfOk result (λ upto. IsFewEnd from.now to.now (max page.old.wanted 1) page.new.pairs
            (view self.old.pass) (view self.new.pass) upto) }
    {
        match calls::part::<Brand>(&mut self.pass, self.index, from, to, page, Blank::new(1)) {
            Ok(upto) => Ok(upto),
            Err(refusal) => Err(self.note(refusal)),
        }
    }

    fn rest(&mut self) {}

    fn wake(&mut self) {}
}

impl Lanes for Lane<'_> {
    ghost use Rattle.std.specs.Prelude.{refl};
    ghost use Rattle.board_rule.specs.Passes.{lane_of, view};
    ghost use Rattle.index_lane.specs.Causes.{SawGiven};
    ghost use Rattle.index_lane.specs.Numbers.{HasAll, has_own};

    ghost seen = { λ s. (view s.pass).seen };

    ghost lanes = { λ s. s.index.now.board.shape.lanes };

    ghost next = { λ s. (view s.pass).given };

    ghost has_all = { λ s n. HasAll (view s.pass) n };

    ghost given = { λ s t n. SawGiven (view s.pass) (view t.pass) n };

    ghost stands_seen = { λ s. refl };

    ghost only_seen = { λ s h stood. stood };

    ghost numbered = { λ s. s.steady.numbered };

    ghost of_lanes = { λ s. s.steady.lanes };

    ghost has_own = { λ s. has_own (view s.pass) (lane_of s.pass.lane) s.steady.named };

    ghost above = { λ s. s.steady.above };

    ghost within = { λ s. s.steady.within };

    fn fork(&mut self) -> Result<Self, ForkFault> {
        let alloc = self.pass.alloc();
        match fork(&mut self.pass, alloc, self.index) {
            Ok(pass) => Ok(Lane {
                index: self.index,
                pass,
                refusals: 0,
                last: None,
            }),
            Err(fault) => Err(fault),
        }
    }

    fn end(self, into: &mut Self) {
        let Lane {
            index: _,
            pass,
            refusals,
            last: _,
        } = self;
        end(pass, &mut into.pass, into.index);
        calls::see_lanes(&mut into.pass, into.index);
        into.refusals = into.refusals.saturating_add(refusals);
    }
}
