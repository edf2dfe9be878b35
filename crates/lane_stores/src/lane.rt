//! A lane of a shared map.
ghost use Rattle.std.specs.Prelude.{◌≡◌, ◌<◌, ◌≤◌, ◌+◌, [], true, IsTrue};
ghost use Rattle.map_model.specs.Refusals.{HasCause, refusal_of, NotAgain, NotFull};
ghost use Rattle.lane_stores.specs.Props.{idle_prop};
ghost use Rattle.lane_stores.specs.Rule.{first_view};
ghost use Rattle.lane_stores.specs.Steps.{IsHeld};
ghost use Rattle.lane_stores.specs.Calls.{IsIdle, IsForLane, refused_by};

use crate::deed::Deed;
use crate::moves::Seat;
use crate::shared::SharedMap;
use counts::raise;
use key_bytes::{Bound, Key};
use map_model::{Again, ForkFault, Lanes, Ordered, Page, Refusal};

/// A lane that shares a map with others. Its calls try once to have the map, and are refused while another lane
/// has it.
#[derive(Drop)]
pub struct SharedLane<'a> {
    pub(crate) map: &'a SharedMap,
    pub(crate) seat: Seat,
    pub(crate) number: u32,
    pub(crate) alone: bool,
    next: u32,
    pub(crate) room: u32,
    pub(crate) refusals: u64,
    last: Option<Refusal>,
    ghost of: { seat.table_id ≡ map.now.table.shared.table_id },
    ghost idle: { IsIdle map.now.lanes number seat.me } by { idle_prop map.now.lanes number seat.me },
    ghost alone_is: { seat.me.0.sole ≡ alone },
    ghost next_is: { seat.me.0.next ≡ next },
    ghost room_is: { seat.me.0.room ≡ room },
    ghost above: { number < next },
    ghost within: { next + room ≤ map.now.lanes },
}

impl<'a> SharedLane<'a> {
    /// Lane 0 of a map, before any call.
    pub(crate) fn first(map: &'a SharedMap, seat: Seat) -> SharedLane<'a>
        requires of { seat.table_id ≡ map.now.table.shared.table_id }
        requires first { seat.me ≡ (first_view map.now.lanes, []) }
        requires some { 0 < map.now.lanes }
        ensures lane { (result.number ≡ 0) × (result.alone ≡ true) }
        ensures seen { result.seat.me.0.seen ≡ [] }
        ensures room { (result.map.now.lanes ≡ map.now.lanes) × (result.room + 1 ≡ map.now.lanes) }
        ensures counted { result.refusals ≡ 0 }
    {
        SharedLane {
            map,
            seat,
            number: 0,
            alone: true,
            next: 1,
            room: map.lanes - 1,
            refusals: 0,
            last: None,
        }
    }

    // Counts a call that was refused for the lane that has the map.
    fn refuse(&mut self, found: u64) -> Refusal
        requires { IsHeld self.old.seat.me found self.old.seat.me }
        ensures same { (self.new.seat ≡ self.old.seat) × (self.new.number ≡ self.old.number)
            × (self.new.alone ≡ self.old.alone) × (self.new.room ≡ self.old.room) × (self.new.map ≡ self.old.map) }
        ensures counted { HasCause (λ lane. lane.refusals) (λ lane. lane.last)
            (λ lane now refusal. IsForLane lane.map.now.lanes lane.alone refusal) self.old self.new
            (refusal_of (refused_by result)) }
        ensures room { NotFull (refused_by result) }
        ensures alone { IsTrue self.old.alone → NotAgain (refused_by result) }
    {
        // How many lanes there are bounds the holder's number.
        let _lanes = self.map.lanes;
        let refusal = Refusal::Again(Again::Turn {
            holder: (found - 1) as u32,
        });
        self.refusals = raise(self.refusals);
        self.last = Some(refusal);
        refusal
    }
}

impl Ordered for SharedLane<'_> {
    ghost use Rattle.lane_facts.specs.Names.{number_of};
    ghost use Rattle.lane_stores.specs.Calls.{HasSeen, IsForLane};

    ghost lane = { λ s. s.number };

    ghost sole = { λ s. s.alone };

    ghost origin = { λ s. number_of s.seat.table_id };

    ghost refusals = { λ s. s.refusals };

    ghost last = { λ s. s.last };

    ghost room = { λ s. s.room };

    ghost stands = { λ s h. HasSeen s.seat.me.0.seen h };

    ghost fits = { λ s h. Unit {0} };

    ghost caused = { λ call s t r. IsForLane s.map.now.lanes s.alone r };

    ghost stands_legal = { λ s h stood. stood.legal };

    fn get(&mut self, key: &Key, out: &mut Vec<u8>) -> Result<bool, Refusal> {
        out.clear();
        let found = self.map.take(&mut self.seat, self.number);
        if found != 0 {
            return Err(self.refuse(found));
        }
        match self.map.look(&mut self.seat, self.number, key, out) {
            Ok(here) => {
                self.map
                    .give(&mut self.seat, self.number, &Deed::Got(key, here, out));
                Ok(here)
            }
            Err(_) => {
                self.map.give(&mut self.seat, self.number, &Deed::Nothing);
                Err(Refusal::NoMemory)
            }
        }
    }

    fn put(&mut self, key: &Key, value: &[u8]) -> Result<bool, Refusal> {
        let found = self.map.take(&mut self.seat, self.number);
        if found != 0 {
            return Err(self.refuse(found));
        }
        match self.map.set(&mut self.seat, self.number, key, value) {
            Ok(new) => {
                self.map.give(&mut self.seat, self.number, &Deed::WasPut(key, value, new));
                Ok(new)
            }
            Err(_) => {
                self.map.give(&mut self.seat, self.number, &Deed::Nothing);
                Err(Refusal::NoMemory)
            }
        }
    }

    fn del(&mut self, key: &Key) -> Result<bool, Refusal> {
        let found = self.map.take(&mut self.seat, self.number);
        if found != 0 {
            return Err(self.refuse(found));
        }
        let gone = self.map.remove(&mut self.seat, self.number, key);
        self.map
            .give(&mut self.seat, self.number, &Deed::WasGone(key, gone));
        Ok(gone)
    }

    fn part(&mut self, from: &Bound, to: &Bound, page: &mut Page) -> Result<Bound, Refusal> {
        page.clear();
        let found = self.map.take(&mut self.seat, self.number);
        if found != 0 {
            return Err(self.refuse(found));
        }
        match self
            .map
            .first_pairs(&mut self.seat, self.number, from, to, page)
        {
            Ok(upto) => {
                self.map.give(&mut self.seat, self.number, &Deed::Left(from, &upto, page));
                Ok(upto)
            }
            Err(_) => {
                self.map.give(&mut self.seat, self.number, &Deed::Nothing);
                Err(Refusal::NoMemory)
            }
        }
    }

    fn rest(&mut self) {}

    fn wake(&mut self) {}
}

impl Lanes for SharedLane<'_> {
    ghost use Rattle.std.specs.Prelude.{◌≡◌, refl};
    ghost use Rattle.lane_stores.specs.Rule.{Has};

    ghost seen = { λ s. s.seat.me.0.seen };

    ghost lanes = { λ s. s.map.now.lanes };

    ghost next = { λ s. s.next };

    ghost has_all = { λ s n. Has s.seat.me.0.ended n };

    ghost given = { λ s t n. n ≡ s.next };

    ghost stands_seen = { λ s. record { same = refl; legal = s.idle.of.legal } };

    ghost only_seen = { λ s h stood. stood.same };

    ghost numbered = { λ s. s.idle.of.numbered };

    ghost of_lanes = { λ s. s.idle.of.lanes };

    ghost has_own = { λ s. s.idle.mine };

    ghost above = { λ s. s.above };

    ghost within = { λ s. s.idle.below };

    fn fork(&mut self) -> Result<Self, ForkFault> {
        let lanes = self.map.lanes;
        if self.room == 0 {
            return Err(ForkFault::Lanes {
                given: u64::from(self.next),
                cap: u64::from(lanes),
            });
        }
        let seat = self.map.split(&mut self.seat, self.number);
        let number = self.next;
        self.alone = false;
        self.next += 1;
        self.room -= 1;
        Ok(SharedLane {
            map: self.map,
            seat,
            number,
            alone: false,
            next: number + 1,
            room: 0,
            refusals: 0,
            last: None,
        })
    }

    fn end(self, into: &mut Self) {
        let SharedLane {
            map: _,
            seat,
            number: _,
            alone: _,
            next,
            room,
            refusals,
            last: _,
        } = self;
        // And it bounds how many forks the two can make together.
        let _lanes = into.map.lanes;
        into.map.join(&mut into.seat, into.number, seat);
        into.next = into.next.max(next);
        into.room += room;
        into.refusals = into.refusals.saturating_add(refusals);
    }
}
