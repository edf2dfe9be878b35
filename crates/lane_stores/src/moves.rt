//! How a seat takes the map, makes a call on it and gives it back; and how seats are split and joined.
ghost use Rattle.std.specs.Prelude.{◌≡◌, ◌≢◌, ◌≤◌, ◌<◌, [], Some, None, length, IfOk, OnErr, OnOk, IsSome, is_some, false};
ghost use Rattle.std.specs.Bool.{OnTrue, OnFalse};
ghost use Rattle.key_bytes.specs.Bound.{bound_cmp};
ghost use Rattle.map_model.specs.Maps.{find, with, without, between};
ghost use Rattle.atomic_table.specs.Table.{Allows};
ghost use Rattle.map_model.specs.History.{after};
ghost use Rattle.lane_stores.specs.Rule.{Kept, forked, child_of, both_views};
ghost use Rattle.lane_stores.specs.Steps.{Takes, IsHeld, Unlocked, Looked};
ghost use Rattle.lane_stores.specs.Calls.{IsIdle, IsOut, map_in, told_by, entries_of, GoesBy};

use crate::deed::Deed;
use crate::rule::{Adds, Ends, Forks, Locks, Looks, Unlocks};
use crate::shared::SharedMap;
use crate::view::View;
use key_bytes::{Bound, Key};
use map_model::{Page, PlainMap};
use std::alloc::AllocError;
use std::cmp::Ordering;
use std::marker::Brand;

pub(crate) type Seat = atomic_table::Seat<PlainMap, View>;

// Each call here is given the number of the seat's lane, some of them for their contracts alone.
impl SharedMap {
    /// Takes the map and answers 0, or answers the number of the lane that has it plus one.
    pub(crate) fn take(&self, seat: &mut Seat, lane: u32) -> u64
        requires of { seat.old.table_id ≡ self.now.table.shared.table_id }
        requires idle { IsIdle self.now.lanes lane seat.old.me }
        ensures of { seat.new.table_id ≡ seat.old.table_id }
        ensures free { result ≡ 0 → Takes seat.old.me seat.new.me }
        ensures held { result ≢ 0 → IsHeld seat.old.me result seat.new.me }
    {
        self.table
            .shared
            .compare_exchange::<Locks>(seat, 0, 0, u64::from(lane) + 1)
    }

    /// Gives the map back, and adds the entry of the call, if one was answered.
    pub(crate) fn give(&self, seat: &mut Seat, lane: u32, deed: &Deed<'_>)
        requires of { seat.old.table_id ≡ self.now.table.shared.table_id }
        requires out { IsOut self.now.lanes lane seat.old.me }
        requires goes { GoesBy (after seat.old.me.0.seen) (told_by deed.now) (map_in seat.old.me.1) }
        ensures of { seat.new.table_id ≡ seat.old.table_id }
        ensures unlocked { Unlocked (entries_of lane seat.old.me.0.seen (told_by deed.now)) seat.old.me seat.new.me }
    {
        self.give_as::<Brand>(seat, lane, deed);
    }

    fn give_as<J: Adds>(&self, seat: &mut Seat, _lane: u32, _deed: &Deed<'_>)
        requires { (seat.old.table_id ≡ self.now.table.shared.table_id)
            × Allows (Kept self.now.table.shared.key) self.now.table.shared.table_id.slots seat.old.id seat.old.me 0 (λ _. 0) (λ _ n. Unlocked J.entries seat.old.me n) }
        ensures { (seat.new.table_id ≡ seat.old.table_id) × Unlocked J.entries seat.old.me seat.new.me }
    {
        self.table.shared.store::<Unlocks<J>>(seat, 0, 0);
    }

    /// Makes a seat for the number of the next fork.
    pub(crate) fn split(&self, seat: &mut Seat, lane: u32) -> Seat
        requires of { seat.old.table_id ≡ self.now.table.shared.table_id }
        requires idle { IsIdle self.now.lanes lane seat.old.me }
        requires room { 0 < seat.old.me.0.room }
        ensures of { (seat.new.table_id ≡ seat.old.table_id) × (result.table_id ≡ seat.old.table_id) }
        ensures left { seat.new.me ≡ (forked seat.old.me.0, []) }
        ensures child { result.me ≡ (child_of seat.old.me.0, []) }
    {
        self.table.shared.split_seat::<Forks>(seat)
    }

    /// Takes in what another seat has seen, and looks at it.
    pub(crate) fn join(&self, seat: &mut Seat, lane: u32, other: Seat)
        requires of { (seat.old.table_id ≡ self.now.table.shared.table_id) × (other.table_id ≡ self.now.table.shared.table_id) }
        requires idle { IsIdle self.now.lanes lane seat.old.me }
        requires other { (other.me.1 ≡ []) × (other.me.0.holds ≡ false) }
        ensures of { seat.new.table_id ≡ seat.old.table_id }
        ensures both { seat.new.me ≡ (both_views seat.old.me.0 other.me.0, []) }
        ensures looked { Looked seat.new.me seat.new.me }
    {
        self.table.shared.join_seat::<Ends>(seat, other);
        self.table.shared.load::<Looks>(seat, 0);
    }

    /// Leaves the value at the key in `out`.
    pub(crate) fn look(
        &self,
        seat: &mut Seat,
        lane: u32,
        key: &Key,
        out: &mut Vec<u8>,
    ) -> Result<bool, AllocError>
        requires of { seat.old.table_id ≡ self.now.table.shared.table_id }
        requires out { IsOut self.now.lanes lane seat.old.me }
        ensures same { (seat.new.table_id ≡ seat.old.table_id) × (seat.new.me ≡ seat.old.me) }
        ensures found { IfOk result (λ found. OnTrue found (find (map_in seat.old.me.1) key.now ≡ Some out.new.items)) }
        ensures absent { IfOk result (λ found. OnFalse found
            ((find (map_in seat.old.me.1) key.now ≡ None) × (out.new.items ≡ []))) }
        ensures cleared { OnErr result (out.new.items ≡ []) }
    {
        seat.slot_mut(&self.table.shared, 0).look(key, out)
    }

    /// Sets the value at the key.
    pub(crate) fn set(
        &self,
        seat: &mut Seat,
        lane: u32,
        key: &Key,
        value: &[u8],
    ) -> Result<bool, AllocError>
        requires of { seat.old.table_id ≡ self.now.table.shared.table_id }
        requires out { IsOut self.now.lanes lane seat.old.me }
        ensures of { (seat.new.table_id ≡ seat.old.table_id) × (seat.new.me.0 ≡ seat.old.me.0) }
        ensures out { IsOut self.now.lanes lane seat.new.me }
        ensures map { OnOk result (map_in seat.new.me.1 ≡ with (map_in seat.old.me.1) key.now value.now) }
        ensures new { IfOk result (λ new. OnTrue new (find (map_in seat.old.me.1) key.now ≡ None)) }
        ensures old { IfOk result (λ new. OnFalse new (IsSome (find (map_in seat.old.me.1) key.now))) }
        ensures err { OnErr result (map_in seat.new.me.1 ≡ map_in seat.old.me.1) }
    {
        seat.slot_mut(&self.table.shared, 0).set(key, value)
    }

    /// Takes the key out.
    pub(crate) fn remove(&self, seat: &mut Seat, lane: u32, key: &Key) -> bool
        requires of { seat.old.table_id ≡ self.now.table.shared.table_id }
        requires out { IsOut self.now.lanes lane seat.old.me }
        ensures of { (seat.new.table_id ≡ seat.old.table_id) × (seat.new.me.0 ≡ seat.old.me.0) }
        ensures out { IsOut self.now.lanes lane seat.new.me }
        ensures map { map_in seat.new.me.1 ≡ without (map_in seat.old.me.1) key.now }
        ensures gone { result ≡ is_some (find (map_in seat.old.me.1) key.now) }
    {
        seat.slot_mut(&self.table.shared, 0).take(key)
    }

    /// Leaves the first pairs between two ends in `page`.
    pub(crate) fn first_pairs(
        &self,
        seat: &mut Seat,
        lane: u32,
        from: &Bound,
        to: &Bound,
        page: &mut Page,
    ) -> Result<Bound, AllocError>
        requires of { seat.old.table_id ≡ self.now.table.shared.table_id }
        requires out { IsOut self.now.lanes lane seat.old.me }
        requires below { bound_cmp from.now to.now ≡ Ordering.Less }
        ensures same { (seat.new.table_id ≡ seat.old.table_id) × (seat.new.me ≡ seat.old.me) }
        ensures pairs { IfOk result (λ upto. page.new.pairs ≡ between (map_in seat.old.me.1) from.now upto) }
        ensures above { IfOk result (λ upto. bound_cmp from.now upto ≡ Ordering.Less) }
        ensures within { IfOk result (λ upto. bound_cmp upto to.now ≢ Ordering.Greater) }
        ensures cleared { OnErr result (page.new.pairs ≡ []) }
    {
        seat.slot_mut(&self.table.shared, 0)
            .first_pairs(from, to, page)
    }
}
