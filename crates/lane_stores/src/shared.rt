//! The map that lanes share.
ghost use Rattle.std.specs.Prelude.{◌≡◌, ◌<◌, ◌-◌, [], IfOk, true};
ghost use Rattle.lane_stores.specs.Rule.{first_view};

use crate::lane::SharedLane;
use crate::moves::Seat;
use crate::rule::Law;
use crate::view::View;
use atomic_table::{Refused, Table};
use map_model::PlainMap;
use std::alloc::{AllocError, Global};

/// One map, and the word that says which lane has it.
#[derive(Drop)]
pub struct SharedMap {
    pub(crate) table: Table<PlainMap, View, u32, Law, Global>,
    pub(crate) lanes: u32,
    ghost keyed: { table.shared.key ≡ lanes },
    ghost sized: { (table.shared.table_id.words ≡ 1) × (table.shared.table_id.slots ≡ 1) },
}

/// What the first lane of a map is made of.
#[derive(Drop)]
pub struct FirstSeat {
    pub(crate) seat: Seat,
    lanes: u32,
    ghost first: { seat.me ≡ (first_view lanes, []) },
    ghost some: { 0 < lanes },
}

impl SharedMap {
    /// An empty map that so many lanes may share, and what its first lane is made of.
    pub fn make(alloc: Global, lanes: u32) -> Result<(SharedMap, FirstSeat), AllocError>
        requires { 0 < lanes }
        ensures of { IfOk result (λ r. r.1.seat.table_id ≡ r.0.table.shared.table_id) }
        ensures lanes { IfOk result (λ r. (r.0.lanes ≡ lanes) × (r.1.lanes ≡ lanes)) }
    {
        let maps = vec![in alloc; PlainMap::new(alloc)]?;
        match Table::new(alloc, &[0], maps, &lanes) {
            Ok((table, seat)) => Ok((SharedMap { table, lanes }, FirstSeat { seat, lanes })),
            Err(Refused { slots: _ }) => Err(AllocError),
        }
    }

    /// The map's first lane, which stands for the empty history.
    pub fn first_lane(&self, first: FirstSeat) -> SharedLane<'_>
        requires of { first.seat.table_id ≡ self.now.table.shared.table_id }
        requires lanes { first.lanes ≡ self.now.lanes }
        ensures lane { (result.number ≡ 0) × (result.alone ≡ true) }
        ensures seen { result.seat.me.0.seen ≡ [] }
        ensures room { (result.map.now.lanes ≡ self.now.lanes) × (result.room ≡ self.now.lanes - 1) }
        ensures counted { result.refusals ≡ 0 }
    {
        let FirstSeat { seat, lanes: _ } = first;
        SharedLane::first(self, seat)
    }
}
