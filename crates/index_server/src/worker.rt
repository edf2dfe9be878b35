//! A worker's lane.
ghost use Rattle.std.specs.Prelude.{◌≡◌};
ghost use Rattle.index_server.specs.Hands.{Worked};

use crate::shared_door::{Begun, SharedDoor};
use crate::workers::work;
use map_model::Lanes;
use outside::Door;
use std::alloc::Global;
use std::marker::Model;
use std::sync::ledger::Share;
use std::sync::{Mutex, Wait};

/// A lane, and the share in which the connections that it closed are counted.
#[derive(Drop)]
pub(crate) struct Worker<T: Lanes, B: Begun> {
    pub(crate) lane: T,
    pub(crate) share: Share<B>,
}

impl<T: Lanes, B: Begun> Model for Worker<T, B> {
    ghost use Rattle.std.specs.Prelude.{◌≡◌};
    ghost use Rattle.index_server.specs.Hands.{Hand};

    ghost Value = { Hand };

    ghost view = { λ w. record {
      lane = T.lane w.lane;
      sole = T.sole w.lane;
      origin = T.origin w.lane;
      room = T.room w.lane;
      seen = T.seen w.lane;
      count = w.share.amount;
    } };

    ghost invariant = { λ w. w.share.parts ≡ 1 };
}

impl<T: Lanes, B: Begun> Worker<T, B> {
    /// A lane with its share.
    pub(crate) fn new(lane: T, share: Share<B>) -> Worker<T, B>
        requires { share.parts ≡ 1 }
        ensures lane { (result.lane ≡ T.lane lane) × (result.sole ≡ T.sole lane) × (result.origin ≡ T.origin lane)
            × (result.room ≡ T.room lane) × (result.seen ≡ T.seen lane) }
        ensures share { result.count ≡ share.amount }
    {
        Worker { lane, share }
    }

    /// Lets the lane serve connections of a door.
    pub(crate) fn serve<R: Wait + Sync, D: Door>(
        &mut self,
        rt: &R,
        alloc: Global,
        door: &Mutex<SharedDoor<D, B>>,
    )
        ensures { Worked self.old self.new }
    {
        work(rt, alloc, door, &mut self.lane, &mut self.share)
    }

    /// The lane and the share.
    pub(crate) fn finish(self) -> (T, Share<B>)
        ensures lane { (T.lane result.0 ≡ self.lane) × (T.sole result.0 ≡ self.sole) × (T.origin result.0 ≡ self.origin)
            × (T.room result.0 ≡ self.room) × (T.seen result.0 ≡ self.seen) }
        ensures share { (result.1.parts ≡ 1) × (result.1.amount ≡ self.count) }
    {
        let Worker { lane, share } = self;
        (lane, share)
    }
}
