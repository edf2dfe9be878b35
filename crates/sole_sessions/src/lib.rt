//! Sessions over a store that nobody else calls, which begin with an empty map.
#![tactic(auto)]

ghost use Rattle.std.specs.Prelude.{◌≡◌, [], List, IsTrue, Some};
ghost use Rattle.counts.specs.Counts.{Rose};
ghost use Rattle.map_model.specs.History.{Entry};
ghost use Rattle.session.specs.Sessions.{Session};
ghost use Rattle.sole_sessions.specs.SoleSessions.{SoleSession};

use map_model::Ordered;
use outside::{Sink, Source};
use session::{Bounded, SessionEnd, serve};
use std::alloc::Global;

/// Serves as `session::serve` does, over a new store that is the only lane. No call is made again, since no other
/// lane can be in the way.
pub fn serve_sole<O: Ordered, S: Source, K: Sink>(
    alloc: Global,
    store: &mut O,
    source: &mut S,
    sink: &mut K,
    budget: u64,
) -> SessionEnd
    requires sole { IsTrue (O.sole store.old) }
    requires new { O.stands store.old [] }
    ensures session { Session result budget (S.told source.old) (S.told source.new)
        (K.written sink.old) (K.written sink.new)
        (Some 1) (O.lane store.old) (O.sole store.old) (O.fits store.old)
        (O.refusals store.old) (O.refusals store.new) (O.last store.old) (O.last store.new)
        (O.stands store.old) (O.stands store.new) }
    ensures output { SoleSession result budget (S.told source.old) (S.told source.new)
        (K.written sink.old) (K.written sink.new) (O.fits store.old) }
    ensures read { result ≡ SessionEnd.ReadFault → Rose (S.faults source.old) (S.faults source.new) }
    ensures write { result ≡ SessionEnd.WriteFault → Rose (K.faults sink.old) (K.faults sink.new) }
    ensures kept { (O.lane store.new ≡ O.lane store.old) × (O.sole store.new ≡ O.sole store.old)
        × (O.origin store.new ≡ O.origin store.old) }
    ensures fits { (history : List Entry) → O.fits store.old history → O.fits store.new history }
{
    let mut patience = Bounded(1);
    serve(alloc, store, source, sink, &mut patience, budget)
}
