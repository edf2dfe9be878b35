//! A server with one worker.
ghost use Rattle.std.specs.Prelude.{◌≡◌, ◌≢◌, ◌<◌, ◌≤◌, ◌+◌, List};
ghost use Rattle.counts.specs.Counts.{Rose, RoseBy};
ghost use Rattle.map_model.specs.History.{Entry};
ghost use Rattle.map_model.specs.Ordered.{Follows};
ghost use Rattle.map_model.specs.declared.refusal.ForkFault.{ForkFault};
ghost use Rattle.index_server.specs.Connections.{ServesClosed};
ghost use Rattle.index_server.specs.Ends.{EachClosed};

use crate::connection::serve_connection;
use crate::end::DoorEnd;
use counts::raise;
use map_model::Ordered;
use outside::{Door, Stop};
use std::alloc::Global;
use std::sync::Wait;

/// Serves the connections of a door, one after another, on the caller's thread.
///
/// It ends when `sessions` connections are closed, where that number isn't 0, or when the door fails. However a
/// session ends, it ends its own connection alone. A session waits while another lane is in its way, and takes at most
/// `CONNECTION_BYTES` bytes. The store rests while a connection is waited for; an accept that has no memory is tried
/// again. Beside what sessions take, nothing takes memory.
pub fn serve_alone<R: Wait + Sync, T: Ordered, D: Door>(
    rt: &R,
    alloc: Global,
    door: &mut D,
    store: &mut T,
    sessions: u64,
) -> DoorEnd
    ensures served { Follows (T.stands store.old) (T.stands store.new) (ServesClosed
        (T.lane store.old) (T.sole store.old) (T.fits store.old)
        (T.refusals store.old) (T.refusals store.new) (T.last store.old) (T.last store.new)
        (D.closed door.old) (D.closed door.new)) }
    ensures done { result ≡ DoorEnd.Done → (0 < sessions)
        × RoseBy sessions (D.closings door.old) (D.closings door.new)
        × (D.closings door.new ≤ D.closings door.old + sessions) }
    ensures accepted { result ≡ DoorEnd.Done → D.opened door.new ≡ D.opened door.old + sessions }
    ensures returned { EachClosed (D.opened door.old) (D.opened door.new) (D.closings door.old) (D.closings door.new) }
    ensures fault { result ≡ DoorEnd.DoorFault → Rose (D.faults door.old) (D.faults door.new) }
    ensures never { (fault : ForkFault) → result ≢ DoorEnd.Lanes fault }
    ensures kept { (T.lane store.new ≡ T.lane store.old) × (T.sole store.new ≡ T.sole store.old)
        × (T.origin store.new ≡ T.origin store.old) }
    ensures forks { T.room store.new ≡ T.room store.old }
    ensures fits { (history : List Entry) → T.fits store.old history → T.fits store.new history }
{
    let mut closed = 0u64;
    // Each session leaves the store at rest.
    store.rest();
    for _ in rt.forever() {
        if sessions != 0 && closed == sessions {
            return DoorEnd::Done;
        }
        match door.accept() {
            Ok((mut input, mut output)) => {
                serve_connection(rt, alloc, store, &mut input, &mut output);
                door.close(D::finish(input, output));
                closed = raise(closed);
            }
            Err(Stop::Failed) => return DoorEnd::DoorFault,
            Err(Stop::NoMemory) => {}
        }
    }
    unreachable!()
}
