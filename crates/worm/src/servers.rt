//! A server of the connections of a door, over an index of its own.
ghost use Rattle.std.specs.Prelude.{◌≡◌, ◌≢◌, ◌⊎◌, ◌<◌, ◌≤◌, ◌+◌};
ghost use Rattle.counts.specs.Counts.{Rose, RoseBy};
ghost use Rattle.index_server.specs.Connections.{ServesClosed};
ghost use Rattle.index_server.specs.Hands.{WorkersServe};
ghost use Rattle.row_words.specs.Shape.{IsShape};
ghost use Rattle.worm.specs.Servers.{ServedWith};

use crate::top::Outcome;
use index_lane::Lane;
use index_server::{DoorEnd, serve_door};
use map_model::{ForkFault, Lanes};
use outside::{Door, Stop};
use row_words::Shape;
use std::alloc::Global;
use std::mem;
use std::sync::Wait;
use std::thread::Threads;
use worm_index::Index;

/// Listens at an address and serves the connections that come, by so many workers, until so many sessions have ended;
/// 0 is no bound. The sessions begin with an empty index of this shape, which keeps its memory until the process ends.
pub fn run_server<R: Threads + Wait + Sync, D: Door + Send>(
    rt: &R,
    alloc: Global,
    shape: &Shape,
    address: &str,
    workers: u32,
    sessions: u64,
    door: &mut D,
) -> Outcome
    requires shape { IsShape shape.now }
    requires workers { (1 ≤ workers) × (workers ≤ shape.now.lanes) }
    ensures status { (result.status ≡ 0) ⊎ (result.status ≡ 5) ⊎ (result.status ≡ 6) }
    ensures served { ServedWith shape.now workers sessions result.status (D.closed door.old) (D.closed door.new)
        (D.opened door.old) (D.opened door.new) (D.closings door.old) (D.closings door.new)
        result.pass result.refusals result.last }
    ensures door_fault { result.status ≡ 6 → Rose (D.faults door.old) (D.faults door.new) }
{
    match door.listen(address) {
        Ok(()) => serve_all(rt, alloc, shape, workers, sessions, door),
        Err(Stop::Failed) => Outcome {
            status: 6,
            pass: None,
            refusals: 0,
            last: None,
        },
        Err(Stop::NoMemory) => Outcome {
            status: 5,
            pass: None,
            refusals: 0,
            last: None,
        },
    }
}

/// Serves the connections of a door that listens.
fn serve_all<R: Threads + Wait + Sync, D: Door + Send>(
    rt: &R,
    alloc: Global,
    shape: &Shape,
    workers: u32,
    sessions: u64,
    door: &mut D,
) -> Outcome
    requires shape { IsShape shape.now }
    requires workers { (1 ≤ workers) × (workers ≤ shape.now.lanes) }
    ensures status { (result.status ≡ 0) ⊎ (result.status ≡ 5) ⊎ (result.status ≡ 6) }
    ensures served { ServedWith shape.now workers sessions result.status (D.closed door.old) (D.closed door.new)
        (D.opened door.old) (D.opened door.new) (D.closings door.old) (D.closings door.new)
        result.pass result.refusals result.last }
    ensures door_fault { result.status ≡ 6 → Rose (D.faults door.old) (D.faults door.new) }
{
    match Index::make(alloc, shape) {
        Ok((index, pass)) => {
            let mut lane = Lane::new(&index, pass);
            let status = serve_lanes(rt, alloc, door, &mut lane, workers, sessions);
            let (pass, refusals, last) = lane.into_parts();
            // As at the end of a script.
            mem::forget(index);
            Outcome {
                status,
                pass: Some(pass),
                refusals,
                last,
            }
        }
        // A shape that is one is refused for want of memory alone.
        Err(_) => Outcome {
            status: 5,
            pass: None,
            refusals: 0,
            last: None,
        },
    }
}

/// Serves by a lane and forks of it, and answers the status that tells of the end.
fn serve_lanes<R: Threads + Wait + Sync, T: Lanes, D: Door + Send>(
    rt: &R,
    alloc: Global,
    door: &mut D,
    first: &mut T,
    workers: u32,
    sessions: u64,
) -> u8
    requires some { 0 < workers }
    requires room { workers ≤ T.room first.old + 1 }
    ensures status { (result ≡ 0) ⊎ (result ≡ 5) ⊎ (result ≡ 6) }
    ensures done { result ≡ 0 → (0 < sessions)
        × RoseBy sessions (D.closings door.old) (D.closings door.new)
        × (D.closings door.new ≤ D.closings door.old + sessions) }
    ensures accepted { result ≡ 0 → D.opened door.new ≡ D.opened door.old + sessions }
    ensures wanting { result ≡ 5 → (D.closed door.new ≡ D.closed door.old)
        × (D.opened door.new ≡ D.opened door.old) × (D.closings door.new ≡ D.closings door.old) × (T.seen first.new ≡ T.seen first.old) }
    ensures fault { result ≡ 6 → Rose (D.faults door.old) (D.faults door.new) }
    ensures alone { workers ≡ 1 → ServesClosed
        (T.lane first.old) (T.sole first.old) (T.fits first.old)
        (T.refusals first.old) (T.refusals first.new) (T.last first.old) (T.last first.new)
        (D.closed door.old) (D.closed door.new) (T.seen first.old) (T.seen first.new) }
    ensures shared { 1 < workers → result ≢ 5 → WorkersServe workers (T.lane first.old) (T.lanes first.old)
        (D.closings door.old) (D.closings door.new) (T.seen first.old) (T.seen first.new) }
    ensures forks { result ≢ 5 → T.room first.old + 1 ≡ T.room first.new + workers }
{
    match serve_door(rt, alloc, door, first, workers, sessions) {
        DoorEnd::Done => 0,
        DoorEnd::DoorFault => 6,
        DoorEnd::Lanes(ForkFault::NoMemory) => 5,
        // There are no more workers than lanes.
        DoorEnd::Lanes(ForkFault::Lanes { .. }) => unreachable!(),
    }
}
