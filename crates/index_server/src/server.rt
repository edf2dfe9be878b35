//! A server with one worker or more.
ghost use Rattle.std.specs.Prelude.{◌≡◌, ◌≢◌, ◌<◌, ◌≤◌, ◌+◌, ◌-◌, ℕ, false, vec_len};
ghost use Rattle.std.specs.Bool.{OnTrue, OnFalse};
ghost use mathlib.Core.List.{IsPrefix};
ghost use Rattle.counts.specs.Counts.{Rose, RoseBy};
ghost use Rattle.map_model.specs.declared.refusal.ForkFault.{ForkFault};
ghost use Rattle.index_server.specs.Connections.{ServesClosed};
ghost use Rattle.index_server.specs.Ends.{TellsRoom, LeavesRoom};
ghost use Rattle.index_server.specs.Hands.{SharedServe, WorkersServe, AreReady};

use crate::alone::serve_alone;
use crate::both::replace_both;
use crate::end::DoorEnd;
use crate::forks::{end_workers, fork_workers};
use crate::shared_door::{Begun, SharedDoor};
use crate::worker::Worker;
use crate::workers::work_all;
use map_model::Lanes;
use outside::Door;
use std::alloc::Global;
use std::marker::Brand;
use std::sync::ledger::{Blank, Book, Share};
use std::sync::{Mutex, Wait};
use std::thread::Threads;

/// Serves the connections of a door by so many workers, one by `first` and each other by a fork of it.
///
/// It ends when `sessions` connections are closed, where that number isn't 0, or when the door fails; sessions that run
/// are served to their end first. However a session ends, it ends its own connection alone. A session waits while
/// another lane is in its way, and takes at most `CONNECTION_BYTES` bytes. A worker's lane rests while the worker waits
/// for a connection; an accept that has no memory is tried again. At the end all forks are ended into `first`.
///
/// One worker is the caller's own thread, with no fork and no lock. More accept and close under one lock. A connection
/// that was served has ended before its worker asks for the lock, so no client waits for it. Where a worker's thread
/// can't be started, its work is done on the caller's.
///
/// Refused are more workers than `first` has room for, and any for which there is no memory. Then no connection was
/// accepted, and the forks that were made are ended too. The room that a fork took doesn't come back with its end.
pub fn serve_door<R: Threads + Wait + Sync, T: Lanes, D: Door + Send>(
    rt: &R,
    alloc: Global,
    door: &mut D,
    first: &mut T,
    workers: u32,
    sessions: u64,
) -> DoorEnd
    requires { 0 < workers }
    ensures alone { workers ≡ 1 → ServesClosed
        (T.lane first.old) (T.sole first.old) (T.fits first.old)
        (T.refusals first.old) (T.refusals first.new) (T.last first.old) (T.last first.new)
        (D.closed door.old) (D.closed door.new) (T.seen first.old) (T.seen first.new) }
    ensures shared { 1 < workers → SharedServe result workers (T.lane first.old) (T.lanes first.old)
        (D.closings door.old) (D.closings door.new) (T.seen first.old) (T.seen first.new) }
    ensures sole { workers ≡ 1 → T.sole first.new ≡ T.sole first.old }
    ensures begins { IsPrefix (T.seen first.old) (T.seen first.new) }
    ensures done { result ≡ DoorEnd.Done → (0 < sessions)
        × RoseBy sessions (D.closings door.old) (D.closings door.new)
        × (D.closings door.new ≤ D.closings door.old + sessions) }
    ensures accepted { result ≡ DoorEnd.Done → D.opened door.new ≡ D.opened door.old + sessions }
    ensures fault { result ≡ DoorEnd.DoorFault → Rose (D.faults door.old) (D.faults door.new) }
    ensures room { TellsRoom (T.room first.old) (workers - 1) (T.lanes first.old) result }
    ensures left { LeavesRoom (T.room first.old) (workers - 1) (T.room first.new) result }
    ensures refused { (fault : ForkFault) → result ≡ DoorEnd.Lanes fault
        → (door.new ≡ door.old) × (T.seen first.new ≡ T.seen first.old) }
    ensures kept { (T.lane first.new ≡ T.lane first.old) × (T.origin first.new ≡ T.origin first.old) }
{
    if workers == 1 {
        return serve_alone(rt, alloc, door, first, sessions);
    }
    serve_many::<Brand, R, T, D>(
        rt,
        alloc,
        Blank::new(workers as u64),
        door,
        first,
        workers,
        sessions,
    )
}

/// Forks a lane for each worker but the first, and serves by all.
fn serve_many<B: Begun + Send + Sync, R: Threads + Wait + Sync, T: Lanes, D: Door + Send>(
    rt: &R,
    alloc: Global,
    blank: Blank,
    door: &mut D,
    first: &mut T,
    workers: u32,
    sessions: u64,
) -> DoorEnd
    requires some { 1 < workers }
    requires ledger { (blank.name ≡ B.name) × (blank.parts ≡ B.parts) × (blank.parts ≡ workers) }
    requires begun { (sessions ≡ B.sessions) × (D.opened door.old ≡ B.opened) × (D.closings door.old ≡ B.closings)
        × (D.faults door.old ≡ B.faults) }
    ensures shared { SharedServe result workers (T.lane first.old) (T.lanes first.old)
        (D.closings door.old) (D.closings door.new) (T.seen first.old) (T.seen first.new) }
    ensures begins { IsPrefix (T.seen first.old) (T.seen first.new) }
    ensures done { result ≡ DoorEnd.Done → (0 < sessions)
        × RoseBy sessions (D.closings door.old) (D.closings door.new)
        × (D.closings door.new ≤ D.closings door.old + sessions) }
    ensures accepted { result ≡ DoorEnd.Done → D.opened door.new ≡ D.opened door.old + sessions }
    ensures fault { result ≡ DoorEnd.DoorFault → Rose (D.faults door.old) (D.faults door.new) }
    ensures room { TellsRoom (T.room first.old) (workers - 1) (T.lanes first.old) result }
    ensures left { LeavesRoom (T.room first.old) (workers - 1) (T.room first.new) result }
    ensures refused { (fault : ForkFault) → result ≡ DoorEnd.Lanes fault
        → (door.new ≡ door.old) × (T.seen first.new ≡ T.seen first.old) }
    ensures kept { (T.lane first.new ≡ T.lane first.old) × (T.origin first.new ≡ T.origin first.old) }
{
    let (book, mut share) = blank.open::<B>();
    match fork_workers(alloc, first, &mut share, (workers - 1) as usize) {
        Ok(forks) => {
            if serve_shared(rt, alloc, door, first, (book, share, forks), sessions) {
                DoorEnd::DoorFault
            } else {
                DoorEnd::Done
            }
        }
        Err(fault) => DoorEnd::Lanes(fault),
    }
}

/// The book of the connections that are closed, the first worker's share in it, and the other workers.
type Crew<T, B> = (Book<B>, Share<B>, Vec<Worker<T, B>>);

/// Serves a door by a worker for each lane, and ends the forks. Says whether the door failed.
fn serve_shared<B: Begun + Send + Sync, R: Threads + Wait + Sync, T: Lanes, D: Door + Send>(
    rt: &R,
    alloc: Global,
    door: &mut D,
    first: &mut T,
    crew: Crew<T, B>,
    sessions: u64,
) -> bool
    requires begun { (sessions ≡ B.sessions) × (D.opened door.old ≡ B.opened) × (D.closings door.old ≡ B.closings)
        × (D.faults door.old ≡ B.faults) }
    requires ledger { (crew.0.total ≡ 0) × (crew.1.parts ≡ 1) × (crew.1.amount ≡ 0) × (B.parts ≡ vec_len crew.2 + 1) }
    requires ready { (T.sole first.old ≡ false) × ((upto : ℕ) × AreReady (T.origin first.old) (T.lanes first.old)
        (T.seen first.old) (T.lane first.old + 1) upto crew.2.items) }
    ensures served { WorkersServe (vec_len crew.2 + 1) (T.lane first.old) (T.lanes first.old)
        B.closings (D.closings door.new) (T.seen first.old) (T.seen first.new) }
    ensures fault { OnTrue result (Rose B.faults (D.faults door.new)) }
    ensures done { OnFalse result ((0 < sessions) × (D.opened door.new ≡ B.opened + sessions)
        × RoseBy sessions B.closings (D.closings door.new)
        × (D.closings door.new ≤ B.closings + sessions)) }
    ensures begins { IsPrefix (T.seen first.old) (T.seen first.new) }
    ensures kept { (T.lane first.new ≡ T.lane first.old) × (T.origin first.new ≡ T.origin first.old)
        × (T.room first.new ≡ T.room first.old) }
{
    replace_both(
        door,
        first,
        crew,
        |door, first, crew| -> (D, T, bool)
            requires { (sessions ≡ B.sessions) × (D.opened door ≡ B.opened) × (D.closings door ≡ B.closings)
                × (D.faults door ≡ B.faults)
                × (crew.0.total ≡ 0) × (crew.1.parts ≡ 1) × (crew.1.amount ≡ 0) × (B.parts ≡ vec_len crew.2 + 1)
                × (T.sole first ≡ false) × ((upto : ℕ) × AreReady (T.origin first) (T.lanes first)
                (T.seen first) (T.lane first + 1) upto crew.2.items) }
            ensures { WorkersServe (vec_len crew.2 + 1) (T.lane first) (T.lanes first)
                B.closings (D.closings result.0) (T.seen first) (T.seen result.1)
                × OnTrue result.2 (Rose B.faults (D.faults result.0))
                × OnFalse result.2 ((0 < sessions) × (D.opened result.0 ≡ B.opened + sessions)
                × RoseBy sessions B.closings (D.closings result.0)
                × (D.closings result.0 ≤ B.closings + sessions))
                × IsPrefix (T.seen first) (T.seen result.1)
                × (T.lane result.1 ≡ T.lane first) × (T.origin result.1 ≡ T.origin first)
                × (T.room result.1 ≡ T.room first) }
        { share(rt, alloc, door, first, crew, sessions) },
    )
}

/// Serves as `serve_shared` does, by a door and lanes that it takes and gives back.
fn share<B: Begun + Send + Sync, R: Threads + Wait + Sync, T: Lanes, D: Door + Send>(
    rt: &R,
    alloc: Global,
    door: D,
    first: T,
    crew: Crew<T, B>,
    sessions: u64,
) -> (D, T, bool)
    requires begun { (sessions ≡ B.sessions) × (D.opened door ≡ B.opened) × (D.closings door ≡ B.closings)
        × (D.faults door ≡ B.faults) }
    requires ledger { (crew.0.total ≡ 0) × (crew.1.parts ≡ 1) × (crew.1.amount ≡ 0) × (B.parts ≡ vec_len crew.2 + 1) }
    requires ready { (T.sole first ≡ false) × ((upto : ℕ) × AreReady (T.origin first) (T.lanes first)
        (T.seen first) (T.lane first + 1) upto crew.2.items) }
    ensures served { WorkersServe (vec_len crew.2 + 1) (T.lane first) (T.lanes first)
        B.closings (D.closings result.0) (T.seen first) (T.seen result.1) }
    ensures fault { OnTrue result.2 (Rose B.faults (D.faults result.0)) }
    ensures done { OnFalse result.2 ((0 < sessions) × (D.opened result.0 ≡ B.opened + sessions)
        × RoseBy sessions B.closings (D.closings result.0)
        × (D.closings result.0 ≤ B.closings + sessions)) }
    ensures begins { IsPrefix (T.seen first) (T.seen result.1) }
    ensures kept { (T.lane result.1 ≡ T.lane first) × (T.origin result.1 ≡ T.origin first)
        × (T.room result.1 ≡ T.room first) }
{
    let (book, share, forks) = crew;
    let shared = Mutex::new(SharedDoor::new(door, book, sessions));
    let worker = Worker::new(first, share);
    let (forks, worker) = work_all(rt, alloc, &shared, worker, forks);
    let (mut first, mut share) = worker.finish();
    end_workers(&mut first, &mut share, forks);
    let (door, failed, accepted, closed) = shared.into_inner().finish(&mut share);
    if !failed {
        wait_unless_done(rt, sessions, accepted, closed);
    }
    (door, first, failed)
}

/// Returns where as many connections were accepted as were asked for, and all were closed. Workers leave only then, or
/// where the door failed.
fn wait_unless_done<R: Wait>(rt: &R, sessions: u64, accepted: u64, closed: u64)
    ensures { (0 < sessions) × (accepted ≡ sessions) × (closed ≡ sessions) }
{
    if sessions != 0 && accepted == sessions && closed == sessions {
        return;
    }
    for _ in rt.forever() {}
    unreachable!()
}
