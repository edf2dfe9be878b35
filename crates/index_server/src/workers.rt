//! Workers that share a door.
ghost use Rattle.std.specs.Prelude.{◌≡◌, ◌<◌, ◌≤◌, ◌-◌, false};
ghost use Rattle.map_model.specs.Ordered.{Follows};
ghost use Rattle.index_server.specs.Hands.{ServesCounted, Worked, AllWorked};

use crate::connection::serve_connection;
use crate::shared_door::{Begun, Next, SharedDoor};
use crate::worker::Worker;
use map_model::{Lanes, Ordered};
use outside::Door;
use std::alloc::Global;
use std::sync::ledger::Share;
use std::sync::{Mutex, Wait};
use std::thread;
use std::thread::{Threads, join};

/// Accepts, serves and closes connections until the door failed or enough were accepted, and counts those closed in
/// the share. The store rests while its worker waits.
pub(crate) fn work<B: Begun, R: Wait + Sync, T: Ordered, D: Door>(
    rt: &R,
    alloc: Global,
    door: &Mutex<SharedDoor<D, B>>,
    store: &mut T,
    share: &mut Share<B>,
)
    requires { 0 < share.old.parts }
    ensures served { Follows (T.stands store.old) (T.stands store.new) (ServesCounted
        (T.lane store.old) (T.sole store.old) (T.refusals store.old) (T.refusals store.new)
        (T.last store.old) (T.last store.new) (share.new.amount - share.old.amount)) }
    ensures share { (share.old.amount ≤ share.new.amount) × (share.new.parts ≡ share.old.parts) }
    ensures kept { (T.lane store.new ≡ T.lane store.old) × (T.origin store.new ≡ T.origin store.old)
        × (T.room store.new ≡ T.room store.old) }
{
    // Each session leaves the store at rest.
    store.rest();
    for _ in rt.forever() {
        let next = door.lock(rt).accept();
        match next {
            Next::Serve(mut input, mut output) => {
                serve_connection(rt, alloc, store, &mut input, &mut output);
                let ended = D::finish(input, output);
                door.lock(rt).close(ended, share);
            }
            Next::AskAgain => {}
            Next::Leave => return,
        }
    }
}

/// Lets the forked lanes work, and asks for a thread for each but one.
fn work_forks<B: Begun + Send + Sync, R: Threads + Wait + Sync, T: Lanes, D: Door + Send>(
    rt: &R,
    alloc: Global,
    door: &Mutex<SharedDoor<D, B>>,
    mut workers: Vec<Worker<T, B>>,
) -> Vec<Worker<T, B>>
    ensures { AllWorked workers.items result.items }
{
    work_each(rt, alloc, door, workers.as_mut_slice());
    workers
}

fn work_each<B: Begun + Send + Sync, R: Threads + Wait + Sync, T: Lanes, D: Door + Send>(
    rt: &R,
    alloc: Global,
    door: &Mutex<SharedDoor<D, B>>,
    workers: &mut [Worker<T, B>],
)
    ensures { AllWorked workers.old workers.new }
{
    let count = workers.len();
    if count > 0 {
        let serve = |_: usize, worker: &mut Worker<T, B>|
            ensures { Worked worker.entry.now worker.exit.now }
        { worker.serve(rt, alloc, door) };
        thread::for_each_mut(rt, workers, count, &serve);
    }
}

/// Lets the first lane work.
fn work_first<B: Begun + Send + Sync, R: Threads + Wait + Sync, T: Lanes, D: Door + Send>(
    rt: &R,
    alloc: Global,
    door: &Mutex<SharedDoor<D, B>>,
    mut first: Worker<T, B>,
) -> Worker<T, B>
    ensures { Worked first result }
{
    first.serve(rt, alloc, door);
    first
}

/// Lets the first lane and its forks work at the same time.
pub(crate) fn work_all<B: Begun + Send + Sync, R: Threads + Wait + Sync, T: Lanes, D: Door + Send>(
    rt: &R,
    alloc: Global,
    door: &Mutex<SharedDoor<D, B>>,
    first: Worker<T, B>,
    workers: Vec<Worker<T, B>>,
) -> (Vec<Worker<T, B>>, Worker<T, B>)
    ensures forks { AllWorked workers.items result.0.items }
    ensures first { Worked first result.1 }
{
    join(
        rt,
        move || work_forks(rt, alloc, door, workers),
        move || work_first(rt, alloc, door, first),
    )
}
