//! Lanes for workers, which are forked and ended again.
ghost use Rattle.std.specs.Prelude.{◌≡◌, ◌<◌, ◌≤◌, ◌+◌, ◌-◌, ℕ, List, false, length, IfOk, OnOk, IfErr, vec_len};
ghost use Rattle.std.specs.List.{sum_by};
ghost use mathlib.Core.List.{IsPrefix};
ghost use Rattle.map_model.specs.History.{Entry, own};
ghost use Rattle.index_server.specs.Ends.{TellsRoom, LeavesRoom};
ghost use Rattle.index_server.specs.Hands.{Work, AllServe, AreReady, AreDone, AreForksOf, HaveSeen};

use crate::end::DoorEnd;
use crate::shared_door::Begun;
use crate::worker::Worker;
use map_model::{ForkFault, Lanes};
use std::alloc::Global;
use std::sync::ledger::Share;

/// Forks so many lanes, and gives each a part of the count. A refusal ends those made so far.
pub(crate) fn fork_workers<B: Begun, T: Lanes>(
    alloc: Global,
    first: &mut T,
    all: &mut Share<B>,
    count: usize,
) -> Result<Vec<Worker<T, B>>, ForkFault>
    requires some { 0 < count }
    requires parts { all.old.parts ≡ count + 1 }
    requires uncounted { all.old.amount ≡ 0 }
    ensures ready { IfOk result (λ workers. (upto : ℕ) × AreReady (T.origin first.old) (T.lanes first.old)
        (T.seen first.old) (T.lane first.old + 1) upto workers.items) }
    ensures many { IfOk result (λ workers. vec_len workers ≡ count) }
    ensures lanes { OnOk result (T.lanes first.new ≡ T.lanes first.old) }
    ensures among { OnOk result (T.sole first.new ≡ false) }
    ensures part { OnOk result ((all.new.parts ≡ 1) × (all.new.amount ≡ 0)) }
    ensures room { OnOk result (T.room first.old ≡ T.room first.new + count) }
    ensures refused { IfErr result (λ fault. TellsRoom (T.room first.old) count (T.lanes first.old) (DoorEnd.Lanes fault)) }
    ensures left { IfErr result (λ fault. LeavesRoom (T.room first.old) count (T.room first.new) (DoorEnd.Lanes fault)) }
    ensures kept { (T.seen first.new ≡ T.seen first.old) × (T.lane first.new ≡ T.lane first.old)
        × (T.origin first.new ≡ T.origin first.old) }
{
    let mut workers = match Vec::with_capacity(alloc, count) {
        Ok(workers) => workers,
        Err(_) => return Err(ForkFault::NoMemory),
    };
    for _ in 0..count {
        match first.fork() {
            Ok(lane) => workers.push_reserved(Worker::new(lane, all.split_off(1, 0))),
            Err(fault) => {
                end_workers(first, all, workers);
                return Err(fault);
            }
        }
    }
    Ok(workers)
}

/// Ends forks of the first lane, from the last one to the first, and takes their parts of the count back.
pub(crate) fn end_workers<B: Begun, T: Lanes>(
    first: &mut T,
    all: &mut Share<B>,
    mut workers: Vec<Worker<T, B>>,
)
    requires { AreForksOf (T.origin first.old) workers.items }
    ensures ended { (most : ℕ) (before : List Entry) (upto : ℕ)
        → AreDone most before (T.lane first.old + 1) upto workers.items
        → (works : List Work) × (length works ≡ vec_len workers)
        × (sum_by (λ (w : Work). w.count) works ≡ all.new.amount - all.old.amount)
        × AllServe (T.lane first.old + 1) most works before (T.seen first.new) }
    ensures more { all.old.amount ≤ all.new.amount }
    ensures parts { all.new.parts ≡ all.old.parts + vec_len workers }
    ensures own { own (T.lane first.old) (T.seen first.new) ≡ own (T.lane first.old) (T.seen first.old) }
    ensures begins { IsPrefix (T.seen first.old) (T.seen first.new) }
    ensures room { T.room first.new ≡ T.room first.old }
    ensures same { HaveSeen (T.seen first.old) workers.items → T.seen first.new ≡ T.seen first.old }
    ensures kept { (T.lane first.new ≡ T.lane first.old) × (T.sole first.new ≡ T.sole first.old)
        × (T.origin first.new ≡ T.origin first.old) }
{
    'workers: while let Some(worker) = workers.pop() {
        let (lane, share) = worker.finish();
        lane.end(first);
        all.merge(share);
    }
}
