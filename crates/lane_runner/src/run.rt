//! Runs each lane's script in a thread, and gathers the ends.
ghost use Rattle.std.specs.Prelude.{◌≡◌, ◌<◌, ◌-◌, false, IfOk, OnErr, OnOk, vec_len, reverse};
ghost use mathlib.Core.List.{IsPrefix};
ghost use Rattle.lane_runner.specs.Runs.{FirstServes, LanesServe, PlacesServe, TellsRoom, LeavesRoom};
ghost use Rattle.lane_runner.specs.Tasks.{AllRan, Ran};

use crate::forks::{end_served, fork_slots};
use crate::gated::Gated;
use crate::output::Output;
use crate::script::Script;
use crate::slot::{LaneEnd, Slot};
use core::mem;
use key_bytes::Bytes;
use map_model::{ForkFault, Lanes};
use outside::Gate;
use session::{Patience, serve};
use std::alloc::Global;
use std::sync::Wait;
use std::thread;
use std::thread::{Threads, join};

/// Runs the first lane through its script, and gives the lane back with the script's end.
fn run_first<T: Lanes, G: Gate, P: Patience + Copy>(
    alloc: Global,
    first: T,
    gate: &G,
    mut patience: P,
    script: Vec<u8>,
) -> (T, LaneEnd)
    ensures served { FirstServes (P.limit patience) (T.lane first) (T.sole first) (T.fits first) script.items result.1
        (T.refusals first) (T.refusals result.0) (T.seen first) (T.seen result.0) }
    ensures kept { (T.lane result.0 ≡ T.lane first) × (T.sole result.0 ≡ T.sole first)
        × (T.origin result.0 ≡ T.origin first) × (T.room result.0 ≡ T.room first) }
{
    let mut store = Gated::new(first, gate, 0);
    let mut source = Script::new(script);
    let mut sink = Output::new(alloc);
    let budget = source.budget();
    let ending = serve(
        alloc,
        &mut store,
        &mut source,
        &mut sink,
        &mut patience,
        budget,
    );
    (
        store.into_store(),
        LaneEnd {
            output: Bytes::of(sink.bytes),
            ending,
        },
    )
}

/// Lets the forked lanes serve their scripts, and asks for a thread for each.
fn run_slots<'a, R: Threads + Sync, T: Lanes, G: Gate, P: Patience + Copy + Send>(
    rt: &R,
    alloc: Global,
    mut slots: Vec<Slot<'a, T, G, P>>,
) -> Vec<Slot<'a, T, G, P>>
    ensures ran { AllRan slots.entry.items result.items }
{
    run_each(rt, alloc, slots.as_mut_slice());
    slots
}

fn run_each<'a, R: Threads + Sync, T: Lanes, G: Gate, P: Patience + Copy + Send>(
    rt: &R,
    alloc: Global,
    slots: &mut [Slot<'a, T, G, P>],
)
    ensures { AllRan slots.old slots.new }
{
    let count = slots.len();
    if count > 0 {
        let serve = |_: usize, slot: &mut Slot<'_, T, G, P>|
            ensures { Ran slot.entry.now slot.exit.now }
        { slot.run(alloc) };
        thread::for_each_mut(rt, slots, count, &serve);
    }
}

/// Runs the forked lanes and, beside them, the first lane with its own script.
fn run_all<'a, R: Threads + Sync, T: Lanes, G: Gate, P: Patience + Copy + Send>(
    rt: &R,
    alloc: Global,
    slots: Vec<Slot<'a, T, G, P>>,
    first: T,
    gate: &'a G,
    patience: P,
    script: Vec<u8>,
) -> (Vec<Slot<'a, T, G, P>>, (T, LaneEnd))
    ensures ran { AllRan slots.entry.items result.0.items }
    ensures served { FirstServes (P.limit patience) (T.lane first) (T.sole first) (T.fits first) script.items result.1.1
        (T.refusals first) (T.refusals result.1.0) (T.seen first) (T.seen result.1.0) }
    ensures kept { (T.lane result.1.0 ≡ T.lane first) × (T.sole result.1.0 ≡ T.sole first)
        × (T.origin result.1.0 ≡ T.origin first) × (T.room result.1.0 ≡ T.room first) }
{
    join(
        rt,
        move || run_slots(rt, alloc, slots),
        move || run_first(alloc, first, gate, patience, script),
    )
}

fn turned(mut ends: Vec<LaneEnd>) -> Vec<LaneEnd>
    ensures { result.items ≡ reverse ends.items }
{
    ends.as_mut_slice().reverse();
    ends
}

/// Serves as `run_lanes` does, by a lane that it takes and gives back.
fn run_from<R: Threads + Sync, T: Lanes, G: Gate, P: Patience + Copy + Send>(
    rt: &R,
    alloc: Global,
    mut scripts: Vec<Vec<u8>>,
    mut first: T,
    gate: &G,
    patience: P,
) -> (T, Result<Vec<LaneEnd>, ForkFault>)
    requires { 0 < vec_len scripts }
    ensures ran { IfOk result.1 (λ ends. LanesServe (P.limit patience) (T.lane first) (T.sole result.0)
        (T.fits first) (T.lanes first) scripts.items ends.items (T.refusals first) (T.refusals result.0)
        (T.seen first) (T.seen result.0)) }
    ensures places { T.lanes first ≡ vec_len scripts → IfOk result.1 (λ ends. PlacesServe (P.limit patience)
        (T.sole result.0) (T.fits first) scripts.items ends.items (T.refusals first) (T.refusals result.0)
        (T.seen first) (T.seen result.0)) }
    ensures refused { OnErr result.1 (T.seen result.0 ≡ T.seen first) }
    ensures room { TellsRoom (T.room first) (vec_len scripts - 1) (T.lanes first) result.1 }
    ensures left { LeavesRoom (T.room first) (vec_len scripts - 1) (T.room result.0) result.1 }
    ensures among { 1 < vec_len scripts → OnOk result.1 (T.sole result.0 ≡ false) }
    ensures alone { vec_len scripts ≡ 1 → T.sole result.0 ≡ T.sole first }
    ensures begins { IsPrefix (T.seen first) (T.seen result.0) }
    ensures kept { (T.lane result.0 ≡ T.lane first) × (T.origin result.0 ≡ T.origin first) }
{
    let mut ends = match Vec::with_capacity(alloc, scripts.len()) {
        Ok(ends) => ends,
        Err(_) => return (first, Err(ForkFault::NoMemory)),
    };
    let head = scripts.remove(0);
    match fork_slots(alloc, &mut first, scripts, gate, patience) {
        Ok(slots) => {
            let (slots, (mut first, end)) = run_all(rt, alloc, slots, first, gate, patience, head);
            end_served(rt, &mut first, slots, &mut ends);
            ends.push_reserved(end);
            (first, Ok(turned(ends)))
        }
        Err(fault) => (first, Err(fault)),
    }
}

/// Gives each script a session of its own, and runs all at once: `first` serves script 0, its i-th fork script i.
///
/// There is a worker for each script, and the caller's thread is one of them. Where a worker can't be started, its
/// script is served on the caller's thread. A session takes its whole script, and may wait where patience has no end.
/// The gate is called round each call on a store, but for rests and wakes, with the script's number as its lane; the
/// calls of a script are numbered from 1. At the end all forks are ended into `first`.
///
/// Refused are scripts that need more forks than `first` has room for, and any run for which there is no memory
/// before it begins. Then nothing was served, and the forks that were made are ended too. The room that a fork took
/// doesn't come back with its end.
pub fn run_lanes<R: Threads + Wait + Sync, T: Lanes, G: Gate, P: Patience + Copy + Send>(
    rt: &R,
    alloc: Global,
    scripts: Vec<Vec<u8>>,
    first: &mut T,
    gate: &G,
    patience: P,
) -> Result<Vec<LaneEnd>, ForkFault>
    requires { 0 < vec_len scripts }
    ensures ran { IfOk result (λ ends. LanesServe (P.limit patience) (T.lane first.old) (T.sole first.new)
        (T.fits first.old) (T.lanes first.old) scripts.items ends.items (T.refusals first.old)
        (T.refusals first.new) (T.seen first.old) (T.seen first.new)) }
    ensures places { T.lanes first.old ≡ vec_len scripts → IfOk result (λ ends. PlacesServe (P.limit patience)
        (T.sole first.new) (T.fits first.old) scripts.items ends.items (T.refusals first.old)
        (T.refusals first.new) (T.seen first.old) (T.seen first.new)) }
    ensures refused { OnErr result (T.seen first.new ≡ T.seen first.old) }
    ensures room { TellsRoom (T.room first.old) (vec_len scripts - 1) (T.lanes first.old) result }
    ensures left { LeavesRoom (T.room first.old) (vec_len scripts - 1) (T.room first.new) result }
    ensures among { 1 < vec_len scripts → OnOk result (T.sole first.new ≡ false) }
    ensures alone { vec_len scripts ≡ 1 → T.sole first.new ≡ T.sole first.old }
    ensures begins { IsPrefix (T.seen first.old) (T.seen first.new) }
    ensures kept { (T.lane first.new ≡ T.lane first.old) × (T.origin first.new ≡ T.origin first.old) }
{
    mem::replace_with(
        first,
        scripts,
        |store, scripts| -> (T, Result<Vec<LaneEnd>, ForkFault>)
            requires { 0 < vec_len scripts }
            ensures { (IfOk result.1 (λ ends. LanesServe (P.limit patience) (T.lane store) (T.sole result.0)
                (T.fits store) (T.lanes store) scripts.items ends.items (T.refusals store) (T.refusals result.0)
                (T.seen store) (T.seen result.0)))
                × (T.lanes store ≡ vec_len scripts → IfOk result.1 (λ ends. PlacesServe (P.limit patience)
                (T.sole result.0) (T.fits store) scripts.items ends.items (T.refusals store) (T.refusals result.0)
                (T.seen store) (T.seen result.0)))
                × (OnErr result.1 (T.seen result.0 ≡ T.seen store))
                × (TellsRoom (T.room store) (vec_len scripts - 1) (T.lanes store) result.1)
                × (LeavesRoom (T.room store) (vec_len scripts - 1) (T.room result.0) result.1)
                × (1 < vec_len scripts → OnOk result.1 (T.sole result.0 ≡ false))
                × (vec_len scripts ≡ 1 → T.sole result.0 ≡ T.sole store)
                × (IsPrefix (T.seen store) (T.seen result.0))
                × (T.lane result.0 ≡ T.lane store) × (T.origin result.0 ≡ T.origin store) }
        { run_from(rt, alloc, scripts, store, gate, patience) },
    )
}
