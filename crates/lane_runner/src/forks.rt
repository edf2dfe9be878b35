//! Lanes that are forked for scripts, and ended again.
ghost use Rattle.std.specs.Prelude.{◌≡◌, ◌≤◌, ◌<◌, ◌+◌, ℕ, List, Option, Vec, false, IfOk, OnOk, vec_len, vec_capacity, [], reverse};
ghost use Rattle.std.specs.declared.alloc.Global.{Global};
ghost use mathlib.Core.List.{IsPrefix};
ghost use Rattle.map_model.specs.History.{Entry, own};
ghost use Rattle.lane_runner.specs.Runs.{AllEnd, TellsRoom, LeavesRoom};
ghost use Rattle.lane_runner.specs.Tasks.{AreReady, AreDone, AreForksOf, HaveSeen};

use crate::slot::{LaneEnd, Slot};
use map_model::{ForkFault, Lanes};
use outside::Gate;
use session::Patience;
use std::alloc::Global;
use std::thread::Threads;

/// Forks as many lanes as there are scripts, in their order. A refusal ends those made so far.
pub(crate) fn fork_slots<'a, T: Lanes, G: Gate, P: Patience + Copy>(
    alloc: Global,
    first: &mut T,
    scripts: Vec<Vec<u8>>,
    gate: &'a G,
    patience: P,
) -> Result<Vec<Slot<'a, T, G, P>>, ForkFault>
    ensures ready { IfOk result (λ slots. (upto : ℕ) × AreReady (T.origin first.old) (T.lanes first.old)
        (P.limit patience) (T.seen first.old) (T.lane first.old + 1) upto scripts.items slots.items) }
    ensures room { TellsRoom (T.room first.old) (vec_len scripts) (T.lanes first.old) result }
    ensures left { LeavesRoom (T.room first.old) (vec_len scripts) (T.room first.new) result }
    ensures fits { (history : List Entry) → T.fits first.old history → OnOk result (T.fits first.new history) }
    ensures counted { OnOk result (T.refusals first.new ≡ T.refusals first.old) }
    ensures among { 0 < vec_len scripts → OnOk result (T.sole first.new ≡ false) }
    ensures alone { vec_len scripts ≡ 0 → T.sole first.new ≡ T.sole first.old }
    ensures kept { (T.seen first.new ≡ T.seen first.old) × (T.lane first.new ≡ T.lane first.old)
        × (T.origin first.new ≡ T.origin first.old) }
{
    let mut slots = match Vec::with_capacity(alloc, scripts.len()) {
        Ok(slots) => slots,
        Err(_) => return Err(ForkFault::NoMemory),
    };
    let mut number = 0u32;
    for script in scripts {
        match first.fork() {
            Ok(lane) => {
                number = number.saturating_add(1);
                slots.push_reserved(Slot::new(alloc, lane, gate, number, patience, script));
            }
            Err(fault) => {
                end_unserved(first, slots);
                return Err(fault);
            }
        }
    }
    Ok(slots)
}

/// Ends lanes that served nothing, so that the first one learns nothing by them.
fn end_unserved<'a, T: Lanes, G: Gate, P: Patience + Copy>(
    first: &mut T,
    mut slots: Vec<Slot<'a, T, G, P>>,
)
    requires origin { AreForksOf (T.origin first.old) slots.items }
    requires seen { HaveSeen (T.seen first.old) slots.items }
    ensures seen { T.seen first.new ≡ T.seen first.old }
    ensures room { T.room first.new ≡ T.room first.old }
    ensures kept { (T.lane first.new ≡ T.lane first.old) × (T.sole first.new ≡ T.sole first.old)
        × (T.origin first.new ≡ T.origin first.old) }
{
    'slots: while let Some(slot) = slots.pop() {
        let lane = slot.into_lane();
        lane.end(first);
    }
}

/// Ends lanes whose scripts are served, from the last one to the first, and pushes how each script ended.
pub(crate) fn end_served<'a, R: Threads + Sync, T: Lanes, G: Gate, P: Patience + Copy + Send>(
    _rt: &R,
    first: &mut T,
    mut slots: Vec<Slot<'a, T, G, P>>,
    ends: &mut Vec<LaneEnd>,
)
    requires origin { AreForksOf (T.origin first.old) slots.items }
    requires room { vec_len ends.old + vec_len slots ≤ vec_capacity ends.old }
    ensures ended { (most : ℕ) (limit : Option ℕ) (before : List Entry) (upto : ℕ) (scripts : List (Vec ℕ Global))
        → AreDone most limit before (T.lane first.old + 1) upto scripts slots.entry.items → ends.old.items ≡ []
        → AllEnd limit (T.lane first.old + 1) most scripts (reverse ends.new.items) (T.refusals first.old)
        (T.refusals first.new) before (T.seen first.new) }
    ensures own { own (T.lane first.old) (T.seen first.new) ≡ own (T.lane first.old) (T.seen first.old) }
    ensures none { vec_len slots.entry ≡ 0 → T.seen first.new ≡ T.seen first.old }
    ensures begins { IsPrefix (T.seen first.old) (T.seen first.new) }
    ensures kept { (T.lane first.new ≡ T.lane first.old) × (T.sole first.new ≡ T.sole first.old)
        × (T.origin first.new ≡ T.origin first.old) }
    ensures forks { T.room first.new ≡ T.room first.old }
    ensures room { vec_capacity ends.new ≡ vec_capacity ends.old }
    ensures len { vec_len ends.new ≡ vec_len ends.old + vec_len slots.entry }
{
    'slots: while let Some(slot) = slots.pop() {
        let (lane, end) = slot.finish();
        lane.end(first);
        ends.push_reserved(end);
    }
}
