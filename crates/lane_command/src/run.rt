//! Lanes that answer an input's lines.
ghost use Rattle.std.specs.Prelude.{◌≡◌, ◌≢◌, ◌<◌, ◌≤◌, ◌+◌, false};
ghost use Rattle.counts.specs.Counts.{Rose};
ghost use mathlib.Core.List.{IsPrefix};
ghost use Rattle.lane_command.specs.Ends.{SaysWhole};
ghost use Rattle.lane_command.specs.Said.{LanesSaid, SaidBy, limit_of, told_of};

use crate::texts::{are_whole, write_outputs};
use lane_lines::{Dealt, deal_lines};
use lane_runner::{LaneEnd, run_lanes};
use map_model::{ForkFault, Lanes};
use outside::{OpenGate, Sink, Stop};
use session::{Bounded, Endless, Patience};
use std::alloc::Global;
use std::sync::Wait;
use std::thread::Threads;

/// How lanes that answer an input come to an end.
#[derive(Clone, Copy, Debug, PartialEq)]
pub enum LanesEnd {
    /// All of what they say was written.
    Done,
    /// The sink failed.
    WriteFault,
    /// There was no memory. Want of memory in the store is a reply.
    NoMemory,
}

/// Gives each line of an input to the lane that it names, lets so many lanes answer their lines at the same time,
/// and writes what they say: the fault lines of the lines of no lane, and for each lane a line with its number and
/// its output.
///
/// `first` is lane 0 of an index with exactly so many lanes, and can still make all others; they are ended into it.
/// A call that meets another lane is tried again so often, or without end. Nothing is written before all lanes are
/// done, and nothing at all where one ended for want of memory. The memory is that of the input, and about as much
/// again for the scripts and for the outputs.
pub fn answer_input<R: Threads + Wait + Sync, T: Lanes, K: Sink>(
    rt: &R,
    alloc: Global,
    first: &mut T,
    input: Vec<u8>,
    lanes: u32,
    tries: Option<u32>,
    sink: &mut K,
) -> LanesEnd
    requires some { 0 < lanes }
    requires all { T.lanes first.old ≡ lanes }
    requires room { lanes ≤ T.room first.old + 1 }
    ensures said { SaidBy result (K.written sink.old) (K.written sink.new)
        (LanesSaid (limit_of tries) lanes (told_of input.items) (T.sole first.new) (T.fits first.old)
        (T.refusals first.old) (T.refusals first.new) (T.seen first.old) (T.seen first.new)) }
    ensures write_fault { result ≡ LanesEnd.WriteFault → Rose (K.faults sink.old) (K.faults sink.new) }
    ensures counted { K.faults sink.old ≤ K.faults sink.new }
    ensures among { 1 < lanes → result ≢ LanesEnd.NoMemory → T.sole first.new ≡ false }
    ensures alone { lanes ≡ 1 → T.sole first.new ≡ T.sole first.old }
    ensures begins { IsPrefix (T.seen first.old) (T.seen first.new) }
    ensures kept { (T.lane first.new ≡ T.lane first.old) × (T.origin first.new ≡ T.origin first.old) }
{
    match tries {
        Some(tries) => answer_by(rt, alloc, first, input, lanes, Bounded(tries), sink),
        None => answer_by(rt, alloc, first, input, lanes, Endless::new(rt), sink),
    }
}

/// Answers as `answer_input` does, with this patience.
fn answer_by<R: Threads + Wait + Sync, T: Lanes, P: Patience + Copy + Send, K: Sink>(
    rt: &R,
    alloc: Global,
    first: &mut T,
    input: Vec<u8>,
    lanes: u32,
    patience: P,
    sink: &mut K,
) -> LanesEnd
    requires some { 0 < lanes }
    requires all { T.lanes first.old ≡ lanes }
    requires room { lanes ≤ T.room first.old + 1 }
    ensures said { SaidBy result (K.written sink.old) (K.written sink.new)
        (LanesSaid (P.limit patience) lanes (told_of input.items) (T.sole first.new) (T.fits first.old)
        (T.refusals first.old) (T.refusals first.new) (T.seen first.old) (T.seen first.new)) }
    ensures write_fault { result ≡ LanesEnd.WriteFault → Rose (K.faults sink.old) (K.faults sink.new) }
    ensures counted { K.faults sink.old ≤ K.faults sink.new }
    ensures among { 1 < lanes → result ≢ LanesEnd.NoMemory → T.sole first.new ≡ false }
    ensures alone { lanes ≡ 1 → T.sole first.new ≡ T.sole first.old }
    ensures begins { IsPrefix (T.seen first.old) (T.seen first.new) }
    ensures kept { (T.lane first.new ≡ T.lane first.old) × (T.origin first.new ≡ T.origin first.old) }
{
    let Dealt { scripts, faults } = match deal_lines(alloc, &input, lanes) {
        Ok(dealt) => dealt,
        Err(_) => return LanesEnd::NoMemory,
    };
    // The scripts have all that is still wanted of it.
    drop(input);
    match run_lanes(rt, alloc, scripts, first, &OpenGate, patience) {
        Ok(ends) => say(alloc, sink, &faults, &ends),
        Err(ForkFault::NoMemory) => LanesEnd::NoMemory,
        // There are no more scripts than lanes.
        Err(ForkFault::Lanes { .. }) => unreachable!(),
    }
}

/// Writes what lanes say, unless memory was wanting to one.
fn say<K: Sink>(alloc: Global, sink: &mut K, faults: &[u8], ends: &[LaneEnd]) -> LanesEnd
    ensures said { SaidBy result (K.written sink.old) (K.written sink.new) (SaysWhole faults.now ends.now) }
    ensures write_fault { result ≡ LanesEnd.WriteFault → Rose (K.faults sink.old) (K.faults sink.new) }
    ensures counted { K.faults sink.old ≤ K.faults sink.new }
{
    if !are_whole(ends) {
        return LanesEnd::NoMemory;
    }
    match write_outputs(alloc, sink, faults, ends) {
        Ok(()) => LanesEnd::Done,
        Err(Stop::Failed) => LanesEnd::WriteFault,
        Err(Stop::NoMemory) => LanesEnd::NoMemory,
    }
}
