//! A fill from its first request to its summary.
ghost use Rattle.std.specs.Prelude.{◌≡◌, List};
ghost use Rattle.counts.specs.Counts.{Rose};
ghost use Rattle.map_model.specs.History.{Entry};
ghost use Rattle.fill_runs.specs.Fills.{Filled, SaidBy, ServedBy};
ghost use Rattle.fill_runs.specs.Summary.{summary};

use crate::tally::Tally;
use generated_lines::Generated;
use line_reader::MOST_INPUT;
use map_model::Ordered;
use outside::{Sink, Stop};
use session::{Bounded, SessionEnd, serve, write_all};
use std::alloc::Global;

/// How a fill ended.
#[derive(Clone, Copy, Debug, PartialEq)]
pub enum FillEnd {
    /// The whole summary was written.
    Done,
    /// The sink failed.
    WriteFault,
    /// The fill itself had no memory. Want of memory in the store is a reply, which is counted.
    NoMemory,
}

/// Serves the lines that a number and a count make as one session over a store, and writes a summary of the
/// replies to a sink.
///
/// It keeps one line and the counts, however many lines there are; the memory is the store's and that of one
/// session. It makes no call a second time, and so is meant for a store that is the only lane.
pub fn fill<O: Ordered, K: Sink>(
    alloc: Global,
    store: &mut O,
    number: u64,
    count: u32,
    sink: &mut K,
) -> FillEnd
    ensures filled { Filled result number count (K.written sink.old) (K.written sink.new)
        (O.lane store.old) (O.sole store.old) (O.fits store.old)
        (O.refusals store.old) (O.refusals store.new) (O.last store.old) (O.last store.new)
        (O.stands store.old) (O.stands store.new) }
    ensures write_fault { result ≡ FillEnd.WriteFault → Rose (K.faults sink.old) (K.faults sink.new) }
    ensures kept { (O.lane store.new ≡ O.lane store.old) × (O.sole store.new ≡ O.sole store.old)
        × (O.origin store.new ≡ O.origin store.old) }
    ensures fits { (history : List Entry) → O.fits store.old history → O.fits store.new history }
{
    match serve_generated(alloc, store, number, count) {
        Some(tally) => write_summary(alloc, &tally, count, sink),
        None => FillEnd::NoMemory,
    }
}

// Serves the lines, and tallies the replies. None is want of memory.
fn serve_generated<O: Ordered>(
    alloc: Global,
    store: &mut O,
    number: u64,
    count: u32,
) -> Option<Tally>
    ensures served { ServedBy result number count
        (O.lane store.old) (O.sole store.old) (O.fits store.old)
        (O.refusals store.old) (O.refusals store.new) (O.last store.old) (O.last store.new)
        (O.stands store.old) (O.stands store.new) }
    ensures kept { (O.lane store.new ≡ O.lane store.old) × (O.sole store.new ≡ O.sole store.old)
        × (O.origin store.new ≡ O.origin store.old) }
    ensures fits { (history : List Entry) → O.fits store.old history → O.fits store.new history }
{
    let mut source = match Generated::new(alloc, number, count) {
        Ok(source) => source,
        Err(_) => return None,
    };
    let mut tally = match Tally::new(alloc) {
        Ok(tally) => tally,
        Err(_) => return None,
    };
    let mut patience = Bounded(1);
    match serve(
        alloc,
        store,
        &mut source,
        &mut tally,
        &mut patience,
        MOST_INPUT,
    ) {
        // No line quits, so that Quit doesn't come.
        SessionEnd::EndOfInput | SessionEnd::Quit => Some(tally),
        SessionEnd::NoMemory => None,
        // The source and the tally don't fail, and the lines have fewer bytes.
        SessionEnd::ReadFault | SessionEnd::WriteFault | SessionEnd::Spent { .. } => unreachable!(),
    }
}

// Writes the summary of a tally.
fn write_summary<K: Sink>(alloc: Global, tally: &Tally, count: u32, sink: &mut K) -> FillEnd
    ensures said { SaidBy result (K.written sink.old) (K.written sink.new) (summary count tally.now) }
    ensures write_fault { result ≡ FillEnd.WriteFault → Rose (K.faults sink.old) (K.faults sink.new) }
{
    let mut text = Vec::new(alloc);
    if tally.summarize(count, &mut text).is_err() {
        return FillEnd::NoMemory;
    }
    match write_all(sink, &text) {
        Ok(()) => FillEnd::Done,
        Err(Stop::Failed) => FillEnd::WriteFault,
        Err(Stop::NoMemory) => FillEnd::NoMemory,
    }
}
