//! Generated requests, served over an index of their own.
ghost use Rattle.std.specs.Prelude.{◌≡◌, ◌⊎◌};
ghost use Rattle.counts.specs.Counts.{Rose};
ghost use Rattle.row_words.specs.Shape.{IsShape};
ghost use Rattle.worm.specs.Fills.{FilledWith, fill_status};

use crate::top::Outcome;
use fill_runs::{FillEnd, fill};
use index_lane::Lane;
use outside::Sink;
use row_words::Shape;
use std::alloc::Global;
use std::mem;
use worm_index::Index;

/// Serves the lines that a number and a count make as one session, which begins with an empty index of this shape,
/// and writes the summary of its replies. The index keeps its memory until the process ends.
pub fn run_fill<K: Sink>(
    alloc: Global,
    shape: &Shape,
    number: u64,
    count: u32,
    sink: &mut K,
) -> Outcome
    requires { IsShape shape.now }
    ensures status { (result.status ≡ 0) ⊎ (result.status ≡ 4) ⊎ (result.status ≡ 5) }
    ensures filled { FilledWith shape.now number count result.status (K.written sink.old) (K.written sink.new) result.pass result.refusals result.last }
    ensures write_fault { result.status ≡ 4 → Rose (K.faults sink.old) (K.faults sink.new) }
{
    match Index::make(alloc, shape) {
        Ok((index, pass)) => {
            let mut lane = Lane::new(&index, pass);
            let end = fill(alloc, &mut lane, number, count, sink);
            let (pass, refusals, last) = lane.into_parts();
            // As at the end of a script.
            mem::forget(index);
            Outcome {
                status: status_of(end),
                pass: Some(pass),
                refusals,
                last,
            }
        }
        // A shape that is one is refused for want of memory alone.
        Err(_) => Outcome {
            status: 5,
            pass: None,
            refusals: 0,
            last: None,
        },
    }
}

/// The status that tells of a fill's end.
fn status_of(end: FillEnd) -> u8
    ensures { result ≡ fill_status end }
{
    match end {
        FillEnd::Done => 0,
        FillEnd::WriteFault => 4,
        FillEnd::NoMemory => 5,
    }
}
