//! A script of requests, served over an index of its own.
ghost use Rattle.std.specs.Prelude.{◌≡◌, ◌≢◌};
ghost use Rattle.counts.specs.Counts.{Rose};
ghost use Rattle.row_words.specs.Shape.{IsShape};
ghost use Rattle.worm.specs.Runs.{IsStatus, RanWith, status_of};

use crate::top::Outcome;
use index_lane::Lane;
use line_reader::MOST_INPUT;
use outside::{Sink, Source};
use row_words::Shape;
use session::SessionEnd;
use sole_sessions::serve_sole;
use std::alloc::Global;
use std::mem;
use worm_index::Index;

/// Serves the lines of the source as one session, which begins with an empty index of this shape. The
/// index keeps its memory until the process ends.
pub fn run_script<S: Source, K: Sink>(
    alloc: Global,
    shape: &Shape,
    source: &mut S,
    sink: &mut K,
) -> Outcome
    requires { IsShape shape.now }
    ensures status { IsStatus result.status }
    ensures known { (result.status ≢ 2) × (result.status ≢ 6) }
    ensures ran { RanWith shape.now result.status (S.told source.old) (S.told source.new)
        (K.written sink.old) (K.written sink.new)
        (S.faults source.old) (S.faults source.new) (K.faults sink.old) (K.faults sink.new) result.pass result.refusals result.last }
    ensures read_fault { result.status ≡ 3 → Rose (S.faults source.old) (S.faults source.new) }
    ensures write_fault { result.status ≡ 4 → Rose (K.faults sink.old) (K.faults sink.new) }
{
    match Index::make(alloc, shape) {
        Ok((index, pass)) => {
            let mut lane = Lane::new(&index, pass);
            let end = serve_sole(alloc, &mut lane, source, sink, MOST_INPUT);
            let (pass, refusals, last) = lane.into_parts();
            // The process ends soon, and its memory with it: giving back each leaf before takes longer.
            mem::forget(index);
            Outcome {
                status: status_of(end),
                pass: Some(pass),
                refusals,
                last,
            }
        }
        // A shape that is one is refused for want of memory alone.
        Err(_) => Outcome {
            status: 5,
            pass: None,
            refusals: 0,
            last: None,
        },
    }
}

/// The status that tells of a session's end.
fn status_of(end: SessionEnd) -> u8
    ensures { result ≡ status_of end }
{
    match end {
        SessionEnd::Quit | SessionEnd::EndOfInput => 0,
        SessionEnd::ReadFault => 3,
        SessionEnd::WriteFault => 4,
        SessionEnd::NoMemory => 5,
        SessionEnd::Spent { .. } => 7,
    }
}
