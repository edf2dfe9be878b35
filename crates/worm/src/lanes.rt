//! Lines that name lanes, served by all lanes of an index of their own.
ghost use Rattle.std.specs.Prelude.{◌≡◌, ◌≢◌, ◌≤◌, ◌⊎◌};
ghost use Rattle.counts.specs.Counts.{Rose};
ghost use Rattle.row_words.specs.Shape.{IsShape};
ghost use Rattle.worm.specs.Lanes.{AnsweredWith, LanesRan, input_status, lanes_status};
ghost use Rattle.worm.specs.Runs.{IsStatus};

use crate::top::Outcome;
use index_lane::Lane;
use lane_command::{InputFault, LanesEnd, answer_input, read_input};
use outside::{Sink, Source};
use row_words::Shape;
use std::alloc::Global;
use std::mem;
use std::sync::Wait;
use std::thread::Threads;
use worm_index::Index;

/// Reads the whole input, and answers it by so many lanes at once, which begin with an empty index of this shape with
/// just so many lanes. A call that another lane refuses is tried so often, or without end. The index keeps its memory
/// until the process ends.
pub fn run_lanes<R: Threads + Wait + Sync, S: Source, K: Sink>(
    rt: &R,
    alloc: Global,
    shape: &Shape,
    count: u32,
    tries: Option<u32>,
    source: &mut S,
    sink: &mut K,
) -> Outcome
    requires shape { IsShape shape.now }
    requires count { (1 ≤ count) × (count ≤ shape.now.lanes) }
    ensures status { IsStatus result.status }
    ensures known { (result.status ≢ 2) × (result.status ≢ 6) }
    ensures ran { LanesRan shape.now count tries result.status (S.told source.old) (S.told source.new)
        (K.written sink.old) (K.written sink.new) result.pass result.refusals result.last }
    ensures read_fault { result.status ≡ 3 → Rose (S.faults source.old) (S.faults source.new) }
    ensures write_fault { result.status ≡ 4 → Rose (K.faults sink.old) (K.faults sink.new) }
{
    match read_input(alloc, source) {
        Ok(input) => {
            let shape = Shape {
                lanes: count,
                ..*shape
            };
            answer_all(rt, alloc, &shape, tries, input, sink)
        }
        Err(fault) => Outcome {
            status: input_status(fault),
            pass: None,
            refusals: 0,
            last: None,
        },
    }
}

/// Answers an input by all lanes of an empty index of this shape.
fn answer_all<R: Threads + Wait + Sync, K: Sink>(
    rt: &R,
    alloc: Global,
    shape: &Shape,
    tries: Option<u32>,
    input: Vec<u8>,
    sink: &mut K,
) -> Outcome
    requires { IsShape shape.now }
    ensures status { (result.status ≡ 0) ⊎ (result.status ≡ 4) ⊎ (result.status ≡ 5) }
    ensures answered { AnsweredWith shape.now tries input.items result.status (K.written sink.old) (K.written sink.new) result.pass result.refusals result.last }
    ensures write_fault { result.status ≡ 4 → Rose (K.faults sink.old) (K.faults sink.new) }
{
    match Index::make(alloc, shape) {
        Ok((index, pass)) => {
            let mut lane = Lane::new(&index, pass);
            let end = answer_input(rt, alloc, &mut lane, input, shape.lanes, tries, sink);
            let (pass, refusals, last) = lane.into_parts();
            // As at the end of a script.
            mem::forget(index);
            Outcome {
                status: lanes_status(end),
                pass: Some(pass),
                refusals,
                last,
            }
        }
        // A shape that is one is refused for want of memory alone.
        Err(_) => Outcome {
            status: 5,
            pass: None,
            refusals: 0,
            last: None,
        },
    }
}

/// The status that tells why an input wasn't read whole.
fn input_status(fault: InputFault) -> u8
    ensures { result ≡ input_status fault }
{
    match fault {
        InputFault::ReadFault => 3,
        InputFault::NoMemory => 5,
        InputFault::TooLong => 7,
    }
}

/// The status that tells of the lanes' end.
fn lanes_status(end: LanesEnd) -> u8
    ensures { result ≡ lanes_status end }
{
    match end {
        LanesEnd::Done => 0,
        LanesEnd::WriteFault => 4,
        LanesEnd::NoMemory => 5,
    }
}
