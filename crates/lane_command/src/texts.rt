//! What lanes say, as it is written.
ghost use Rattle.std.specs.Prelude.{◌≡◌, ◌++◌, ◌↔◌, IfOk, IsTrue};
ghost use Rattle.outside.specs.Causes.{FaultsCounted};
ghost use Rattle.session.specs.Writes.{Gained};
ghost use Rattle.lane_command.specs.Said.{lane_line, blocks};
ghost use Rattle.lane_command.specs.Ends.{AreWhole, outputs_of};

use itoa::Buffer;
use lane_runner::LaneEnd;
use outside::{Sink, Stop};
use session::{SessionEnd, write_all};
use std::alloc::{AllocError, Global};

/// Whether no lane ended for want of memory.
pub(crate) fn are_whole(ends: &[LaneEnd]) -> bool
    ensures { IsTrue result ↔ AreWhole ends.now }
{
    ends.iter().all(|end| end.ending != SessionEnd::NoMemory)
}

/// Writes the lines of no lane, and then each lane's output behind a line with its number. The outputs are written
/// from where they are.
pub(crate) fn write_outputs<K: Sink>(
    alloc: Global,
    sink: &mut K,
    faults: &[u8],
    ends: &[LaneEnd],
) -> Result<(), Stop>
    ensures gained { Gained result (K.written sink.old) (K.written sink.new)
        (faults.now ++ blocks 0 (outputs_of ends.now)) }
    ensures cause { FaultsCounted (K.faults sink.old) (K.faults sink.new) result }
{
    let mut line = Vec::new(alloc);
    match write_all(sink, faults) {
        Ok(()) => {}
        Err(stop) => return Err(stop),
    }
    let mut lane = 0;
    'lanes: while lane < ends.len() {
        match write_output(sink, &mut line, lane as u64, ends[lane].output.get()) {
            Ok(()) => lane += 1,
            Err(stop) => return Err(stop),
        }
    }
    Ok(())
}

/// Writes the line of a lane, which `line` holds meanwhile, and its output.
fn write_output<K: Sink>(
    sink: &mut K,
    line: &mut Vec<u8>,
    lane: u64,
    output: &[u8],
) -> Result<(), Stop>
    ensures gained { Gained result (K.written sink.old) (K.written sink.new) (lane_line lane ++ output.now) }
    ensures cause { FaultsCounted (K.faults sink.old) (K.faults sink.new) result }
{
    match set_line(line, lane) {
        Ok(()) => {}
        Err(_) => return Err(Stop::NoMemory),
    }
    match write_all(sink, line) {
        Ok(()) => write_all(sink, output),
        Err(stop) => Err(stop),
    }
}

/// Puts the line of a lane in place of what was there.
fn set_line(line: &mut Vec<u8>, lane: u64) -> Result<(), AllocError>
    ensures { IfOk result (λ _. line.new.items ≡ lane_line lane) }
{
    let mut buffer = Buffer::new();
    line.clear();
    line.extend_from_slice(b"LANE ")?;
    line.extend_from_slice(buffer.format(lane).as_bytes())?;
    line.extend_from_slice(b"\n")
}
