//! An input that is read whole before anything is done.
ghost use Rattle.std.specs.Prelude.{◌≡◌, ◌≤◌, Err};
ghost use Rattle.counts.specs.Counts.{Rose};
ghost use Rattle.lane_command.specs.Inputs.{InputRead};

use outside::{Source, Stop};
use std::alloc::Global;

/// How many bytes are taken of an input that is read whole: 64 MiB. An input must have fewer, so that its end is told.
pub const WHOLE_INPUT: usize = 67_108_864;

/// How many bytes are asked for at once.
const PIECE: usize = 65_536;

/// Why an input wasn't read whole.
#[derive(Clone, Copy, Debug, PartialEq)]
pub enum InputFault {
    /// The source failed.
    ReadFault,
    /// There was no memory for the bytes.
    NoMemory,
    /// `WHOLE_INPUT` bytes were taken, and the source hadn't answered that there are no more.
    TooLong,
}

/// Reads all bytes of a source, up to its end.
///
/// The bytes are read in pieces of up to 64 KiB into one buffer, which grows as they come.
pub fn read_input<S: Source>(alloc: Global, source: &mut S) -> Result<Vec<u8>, InputFault>
    ensures read { InputRead result (S.told source.old) (S.told source.new) }
    ensures read_fault { result ≡ Err InputFault.ReadFault → Rose (S.faults source.old) (S.faults source.new) }
    ensures counted { S.faults source.old ≤ S.faults source.new }
{
    let mut input = Vec::new(alloc);
    let mut taken = 0;
    'reads: while taken < WHOLE_INPUT {
        let room = (WHOLE_INPUT - taken).min(PIECE);
        match input.resize(taken + room, 0) {
            Ok(()) => {}
            Err(_) => return Err(InputFault::NoMemory),
        }
        match source.read(&mut input[taken..]) {
            Ok(0) => {
                input.truncate(taken);
                return Ok(input);
            }
            Ok(n) => taken += n,
            Err(Stop::Failed) => return Err(InputFault::ReadFault),
            Err(Stop::NoMemory) => return Err(InputFault::NoMemory),
        }
    }
    Err(InputFault::TooLong)
}
