//! The lines of an input, dealt one after another.
ghost use Rattle.std.specs.Prelude.{◌≡◌, ◌<◌, true, map, IfOk};
ghost use Rattle.line_reader.specs.Cut.{lines};
ghost use Rattle.line_reader.specs.Told.{tells};
ghost use Rattle.lane_lines.specs.Deal.{IsDealt};

use crate::dealt::Dealt;
use line_protocol::Lines;
use std::alloc::{AllocError, Global};

/// Gives each line of an input to the lane that it names, of so many.
///
/// A line names its lane by its first word, which is 1 to `LANE_DIGITS` decimal digits; the lane gets what stands
/// behind the first space. A line of more than `LONGEST_LINE` bytes, and one that names no lane, give a fault line
/// each. It takes about as much memory as the input has.
pub fn deal_lines(alloc: Global, input: &[u8], lanes: u32) -> Result<Dealt, AllocError>
    ensures { IfOk result (λ dealt. IsDealt lanes (map tells (lines input.now true)) dealt) }
{
    let mut dealt = Dealt::new(alloc, lanes)?;
    let mut reader = Lines::new(alloc)?;
    let mut at = 0;
    'lines: while at < input.len() {
        let taken = reader.take(&input[at..]);
        at += taken.used;
        dealt.deal_told(lanes, taken.event, reader.line())?;
    }
    let event = reader.finish();
    dealt.deal_told(lanes, event, reader.line())?;
    Ok(dealt)
}
