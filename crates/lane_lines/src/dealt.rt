//! The scripts of lanes, and the lines that tell of other lines.
ghost use Rattle.std.specs.Prelude.{◌≡◌, ◌<◌, ◌++◌, ◌∷◌, ℕ, List, [], IfOk, OnOk, vec_len};
ghost use Rattle.line_reader.specs.Told.{Told, told};
ghost use Rattle.line_reader.specs.Told.Told.{Read};
ghost use Rattle.lane_lines.specs.Deal.{IsDealt, Gains};

use crate::lane_word::{first_word, read_lane};
use line_protocol::{Answer, Event, Fault, reply_text};
use std::alloc::{AllocError, Global};

/// What becomes of an input's lines.
#[derive(Debug, Drop)]
pub struct Dealt {
    /// The script of each lane, by its number: what its lines have behind their first space, each with an LF.
    pub scripts: Vec<Vec<u8>>,
    /// A line for each line of no lane, in order.
    pub faults: Vec<u8>,
}

impl Dealt {
    /// So many lanes, before any line.
    pub(crate) fn new(alloc: Global, lanes: u32) -> Result<Dealt, AllocError>
        ensures { IfOk result (λ dealt. IsDealt lanes [] dealt) }
    {
        let mut scripts = Vec::with_capacity(alloc, lanes as usize)?;
        for _ in 0..lanes {
            scripts.push(Vec::new(alloc))?;
        }
        Ok(Dealt {
            scripts,
            faults: Vec::new(alloc),
        })
    }

    /// Adds bytes and an LF to a lane's script.
    fn give(&mut self, lane: u32, rest: &[u8]) -> Result<(), AllocError>
        requires { lane < vec_len self.old.scripts }
        ensures { OnOk result (Gains lane (rest.now ++ 10 ∷ []) self.old self.new) }
    {
        let script = &mut self.scripts[lane as usize];
        script.extend_from_slice(rest)?;
        script.push(b'\n')?;
        Ok(())
    }

    /// Gives a line to the lane that it names, or tells that it names none. An empty line is skipped.
    fn deal_line(&mut self, lanes: u32, line: &[u8]) -> Result<(), AllocError>
        requires { vec_len self.old.scripts ≡ lanes }
        ensures { (before : List Told) → IsDealt lanes before self.old
            → OnOk result (IsDealt lanes (before ++ Read line.now ∷ []) self.new) }
    {
        if line.is_empty() {
            return Ok(());
        }
        let (word, rest) = first_word(line);
        match read_lane(word, lanes) {
            Some(lane) => self.give(lane, rest),
            None => self.faults.extend_from_slice(b"ERR 7 lane\n"),
        }
    }

    /// Deals a line that was told, if one was.
    pub(crate) fn deal_told(
        &mut self,
        lanes: u32,
        event: Option<Event>,
        line: &[u8],
    ) -> Result<(), AllocError>
        requires { vec_len self.old.scripts ≡ lanes }
        ensures { (before : List Told) → IsDealt lanes before self.old
            → OnOk result (IsDealt lanes (before ++ told event line.now) self.new) }
    {
        match event {
            None => Ok(()),
            Some(told) => match told {
                Event::Line => self.deal_line(lanes, line),
                Event::TooLong => reply_text(&mut self.faults, &Answer::Fault(Fault::Line)),
            },
        }
    }
}
