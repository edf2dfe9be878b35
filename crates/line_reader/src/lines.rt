//! Lines, told one after another.
ghost use Rattle.std.specs.Prelude.{◌≡◌, ◌≢◌, ◌<◌, ◌≤◌, ◌∷◌, ℕ, List, [], length, take, IfOk, IfSome, IfNone, MatchBool, MatchOption};
ghost use Rattle.line_reader.specs.Cut.{open_part, HasNoLf, EndsInFirstLf};
ghost use Rattle.line_reader.specs.Told.{Holds, told, told_lines, last_told};
ghost use Rattle.line_reader.specs.Told.Told.{Read};

use crate::cut::{before_cr, begin, end, keep};
use crate::{LINE_ROOM, LONGEST_LINE};
use memchr::memchr;
use std::alloc::{AllocError, Global};
use std::marker::Model;

/// What is told of a line that ended.
#[derive(Clone, Copy, Debug, PartialEq)]
pub enum Event {
    /// It has at most `LONGEST_LINE` bytes, and `Lines::line` has them.
    Line,
    /// It has more than `LONGEST_LINE` bytes, of which no more is known.
    TooLong,
}

/// How many bytes of a piece were taken, and what was told of the line that they ended.
#[derive(Clone, Copy, Debug)]
pub struct Taken {
    pub used: usize,
    pub event: Option<Event>,
}

/// A line that was read where it lies, without its end, and how many bytes of the piece it takes with its LF.
#[derive(Clone, Copy, Debug)]
pub struct Whole<'a> {
    pub line: &'a [u8],
    pub used: usize,
}

/// A reader of lines: the front of the line that isn't ended, or the last line that was told.
///
/// A line ends in LF, or at the end of input where a byte is left. One CR at its end is dropped. Its
/// `LONGEST_LINE` bytes are counted after that, so the buffer has one byte more.
#[derive(Drop)]
pub struct Lines {
    line: Vec<u8>,
    over: bool,
    ended: bool,
}

impl Model for Lines {
    ghost use Rattle.line_reader.specs.Held.{Held};
    ghost use Rattle.line_reader.specs.declared.limits.TheConstants.{LINE_ROOM};
    ghost use Rattle.std.specs.Prelude.{◌≤◌, [], vec_len, vec_capacity, if◌then◌else◌};

    ghost Value = { Held };

    ghost view = { λ l. record { kept = (if l.ended then [] else l.line.items); over = l.over; line = l.line.items } };

    ghost invariant = { λ l. (vec_len l.line ≤ LINE_ROOM) × (LINE_ROOM ≤ vec_capacity l.line) };
}

impl Lines {
    /// Reserves the buffer of `LINE_ROOM` bytes, the only memory that a reader ever takes.
    pub fn new(alloc: Global) -> Result<Lines, AllocError>
        ensures { IfOk result (λ lines. Holds lines []) }
    {
        Ok(Lines {
            line: Vec::with_capacity(alloc, LINE_ROOM)?,
            over: false,
            ended: false,
        })
    }

    /// The last line that was told as `Event::Line`, without its end.
    pub fn line(&self) -> &[u8]
        ensures { result.now ≡ self.now.line }
    {
        &self.line
    }

    // Whether it holds the front of a line that isn't ended.
    fn is_within(&self) -> bool
        ensures { MatchBool result (self.now.kept ≢ []) (self.now.kept ≡ []) }
    {
        !self.ended && !self.line.is_empty()
    }

    /// The line that a piece begins with, lent from the piece: nothing is copied, and `line` doesn't have it. There is
    /// none where the reader holds the front of a line, where no LF is in the piece, or where the line has more than
    /// `LONGEST_LINE` bytes: then `take` serves.
    pub fn whole<'a>(&self, piece: &'a [u8]) -> Option<Whole<'a>>
        ensures used { IfSome result (λ whole. (0 < whole.used) × (whole.used ≤ length piece.now)) }
        ensures told { (part : List ℕ) → Holds self.now part →
            IfSome result (λ whole. told_lines part (take whole.used piece.now) ≡ Read whole.line.now ∷ []) }
        ensures short { IfSome result (λ whole. length whole.line.now ≤ LONGEST_LINE) }
        ensures held { (part : List ℕ) → Holds self.now part →
            IfSome result (λ whole. Holds self.now (open_part part (take whole.used piece.now))) }
        ensures none { Holds self.now [] → IfNone result (HasNoLf (take LINE_ROOM piece.now)) }
    {
        if self.is_within() {
            return None;
        }
        match memchr(b'\n', piece) {
            None => None,
            Some(at) => {
                let line = before_cr(&piece[..at]);
                if line.len() > LONGEST_LINE {
                    return None;
                }
                Some(Whole { line, used: at + 1 })
            }
        }
    }

    /// Takes bytes up to and with the first LF, or all where there is none.
    pub fn take(&mut self, piece: &[u8]) -> Taken
        ensures used { result.used ≤ length piece.now }
        ensures all { MatchOption result.event (result.used ≡ length piece.now) (λ _. 0 < result.used) }
        ensures first { MatchOption result.event (HasNoLf piece.now) (λ _. EndsInFirstLf (take result.used piece.now)) }
        ensures told { (part : List ℕ) → Holds self.old part →
            told result.event self.new.line ≡ told_lines part (take result.used piece.now) }
        ensures held { (part : List ℕ) → Holds self.old part →
            Holds self.new (open_part part (take result.used piece.now)) }
    {
        begin(&mut self.line, self.ended);
        self.ended = false;
        match memchr(b'\n', piece) {
            None => {
                self.over = keep(&mut self.line, self.over, piece);
                Taken {
                    used: piece.len(),
                    event: None,
                }
            }
            Some(at) => {
                let over = keep(&mut self.line, self.over, &piece[..at]);
                let event = end(&mut self.line, over);
                self.over = false;
                self.ended = true;
                Taken {
                    used: at + 1,
                    event: Some(event),
                }
            }
        }
    }

    /// Tells the bytes behind the last LF, at the end of input. The reader then begins anew.
    pub fn finish(&mut self) -> Option<Event>
        ensures told { (part : List ℕ) → Holds self.old part → told result self.new.line ≡ last_told part }
        ensures held { (part : List ℕ) → Holds self.old part → Holds self.new [] }
    {
        begin(&mut self.line, self.ended);
        self.ended = false;
        if self.line.is_empty() {
            return None;
        }
        let event = end(&mut self.line, self.over);
        self.over = false;
        self.ended = true;
        Some(event)
    }
}
