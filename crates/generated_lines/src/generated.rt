//! A source of generated lines.
ghost use Rattle.std.specs.Prelude.{◌≡◌, ◌<◌, ◌≤◌, ◌⊎◌, [], false, length, IfOk, IsOk, Some, vec_capacity};

use crate::line::{next_number, set_line};
use outside::{Source, Stop};
use std::alloc::{AllocError, Global};
use told_bytes::Trace;

/// The lines that a number and a count make, each made when the one before it was given. It has memory for one
/// line, takes no more, and never fails.
#[derive(Drop)]
pub struct Generated {
    number: u64,
    made: u32,
    count: u32,
    line: Vec<u8>,
    at: usize,
    ended: bool,
    given: Trace,
    ghost within: { at ≤ length line.items },
    ghost some: { made ≤ count },
    ghost reserved: { 96 ≤ vec_capacity line },
}

impl Generated {
    ghost use Rattle.generated_lines.specs.Generator.{generated};
    ghost use Rattle.generated_lines.specs.Source.{told_of};

    /// A source of `count` lines.
    pub fn new(alloc: Global, number: u64, count: u32) -> Result<Generated, AllocError>
        ensures told { IfOk result (λ g. told_of g ≡ record { given = []; left = generated number count; ended = false }) }
    {
        Ok(Generated {
            number,
            made: 0,
            count,
            line: Vec::with_capacity(alloc, 96)?,
            at: 0,
            ended: false,
            given: Trace::new(),
        })
    }

    // Makes the next line, where the one at hand was given and a line is left.
    fn make_ready(&mut self)
        ensures told { told_of self.new ≡ told_of self.old }
        ensures ready { self.new.at < length self.new.line.items ⊎ self.new.made ≡ self.new.count }
    {
        if self.at == self.line.len() && self.made < self.count {
            self.number = next_number(self.number);
            set_line(&mut self.line, self.made, self.number);
            self.made += 1;
            self.at = 0;
        }
    }
}

impl Source for Generated {
    ghost use Rattle.std.specs.Io.{ReadsAtMost};
    ghost use Rattle.outside.specs.Causes.{FaultsCounted};
    ghost use Rattle.outside.specs.Moved.{moved, is_zero};
    ghost use Rattle.outside.specs.Reading.{Took, Ended};
    ghost use Rattle.generated_lines.specs.Source.{told_of};

    ghost told = { λ g. Some (told_of g) };

    ghost faults = { λ g. 0 };

    ghost connection = { λ g. 0 };

    fn read(&mut self, buf: &mut [u8]) -> Result<usize, Stop>
        requires { 0 < length buf.old }
        ensures bound { ReadsAtMost result buf.new }
        ensures bytes { Took (Some (told_of self.old)) (Some (told_of self.new)) (moved result buf.new) }
        ensures ended { Ended (Some (told_of self.old)) (Some (told_of self.new)) (is_zero result) }
        ensures cause { FaultsCounted 0 0 result }

        // It doesn't fail.
        ensures ok { IsOk result }
    {
        self.make_ready();
        let n = (self.line.len() - self.at).min(buf.len());
        buf[..n].copy_from_slice(&self.line[self.at..self.at + n]);
        self.given = self.given.then(&buf[..n]);
        self.at += n;
        if n == 0 {
            self.ended = true;
        }
        Ok(n)
    }
}
