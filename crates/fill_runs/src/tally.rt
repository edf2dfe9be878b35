//! A sink that keeps counts of lines.
ghost use Rattle.std.specs.Prelude.{◌≡◌, ◌<◌, ◌≤◌, ◌+◌, ◌^◌, [], length, IfOk, OnErr};
ghost use Rattle.fill_runs.specs.Summary.{summary};

use crate::summary::append_summary;
use crate::words::LineCounts;
use outside::{Sink, Stop};
use std::alloc::{AllocError, Global};
use std::marker::Model;
use told_bytes::Trace;

/// A sink that counts the lines written to it by their first words, and keeps no more of them than the
/// beginning of the last one. It is seen as the bytes written.
#[derive(Drop)]
pub struct Tally {
    lines: LineCounts,
    total: u64,
    text: Trace,
}

impl Model for Tally {
    ghost use Rattle.std.specs.Prelude.{◌≡◌, ◌<◌, ◌^◌, ℕ, List, length};
    ghost use Rattle.fill_runs.specs.Tallies.{IsTallied};

    ghost Value = { List ℕ };

    ghost view = { λ t. t.text.bytes };

    ghost invariant = { λ t. IsTallied t.lines.counts t.lines.start.items t.text.bytes × (t.total ≡ length t.text.bytes) × (length t.text.bytes < 2 ^ 64) };
}

impl Tally {
    /// Nothing is written. Reserves the few bytes that are the only memory of a tally.
    pub fn new(alloc: Global) -> Result<Tally, AllocError>
        ensures { IfOk result (λ t. t ≡ []) }
    {
        Ok(Tally {
            lines: LineCounts::new(alloc)?,
            total: 0,
            text: Trace::new(),
        })
    }

    /// Puts the summary of the text and this number of requests in place of what was there.
    pub fn summarize(&self, requests: u32, out: &mut Vec<u8>) -> Result<(), AllocError>
        ensures { IfOk result (λ _. out.new.items ≡ summary requests self.now) }
    {
        out.clear();
        append_summary(out, requests, &self.lines.counts)
    }
}

impl Sink for Tally {
    ghost use Rattle.std.specs.Prelude.{Some};
    ghost use Rattle.std.specs.Io.{WritesAtMost};
    ghost use Rattle.outside.specs.Causes.{FaultsCounted};
    ghost use Rattle.outside.specs.Moved.{moved};
    ghost use Rattle.outside.specs.Writing.{Wrote};

    ghost written = { λ t. Some t };

    ghost faults = { λ t. 0 };

    ghost connection = { λ t. 0 };

    fn write(&mut self, bytes: &[u8]) -> Result<usize, Stop>
        ensures bound { WritesAtMost result bytes.now }
        ensures some { IfOk result (λ n. 0 < length bytes.now → 0 < n) }
        ensures bytes { Wrote (Some self.old) (Some self.new) (moved result bytes.now) }
        ensures cause { FaultsCounted 0 0 result }

        // It takes all bytes, and stops only where they were more than a number has room for.
        ensures whole { IfOk result (λ n. n ≡ length bytes.now) }
        ensures stopped { OnErr result (2 ^ 64 ≤ length self.old + length bytes.now) }
    {
        match self.total.checked_add(bytes.len() as u64) {
            None => Err(Stop::NoMemory),
            Some(total) => {
                self.lines.take_all(bytes);
                self.total = total;
                self.text = self.text.then(bytes);
                Ok(bytes.len())
            }
        }
    }
}
