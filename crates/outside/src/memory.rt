//! A source and a sink in memory.
ghost use Rattle.std.specs.Prelude.{◌≡◌, ◌<◌, ◌≤◌, [], false, length, IfOk, Some, Ok, Err};

use crate::plan::Plan;
use crate::{Sink, Source, Stop};
use std::alloc::{AllocError, Global};

/// Bytes that are read piece by piece. Some calls fail, by their numbers.
#[derive(Drop)]
pub struct MemSource {
    bytes: Vec<u8>,
    at: usize,
    ended: bool,
    piece: usize,
    plan: Plan,
    connection: u64,
    ghost within: { at ≤ length bytes.items },
    ghost some: { 0 < piece },
}

impl MemSource {
    ghost use Rattle.outside.specs.Memory.{told_of, piece_of, source_plan, source_connection};

    /// A source of these bytes, of which a call gives at most `piece`. The calls whose numbers, from 1, are in
    /// `fails` answer `Failed` and give nothing. It is an end of connection 0 until it is told of another.
    pub fn new(
        alloc: Global,
        bytes: &[u8],
        piece: usize,
        fails: &[u64],
    ) -> Result<MemSource, AllocError>
        requires { 0 < piece }
        ensures told { IfOk result (λ s. told_of s ≡ record { given = []; left = bytes.now; ended = false }) }
        ensures piece { IfOk result (λ s. piece_of s ≡ piece) }
        ensures plan { IfOk result (λ s. source_plan s ≡ record { fails = fails.now; calls = 0; faults = 0 }) }
    {
        Ok(MemSource {
            bytes: bytes.to_vec(alloc)?,
            at: 0,
            ended: false,
            piece,
            plan: Plan::new(fails.to_vec(alloc)?),
            connection: 0,
        })
    }

    /// The same source, as an end of the connection of this number.
    pub fn of_connection(self, connection: u64) -> MemSource
        ensures connection { source_connection result ≡ connection }
        ensures told { told_of result ≡ told_of self }
        ensures piece { piece_of result ≡ piece_of self }
        ensures plan { source_plan result ≡ source_plan self }
    {
        let MemSource {
            bytes,
            at,
            ended,
            piece,
            plan,
            connection: _,
        } = self;
        MemSource {
            bytes,
            at,
            ended,
            piece,
            plan,
            connection,
        }
    }
}

impl Source for MemSource {
    ghost use Rattle.std.specs.Io.{ReadsAtMost};
    ghost use Rattle.outside.specs.Causes.{FaultsCounted};
    ghost use Rattle.outside.specs.Memory.{told_of, piece_of, source_plan, source_connection, read_answer};
    ghost use Rattle.outside.specs.Moved.{moved, is_zero};
    ghost use Rattle.outside.specs.Plans.{after_call};
    ghost use Rattle.outside.specs.Reading.{Took, Ended};

    ghost told = { λ s. Some (told_of s) };

    ghost faults = { λ s. (source_plan s).faults };

    ghost connection = { λ s. source_connection s };

    fn read(&mut self, buf: &mut [u8]) -> Result<usize, Stop>
        requires { 0 < length buf.old }
        ensures bound { ReadsAtMost result buf.new }
        ensures bytes { Took (Some (told_of self.old)) (Some (told_of self.new)) (moved result buf.new) }
        ensures ended { Ended (Some (told_of self.old)) (Some (told_of self.new)) (is_zero result) }
        ensures cause { FaultsCounted (source_plan self.old).faults (source_plan self.new).faults result }
        ensures connection { source_connection self.new ≡ source_connection self.old }

        // The answer is known, and so is each later one.
        ensures answer { result ≡ read_answer self.old (length buf.old) }
        ensures piece { piece_of self.new ≡ piece_of self.old }
        ensures plan { source_plan self.new ≡ after_call (source_plan self.old) }
    {
        if self.plan.fails_next() {
            return Err(Stop::Failed);
        }
        let n = (self.bytes.len() - self.at).min(self.piece).min(buf.len());
        buf[..n].copy_from_slice(&self.bytes[self.at..self.at + n]);
        self.at += n;
        if n == 0 {
            self.ended = true;
        }
        Ok(n)
    }
}

/// Bytes that were written. Some calls fail, by their numbers.
#[derive(Drop)]
pub struct MemSink {
    bytes: Vec<u8>,
    plan: Plan,
    connection: u64,
}

impl MemSink {
    ghost use Rattle.outside.specs.Memory.{written_of, sink_plan, sink_connection};

    /// An empty sink. The writes whose numbers, from 1, are in `fails` answer `Failed` and write nothing. It is an end
    /// of connection 0 until it is told of another.
    pub fn new(alloc: Global, fails: &[u64]) -> Result<MemSink, AllocError>
        ensures written { IfOk result (λ s. written_of s ≡ []) }
        ensures plan { IfOk result (λ s. sink_plan s ≡ record { fails = fails.now; calls = 0; faults = 0 }) }
    {
        Ok(MemSink {
            bytes: Vec::new(alloc),
            plan: Plan::new(fails.to_vec(alloc)?),
            connection: 0,
        })
    }

    /// The same sink, as an end of the connection of this number.
    pub fn of_connection(self, connection: u64) -> MemSink
        ensures connection { sink_connection result ≡ connection }
        ensures written { written_of result ≡ written_of self }
        ensures plan { sink_plan result ≡ sink_plan self }
    {
        let MemSink {
            bytes,
            plan,
            connection: _,
        } = self;
        MemSink {
            bytes,
            plan,
            connection,
        }
    }

    /// The bytes written so far.
    pub fn bytes(&self) -> &[u8]
        ensures { result.now ≡ written_of self.now }
    {
        &self.bytes
    }
}

impl Sink for MemSink {
    ghost use Rattle.std.specs.Io.{WritesAtMost};
    ghost use Rattle.outside.specs.Causes.{FaultsCounted};
    ghost use Rattle.outside.specs.Memory.{written_of, sink_plan, sink_connection};
    ghost use Rattle.outside.specs.Moved.{moved};
    ghost use Rattle.outside.specs.Plans.{fails_next, after_call};
    ghost use Rattle.outside.specs.Writing.{Wrote};
    ghost use Rattle.std.specs.Prelude.{◌↔◌, IsTrue};

    ghost written = { λ s. Some (written_of s) };

    ghost faults = { λ s. (sink_plan s).faults };

    ghost connection = { λ s. sink_connection s };

    fn write(&mut self, bytes: &[u8]) -> Result<usize, Stop>
        ensures bound { WritesAtMost result bytes.now }
        ensures some { IfOk result (λ n. 0 < length bytes.now → 0 < n) }
        ensures bytes { Wrote (Some (written_of self.old)) (Some (written_of self.new)) (moved result bytes.now) }
        ensures cause { FaultsCounted (sink_plan self.old).faults (sink_plan self.new).faults result }
        ensures connection { sink_connection self.new ≡ sink_connection self.old }

        // It fails exactly as planned, and takes all bytes where it takes any.
        ensures failed { (result ≡ Err Stop.Failed) ↔ IsTrue (fails_next (sink_plan self.old)) }
        ensures whole { IfOk result (λ n. n ≡ length bytes.now) }
        ensures plan { sink_plan self.new ≡ after_call (sink_plan self.old) }
    {
        if self.plan.fails_next() {
            return Err(Stop::Failed);
        }
        match self.bytes.extend_from_slice(bytes) {
            Ok(()) => Ok(bytes.len()),
            Err(_) => Err(Stop::NoMemory),
        }
    }
}
