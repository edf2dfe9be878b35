//! A door in memory.
ghost use Rattle.std.specs.Prelude.{◌≡◌, ◌+◌, ◌-◌, ◌^◌, ◌≤◌, min, length, map, [], Some, Ok, Err, IfOk, OnErr, vec_capacity};
ghost use Rattle.std.specs.Global.{Vec};

use crate::plan::Plan;
use crate::{Door, MemSink, MemSource, Stop};
use counts::raise;
use std::alloc::{AllocError, Global};

/// Connections whose clients send what was given, in order. Some calls fail, by their numbers.
#[derive(Drop)]
pub struct MemDoor {
    alloc: Global,
    inputs: Vec<Vec<u8>>,
    next: usize,
    plan: Plan,
    closings: u64,
    sources: Vec<MemSource>,
    outputs: Vec<MemSink>,
    overfull: bool,
    ghost within: { next ≤ length inputs.items },
    ghost paired: { length sources.items ≡ length outputs.items },
    ghost most: { length outputs.items ≤ length inputs.items },
    ghost sources_fit: { length inputs.items ≤ vec_capacity sources },
    ghost outputs_fit: { length inputs.items ≤ vec_capacity outputs },
}

impl MemDoor {
    ghost use Rattle.std.specs.Prelude.{IfSome, ℕ};
    ghost use Rattle.outside.specs.Connections.{Connection};
    ghost use Rattle.outside.specs.Memory.{written_of};
    ghost use Rattle.outside.specs.MemoryDoor.{waiting_of, opened_of, room_of, door_plan, closed_of};

    /// A door of one connection for each input, in order. Its calls of `listen` and `accept` are numbered together
    /// from 1, and those whose numbers are in `fails` answer `Failed`. It has room for as many closed connections
    /// as there are inputs.
    pub fn new(alloc: Global, inputs: Vec<Vec<u8>>, fails: &[u64]) -> Result<MemDoor, AllocError>
        ensures opened { IfOk result (λ d. opened_of d ≡ 0) }
        ensures waiting { IfOk result (λ d. waiting_of d ≡ map (λ (input : Vec ℕ). input.items) inputs.items) }
        ensures room { IfOk result (λ d. room_of d ≡ length inputs.items) }
        ensures plan { IfOk result (λ d. door_plan d ≡ record { fails = fails.now; calls = 0; faults = 0 }) }
        ensures closed { IfOk result (λ d. closed_of d ≡ Some []) }
        ensures closings { IfOk result (λ d. MemDoor.closings d ≡ 0) }
    {
        let room = inputs.len();
        Ok(MemDoor {
            alloc,
            inputs,
            next: 0,
            plan: Plan::new(fails.to_vec(alloc)?),
            closings: 0,
            sources: Vec::with_capacity(alloc, room)?,
            outputs: Vec::with_capacity(alloc, room)?,
            overfull: false,
        })
    }

    /// What was written to the closed connections, in the order of closing, as far as there was room for them.
    pub fn outputs(&self) -> &[MemSink]
        ensures { IfSome (closed_of self.now) (λ closed. map written_of result.now ≡ map (λ (c : Connection). c.written) closed) }
    {
        &self.outputs
    }
}

/// A connection that has ended, with what its ends tell.
#[derive(Drop)]
pub struct MemEnded {
    input: MemSource,
    output: MemSink,
}

impl MemEnded {
    ghost use Rattle.outside.specs.Memory.{written_of};
    ghost use Rattle.outside.specs.MemoryDoor.{past_of};

    /// What its client got.
    pub fn into_output(self) -> MemSink
        ensures { written_of result ≡ (past_of self).written }
    {
        let MemEnded { output, .. } = self;
        output
    }
}

impl Door for MemDoor {
    type Input = MemSource;

    type Output = MemSink;

    type Ended = MemEnded;

    ghost use Rattle.std.specs.Prelude.{◌∷◌, ◌↔◌, IsTrue, if◌then◌else◌};
    ghost use Rattle.outside.specs.Causes.{FaultsCounted};
    ghost use Rattle.outside.specs.Connections.{IsUnread, IsUnwritten, Opens, Ends, Closes};
    ghost use Rattle.outside.specs.Memory.{told_of, piece_of, source_plan, source_connection, written_of, sink_plan, sink_connection};
    ghost use Rattle.outside.specs.MemoryDoor.{waiting_of, opened_of, room_of, door_plan, accept_fails, after_accept, connection_of, past_of, number_of, closed_of, told_after};
    ghost use Rattle.outside.specs.Plans.{fails_next, after_call};

    ghost past = { λ ended. Some (past_of ended) };

    ghost number = { λ ended. number_of ended };

    ghost closed = { λ d. closed_of d };

    ghost opened = { λ d. opened_of d };

    ghost closings = { λ d. d.closings };

    ghost faults = { λ d. (door_plan d).faults };

    fn listen(&mut self, _address: &str) -> Result<(), Stop>
        ensures cause { FaultsCounted (door_plan self.old).faults (door_plan self.new).faults result }
        ensures closed { closed_of self.new ≡ closed_of self.old }
        ensures opened { opened_of self.new ≡ opened_of self.old }
        ensures closings { self.new.closings ≡ self.old.closings }

        // The answer is known, and no connection is touched.
        ensures answer { result ≡ if fails_next (door_plan self.old) then Err Stop.Failed else Ok tt }
        ensures plan { door_plan self.new ≡ after_call (door_plan self.old) }
        ensures waiting { waiting_of self.new ≡ waiting_of self.old }
        ensures room { room_of self.new ≡ room_of self.old }
    {
        if self.plan.fails_next() {
            return Err(Stop::Failed);
        }
        Ok(())
    }

    fn accept(&mut self) -> Result<(MemSource, MemSink), Stop>
        ensures unread { IfOk result (λ ends. IsUnread (Some (told_of ends.0))) }
        ensures unwritten { IfOk result (λ ends. IsUnwritten (Some (written_of ends.1))) }
        ensures input { IfOk result (λ ends. source_connection ends.0 ≡ opened_of self.old) }
        ensures output { IfOk result (λ ends. sink_connection ends.1 ≡ opened_of self.old) }
        ensures opened { Opens (opened_of self.old) (opened_of self.new) result }
        ensures cause { FaultsCounted (door_plan self.old).faults (door_plan self.new).faults result }
        ensures closed { closed_of self.new ≡ closed_of self.old }
        ensures closings { self.new.closings ≡ self.old.closings }

        // It fails exactly as planned, and where no input waits.
        ensures failed { (result ≡ Err Stop.Failed) ↔ IsTrue (accept_fails self.old) }
        ensures plan { door_plan self.new ≡ after_accept self.old }

        // The first input that waits is the client's, and only an Ok uses it up.
        ensures taken { IfOk result (λ ends. waiting_of self.old ≡ (told_of ends.0).left ∷ waiting_of self.new) }
        ensures refused { OnErr result (waiting_of self.new ≡ waiting_of self.old) }
        ensures room { room_of self.new ≡ room_of self.old }

        // The client's ends never fail.
        ensures source { IfOk result (λ ends. source_plan ends.0 ≡ record { fails = []; calls = 0; faults = 0 }) }
        ensures sink { IfOk result (λ ends. sink_plan ends.1 ≡ record { fails = []; calls = 0; faults = 0 }) }
        ensures piece { IfOk result (λ ends. piece_of ends.0 ≡ 2 ^ 64 - 1) }
    {
        if self.plan.fails_next() {
            return Err(Stop::Failed);
        }
        if self.next == self.inputs.len() {
            self.plan.count_fault();
            return Err(Stop::Failed);
        }
        let number = self.next as u64;
        let source = MemSource::new(self.alloc, &self.inputs[self.next], usize::MAX, &[])?;
        let sink = MemSink::new(self.alloc, &[])?;
        self.next += 1;
        Ok((source.of_connection(number), sink.of_connection(number)))
    }

    fn finish(input: MemSource, output: MemSink) -> MemEnded
        requires { source_connection input ≡ sink_connection output }
        ensures past { Ends (Some (told_of input)) (Some (written_of output)) (Some (past_of result)) }
        ensures number { number_of result ≡ source_connection input }
    {
        MemEnded { input, output }
    }

    fn close(&mut self, ended: MemEnded)
        ensures closed { Closes (closed_of self.old) (closed_of self.new) (Some (past_of ended)) }
        ensures closings { self.new.closings ≡ min (self.old.closings + 1) (2 ^ 64 - 1) }
        ensures opened { opened_of self.new ≡ opened_of self.old }
        ensures kept { (door_plan self.new).faults ≡ (door_plan self.old).faults }

        // What is told is known: a close for which there is no room ends it.
        ensures told { closed_of self.new ≡ told_after (room_of self.old) (closed_of self.old) (past_of ended) }
        ensures plan { door_plan self.new ≡ door_plan self.old }
        ensures waiting { waiting_of self.new ≡ waiting_of self.old }
        ensures room { room_of self.new ≡ room_of self.old }
    {
        self.closings = raise(self.closings);
        if self.outputs.len() == self.inputs.len() {
            self.overfull = true;
        } else {
            let MemEnded { input, output } = ended;
            self.sources.push_reserved(input);
            self.outputs.push_reserved(output);
        }
    }
}
