//! A server with two workers: two connections are served at the same time, each has the replies to its own requests,
//! and what the workers did is seen by the first lane at the end.
ghost use Rattle.std.specs.Prelude.{None, ◌≡◌, [], IfOk};
ghost use Rattle.outside.specs.Connections.{Ends};
ghost use Rattle.outside.specs.MemoryDoor.{number_of};
ghost use Rattle.outside.specs.Memory.{source_plan, source_connection, sink_plan, sink_connection};

use crate::memory_doors::{door_of, has_written};
use counts::raise;
use index_server::{DoorEnd, serve_door};
use lane_stores::SharedMap;
use map_model::{ForkFault, Lanes, Ordered};
use outside::{Door, MemDoor, MemEnded, MemSink, MemSource, Sink, Source, Stop};
use session::{Bounded, SessionEnd, serve};
use std::alloc::{AllocError, Global};
use std::sync::Wait;
use std::sync::atomic::{AtomicBool, Ordering};
use std::thread;
use std::thread::Threads;

// How often the first client looks whether the second one was answered.
const TURNS: u32 = 1_000_000;

// What the two connections tell each other.
#[derive(Drop)]
struct Between {
    // The second client was answered.
    answered: AtomicBool,
    // The first client gave up.
    gave_up: AtomicBool,
}

// What a client sends. The first one sends it once the second was answered, and nothing where it gives up.
#[derive(Drop)]
struct Waiting<'a> {
    bytes: MemSource,
    waits: bool,
    between: &'a Between,
}

impl Source for Waiting<'_> {
    ghost told = { λ s. None };

    ghost faults = { λ s. (source_plan s.bytes).faults };

    ghost connection = { λ s. source_connection s.bytes };

    fn read(&mut self, buf: &mut [u8]) -> Result<usize, Stop> {
        if self.waits {
            self.waits = false;
            if !is_answered(self.between) {
                self.between.gave_up.store(true, Ordering::SeqCst);
                return Ok(0);
            }
        }
        self.bytes.read(buf)
    }
}

// Waits for a while until the second client was answered.
fn is_answered(between: &Between) -> bool {
    for _ in 0..TURNS {
        if between.answered.load(Ordering::SeqCst) {
            return true;
        }
        thread::yield_now();
    }
    false
}

// What a client gets. The second one tells of it.
#[derive(Drop)]
struct Telling<'a> {
    bytes: MemSink,
    tells: bool,
    between: &'a Between,
}

impl Sink for Telling<'_> {
    ghost written = { λ s. None };

    ghost faults = { λ s. (sink_plan s.bytes).faults };

    ghost connection = { λ s. sink_connection s.bytes };

    fn write(&mut self, bytes: &[u8]) -> Result<usize, Stop> {
        let answer = self.bytes.write(bytes);
        if self.tells && answer.is_ok() {
            self.between.answered.store(true, Ordering::SeqCst);
        }
        answer
    }
}

// A door of these two clients.
#[derive(Drop)]
struct TwoClients<'a> {
    alloc: Global,
    between: &'a Between,
    accepted: u32,
    closings: u64,
    faults: u64,
    outputs: Vec<MemSink>,
}

impl<'a> TwoClients<'a> {
    fn ends(&self, sends: &[u8], first: bool) -> Result<(Waiting<'a>, Telling<'a>), AllocError>
        ensures input { IfOk result (λ ends. source_connection ends.0.bytes ≡ self.now.accepted) }
        ensures output { IfOk result (λ ends. sink_connection ends.1.bytes ≡ self.now.accepted) }
    {
        let number = self.accepted as u64;
        let bytes = MemSource::new(self.alloc, sends, 4_096, &[])?;
        let replies = MemSink::new(self.alloc, &[])?;
        let input = Waiting {
            bytes: bytes.of_connection(number),
            waits: first,
            between: self.between,
        };
        let output = Telling {
            bytes: replies.of_connection(number),
            tells: !first,
            between: self.between,
        };
        Ok((input, output))
    }
}

impl<'a> Door for TwoClients<'a> {
    type Input = Waiting<'a>;

    type Output = Telling<'a>;

    type Ended = MemEnded;

    ghost past = { λ ended. None };

    ghost number = { λ ended. number_of ended };

    ghost closed = { λ d. None };

    ghost opened = { λ d. d.accepted };

    ghost closings = { λ d. d.closings };

    ghost faults = { λ d. d.faults };

    fn listen(&mut self, _address: &str) -> Result<(), Stop> {
        Ok(())
    }

    fn accept(&mut self) -> Result<(Waiting<'a>, Telling<'a>), Stop> {
        let ends = match self.accepted {
            0 => self.ends(b"PUT a 1", true)?,
            1 => self.ends(b"PUT b 2", false)?,
            _ => {
                self.faults = raise(self.faults);
                return Err(Stop::Failed);
            }
        };
        self.accepted += 1;
        Ok(ends)
    }

    fn finish(input: Waiting<'a>, output: Telling<'a>) -> MemEnded
        requires { source_connection input.bytes ≡ sink_connection output.bytes }
        ensures past { Ends None None None }
        ensures number { number_of result ≡ source_connection input.entry.bytes }
    {
        let Waiting { bytes: sent, .. } = input;
        let Telling { bytes, .. } = output;
        MemDoor::finish(sent, bytes)
    }

    fn close(&mut self, ended: MemEnded) {
        self.closings = raise(self.closings);
        let _ = self.outputs.push(ended.into_output());
    }
}

// Whether a session on the lane finds what both clients put.
fn finds_both<T: Ordered>(alloc: Global, lane: &mut T) -> bool {
    let Ok(mut asks) = MemSource::new(alloc, b"GET a\nGET b", 4_096, &[]) else {
        return false;
    };
    let Ok(mut told) = MemSink::new(alloc, &[]) else {
        return false;
    };
    let end = serve(alloc, lane, &mut asks, &mut told, &mut Bounded(1), 1 << 20);
    end == SessionEnd::EndOfInput && told.bytes() == b"VALUE 1\nVALUE 2\n".as_slice()
}

// Whether two workers serve the two clients at the same time, and the first lane finds what they put.
fn serves_both<R: Threads + Wait + Sync, T: Lanes>(rt: &R, alloc: Global, lane: &mut T) -> bool {
    let between = Between {
        answered: AtomicBool::new(false),
        gave_up: AtomicBool::new(false),
    };
    let mut door = TwoClients {
        alloc,
        between: &between,
        accepted: 0,
        closings: 0,
        faults: 0,
        outputs: Vec::new(alloc),
    };
    let done = serve_door(rt, alloc, &mut door, lane, 2, 2) == DoorEnd::Done;
    let new = door.outputs.len() == 2
        && door
            .outputs
            .iter()
            .all(|output| output.bytes() == b"NEW\n".as_slice());
    done && new && !between.gave_up.load(Ordering::SeqCst) && finds_both(alloc, lane)
}

// Whether they do so over a map that the two lanes share.
fn serves_both_over_one_map<R: Threads + Wait + Sync>(rt: &R, alloc: Global) -> bool {
    let Ok((map, seat)) = SharedMap::make(alloc, 2) else {
        return false;
    };
    let mut lane = map.first_lane(seat);
    serves_both(rt, alloc, &mut lane)
}

#[test]
fn two_clients_are_served_at_once(rt: HostRuntime) {
    assert!(rt; serves_both_over_one_map(&rt, rt.alloc()));
}

// Whether one worker serves by the first lane, and more workers than there are lanes are refused before any client
// comes.
fn serves_by_the_lanes_that_there_are<R: Threads + Wait + Sync>(rt: &R, alloc: Global) -> bool {
    let Ok((map, seat)) = SharedMap::make(alloc, 2) else {
        return false;
    };
    let mut lane = map.first_lane(seat);
    let Ok(mut door) = door_of(alloc, &[b"PUT a 1", b"GET a"], &[]) else {
        return false;
    };
    let refused = matches!(
        serve_door(rt, alloc, &mut door, &mut lane, 3, 1),
        DoorEnd::Lanes(ForkFault::Lanes { .. })
    );
    let untouched = has_written(&door, &[]);
    let served = serve_door(rt, alloc, &mut door, &mut lane, 1, 2) == DoorEnd::Done;
    refused && untouched && served && has_written(&door, &[b"NEW\n", b"VALUE 1\n"])
}

#[test]
fn workers_are_as_many_as_lanes(rt: HostRuntime) {
    assert!(rt; serves_by_the_lanes_that_there_are(&rt, rt.alloc()));
}
