//! Clients that fail in the middle: each ends its own connection alone.
ghost use Rattle.std.specs.Prelude.{◌≡◌, None, Some, IfOk};
ghost use Rattle.outside.specs.Connections.{IsUnread, IsUnwritten, Ends};
ghost use Rattle.outside.specs.MemoryDoor.{number_of};
ghost use Rattle.outside.specs.Memory.{told_of, written_of, source_connection, sink_connection};

use counts::raise;
use index_server::{DoorEnd, serve_alone};
use map_model::PlainMap;
use outside::{Door, MemDoor, MemEnded, MemSink, MemSource, Stop};
use std::alloc::{AllocError, Global};
use std::sync::Wait;

// A client: what it sends, in pieces of eight bytes, and which of its reads and writes fail.
#[derive(Clone, Copy)]
struct Client<'a> {
    sends: &'a [u8],
    reads_fail: &'a [u64],
    writes_fail: &'a [u64],
}

// A door of such clients.
#[derive(Drop)]
struct FailingClients<'a> {
    alloc: Global,
    clients: &'a [Client<'a>],
    accepted: usize,
    closings: u64,
    faults: u64,
    outputs: Vec<MemSink>,
}

impl FailingClients<'_> {
    fn ends(&self, client: &Client<'_>) -> Result<(MemSource, MemSink), AllocError>
        ensures unread { IfOk result (λ ends. IsUnread (Some (told_of ends.0))) }
        ensures unwritten { IfOk result (λ ends. IsUnwritten (Some (written_of ends.1))) }
        ensures input { IfOk result (λ ends. source_connection ends.0 ≡ self.now.accepted) }
        ensures output { IfOk result (λ ends. sink_connection ends.1 ≡ self.now.accepted) }
    {
        let number = self.accepted as u64;
        let input = MemSource::new(self.alloc, client.sends, 8, client.reads_fail)?;
        let output = MemSink::new(self.alloc, client.writes_fail)?;
        Ok((input.of_connection(number), output.of_connection(number)))
    }
}

impl Door for FailingClients<'_> {
    type Input = MemSource;

    type Output = MemSink;

    type Ended = MemEnded;

    ghost past = { λ ended. None };

    ghost number = { λ ended. number_of ended };

    ghost closed = { λ d. None };

    ghost opened = { λ d. d.accepted };

    ghost closings = { λ d. d.closings };

    ghost faults = { λ d. d.faults };

    fn listen(&mut self, _address: &str) -> Result<(), Stop> {
        Ok(())
    }

    fn accept(&mut self) -> Result<(MemSource, MemSink), Stop> {
        match self.clients.get(self.accepted) {
            Some(client) => {
                let ends = self.ends(client)?;
                self.accepted += 1;
                Ok(ends)
            }
            None => {
                self.faults = raise(self.faults);
                Err(Stop::Failed)
            }
        }
    }

    fn finish(input: MemSource, output: MemSink) -> MemEnded
        requires { source_connection input ≡ sink_connection output }
        ensures past { Ends (Some (told_of input)) (Some (written_of output)) None }
        ensures number { number_of result ≡ source_connection input }
    {
        MemDoor::finish(input, output)
    }

    fn close(&mut self, ended: MemEnded) {
        self.closings = raise(self.closings);
        let _ = self.outputs.push(ended.into_output());
    }
}

// Whether these clients get these replies, and the server serves them all.
fn get<R: Wait + Sync>(rt: &R, alloc: Global, clients: &[Client<'_>], want: &[&[u8]]) -> bool {
    let mut door = FailingClients {
        alloc,
        clients,
        accepted: 0,
        closings: 0,
        faults: 0,
        outputs: Vec::new(alloc),
    };
    let mut map = PlainMap::new(alloc);
    let end = serve_alone(rt, alloc, &mut door, &mut map, clients.len() as u64);
    let outputs = door.outputs;
    end == DoorEnd::Done
        && outputs.len() == want.len()
        && outputs
            .iter()
            .zip(want)
            .all(|(sink, want)| sink.bytes() == *want)
}

#[test]
fn a_failing_client_ends_its_own_connection(rt: HostRuntime) {
    let clients = [
        Client {
            sends: b"PUT a 1\nGET a\n",
            reads_fail: &[2],
            writes_fail: &[],
        },
        Client {
            sends: b"PUT b 2\nPUT c 3\n",
            reads_fail: &[],
            writes_fail: &[1],
        },
        Client {
            sends: b"GET a\nGET b\nGET c",
            reads_fail: &[],
            writes_fail: &[],
        },
    ];
    let want = [b"NEW\n".as_slice(), b"", b"VALUE 1\nVALUE 2\nNONE\n"];
    assert!(rt; get(&rt, rt.alloc(), &clients, &want));
}
