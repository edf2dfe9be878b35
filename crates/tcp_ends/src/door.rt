//! A door over TCP.
ghost use Rattle.std.specs.Prelude.{◌≡◌, ◌<◌, ◌-◌, ◌^◌, IfOk};

use crate::ends::{TcpEnded, TcpSink, TcpSource, end_connection, ends_of};
use counts::raise;
use outside::{Door, Stop};
use std::alloc::Global;
use std::io;
use std::io::ErrorKind;
use std::net::{Net, SocketAddr, TcpListener, TcpStream};

// Errors of Linux, some of which are no kind of their own.
const EPERM: i32 = 1;

const EAGAIN: i32 = 11;

const ENFILE: i32 = 23;

const EMFILE: i32 = 24;

const ENONET: i32 = 64;

const EPROTO: i32 = 71;

const ENOPROTOOPT: i32 = 92;

const EOPNOTSUPP: i32 = 95;

const ENOBUFS: i32 = 105;

const EHOSTDOWN: i32 = 112;

/// A door that listens at an address of the system. It doesn't tell its closed connections. Once it gave 2^64 - 1
/// of them it has no number for another, and fails.
#[derive(Drop)]
pub struct TcpDoor<'a, R> {
    rt: &'a R,
    alloc: Global,
    listener: Option<TcpListener>,
    opened: u64,
    closings: u64,
    faults: u64,
}

impl<'a, R> TcpDoor<'a, R> {
    ghost use Rattle.tcp_ends.specs.Doors.{door_opened, door_closings, door_faults, source_connection, sink_connection};

    /// A door that doesn't listen yet. It takes no memory.
    pub fn new(rt: &'a R, alloc: Global) -> TcpDoor<'a, R>
        ensures opened { door_opened result ≡ 0 }
        ensures closings { door_closings result ≡ 0 }
        ensures faults { door_faults result ≡ 0 }
    {
        TcpDoor {
            rt,
            alloc,
            listener: None,
            opened: 0,
            closings: 0,
            faults: 0,
        }
    }

    /// Where it listens, as the system tells it: of an address with port 0 the port that was found.
    pub fn local_addr(&self) -> Option<SocketAddr> {
        self.listener.as_ref()?.local_addr().ok()
    }

    // The next connection that isn't gone again.
    fn next_stream(&self) -> Result<TcpStream, Stop> {
        let Some(listener) = &self.listener else {
            return Err(Stop::Failed);
        };
        for _ in 0..u64::MAX {
            match listener.accept() {
                Ok((stream, _)) => return Ok(stream),
                Err(error) => match blame_for(&error) {
                    Blame::Client => {}
                    Blame::Memory => return Err(Stop::NoMemory),
                    Blame::Door => return Err(Stop::Failed),
                },
            }
        }
        Err(Stop::Failed)
    }

    // The two ends of the next connection, as long as there is a number for it.
    fn next_ends(&self) -> Result<(TcpSource, TcpSink), Stop>
        ensures input { IfOk result (λ ends. source_connection ends.0 ≡ door_opened self.now) }
        ensures output { IfOk result (λ ends. sink_connection ends.1 ≡ door_opened self.now) }
        ensures some { IfOk result (λ _. door_opened self.now < 2 ^ 64 - 1) }
    {
        if self.opened == u64::MAX {
            return Err(Stop::Failed);
        }
        let stream = self.next_stream()?;
        // Without it a reply could wait until the one before it has been acknowledged. It is served all the same.
        let _ = stream.set_nodelay(true);
        Ok(ends_of(self.alloc, stream, self.opened)?)
    }
}

// Whose an error of accepting is.
#[derive(Clone, Copy)]
enum Blame {
    // Of the connection at hand, which is gone.
    Client,
    // Of the system, which has no memory or no descriptor left.
    Memory,
    // Of the listener.
    Door,
}

// Linux hands errors of a new connection's network on to whoever accepts it, and says that these are to be asked
// again. A firewall rule gives EPERM.
fn blame_for(error: &io::Error) -> Blame {
    match error.kind() {
        ErrorKind::Interrupted
        | ErrorKind::ConnectionAborted
        | ErrorKind::ConnectionReset
        | ErrorKind::HostUnreachable
        | ErrorKind::NetworkUnreachable
        | ErrorKind::NetworkDown
        | ErrorKind::TimedOut => Blame::Client,
        ErrorKind::OutOfMemory => Blame::Memory,
        _ => match error.raw_os_error() {
            Some(EPERM | EPROTO | ENONET | ENOPROTOOPT | EOPNOTSUPP | EHOSTDOWN) => Blame::Client,
            Some(EAGAIN | EMFILE | ENFILE | ENOBUFS) => Blame::Memory,
            _ => Blame::Door,
        },
    }
}

impl<R: Net<Listener = TcpListener, Stream = TcpStream>> Door for TcpDoor<'_, R> {
    type Input = TcpSource;

    type Output = TcpSink;

    type Ended = TcpEnded;

    ghost use Rattle.std.specs.Prelude.{None};
    ghost use Rattle.tcp_ends.specs.Doors.{door_opened, door_closings, door_faults, ended_connection};

    ghost past = { λ ended. None };

    ghost number = { λ ended. ended_connection ended };

    ghost closed = { λ d. None };

    ghost opened = { λ d. door_opened d };

    ghost closings = { λ d. door_closings d };

    ghost faults = { λ d. door_faults d };

    fn listen(&mut self, address: &str) -> Result<(), Stop> {
        match TcpListener::bind(self.rt, address) {
            Ok(listener) => {
                self.listener = Some(listener);
                Ok(())
            }
            Err(_) => {
                self.faults = raise(self.faults);
                Err(Stop::Failed)
            }
        }
    }

    fn accept(&mut self) -> Result<(TcpSource, TcpSink), Stop> {
        match self.next_ends() {
            Ok(ends) => {
                self.opened += 1;
                Ok(ends)
            }
            Err(Stop::NoMemory) => Err(Stop::NoMemory),
            Err(Stop::Failed) => {
                self.faults = raise(self.faults);
                Err(Stop::Failed)
            }
        }
    }

    fn finish(input: TcpSource, output: TcpSink) -> TcpEnded {
        end_connection(input, output)
    }

    fn close(&mut self, _ended: TcpEnded) {
        self.closings = raise(self.closings);
    }
}
