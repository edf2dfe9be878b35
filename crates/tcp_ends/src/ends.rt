//! The two ends of a connection. No contract says which bytes a socket gives and takes, so these tell nothing of bytes:
//! they count their failures.
ghost use Rattle.std.specs.Prelude.{◌≡◌, None, IfOk};
ghost use Rattle.tcp_ends.specs.Doors.{source_connection, sink_connection, ended_connection};

use crate::closing::end_stream;
use counts::raise;
use outside::{Sink, Source, Stop};
use standard_ends::{BUFFER, Outgoing};
use std::alloc::{AllocError, Global};
use std::io;
use std::io::{BufReader, Read, Write};
use std::net::TcpStream;
use std::sync::{Arc, Mutex};

/// One of the two hands in which the ends of a connection hold its only descriptor.
#[derive(Drop)]
pub(crate) struct Wire(Arc<TcpStream>);

impl Read for Wire {
    fn read(&mut self, buf: &mut [u8]) -> io::Result<usize> {
        let mut stream: &TcpStream = &self.0;
        stream.read(buf)
    }
}

impl Write for Wire {
    fn write(&mut self, buf: &[u8]) -> io::Result<usize> {
        let mut stream: &TcpStream = &self.0;
        stream.write(buf)
    }

    fn flush(&mut self) -> io::Result<()> {
        Ok(())
    }
}

/// Replies on their way to a client. Only the thread that serves the connection has them, so the lock is always free.
type Replies = Arc<Mutex<Outgoing<Wire>>>;

/// What a client sends, which is read ahead. Before the client is asked for more, the replies that wait are handed on.
/// Each error of the socket is a fault; a failing write is told by the next write.
#[derive(Drop)]
pub struct TcpSource {
    reader: BufReader<Wire>,
    replies: Replies,
    faults: u64,
    connection: u64,
}

/// What a client gets. Replies are collected. Each failure of the socket is a fault of the write that is told of it, and
/// of all later ones.
#[derive(Drop)]
pub struct TcpSink {
    replies: Replies,
    faults: u64,
    connection: u64,
}

/// A connection that has ended, and has no descriptor any more.
#[derive(Drop)]
pub struct TcpEnded {
    connection: u64,
}

/// The two ends of the connection of this number. Without memory the connection is lost.
pub(crate) fn ends_of(
    alloc: Global,
    stream: TcpStream,
    connection: u64,
) -> Result<(TcpSource, TcpSink), AllocError>
    ensures input { IfOk result (λ ends. source_connection ends.0 ≡ connection) }
    ensures output { IfOk result (λ ends. sink_connection ends.1 ≡ connection) }
{
    let stream = Arc::new(alloc, stream)?;
    let other = Wire(Arc::try_clone(&stream)?);
    let replies = Arc::new(alloc, Mutex::new(Outgoing::new(alloc, other)))?;
    let same = Arc::try_clone(&replies)?;
    let Ok(reader) = BufReader::with_capacity(alloc, BUFFER, Wire(stream)) else {
        return Err(AllocError);
    };
    let source = TcpSource {
        reader,
        replies,
        faults: 0,
        connection,
    };
    let sink = TcpSink {
        replies: same,
        faults: 0,
        connection,
    };
    Ok((source, sink))
}

/// Hands on what waits, shows the client the end, and lets the descriptor go.
pub(crate) fn end_connection(input: TcpSource, output: TcpSink) -> TcpEnded
    ensures { ended_connection result ≡ source_connection input }
{
    if hand_on(&output) {
        end_stream(&input.reader.get_ref().0);
    }
    TcpEnded {
        connection: input.connection,
    }
}

// Hands on what waits, and says whether the client's side of the connection took it all.
fn hand_on(output: &TcpSink) -> bool {
    match output.replies.try_lock() {
        Some(mut replies) => replies.hand_on(),
        None => false,
    }
}

impl Source for TcpSource {
    ghost told = { λ s. None };

    ghost faults = { λ s. s.faults };

    ghost connection = { λ s. s.connection };

    fn read(&mut self, buf: &mut [u8]) -> Result<usize, Stop> {
        if let Some(mut replies) = self.replies.try_lock() {
            if let Ok(n) = replies.read_behind(&mut self.reader, buf) {
                return Ok(n);
            }
        }
        self.faults = raise(self.faults);
        Err(Stop::Failed)
    }
}

impl Sink for TcpSink {
    ghost written = { λ s. None };

    ghost faults = { λ s. s.faults };

    ghost connection = { λ s. s.connection };

    fn write(&mut self, bytes: &[u8]) -> Result<usize, Stop> {
        match self.replies.try_lock() {
            Some(mut replies) => replies.put(bytes, &mut self.faults),
            None => {
                self.faults = raise(self.faults);
                Err(Stop::Failed)
            }
        }
    }
}
