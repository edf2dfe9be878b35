//! A session from its first read to its end.
ghost use Rattle.std.specs.Prelude.{◌≡◌, ◌<◌, List, length};
ghost use Rattle.std.specs.Io.{ReadsAtMost};
ghost use Rattle.counts.specs.Counts.{Rose};
ghost use Rattle.map_model.specs.History.{Entry};
ghost use Rattle.map_model.specs.Ordered.{Follows};
ghost use Rattle.outside.specs.Causes.{FaultsCounted};
ghost use Rattle.outside.specs.Moved.{moved, is_zero};
ghost use Rattle.outside.specs.Reading.{Took, Ended};
ghost use Rattle.session.specs.Sessions.{Session, stop_end, rest_end};

use crate::buffers::Buffers;
use crate::lines::{serve_piece, serve_rest};
use line_protocol::Lines;
use map_model::Ordered;
use outside::{Sink, Source, Stop};
use patience::Patience;
use std::alloc::Global;

/// How many bytes a session asks for at once.
pub const PIECE_BYTES: usize = 4_096;

/// How a session ended.
#[derive(Clone, Copy, Debug, PartialEq)]
pub enum SessionEnd {
    /// A line asked for the end, and it was answered.
    Quit,
    /// The input came to its end, and the bytes behind the last LF were served as a line.
    EndOfInput,
    /// The source failed.
    ReadFault,
    /// The sink failed.
    WriteFault,
    /// The session itself had no memory. Want of memory in the store is a reply, and ends no session.
    NoMemory,
    /// As many bytes were taken as the session may take.
    Spent { taken: u64 },
}

/// Serves the lines of a source until one of them asks for the end, the input ends or `budget` bytes are taken.
///
/// Reads at most `PIECE_BYTES` at once, and writes the reply to a line before it serves the next: when it asks for
/// more input, no reply waits. The store rests before each read and at the return, and wakes after each read.
/// Beside the buffers of the session, which are used again for each line, a request takes memory for its keys and
/// its value.
pub fn serve<O: Ordered, S: Source, K: Sink, P: Patience>(
    alloc: Global,
    store: &mut O,
    source: &mut S,
    sink: &mut K,
    patience: &mut P,
    budget: u64,
) -> SessionEnd
    ensures session { Session result budget (S.told source.old) (S.told source.new)
        (K.written sink.old) (K.written sink.new)
        (P.limit patience.old) (O.lane store.old) (O.sole store.old) (O.fits store.old)
        (O.refusals store.old) (O.refusals store.new) (O.last store.old) (O.last store.new)
        (O.stands store.old) (O.stands store.new) }
    ensures read { result ≡ SessionEnd.ReadFault → Rose (S.faults source.old) (S.faults source.new) }
    ensures write { result ≡ SessionEnd.WriteFault → Rose (K.faults sink.old) (K.faults sink.new) }
    ensures kept { (O.lane store.new ≡ O.lane store.old) × (O.sole store.new ≡ O.sole store.old)
        × (O.origin store.new ≡ O.origin store.old) × (P.limit patience.new ≡ P.limit patience.old)
        × (S.connection source.new ≡ S.connection source.old) × (K.connection sink.new ≡ K.connection sink.old) }
    ensures forks { O.room store.new ≡ O.room store.old }
    ensures fits { (history : List Entry) → O.fits store.old history → O.fits store.new history }
{
    let end = serve_reads(alloc, store, source, sink, patience, budget);
    store.rest();
    end
}

/// Serves as `serve` does, and leaves the store awake.
fn serve_reads<O: Ordered, S: Source, K: Sink, P: Patience>(
    alloc: Global,
    store: &mut O,
    source: &mut S,
    sink: &mut K,
    patience: &mut P,
    budget: u64,
) -> SessionEnd
    ensures session { Session result budget (S.told source.old) (S.told source.new)
        (K.written sink.old) (K.written sink.new)
        (P.limit patience.old) (O.lane store.old) (O.sole store.old) (O.fits store.old)
        (O.refusals store.old) (O.refusals store.new) (O.last store.old) (O.last store.new)
        (O.stands store.old) (O.stands store.new) }
    ensures read { result ≡ SessionEnd.ReadFault → Rose (S.faults source.old) (S.faults source.new) }
    ensures write { result ≡ SessionEnd.WriteFault → Rose (K.faults sink.old) (K.faults sink.new) }
    ensures kept { (O.lane store.new ≡ O.lane store.old) × (O.sole store.new ≡ O.sole store.old)
        × (O.origin store.new ≡ O.origin store.old) × (P.limit patience.new ≡ P.limit patience.old)
        × (S.connection source.new ≡ S.connection source.old) × (K.connection sink.new ≡ K.connection sink.old) }
    ensures forks { O.room store.new ≡ O.room store.old }
    ensures fits { (history : List Entry) → O.fits store.old history → O.fits store.new history }
{
    let mut lines = match Lines::new(alloc) {
        Ok(lines) => lines,
        Err(_) => return SessionEnd::NoMemory,
    };
    let mut buffers = Buffers::new(alloc);
    let mut piece = [0u8; PIECE_BYTES];
    let mut taken = 0u64;
    'reads: while taken < budget {
        let room = (budget - taken).min(PIECE_BYTES as u64) as usize;
        match read_resting(store, source, &mut piece[..room]) {
            Ok(n) => {
                if n == 0 {
                    return end_of_rest(serve_rest(
                        alloc,
                        store,
                        sink,
                        patience,
                        &mut buffers,
                        &mut lines,
                    ));
                }
                taken += n as u64;
                match serve_piece(
                    alloc,
                    store,
                    sink,
                    patience,
                    &mut buffers,
                    &mut lines,
                    &piece[..n],
                ) {
                    Ok(true) => return SessionEnd::Quit,
                    Ok(false) => {}
                    Err(stop) => return end_of_stop(stop),
                }
            }
            Err(Stop::Failed) => return SessionEnd::ReadFault,
            Err(Stop::NoMemory) => return SessionEnd::NoMemory,
        }
    }
    SessionEnd::Spent { taken }
}

// Reads while the store rests.
fn read_resting<O: Ordered, S: Source>(
    store: &mut O,
    source: &mut S,
    buf: &mut [u8],
) -> Result<usize, Stop>
    requires { 0 < length buf.old }
    ensures seen { Follows (O.stands store.old) (O.stands store.new) (λ old new. new ≡ old) }
    ensures kept { (O.lane store.new ≡ O.lane store.old) × (O.sole store.new ≡ O.sole store.old)
        × (O.origin store.new ≡ O.origin store.old) × (S.connection source.new ≡ S.connection source.old) }
    ensures forks { O.room store.new ≡ O.room store.old }
    ensures fits { (history : List Entry) → O.fits store.old history → O.fits store.new history }
    ensures counted { (O.refusals store.new ≡ O.refusals store.old) × (O.last store.new ≡ O.last store.old) }
    ensures bound { ReadsAtMost result buf.new }
    ensures bytes { Took (S.told source.old) (S.told source.new) (moved result buf.new) }
    ensures ended { Ended (S.told source.old) (S.told source.new) (is_zero result) }
    ensures cause { FaultsCounted (S.faults source.old) (S.faults source.new) result }
{
    store.rest();
    let read = source.read(buf);
    store.wake();
    read
}

// The end of a session whose sink stopped.
fn end_of_stop(stop: Stop) -> SessionEnd
    ensures { result ≡ stop_end stop }
{
    match stop {
        Stop::Failed => SessionEnd::WriteFault,
        Stop::NoMemory => SessionEnd::NoMemory,
    }
}

// The end of a session whose input came to its end, by what became of the rest.
fn end_of_rest(rest: Result<bool, Stop>) -> SessionEnd
    ensures { result ≡ rest_end rest }
{
    match rest {
        Ok(true) => SessionEnd::Quit,
        Ok(false) => SessionEnd::EndOfInput,
        Err(stop) => end_of_stop(stop),
    }
}
