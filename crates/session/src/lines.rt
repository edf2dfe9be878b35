//! Lines that are served.
ghost use Rattle.std.specs.Prelude.{◌≡◌, ◌<◌, ◌≤◌, ◌∷◌, [], length, take, map, IfOk, List, ℕ, false, Ok, Some};
ghost use Rattle.std.specs.Bool.{OnFalse};
ghost use Rattle.line_protocol.specs.Requests.{IsRequest, request as asked_for, is_quit};
ghost use Rattle.line_protocol.specs.Texts.{text};
ghost use Rattle.line_reader.specs.Cut.{open_part};
ghost use Rattle.line_reader.specs.Told.{Holds, tells, told as told_by, told_lines, last_told};
ghost use Rattle.map_model.specs.History.{Entry};
ghost use Rattle.outside.specs.Causes.{FaultsCounted};
ghost use Rattle.session.specs.Asked.{if_any, asked_by_all, has_quit, upto_quit};
ghost use Rattle.session.specs.Transcripts.{Serves};
ghost use Rattle.session.specs.Turns.{WritesPieces};
ghost use Rattle.session.specs.Writes.{Gained, Reaches};

use crate::buffers::Buffers;
use crate::requests::{del_request, get_request, put_request};
use crate::scans::serve_scan;
use crate::writes::reply;
use line_protocol::{Answer, Event, Fault, Lines, Request, RequestFault, read_request};
use line_reader::LONGEST_LINE;
use map_model::Ordered;
use outside::{Sink, Stop};
use patience::Patience;
use std::alloc::Global;

// Whether the session ends behind it.
#[inline(always)]
fn is_last(request: &Request) -> bool
    ensures { result ≡ is_quit (Ok (Some request.now)) }
{
    matches!(request, Request::Quit)
}

/// Serves a request, and writes its lines. Without memory for its key it asks nothing.
#[inline(always)]
pub(crate) fn serve_request<O: Ordered, K: Sink, P: Patience>(
    alloc: Global,
    store: &mut O,
    sink: &mut K,
    patience: &mut P,
    buffers: &mut Buffers,
    request: Request,
) -> Result<(), Stop>
    requires { IsRequest request }
    ensures served { Serves O.stands O.lane O.sole O.fits O.refusals O.last (P.limit patience.old) store.old store.new
        (Reaches result (Ok (Some request.entry) ∷ [])) (WritesPieces result (K.written sink.old) (K.written sink.new)) }
    ensures kept { (O.lane store.new ≡ O.lane store.old) × (O.sole store.new ≡ O.sole store.old)
        × (O.origin store.new ≡ O.origin store.old) × (P.limit patience.new ≡ P.limit patience.old)
        × (K.connection sink.new ≡ K.connection sink.old) }
    ensures forks { O.room store.new ≡ O.room store.old }
    ensures fits { (history : List Entry) → O.fits store.old history → O.fits store.new history }
    ensures cause { FaultsCounted (K.faults sink.old) (K.faults sink.new) result }
{
    match request {
        Request::Put(key, value) => {
            put_request(alloc, store, sink, patience, buffers, &key, value.get())
        }
        Request::Get(key) => get_request(alloc, store, sink, patience, buffers, &key),
        Request::Del(key) => del_request(alloc, store, sink, patience, buffers, &key),
        Request::Scan(from, to, most) => {
            let from = from.into_bound();
            serve_scan(store, sink, patience, buffers, from, to.get(), most)
        }
        Request::Quit => reply(sink, &mut buffers.reply, &Answer::Bye),
    }
}

// Answers a line that has a fault, behind which the session goes on.
#[cold]
#[inline(never)]
fn reply_fault<K: Sink>(sink: &mut K, out: &mut Vec<u8>, fault: Fault) -> Result<bool, Stop>
    ensures gained { Gained result (K.written sink.old) (K.written sink.new) (text (Answer.Fault fault)) }
    ensures quit { IfOk result (λ quit. quit ≡ false) }
    ensures cause { FaultsCounted (K.faults sink.old) (K.faults sink.new) result }
    ensures kept { K.connection sink.new ≡ K.connection sink.old }
{
    match reply(sink, out, &Answer::Fault(fault)) {
        Ok(()) => Ok(false),
        Err(stop) => Err(stop),
    }
}

/// Serves a line, and says whether it was the last one.
#[inline(always)]
pub(crate) fn serve_line<O: Ordered, K: Sink, P: Patience>(
    alloc: Global,
    store: &mut O,
    sink: &mut K,
    patience: &mut P,
    buffers: &mut Buffers,
    line: &[u8],
) -> Result<bool, Stop>
    requires { length line.now ≤ LONGEST_LINE }
    ensures served { Serves O.stands O.lane O.sole O.fits O.refusals O.last (P.limit patience.old) store.old store.new
        (Reaches result (if_any (asked_for line.now))) (WritesPieces result (K.written sink.old) (K.written sink.new)) }
    ensures quit { IfOk result (λ quit. quit ≡ has_quit (if_any (asked_for line.now))) }
    ensures kept { (O.lane store.new ≡ O.lane store.old) × (O.sole store.new ≡ O.sole store.old)
        × (O.origin store.new ≡ O.origin store.old) × (P.limit patience.new ≡ P.limit patience.old)
        × (K.connection sink.new ≡ K.connection sink.old) }
    ensures forks { O.room store.new ≡ O.room store.old }
    ensures fits { (history : List Entry) → O.fits store.old history → O.fits store.new history }
    ensures cause { FaultsCounted (K.faults sink.old) (K.faults sink.new) result }
{
    match read_request(alloc, line) {
        Ok(None) => Ok(false),
        Ok(Some(request)) => {
            let last = is_last(&request);
            match serve_request(alloc, store, sink, patience, buffers, request) {
                Ok(()) => Ok(last),
                Err(stop) => Err(stop),
            }
        }
        Err(RequestFault::Fault(fault)) => reply_fault(sink, &mut buffers.reply, fault),
        Err(RequestFault::NoMemory) => Err(Stop::NoMemory),
    }
}

/// Serves a line that was told, if one was, and says whether it was the last one.
#[cold]
#[inline(never)]
pub(crate) fn serve_told<O: Ordered, K: Sink, P: Patience>(
    alloc: Global,
    store: &mut O,
    sink: &mut K,
    patience: &mut P,
    buffers: &mut Buffers,
    event: Option<Event>,
    line: &[u8],
) -> Result<bool, Stop>
    requires { (lines : List (List ℕ)) × (map tells lines ≡ told_by event line.now) }
    ensures served { Serves O.stands O.lane O.sole O.fits O.refusals O.last (P.limit patience.old) store.old store.new
        (Reaches result (asked_by_all (told_by event line.now)))
        (WritesPieces result (K.written sink.old) (K.written sink.new)) }
    ensures quit { IfOk result (λ quit. quit ≡ has_quit (asked_by_all (told_by event line.now))) }
    ensures kept { (O.lane store.new ≡ O.lane store.old) × (O.sole store.new ≡ O.sole store.old)
        × (O.origin store.new ≡ O.origin store.old) × (P.limit patience.new ≡ P.limit patience.old)
        × (K.connection sink.new ≡ K.connection sink.old) }
    ensures forks { O.room store.new ≡ O.room store.old }
    ensures fits { (history : List Entry) → O.fits store.old history → O.fits store.new history }
    ensures cause { FaultsCounted (K.faults sink.old) (K.faults sink.new) result }
{
    match event {
        None => Ok(false),
        Some(told) => match told {
            Event::Line => serve_line(alloc, store, sink, patience, buffers, line),
            Event::TooLong => reply_fault(sink, &mut buffers.reply, Fault::Line),
        },
    }
}

// Serves the line that a piece begins with, or has the reader take the piece where no line ends in it. Says how
// many bytes of the piece that took, and whether the line was the last one.
#[inline(always)]
fn serve_next<O: Ordered, K: Sink, P: Patience>(
    alloc: Global,
    store: &mut O,
    sink: &mut K,
    patience: &mut P,
    buffers: &mut Buffers,
    lines: &mut Lines,
    piece: &[u8],
) -> (usize, Result<bool, Stop>)
    requires held { (part : List ℕ) × Holds lines.old part }
    requires some { 0 < length piece.now }
    ensures used { (0 < result.0) × (result.0 ≤ length piece.now) }
    ensures served { (part : List ℕ) → Holds lines.old part →
        Serves O.stands O.lane O.sole O.fits O.refusals O.last (P.limit patience.old) store.old store.new
        (Reaches result.1 (upto_quit (asked_by_all (told_lines part (take result.0 piece.now)))))
        (WritesPieces result.1 (K.written sink.old) (K.written sink.new)) }
    ensures quit { (part : List ℕ) → Holds lines.old part →
        IfOk result.1 (λ quit. quit ≡ has_quit (asked_by_all (told_lines part (take result.0 piece.now)))) }
    ensures held { (part : List ℕ) → Holds lines.old part →
        Holds lines.new (open_part part (take result.0 piece.now)) }
    ensures kept { (O.lane store.new ≡ O.lane store.old) × (O.sole store.new ≡ O.sole store.old)
        × (O.origin store.new ≡ O.origin store.old) × (P.limit patience.new ≡ P.limit patience.old)
        × (K.connection sink.new ≡ K.connection sink.old) }
    ensures forks { O.room store.new ≡ O.room store.old }
    ensures fits { (history : List Entry) → O.fits store.old history → O.fits store.new history }
    ensures cause { FaultsCounted (K.faults sink.old) (K.faults sink.new) result.1 }
{
    match lines.whole(piece) {
        Some(whole) => (
            whole.used,
            serve_line(alloc, store, sink, patience, buffers, whole.line),
        ),
        None => {
            let taken = lines.take(piece);
            let last = serve_told(
                alloc,
                store,
                sink,
                patience,
                buffers,
                taken.event,
                lines.line(),
            );
            (taken.used, last)
        }
    }
}

/// Serves the lines that end in a piece of input, up to and with the last one of the session. Says whether
/// that came. The reader keeps the start of the next line.
///
/// A line that lies whole in the piece is served from there. Only one that began in an earlier piece, or that has
/// more bytes than a line may have, is copied into the reader's buffer, and so is the start of the next line.
pub(crate) fn serve_piece<O: Ordered, K: Sink, P: Patience>(
    alloc: Global,
    store: &mut O,
    sink: &mut K,
    patience: &mut P,
    buffers: &mut Buffers,
    lines: &mut Lines,
    piece: &[u8],
) -> Result<bool, Stop>
    requires { (part : List ℕ) × Holds lines.old part }
    ensures served { (part : List ℕ) → Holds lines.old part →
        Serves O.stands O.lane O.sole O.fits O.refusals O.last (P.limit patience.old) store.old store.new
        (Reaches result (upto_quit (asked_by_all (told_lines part piece.now))))
        (WritesPieces result (K.written sink.old) (K.written sink.new)) }
    ensures quit { (part : List ℕ) → Holds lines.old part →
        IfOk result (λ quit. quit ≡ has_quit (asked_by_all (told_lines part piece.now))) }
    ensures held { (part : List ℕ) → Holds lines.old part →
        IfOk result (λ quit. OnFalse quit (Holds lines.new (open_part part piece.now))) }
    ensures kept { (O.lane store.new ≡ O.lane store.old) × (O.sole store.new ≡ O.sole store.old)
        × (O.origin store.new ≡ O.origin store.old) × (P.limit patience.new ≡ P.limit patience.old)
        × (K.connection sink.new ≡ K.connection sink.old) }
    ensures forks { O.room store.new ≡ O.room store.old }
    ensures fits { (history : List Entry) → O.fits store.old history → O.fits store.new history }
    ensures cause { FaultsCounted (K.faults sink.old) (K.faults sink.new) result }
{
    let mut at = 0;
    'told: while at < piece.len() {
        let (used, last) = serve_next(alloc, store, sink, patience, buffers, lines, &piece[at..]);
        at += used;
        match last {
            Ok(true) => return Ok(true),
            Ok(false) => {}
            Err(stop) => return Err(stop),
        }
    }
    Ok(false)
}

/// Serves the line without LF at the end of input, if a byte is left, and says whether it was the last one.
pub(crate) fn serve_rest<O: Ordered, K: Sink, P: Patience>(
    alloc: Global,
    store: &mut O,
    sink: &mut K,
    patience: &mut P,
    buffers: &mut Buffers,
    lines: &mut Lines,
) -> Result<bool, Stop>
    requires { (part : List ℕ) × Holds lines.old part }
    ensures served { (part : List ℕ) → Holds lines.old part →
        Serves O.stands O.lane O.sole O.fits O.refusals O.last (P.limit patience.old) store.old store.new
        (Reaches result (asked_by_all (last_told part))) (WritesPieces result (K.written sink.old) (K.written sink.new)) }
    ensures quit { (part : List ℕ) → Holds lines.old part →
        IfOk result (λ quit. quit ≡ has_quit (asked_by_all (last_told part))) }
    ensures kept { (O.lane store.new ≡ O.lane store.old) × (O.sole store.new ≡ O.sole store.old)
        × (O.origin store.new ≡ O.origin store.old) × (P.limit patience.new ≡ P.limit patience.old)
        × (K.connection sink.new ≡ K.connection sink.old) }
    ensures forks { O.room store.new ≡ O.room store.old }
    ensures fits { (history : List Entry) → O.fits store.old history → O.fits store.new history }
    ensures cause { FaultsCounted (K.faults sink.old) (K.faults sink.new) result }
{
    let event = lines.finish();
    serve_told(alloc, store, sink, patience, buffers, event, lines.line())
}
