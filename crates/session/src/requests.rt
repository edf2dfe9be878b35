//! Requests that are served by one call, or by none.
ghost use Rattle.std.specs.Prelude.{◌≡◌, ◌≤◌, ◌∷◌, [], length, List, Ok, Err, Some};
ghost use Rattle.line_protocol.specs.declared.request.Request.TheVariants as asks;
ghost use Rattle.map_model.specs.History.{Entry};
ghost use Rattle.outside.specs.Causes.{FaultsCounted};
ghost use Rattle.session.specs.Transcripts.{Serves};
ghost use Rattle.session.specs.Turns.{WritesPieces};
ghost use Rattle.session.specs.Writes.{Reaches};

use crate::buffers::Buffers;
use crate::writes::{refuse, reply};
use key_bytes::{Key, LONGEST_VALUE};
use line_protocol::{Answer, RequestKey};
use map_model::Ordered;
use outside::{Sink, Stop};
use patience::{Patience, del_patiently, get_patiently, put_patiently};
use std::alloc::Global;

/// Serves a put, and writes its line.
#[inline(always)]
fn serve_put<O: Ordered, K: Sink, P: Patience>(
    store: &mut O,
    sink: &mut K,
    patience: &mut P,
    buffers: &mut Buffers,
    key: &Key,
    value: &[u8],
) -> Result<(), Stop>
    requires { length value.now ≤ LONGEST_VALUE }
    ensures served { Serves O.stands O.lane O.sole O.fits O.refusals O.last (P.limit patience.old) store.old store.new
        (λ asked. asked ≡ Ok (Some (asks.Put key.now value.now)) ∷ [])
        (WritesPieces result (K.written sink.old) (K.written sink.new)) }
    ensures kept { (O.lane store.new ≡ O.lane store.old) × (O.sole store.new ≡ O.sole store.old)
        × (O.origin store.new ≡ O.origin store.old) × (P.limit patience.new ≡ P.limit patience.old)
        × (K.connection sink.new ≡ K.connection sink.old) }
    ensures forks { O.room store.new ≡ O.room store.old }
    ensures fits { (history : List Entry) → O.fits store.old history → O.fits store.new history }
    ensures cause { FaultsCounted (K.faults sink.old) (K.faults sink.new) result }
{
    match put_patiently(store, patience, key, value) {
        Ok(true) => reply(sink, &mut buffers.reply, &Answer::New),
        Ok(false) => reply(sink, &mut buffers.reply, &Answer::Set),
        Err(refusal) => refuse(sink, &mut buffers.reply, refusal),
    }
}

/// The same with the key of a line, which is copied. Without memory for the copy it asks nothing.
#[inline(always)]
pub(crate) fn put_request<O: Ordered, K: Sink, P: Patience>(
    alloc: Global,
    store: &mut O,
    sink: &mut K,
    patience: &mut P,
    buffers: &mut Buffers,
    key: &RequestKey,
    value: &[u8],
) -> Result<(), Stop>
    requires { length value.now ≤ LONGEST_VALUE }
    ensures served { Serves O.stands O.lane O.sole O.fits O.refusals O.last (P.limit patience.old) store.old store.new
        (Reaches result (Ok (Some (asks.Put key.now value.now)) ∷ []))
        (WritesPieces result (K.written sink.old) (K.written sink.new)) }
    ensures kept { (O.lane store.new ≡ O.lane store.old) × (O.sole store.new ≡ O.sole store.old)
        × (O.origin store.new ≡ O.origin store.old) × (P.limit patience.new ≡ P.limit patience.old)
        × (K.connection sink.new ≡ K.connection sink.old) }
    ensures forks { O.room store.new ≡ O.room store.old }
    ensures fits { (history : List Entry) → O.fits store.old history → O.fits store.new history }
    ensures cause { FaultsCounted (K.faults sink.old) (K.faults sink.new) result }
{
    match key.copy(alloc) {
        Ok(key) => serve_put(store, sink, patience, buffers, &key, value),
        Err(_) => Err(Stop::NoMemory),
    }
}

/// Serves a get, and writes its line.
#[inline(always)]
fn serve_get<O: Ordered, K: Sink, P: Patience>(
    store: &mut O,
    sink: &mut K,
    patience: &mut P,
    buffers: &mut Buffers,
    key: &Key,
) -> Result<(), Stop>
    ensures served { Serves O.stands O.lane O.sole O.fits O.refusals O.last (P.limit patience.old) store.old store.new
        (λ asked. asked ≡ Ok (Some (asks.Get key.now)) ∷ [])
        (WritesPieces result (K.written sink.old) (K.written sink.new)) }
    ensures kept { (O.lane store.new ≡ O.lane store.old) × (O.sole store.new ≡ O.sole store.old)
        × (O.origin store.new ≡ O.origin store.old) × (P.limit patience.new ≡ P.limit patience.old)
        × (K.connection sink.new ≡ K.connection sink.old) }
    ensures forks { O.room store.new ≡ O.room store.old }
    ensures fits { (history : List Entry) → O.fits store.old history → O.fits store.new history }
    ensures cause { FaultsCounted (K.faults sink.old) (K.faults sink.new) result }
{
    match get_patiently(store, patience, key, &mut buffers.value) {
        Ok(true) => reply(
            sink,
            &mut buffers.reply,
            &Answer::Value(buffers.value.as_slice()),
        ),
        Ok(false) => reply(sink, &mut buffers.reply, &Answer::Absent),
        Err(refusal) => refuse(sink, &mut buffers.reply, refusal),
    }
}

/// The same with the key of a line, which is copied. Without memory for the copy it asks nothing.
#[inline(always)]
pub(crate) fn get_request<O: Ordered, K: Sink, P: Patience>(
    alloc: Global,
    store: &mut O,
    sink: &mut K,
    patience: &mut P,
    buffers: &mut Buffers,
    key: &RequestKey,
) -> Result<(), Stop>
    ensures served { Serves O.stands O.lane O.sole O.fits O.refusals O.last (P.limit patience.old) store.old store.new
        (Reaches result (Ok (Some (asks.Get key.now)) ∷ []))
        (WritesPieces result (K.written sink.old) (K.written sink.new)) }
    ensures kept { (O.lane store.new ≡ O.lane store.old) × (O.sole store.new ≡ O.sole store.old)
        × (O.origin store.new ≡ O.origin store.old) × (P.limit patience.new ≡ P.limit patience.old)
        × (K.connection sink.new ≡ K.connection sink.old) }
    ensures forks { O.room store.new ≡ O.room store.old }
    ensures fits { (history : List Entry) → O.fits store.old history → O.fits store.new history }
    ensures cause { FaultsCounted (K.faults sink.old) (K.faults sink.new) result }
{
    match key.copy(alloc) {
        Ok(key) => serve_get(store, sink, patience, buffers, &key),
        Err(_) => Err(Stop::NoMemory),
    }
}

/// Serves a del, and writes its line.
#[inline(always)]
fn serve_del<O: Ordered, K: Sink, P: Patience>(
    store: &mut O,
    sink: &mut K,
    patience: &mut P,
    buffers: &mut Buffers,
    key: &Key,
) -> Result<(), Stop>
    ensures served { Serves O.stands O.lane O.sole O.fits O.refusals O.last (P.limit patience.old) store.old store.new
        (λ asked. asked ≡ Ok (Some (asks.Del key.now)) ∷ [])
        (WritesPieces result (K.written sink.old) (K.written sink.new)) }
    ensures kept { (O.lane store.new ≡ O.lane store.old) × (O.sole store.new ≡ O.sole store.old)
        × (O.origin store.new ≡ O.origin store.old) × (P.limit patience.new ≡ P.limit patience.old)
        × (K.connection sink.new ≡ K.connection sink.old) }
    ensures forks { O.room store.new ≡ O.room store.old }
    ensures fits { (history : List Entry) → O.fits store.old history → O.fits store.new history }
    ensures cause { FaultsCounted (K.faults sink.old) (K.faults sink.new) result }
{
    match del_patiently(store, patience, key) {
        Ok(true) => reply(sink, &mut buffers.reply, &Answer::Gone),
        Ok(false) => reply(sink, &mut buffers.reply, &Answer::Absent),
        Err(refusal) => refuse(sink, &mut buffers.reply, refusal),
    }
}

/// The same with the key of a line, which is copied. Without memory for the copy it asks nothing.
#[inline(always)]
pub(crate) fn del_request<O: Ordered, K: Sink, P: Patience>(
    alloc: Global,
    store: &mut O,
    sink: &mut K,
    patience: &mut P,
    buffers: &mut Buffers,
    key: &RequestKey,
) -> Result<(), Stop>
    ensures served { Serves O.stands O.lane O.sole O.fits O.refusals O.last (P.limit patience.old) store.old store.new
        (Reaches result (Ok (Some (asks.Del key.now)) ∷ []))
        (WritesPieces result (K.written sink.old) (K.written sink.new)) }
    ensures kept { (O.lane store.new ≡ O.lane store.old) × (O.sole store.new ≡ O.sole store.old)
        × (O.origin store.new ≡ O.origin store.old) × (P.limit patience.new ≡ P.limit patience.old)
        × (K.connection sink.new ≡ K.connection sink.old) }
    ensures forks { O.room store.new ≡ O.room store.old }
    ensures fits { (history : List Entry) → O.fits store.old history → O.fits store.new history }
    ensures cause { FaultsCounted (K.faults sink.old) (K.faults sink.new) result }
{
    match key.copy(alloc) {
        Ok(key) => serve_del(store, sink, patience, buffers, &key),
        Err(_) => Err(Stop::NoMemory),
    }
}
