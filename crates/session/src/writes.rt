//! Lines that are written.
ghost use Rattle.std.specs.Prelude.{◌≡◌, ◌≤◌, ◌+◌, ◌*◌, ◌++◌, true, length, take, min, IfOk, IfSome, OnOk};
ghost use Rattle.std.specs.List.{list_all};
ghost use Rattle.line_protocol.specs.Escape.{is_plain};
ghost use Rattle.line_protocol.specs.Texts.{text, pair_line};
ghost use Rattle.map_model.specs.Pages.{joined};
ghost use Rattle.outside.specs.Causes.{FaultsCounted};
ghost use Rattle.session.specs.Replies.{refusal_line, pair_lines};
ghost use Rattle.session.specs.Writes.{Gained};

use line_protocol::{Answer, PAIR_FRAME, are_plain, pair_text, put_pair, reply_text, whole_line};
use map_model::{Page, Refusal};
use outside::{Sink, Stop};
use std::alloc::AllocError;

/// Writes all bytes, by as many writes as the sink takes them in, or some first ones where it stops.
#[inline]
pub fn write_all<K: Sink>(sink: &mut K, bytes: &[u8]) -> Result<(), Stop>
    ensures gained { Gained result (K.written sink.old) (K.written sink.new) bytes.now }
    ensures cause { FaultsCounted (K.faults sink.old) (K.faults sink.new) result }
    ensures kept { K.connection sink.new ≡ K.connection sink.old }
{
    let mut at = 0;
    'pieces: while at < bytes.len() {
        match sink.write(&bytes[at..]) {
            Ok(n) => at += n,
            Err(stop) => return Err(stop),
        }
    }
    Ok(())
}

/// Writes the line of an answer, which `out` holds meanwhile unless it is known whole.
#[inline(always)]
pub(crate) fn reply<K: Sink>(
    sink: &mut K,
    out: &mut Vec<u8>,
    answer: &Answer<'_>,
) -> Result<(), Stop>
    ensures gained { Gained result (K.written sink.old) (K.written sink.new) (text answer.now) }
    ensures cause { FaultsCounted (K.faults sink.old) (K.faults sink.new) result }
    ensures kept { K.connection sink.new ≡ K.connection sink.old }
{
    if let Some(line) = whole_line(answer) {
        return write_all(sink, line);
    }
    out.clear();
    match reply_text(out, answer) {
        Ok(()) => write_all(sink, out),
        Err(_) => Err(Stop::NoMemory),
    }
}

/// Writes the line of a refusal.
#[cold]
#[inline(never)]
pub(crate) fn refuse<K: Sink>(sink: &mut K, out: &mut Vec<u8>, refusal: Refusal) -> Result<(), Stop>
    ensures gained { Gained result (K.written sink.old) (K.written sink.new) (refusal_line refusal) }
    ensures cause { FaultsCounted (K.faults sink.old) (K.faults sink.new) result }
    ensures kept { K.connection sink.new ≡ K.connection sink.old }
{
    match refusal {
        Refusal::Again(cause) => reply(sink, out, &Answer::Again(cause)),
        Refusal::Full(cause) => reply(sink, out, &Answer::Full(cause)),
        Refusal::NoMemory => reply(sink, out, &Answer::NoMemory),
    }
}

/// Writes the lines of the first pairs by one write, and answers how many these are. They are put together in `out`,
/// which keeps its length, so that lines are written over bytes that are there.
pub(crate) fn write_pairs<K: Sink>(
    sink: &mut K,
    out: &mut Vec<u8>,
    page: &Page,
    most: usize,
) -> Result<usize, Stop>
    ensures gained { Gained result (K.written sink.old) (K.written sink.new)
        (pair_lines (take most page.now.pairs)) }
    ensures count { IfOk result (λ n. n ≡ min most (length page.now.pairs)) }
    ensures cause { FaultsCounted (K.faults sink.old) (K.faults sink.new) result }
    ensures kept { K.connection sink.new ≡ K.connection sink.old }
{
    match put_pairs(out, page, most) {
        Ok(lines) => match write_all(sink, &out[..lines.bytes]) {
            Ok(()) => Ok(lines.count),
            Err(stop) => Err(stop),
        },
        Err(_) => Err(Stop::NoMemory),
    }
}

// How many lines there are, and how many bytes they have together.
#[derive(Drop)]
struct PairLines {
    count: usize,
    bytes: usize,
}

// Puts the lines of the first pairs in place of the first bytes.
fn put_pairs(out: &mut Vec<u8>, page: &Page, most: usize) -> Result<PairLines, AllocError>
    ensures lines { IfOk result (λ lines. take lines.bytes out.new.items ≡ pair_lines (take most page.now.pairs)) }
    ensures within { IfOk result (λ lines. lines.bytes ≤ length out.new.items) }
    ensures count { IfOk result (λ lines. lines.count ≡ min most (length page.now.pairs)) }
{
    let count = most.min(page.len());
    let bytes = match plain_room(page.front(count), count) {
        Some(room) => put_plain_pairs(out, page, count, room)?,
        None => put_any_pairs(out, page, count)?,
    };
    Ok(PairLines { count, bytes })
}

// How many bytes the lines of so many pairs have, whose bytes these are, if each of these stands for itself.
fn plain_room(bytes: &[u8], count: usize) -> Option<usize>
    ensures room { IfSome result (λ n. n ≡ length bytes.now + PAIR_FRAME * count) }
    ensures plain { IfSome result (λ _. list_all is_plain bytes.now ≡ true) }
{
    if !are_plain(bytes) {
        return None;
    }
    count.checked_mul(PAIR_FRAME)?.checked_add(bytes.len())
}

// The same where the bytes of the pairs stand for themselves, and their lines have so many bytes.
fn put_plain_pairs(
    out: &mut Vec<u8>,
    page: &Page,
    count: usize,
    room: usize,
) -> Result<usize, AllocError>
    requires count { count ≤ length page.now.pairs }
    requires room { room ≡ length (joined (take count page.now.pairs)) + PAIR_FRAME * count }
    requires plain { list_all is_plain (joined (take count page.now.pairs)) ≡ true }
    ensures lines { IfOk result (λ n. take n out.new.items ≡ pair_lines (take count page.now.pairs)) }
    ensures within { IfOk result (λ n. n ≤ length out.new.items) }
{
    lengthen(out, room)?;
    let mut at = 0;
    for i in 0..count {
        let key = page.key(i);
        let value = page.value(i);
        let end = at + (key.len() + value.len() + PAIR_FRAME);
        put_line(out, at, end, key, value);
        at = end;
    }
    Ok(at)
}

// Makes it at least as long.
fn lengthen(out: &mut Vec<u8>, room: usize) -> Result<(), AllocError>
    ensures { OnOk result (room ≤ length out.new.items) }
{
    if room <= out.len() {
        return Ok(());
    }
    out.resize(room, 0)
}

// Writes the line of a pair over the bytes from one place to another.
fn put_line(out: &mut Vec<u8>, at: usize, end: usize, key: &[u8], value: &[u8])
    requires room { end ≡ at + (length key.now + length value.now + PAIR_FRAME) }
    requires within { end ≤ length out.old.items }
    requires key { list_all is_plain key.now ≡ true }
    requires value { list_all is_plain value.now ≡ true }
    ensures line { take end out.new.items ≡ take at out.old.items ++ pair_line key.now value.now }
    ensures length { length out.new.items ≡ length out.old.items }
{
    put_pair(&mut out[at..end], key, value);
}

// The same of any pairs.
#[cold]
#[inline(never)]
fn put_any_pairs(out: &mut Vec<u8>, page: &Page, count: usize) -> Result<usize, AllocError>
    requires { count ≤ length page.now.pairs }
    ensures lines { IfOk result (λ n. take n out.new.items ≡ pair_lines (take count page.now.pairs)) }
    ensures within { IfOk result (λ n. n ≤ length out.new.items) }
{
    out.clear();
    for i in 0..count {
        pair_text(out, page.key(i), page.value(i))?;
    }
    Ok(out.len())
}
