//! Bytes between a sink and its writer.
ghost use Rattle.std.specs.Prelude.{◌≡◌, ◌<◌, ◌≤◌, ◌≢◌, ◌↔◌, [], false, true, length, take, IsTrue, IfOk, IfSome, IfNone, IsSome, Err};
ghost use Rattle.std.specs.Bool.{OnTrue, OnFalse};
ghost use Rattle.std.specs.Io.{ReadsAtMost, WritesAtMost};
ghost use Rattle.std.specs.Io.Buffered.{reader_buffer, reader_inner, reader_remaining};
ghost use Rattle.std.specs.Io.KnownBytes.{Appends, Keeps, ReadConsumes, WriteAppends};
ghost use Rattle.outside.specs.Causes.{FaultsCounted};

use counts::raise;
use outside::Stop;
use std::alloc::Global;
use std::io;
use std::io::{BufRead, BufReader, ErrorKind, Read, Write};

/// How many bytes are collected before they are handed on, and how many are read at once.
pub const BUFFER: usize = 65_536;

/// Bytes on their way to a writer, in the order in which they were written. Once the writer has failed, it is
/// given nothing more.
#[derive(Drop)]
pub struct Outgoing<W> {
    writer: W,
    bytes: Vec<u8>,
    /// How many of the bytes the writer has taken.
    handed: usize,
    broken: bool,
    ghost within: { handed ≤ length bytes.items },
}

impl<W> Outgoing<W> {
    ghost use Rattle.standard_ends.specs.Outgoing.{is_broken, waiting, writer_of};

    pub fn new(alloc: Global, writer: W) -> Outgoing<W>
        ensures writer { writer_of result ≡ writer }
        ensures waiting { waiting result ≡ [] }
        ensures whole { is_broken result ≡ false }
    {
        Outgoing {
            writer,
            bytes: Vec::new(alloc),
            handed: 0,
            broken: false,
        }
    }
}

impl<W: Write> Outgoing<W> {
    ghost use Rattle.standard_ends.specs.Outgoing.{is_broken, passed, used, waiting};

    /// Collects some first bytes, and answers how many: at least one, where there is one. A full buffer is handed
    /// on first.
    pub fn write(&mut self, bytes: &[u8]) -> Result<usize, Stop>
        ensures bound { WritesAtMost result bytes.now }
        ensures some { IfOk result (λ n. 0 < length bytes.now → 0 < n) }
        ensures passed { WriteAppends (passed W.contents self.old) (passed W.contents self.new) result bytes.now }
        ensures failed { (result ≡ Err Stop.Failed) ↔ IsTrue (is_broken self.new) }
        ensures once { IsTrue (is_broken self.old) → self.new ≡ self.old }
    {
        if self.make_room() {
            self.collect(bytes)
        } else {
            Err(Stop::Failed)
        }
    }

    /// Collects as `write` does, and raises the count of faults where the writer has failed.
    pub fn put(&mut self, bytes: &[u8], faults: &mut u64) -> Result<usize, Stop>
        ensures bound { WritesAtMost result bytes.now }
        ensures some { IfOk result (λ n. 0 < length bytes.now → 0 < n) }
        ensures passed { WriteAppends (passed W.contents self.old) (passed W.contents self.new) result bytes.now }
        ensures failed { (result ≡ Err Stop.Failed) ↔ IsTrue (is_broken self.new) }
        ensures cause { FaultsCounted faults.old faults.new result }
    {
        match self.write(bytes) {
            Ok(n) => Ok(n),
            Err(Stop::NoMemory) => Err(Stop::NoMemory),
            Err(Stop::Failed) => {
                *faults = raise(*faults);
                Err(Stop::Failed)
            }
        }
    }

    /// Says whether there is room in the buffer, which is handed on where it is full.
    fn make_room(&mut self) -> bool
        ensures passed { Keeps (passed W.contents self.old) (passed W.contents self.new) }
        ensures room { OnTrue result (used self.new < BUFFER) }
        ensures whole { OnTrue result (is_broken self.new ≡ false) }
        ensures broken { OnFalse result (IsTrue (is_broken self.new)) }
        ensures once { IsTrue (is_broken self.old) → self.new ≡ self.old }
    {
        if self.bytes.len() < BUFFER {
            !self.broken
        } else {
            self.hand_on()
        }
    }

    /// Takes as many of the bytes as there is room for.
    fn collect(&mut self, bytes: &[u8]) -> Result<usize, Stop>
        requires { used self.old < BUFFER }
        ensures bound { WritesAtMost result bytes.now }
        ensures some { IfOk result (λ n. 0 < length bytes.now → 0 < n) }
        ensures passed { WriteAppends (passed W.contents self.old) (passed W.contents self.new) result bytes.now }
        ensures never { result ≢ Err Stop.Failed }
        ensures kept { is_broken self.new ≡ is_broken self.old }
    {
        let n = bytes.len().min(BUFFER - self.bytes.len());
        match self.bytes.extend_from_slice(&bytes[..n]) {
            Ok(()) => Ok(n),
            Err(_) => Err(Stop::NoMemory),
        }
    }

    /// Hands on all that waits, and says whether the writer took it. A writer that fails breaks the way for good.
    pub fn hand_on(&mut self) -> bool
        ensures passed { Keeps (passed W.contents self.old) (passed W.contents self.new) }
        ensures all { OnTrue result (waiting self.new ≡ []) }
        ensures emptied { OnTrue result (used self.new ≡ 0) }
        ensures whole { OnTrue result (is_broken self.new ≡ false) }
        ensures broken { OnFalse result (IsTrue (is_broken self.new)) }
        ensures once { IsTrue (is_broken self.old) → self.new ≡ self.old }
        ensures idle { waiting self.old ≡ [] → is_broken self.old ≡ false → result ≡ true }
    {
        if self.broken {
            return false;
        }
        'pieces: while self.handed < self.bytes.len() {
            match write_some(&mut self.writer, &self.bytes[self.handed..]) {
                Some(n) => self.handed += n,
                None => {
                    self.broken = true;
                    return false;
                }
            }
        }
        self.handed = 0;
        self.bytes.clear();
        true
    }

    /// Gives bytes that the reader has ahead. Where it has none, hands on all that waits, so that whoever waits for
    /// it has it, and reads then.
    pub fn read_behind<R: Read>(
        &mut self,
        reader: &mut BufReader<R>,
        buf: &mut [u8],
    ) -> io::Result<usize>
        ensures bound { ReadsAtMost result buf.new }
        ensures bytes { ReadConsumes (reader_remaining R.remaining reader.old) (reader_remaining R.remaining reader.new) result buf.new }
        ensures passed { Keeps (passed W.contents self.old) (passed W.contents self.new) }
        // What stands behind the buffer is asked for more only where nothing waits.
        ensures ahead { 0 < length (reader_buffer reader.old) → reader_inner reader.new ≡ reader_inner reader.old }
        ensures handed { length (reader_buffer reader.old) ≡ 0 → OnFalse (is_broken self.new) (waiting self.new ≡ []) }
        ensures once { IsTrue (is_broken self.old) → self.new ≡ self.old }
    {
        let ahead = reader.buffer();
        if ahead.is_empty() {
            // A failure is told by the next write.
            self.hand_on();
            return self.ask(reader, buf);
        }
        let n = ahead.len().min(buf.len());
        buf[..n].copy_from_slice(&ahead[..n]);
        reader.consume(n);
        Ok(n)
    }

    /// Asks the reader, which may wait for an answer to what was written: so nothing waits for the writer by then,
    /// unless it failed.
    fn ask<R: Read>(&self, reader: &mut BufReader<R>, buf: &mut [u8]) -> io::Result<usize>
        requires { OnFalse (is_broken self.now) (waiting self.now ≡ []) }
        ensures bound { ReadsAtMost result buf.new }
        ensures bytes { ReadConsumes (reader_remaining R.remaining reader.old) (reader_remaining R.remaining reader.new) result buf.new }
    {
        reader.read(buf)
    }

    /// Hands on all that waits, and gives the writer back, unless it failed.
    pub fn finish(mut self) -> Option<W>
    where
        W: Drop,
        ensures all { IfSome result (λ w. Keeps (passed W.contents self) (W.contents w)) }
        ensures broken { IsTrue (is_broken self) → result ≡ None }
        ensures idle { waiting self ≡ [] → is_broken self ≡ false → IsSome result }
    {
        if self.hand_on() {
            let Outgoing { writer, .. } = self;
            Some(writer)
        } else {
            None
        }
    }
}

/// Writes some first bytes, and answers how many. An interrupted write is tried again.
fn write_some<W: Write>(writer: &mut W, bytes: &[u8]) -> Option<usize>
    requires { 0 < length bytes.now }
    ensures bound { IfSome result (λ n. n ≤ length bytes.now) }
    ensures some { IfSome result (λ n. 0 < n) }
    ensures taken { IfSome result (λ n. Appends (W.contents writer.old) (W.contents writer.new) (take n bytes.now)) }
    ensures none { IfNone result (Keeps (W.contents writer.old) (W.contents writer.new)) }
{
    for _ in 0..u64::MAX {
        match writer.write(bytes) {
            Ok(0) => return None,
            Ok(n) => return Some(n),
            Err(error) => {
                if error.kind() != ErrorKind::Interrupted {
                    return None;
                }
            }
        }
    }
    None
}
