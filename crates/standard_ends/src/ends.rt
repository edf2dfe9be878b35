//! A source and a sink over std's readers and writers. No contract says which bytes the system gives and takes, so
//! these tell a session nothing of bytes: they count their failures. Over a reader that tells its bytes, the source's
//! own clause says that it gives them.
ghost use Rattle.std.specs.Prelude.{◌≡◌, None, IfOk};
ghost use Rattle.std.specs.Io.{ReadsAtMost};
ghost use Rattle.std.specs.Io.KnownBytes.{ReadConsumes};
ghost use Rattle.outside.specs.Causes.{FaultsCounted};

use crate::outgoing::{BUFFER, Outgoing};
use counts::raise;
use outside::{Sink, Source, Stop};
use std::alloc::Global;
use std::cell::RefCell;
use std::io;
use std::io::{BufReader, Read, Write};

/// A source over a reader, which is read ahead. Before the reader is asked, the bytes are handed on that wait for the
/// writer, so that whoever answers them can. Each error of the reader is a fault; a failing writer is told by the
/// next write.
#[derive(Drop)]
pub struct StdSource<'a, R, W> {
    reader: BufReader<R>,
    outgoing: &'a RefCell<Outgoing<W>>,
    faults: u64,
}

impl<'a, R: Read + Drop, W> StdSource<'a, R, W> {
    ghost use Rattle.standard_ends.specs.Ends.{source_faults, source_left};

    /// Takes memory for what is read ahead. Without it the reader is lost.
    pub fn new(
        alloc: Global,
        reader: R,
        outgoing: &'a RefCell<Outgoing<W>>,
    ) -> io::Result<StdSource<'a, R, W>>
        ensures faults { IfOk result (λ s. source_faults s ≡ 0) }
        ensures left { IfOk result (λ s. source_left R.remaining s ≡ R.remaining reader) }
    {
        Ok(StdSource {
            reader: BufReader::with_capacity(alloc, BUFFER, reader)?,
            outgoing,
            faults: 0,
        })
    }
}

impl<R: Read, W: Write> Source for StdSource<'_, R, W> {
    ghost use Rattle.standard_ends.specs.Ends.{source_faults, source_left};

    ghost told = { λ s. None };

    ghost faults = { λ s. source_faults s };

    ghost connection = { λ s. 0 };

    fn read(&mut self, buf: &mut [u8]) -> Result<usize, Stop>
        ensures bound { ReadsAtMost result buf.new }
        ensures cause { FaultsCounted (source_faults self.old) (source_faults self.new) result }

        // Bytes come in order, each once.
        ensures left { ReadConsumes (source_left R.remaining self.old) (source_left R.remaining self.new) result buf.new }
    {
        if let Ok(mut outgoing) = self.outgoing.try_borrow_mut() {
            if let Ok(n) = outgoing.read_behind(&mut self.reader, buf) {
                return Ok(n);
            }
        }
        self.faults = raise(self.faults);
        Err(Stop::Failed)
    }
}

/// A sink that collects what is written, on its way to a writer. Each failure of the writer is a fault of the
/// write that is told of it, and of all later ones.
#[derive(Drop)]
pub struct StdSink<'a, W> {
    outgoing: &'a RefCell<Outgoing<W>>,
    faults: u64,
}

impl<'a, W> StdSink<'a, W> {
    ghost use Rattle.standard_ends.specs.Ends.{sink_faults};

    pub fn new(outgoing: &'a RefCell<Outgoing<W>>) -> StdSink<'a, W>
        ensures { sink_faults result ≡ 0 }
    {
        StdSink {
            outgoing,
            faults: 0,
        }
    }
}

impl<W: Write> Sink for StdSink<'_, W> {
    ghost use Rattle.standard_ends.specs.Ends.{sink_faults};

    ghost written = { λ s. None };

    ghost faults = { λ s. sink_faults s };

    ghost connection = { λ s. 0 };

    fn write(&mut self, bytes: &[u8]) -> Result<usize, Stop> {
        // What a cell holds is in no contract: that the bytes are collected is the promise of `put` alone.
        match self.outgoing.try_borrow_mut() {
            Ok(mut outgoing) => outgoing.put(bytes, &mut self.faults),
            Err(_) => {
                self.faults = raise(self.faults);
                Err(Stop::Failed)
            }
        }
    }
}
