//! Standard ends: which pieces reach a writer and when, and that only its errors are faults.
use outside::{Sink, Source, Stop};
use standard_ends::{Outgoing, StdSink, StdSource};
use std::alloc::Global;
use std::cell::RefCell;
use std::io;
use std::io::{ErrorKind, Read, Write};

// A writer that takes at most two bytes at a call, and errs at one call, by its number from 1.
#[derive(Drop)]
struct Narrow<'a> {
    taken: &'a RefCell<Vec<u8>>,
    calls: usize,
    errs: usize,
    kind: ErrorKind,
}

impl Write for Narrow<'_> {
    fn write(&mut self, buf: &[u8]) -> io::Result<usize> {
        self.calls = self.calls.saturating_add(1);
        if self.calls == self.errs {
            return Err(self.kind.into());
        }
        let n = buf.len().min(2);
        match self.taken.try_borrow_mut() {
            Ok(mut taken) => taken.extend_from_slice(&buf[..n])?,
            Err(_) => return Err(ErrorKind::Other.into()),
        }
        Ok(n)
    }

    fn flush(&mut self) -> io::Result<()> {
        Ok(())
    }
}

// A reader that gives three bytes at a call, and errs at one call, by its number from 1.
#[derive(Drop)]
struct Threes {
    calls: usize,
    errs: usize,
}

impl Read for Threes {
    fn read(&mut self, buf: &mut [u8]) -> io::Result<usize> {
        self.calls = self.calls.saturating_add(1);
        if self.calls == self.errs {
            return Err(ErrorKind::BrokenPipe.into());
        }
        let n = buf.len().min(3);
        buf[..n].copy_from_slice(&b"abc"[..n]);
        Ok(n)
    }
}

// A reader that looks, while it is asked, at what the writer has taken by then: it gives a byte where that is what it
// wants, and else errs.
#[derive(Drop)]
struct Looking<'a> {
    taken: &'a RefCell<Vec<u8>>,
    wants: &'a [u8],
}

impl Read for Looking<'_> {
    fn read(&mut self, buf: &mut [u8]) -> io::Result<usize> {
        if !has_taken(self.taken, self.wants) {
            return Err(ErrorKind::Other.into());
        }
        let n = buf.len().min(1);
        buf[..n].copy_from_slice(&b"x"[..n]);
        Ok(n)
    }
}

fn has_taken(taken: &RefCell<Vec<u8>>, want: &[u8]) -> bool {
    match taken.try_borrow() {
        Ok(bytes) => bytes.as_slice() == want,
        Err(_) => false,
    }
}

// A writer that errs at one call, in one way, and what is to be seen then.
#[derive(Clone, Copy)]
struct Course<'a> {
    errs: usize,
    kind: ErrorKind,
    // what was taken when the reader was asked
    read: &'a [u8],
    // what the write behind the read answers, and what was taken at the end
    answer: Result<usize, Stop>,
    end: &'a [u8],
}

// Whether a reader that is asked sees what was handed on, and a later write and the end tell of a failure.
fn goes_as(alloc: Global, course: Course<'_>) -> bool {
    let taken = RefCell::new(Vec::new(alloc));
    let narrow = Narrow {
        taken: &taken,
        calls: 0,
        errs: course.errs,
        kind: course.kind,
    };
    let outgoing = RefCell::new(Outgoing::new(alloc, narrow));
    let looking = Looking {
        taken: &taken,
        wants: course.read,
    };
    let mut sink = StdSink::new(&outgoing);
    let Ok(mut source) = StdSource::new(alloc, looking, &outgoing) else {
        return false;
    };
    let mut buf = [0; 4];
    let collected = sink.write(b"abcde") == Ok(5) && has_taken(&taken, b"");
    let read = source.read(&mut buf) == Ok(1);
    drop(source);
    let written = sink.write(b"fg") == course.answer;
    let whole = outgoing.into_inner().finish().is_some();
    collected
        && read
        && written
        && whole == (course.end.len() == 7)
        && has_taken(&taken, course.end)
}

#[test]
fn what_waits_is_handed_on_before_a_reader_is_asked(rt: HostRuntime) {
    for (errs, kind, read, answer, end) in [
        (
            0,
            ErrorKind::Other,
            b"abcde".as_slice(),
            Ok(2),
            b"abcdefg".as_slice(),
        ),
        (2, ErrorKind::Interrupted, b"abcde", Ok(2), b"abcdefg"),
        (2, ErrorKind::Other, b"ab", Err(Stop::Failed), b"ab"),
        (4, ErrorKind::Other, b"abcde", Ok(2), b"abcde"),
    ] {
        let course = Course {
            errs,
            kind,
            read,
            answer,
            end,
        };
        assert!(rt; goes_as(rt.alloc(), course));
    }
}

// Whether what was read ahead is given before the reader is asked again, behind a write of one byte each time.
fn asks_once_its_bytes_are_given(alloc: Global) -> bool {
    let taken = RefCell::new(Vec::new(alloc));
    let narrow = Narrow {
        taken: &taken,
        calls: 0,
        errs: 0,
        kind: ErrorKind::Other,
    };
    let outgoing = RefCell::new(Outgoing::new(alloc, narrow));
    let mut sink = StdSink::new(&outgoing);
    let threes = Threes { calls: 0, errs: 2 };
    let Ok(mut source) = StdSource::new(alloc, threes, &outgoing) else {
        return false;
    };
    let mut good = true;
    // (the read's answer, what it gave, what was taken at it)
    for (answer, gave, at) in [
        (Ok(2), b"ab".as_slice(), b"x".as_slice()),
        (Ok(1), b"c", b"x"),
        (Err(Stop::Failed), b"", b"xxx"),
        (Ok(2), b"ab", b"xxxx"),
        (Ok(1), b"c", b"xxxx"),
    ] {
        let mut buf = [0; 2];
        let written = sink.write(b"x") == Ok(1);
        let read = source.read(&mut buf) == answer && buf.starts_with(gave);
        good = good && written && read && has_taken(&taken, at);
    }
    good
}

#[test]
fn a_reader_is_asked_once_its_bytes_are_given(rt: HostRuntime) {
    assert!(rt; asks_once_its_bytes_are_given(rt.alloc()));
}

// Whether a sink collects as many bytes as its buffer has room for, and its writer gets all that it took.
fn collects_and_hands_on(alloc: Global) -> bool {
    let Ok(bytes) = vec![in alloc; 7; 65_535] else {
        return false;
    };
    let outgoing = RefCell::new(Outgoing::new(alloc, Vec::new(alloc)));
    let mut sink = StdSink::new(&outgoing);
    let most = sink.write(&bytes) == Ok(65_535);
    let last = sink.write(b"ab") == Ok(1);
    let next = sink.write(b"b") == Ok(1);
    let none = sink.write(b"") == Ok(0);
    let all = match outgoing.into_inner().finish() {
        Some(all) => all.len() == 65_537 && all.starts_with(&bytes) && all.ends_with(b"ab"),
        None => false,
    };
    most && last && next && none && all
}

#[test]
fn a_full_buffer_is_handed_on(rt: HostRuntime) {
    assert!(rt; collects_and_hands_on(rt.alloc()));
}
