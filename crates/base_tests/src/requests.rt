//! Requests: worked lines, whose meaning was written by hand.
ghost use Rattle.std.specs.Prelude.{◌<◌};

use crate::shared::pieces;
use key_bytes::Bound;
use line_protocol::{Answer, Fault, Request, RequestFault, read_all, read_request, reply_text};
use std::alloc::{AllocError, Global};

/// Writes a key or a value, with `~` in front, since no row has that byte otherwise.
fn push(out: &mut Vec<u8>, bytes: &[u8]) -> Result<(), AllocError> {
    out.push(b'~')?;
    out.extend_from_slice(bytes)
}

fn push_end(out: &mut Vec<u8>, end: &Bound) -> Result<(), AllocError> {
    match end {
        Bound::Low => out.extend_from_slice(b"~low"),
        Bound::At(key) => push(out, key.bytes()),
        Bound::High => out.extend_from_slice(b"~high"),
    }
}

/// Writes what a line asks for, or the reply to its fault.
fn describe(
    out: &mut Vec<u8>,
    asked: Result<Option<Request<'_>>, RequestFault>,
) -> Result<(), AllocError> {
    match asked {
        Ok(None) => out.extend_from_slice(b"nothing"),
        Ok(Some(Request::Put(key, value))) => {
            out.extend_from_slice(b"put")?;
            push(out, key.bytes())?;
            push(out, value.get())
        }
        Ok(Some(Request::Get(key))) => {
            out.extend_from_slice(b"get")?;
            push(out, key.bytes())
        }
        Ok(Some(Request::Del(key))) => {
            out.extend_from_slice(b"del")?;
            push(out, key.bytes())
        }
        Ok(Some(Request::Scan(from, to, limit))) => {
            out.extend_from_slice(b"scan")?;
            push_end(out, from.get())?;
            push_end(out, to.get())?;
            let mut buffer = itoa::Buffer::new();
            push(out, buffer.format(limit).as_bytes())
        }
        Ok(Some(Request::Quit)) => out.extend_from_slice(b"quit"),
        Err(RequestFault::Fault(fault)) => reply_text(out, &Answer::Fault(fault)),
        Err(RequestFault::NoMemory) => Err(AllocError),
    }
}

/// Writes what each line of these bytes asks for, where they come in pieces of this size.
fn read(alloc: Global, bytes: &[u8], size: usize) -> Result<Vec<u8>, AllocError>
    requires { 0 < size }
{
    let pieces = pieces(alloc, bytes, size)?;
    let lines = read_all(alloc, &pieces)?;
    let mut out = Vec::new(alloc);
    for line in &lines {
        match line {
            Some(line) if line.len() <= 4096 => describe(&mut out, read_request(alloc, line))?,
            _ => reply_text(&mut out, &Answer::Fault(Fault::Line))?,
        }
    }
    Ok(out)
}

/// Whether the bytes ask for this, however they are cut.
fn asks(alloc: Global, bytes: &[u8], want: &[u8]) -> bool {
    for size in [1, 2, 3, 4096] {
        match read(alloc, bytes, size) {
            Ok(told) if told.as_slice() == want => {}
            _ => return false,
        }
    }
    true
}

#[test]
fn requests_by_grammar(rt: HostRuntime) {
    let rows = [
        (b"PUT a 1\n".as_slice(), b"put~a~1".as_slice()),
        (b"PUT a ", b"put~a~"),
        (b"PUT %00 %fF\r\n", b"put~\x00~\xff"),
        (b"PUT %zz *", b"put~%zz~*"),
        (b"PUT %4 %", b"put~%4~%"),
        (b"PUT a\rb %c3%A4", b"put~a\rb~\xc3\xa4"),
        (b"GET %25zz\nDEL *\n", b"get~%zzdel~*"),
        (b"SCAN * * 0", b"scan~low~high~0"),
        (b"SCAN %2A %2a 1000000", b"scan~*~*~1000000"),
        (b"SCAN b a 0000010", b"scan~b~a~10"),
        (b"QUIT", b"quit"),
        (b"\n\r\n\r", b"nothingnothingnothing"),
    ];
    for (bytes, want) in rows {
        assert!(rt; asks(rt.alloc(), bytes, want), "{bytes:?}");
    }
}

#[test]
fn faults_in_order(rt: HostRuntime) {
    let rows = [
        (
            b"get a\nput  x".as_slice(),
            b"ERR 1 command\nERR 1 command\n".as_slice(),
        ),
        (b" GET a\nQUITS ", b"ERR 1 command\nERR 1 command\n"),
        (b"GET\nGET a ", b"ERR 2 words\nERR 2 words\n"),
        (b"PUT  a 1\nSCAN  * x y", b"ERR 2 words\nERR 2 words\n"),
        (b"QUIT now\nQUIT ", b"ERR 2 words\nERR 2 words\n"),
        (b"GET \nPUT  1\nDEL ", b"ERR 3 key\nERR 3 key\nERR 3 key\n"),
        (b"SCAN  * x\nSCAN *  1000001", b"ERR 3 key\nERR 3 key\n"),
        (b"SCAN a b x\nSCAN a b ", b"ERR 5 limit\nERR 5 limit\n"),
        (
            b"SCAN a b 1000001\nSCAN a b 00000001",
            b"ERR 5 limit\nERR 5 limit\n",
        ),
        (b"SCAN a b +1\nSCAN a b 1%30", b"ERR 5 limit\nERR 5 limit\n"),
    ];
    for (bytes, want) in rows {
        assert!(rt; asks(rt.alloc(), bytes, want), "{bytes:?}");
    }
}

/// So many times the unit, between a front and a back.
fn repeated(
    alloc: Global,
    front: &[u8],
    unit: &[u8],
    count: usize,
    back: &[u8],
) -> Result<Vec<u8>, AllocError> {
    let mut out = front.to_vec(alloc)?;
    for _ in 0..count {
        out.extend_from_slice(unit)?;
    }
    out.extend_from_slice(back)?;
    Ok(out)
}

/// Whether a line between a front and a back, of so many units, asks for what is told of it: between a front and a
/// back so many letters x.
fn asks_at_length(
    alloc: Global,
    line: (&[u8], &[u8], usize, &[u8]),
    told: (&[u8], usize, &[u8]),
) -> bool {
    let (front, unit, count, back) = line;
    let Ok(bytes) = repeated(alloc, front, unit, count, back) else {
        return false;
    };
    let (front, count, back) = told;
    let Ok(want) = repeated(alloc, front, b"x", count, back) else {
        return false;
    };
    asks(alloc, &bytes, &want)
}

#[test]
fn lengths(rt: HostRuntime) {
    let rows = [
        (
            (b"PUT ".as_slice(), b"x".as_slice(), 255, b" 1".as_slice()),
            (b"put~".as_slice(), 255, b"~1".as_slice()),
        ),
        ((b"PUT ", b"%78", 255, b" 1"), (b"put~", 255, b"~1")),
        ((b"PUT ", b"x", 256, b" 1"), (b"ERR 3 key\n", 0, b"")),
        ((b"PUT ", b"%78", 256, b" 1"), (b"ERR 3 key\n", 0, b"")),
        ((b"PUT a ", b"x", 1024, b""), (b"put~a~", 1024, b"")),
        ((b"PUT a ", b"%78", 1024, b""), (b"put~a~", 1024, b"")),
        ((b"PUT a ", b"x", 1025, b""), (b"ERR 4 value\n", 0, b"")),
        ((b"PUT a ", b"%78", 1025, b""), (b"ERR 4 value\n", 0, b"")),
        ((b"PUT  ", b"x", 1025, b""), (b"ERR 3 key\n", 0, b"")),
        (
            (b"GET ", b"x", 4092, b"\r\nGET a"),
            (b"ERR 3 key\nget~a", 0, b""),
        ),
        (
            (b"GET ", b"x", 4093, b"\r\nGET a"),
            (b"ERR 6 line\nget~a", 0, b""),
        ),
    ];
    for (line, told) in rows {
        assert!(rt;
            asks_at_length(rt.alloc(), line, told),
            "at {} units",
            line.2
        );
    }
}
