//! The reader of lines: worked lines, whose expected values were written by hand.
ghost use Rattle.std.specs.Prelude.{◌<◌};

use crate::shared::pieces;
use line_reader::{LINE_ROOM, LONGEST_LINE, Lines, read_all};
use std::alloc::{AllocError, Global};

/// The lines, each with `|` behind it, and `>` in place of one that is too long.
fn told(alloc: Global, bytes: &[u8], size: usize) -> Result<Vec<u8>, AllocError>
    requires { 0 < size }
{
    let pieces = pieces(alloc, bytes, size)?;
    let lines = read_all(alloc, &pieces)?;
    let mut out = Vec::new(alloc);
    for line in &lines {
        match line {
            Some(line) => out.extend_from_slice(line)?,
            None => out.extend_from_slice(b">")?,
        }
        out.push(b'|')?;
    }
    Ok(out)
}

/// Whether these are the lines of the bytes, however they are cut.
fn tells(alloc: Global, bytes: &[u8], want: &[u8]) -> bool {
    let mut good = true;
    for size in [1, 2, 3, 4096] {
        good = good
            && match told(alloc, bytes, size) {
                Ok(lines) => lines.as_slice() == want,
                Err(_) => false,
            };
    }
    good
}

#[test]
fn ends_of_lines(rt: HostRuntime) {
    let rows = [
        (b"".as_slice(), b"".as_slice()),
        (b"a\nb\n", b"a|b|"),
        (b"a\nb", b"a|b|"),
        (b"\n\na\n", b"||a|"),
        (b"a\r\nb\r\r\n", b"a|b\r|"),
        (b"a\rb\n\r\r", b"a\rb|\r|"),
        (b"\r\n\r", b"||"),
    ];
    for (bytes, want) in rows {
        assert!(rt; tells(rt.alloc(), bytes, want), "{bytes:?}");
    }
}

/// How many bytes the one line has that so many bytes and an end make: 0 where it is too long.
fn length_told(
    alloc: Global,
    count: usize,
    end: &[u8],
    size: usize,
) -> Result<Option<usize>, AllocError>
    requires { 0 < size }
{
    let mut bytes = vec![in alloc; b'x'; count]?;
    bytes.extend_from_slice(end)?;
    let pieces = pieces(alloc, &bytes, size)?;
    let lines = read_all(alloc, &pieces)?;
    match lines.as_slice() {
        [line] => Ok(Some(line.as_ref().map_or(0, |line| line.len()))),
        _ => Ok(None),
    }
}

/// Whether one line of this length is told, or that it is too long where that is 0, however the bytes are cut.
fn tells_length(alloc: Global, count: usize, end: &[u8], want: usize) -> bool {
    let mut good = true;
    for size in [1, 2, 3, 4096] {
        good = good && length_told(alloc, count, end, size) == Ok(Some(want));
    }
    good
}

#[test]
fn long_lines(rt: HostRuntime) {
    // How many bytes stand before the end, the end, and what is told.
    let rows = [
        (LONGEST_LINE, b"\n".as_slice(), LONGEST_LINE),
        (LONGEST_LINE, b"\r\n", LONGEST_LINE),
        (LONGEST_LINE, b"\r", LONGEST_LINE),
        (LONGEST_LINE, b"\r\r\n", 0),
        (LINE_ROOM, b"\n", 0),
        (LINE_ROOM, b"", 0),
        (9000, b"\r\n", 0),
    ];
    for (count, end, want) in rows {
        assert!(rt; tells_length(rt.alloc(), count, end, want), "{count} bytes");
    }
}

/// Whether the piece begins with this line, and takes so many bytes with its end.
fn begins_with(lines: &Lines, piece: &[u8], line: &[u8], used: usize) -> bool {
    match lines.whole(piece) {
        None => false,
        Some(whole) => whole.line == line && whole.used == used,
    }
}

/// Whether lines are lent from pieces, and not while the reader holds the front of one.
fn lends_whole_lines(alloc: Global) -> bool {
    let Ok(mut lines) = Lines::new(alloc) else {
        return false;
    };
    let first = begins_with(&lines, b"a\r\nb\n", b"a", 3);
    lines.take(b"a");
    let held = lines.whole(b"b\n").is_none();
    lines.take(b"\n");
    first && held && begins_with(&lines, b"\n", b"", 1)
}

#[test]
fn whole_lines(rt: HostRuntime) {
    assert!(rt; lends_whole_lines(rt.alloc()));
}
