//! The steps on a line's buffer, which has the front of a line: its first `LINE_ROOM` bytes.
ghost use Rattle.std.specs.Prelude.{◌≡◌, ◌≤◌, ◌∷◌, ◌++◌, ℕ, List, [], Some, if◌then◌else◌, vec_len, vec_capacity};
ghost use Rattle.line_reader.specs.Cut.{without_cr};
ghost use Rattle.line_reader.specs.Told.{IsFront, tells, told};

use crate::{Event, LINE_ROOM, LONGEST_LINE};

/// Begins a new line behind one that was ended.
pub(crate) fn begin(line: &mut Vec<u8>, ended: bool)
    ensures items { line.new.items ≡ (if ended then [] else line.old.items) }
    ensures short { vec_len line.new ≤ vec_len line.old }
    ensures reserved { vec_capacity line.new ≡ vec_capacity line.old }
{
    if ended {
        line.clear();
    }
}

/// Adds bytes to a line, as far as the buffer has room. Whether the line has more.
pub(crate) fn keep(line: &mut Vec<u8>, over: bool, bytes: &[u8]) -> bool
    requires reserved { LINE_ROOM ≤ vec_capacity line.old }
    requires short { vec_len line.old ≤ LINE_ROOM }
    ensures front { (part : List ℕ) → IsFront line.old.items over part →
        IsFront line.new.items result (part ++ bytes.now) }
    ensures reserved { LINE_ROOM ≤ vec_capacity line.new }
    ensures short { vec_len line.new ≤ LINE_ROOM }
{
    let room = LINE_ROOM - line.len();
    let kept = bytes.len().min(room);
    match line.extend_from_slice(&bytes[..kept]) {
        Ok(()) => over || room < bytes.len(),
        Err(_) => unreachable!(),
    }
}

/// Ends a line, and tells of it.
pub(crate) fn end(line: &mut Vec<u8>, over: bool) -> Event
    requires short { vec_len line.old ≤ LINE_ROOM }
    ensures told { (part : List ℕ) → IsFront line.old.items over part →
        told (Some result) line.new.items ≡ tells (without_cr part) ∷ [] }
    ensures short { vec_len line.new ≤ LINE_ROOM }
    ensures reserved { vec_capacity line.new ≡ vec_capacity line.old }
{
    // More than `LINE_ROOM` bytes are too many whatever the last one is; so many are not if it is a CR.
    if over {
        return Event::TooLong;
    }
    drop_cr(line);
    if line.len() > LONGEST_LINE {
        Event::TooLong
    } else {
        Event::Line
    }
}

/// Drops one CR at the end.
fn drop_cr(line: &mut Vec<u8>)
    ensures items { line.new.items ≡ without_cr line.old.items }
    ensures reserved { vec_capacity line.new ≡ vec_capacity line.old }
{
    let length = before_cr(line).len();
    line.truncate(length);
}

/// The bytes without one CR at their end.
pub(crate) fn before_cr(bytes: &[u8]) -> &[u8]
    ensures { result.now ≡ without_cr bytes.now }
{
    let length = bytes.len();
    if length > 0 && bytes[length - 1] == b'\r' {
        &bytes[..length - 1]
    } else {
        bytes
    }
}
