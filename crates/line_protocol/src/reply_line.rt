//! Lines of words and numbers, appended whole or not at all.
ghost use Rattle.std.specs.Prelude.{◌≡◌, ◌≤◌, ◌-◌, length, true};
ghost use Rattle.std.specs.List.{list_all};
ghost use Rattle.line_protocol.specs.Escape.{is_plain};
ghost use Rattle.line_protocol.specs.ReplyLine.{Appends, AppendsAll, number_line};
ghost use Rattle.line_protocol.specs.Texts.{pair_line, value_line};

use crate::escape::{are_plain, escape_into};
use crate::plain_line::{VALUE_FRAME, put_value};
use itoa::Buffer;
use std::alloc::AllocError;

/// Appends a line of a front and numbers, or nothing.
pub(crate) fn append_numbers(
    out: &mut Vec<u8>,
    front: &[u8],
    numbers: &[u64],
) -> Result<(), AllocError>
    ensures { AppendsAll result out.old.items out.new.items (number_line front.now numbers.now) }
{
    let length = out.len();
    let result = push_numbers(out, front, numbers);
    if result.is_err() {
        out.truncate(length);
    }
    result
}

/// Appends a line that is known whole, or nothing.
#[inline(always)]
pub(crate) fn append_line(out: &mut Vec<u8>, line: &[u8]) -> Result<(), AllocError>
    ensures { AppendsAll result out.old.items out.new.items line.now }
{
    out.extend_from_slice(line)
}

/// The most bytes of a line that is written over bytes which are appended first, so many at once.
const SHORT_LINE: usize = 64;

/// Appends the line of a value, or nothing.
pub(crate) fn append_value(out: &mut Vec<u8>, value: &[u8]) -> Result<(), AllocError>
    ensures { AppendsAll result out.old.items out.new.items (value_line value.now) }
{
    if value.len() <= SHORT_LINE - VALUE_FRAME && are_plain(value) {
        append_short_value(out, value)
    } else {
        append_any_value(out, value)
    }
}

/// The same of few bytes that stand for themselves: it asks for room once.
#[inline(always)]
fn append_short_value(out: &mut Vec<u8>, value: &[u8]) -> Result<(), AllocError>
    requires short { length value.now ≤ SHORT_LINE - VALUE_FRAME }
    requires plain { list_all is_plain value.now ≡ true }
    ensures { AppendsAll result out.old.items out.new.items (value_line value.now) }
{
    let start = out.len();
    out.extend_from_slice(&[b'\n'; SHORT_LINE])?;
    let end = start + (value.len() + VALUE_FRAME);
    put_value(&mut out[start..end], value);
    out.truncate(end);
    Ok(())
}

/// The same of any bytes.
#[cold]
#[inline(never)]
fn append_any_value(out: &mut Vec<u8>, value: &[u8]) -> Result<(), AllocError>
    ensures { AppendsAll result out.old.items out.new.items (value_line value.now) }
{
    let length = out.len();
    let result = push_value(out, value);
    if result.is_err() {
        out.truncate(length);
    }
    result
}

/// Appends the line of a pair, or nothing.
pub(crate) fn append_pair(out: &mut Vec<u8>, key: &[u8], value: &[u8]) -> Result<(), AllocError>
    ensures { AppendsAll result out.old.items out.new.items (pair_line key.now value.now) }
{
    let length = out.len();
    let result = push_pair(out, key, value);
    if result.is_err() {
        out.truncate(length);
    }
    result
}

fn push_numbers(out: &mut Vec<u8>, front: &[u8], numbers: &[u64]) -> Result<(), AllocError>
    ensures { Appends result out.old.items out.new.items (number_line front.now numbers.now) }
{
    let mut buffer = Buffer::new();
    out.extend_from_slice(front)?;
    for number in numbers {
        out.extend_from_slice(b" ")?;
        out.extend_from_slice(buffer.format(*number).as_bytes())?;
    }
    out.extend_from_slice(b"\n")
}

fn push_value(out: &mut Vec<u8>, value: &[u8]) -> Result<(), AllocError>
    ensures { Appends result out.old.items out.new.items (value_line value.now) }
{
    out.extend_from_slice(b"VALUE ")?;
    escape_into(out, value)?;
    out.extend_from_slice(b"\n")
}

fn push_pair(out: &mut Vec<u8>, key: &[u8], value: &[u8]) -> Result<(), AllocError>
    ensures { Appends result out.old.items out.new.items (pair_line key.now value.now) }
{
    out.extend_from_slice(b"PAIR ")?;
    escape_into(out, key)?;
    out.extend_from_slice(b" ")?;
    escape_into(out, value)?;
    out.extend_from_slice(b"\n")
}
