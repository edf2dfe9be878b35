//! Reading and writing escapes.
//!
//! They are those of percent-encoding (RFC 3986, section 2.1), with a set of the protocol's own.
ghost use Rattle.std.specs.Prelude.{◌≡◌, ◌++◌, take, length, IfOk, OnOk, OnErr};
ghost use Rattle.std.specs.List.{list_all};
ghost use Rattle.std.specs.Cow.{cow_slice_items};
ghost use Rattle.line_protocol.specs.Escape.{escape, is_plain, unescape as unescaped};

use crate::scan::{has_byte, has_escaped};
use percent_encoding::{AsciiSet, CONTROLS, ascii_set, percent_decode, percent_encode};
use std::alloc::{AllocError, Global};
use std::borrow::CowSlice;

/// The bytes that are escaped, beside those outside ASCII.
const CUTS: AsciiSet = ascii_set!(CONTROLS.add(b' ').add(b'%').add(b'*'));

/// The bytes that a word stands for. A word without `%` is lent as it is, and no memory is taken.
#[inline(always)]
pub(crate) fn unescape<'a>(
    alloc: Global,
    word: &'a [u8],
) -> Result<CowSlice<'a, u8, Global>, AllocError>
    ensures { IfOk result (λ bytes. cow_slice_items bytes ≡ unescaped word.now) }
{
    if has_byte(word, b'%') {
        Ok(CowSlice::Owned(unescape_copy(alloc, word)?))
    } else {
        Ok(CowSlice::Borrowed(word))
    }
}

/// The same in memory of its own. It stays a call, so that a word without escapes is read with few steps.
#[cold]
#[inline(never)]
fn unescape_copy(alloc: Global, word: &[u8]) -> Result<Vec<u8>, AllocError>
    ensures { IfOk result (λ bytes. bytes.items ≡ unescaped word.now) }
{
    let mut bytes = Vec::with_capacity(alloc, word.len())?;
    percent_decode(word).append_to(&mut bytes)?;
    Ok(bytes)
}

/// Appends the word that stands for these bytes. After an `Err` some of it may have been appended.
#[inline(always)]
pub(crate) fn escape_into(out: &mut Vec<u8>, bytes: &[u8]) -> Result<(), AllocError>
    ensures ok { OnOk result (out.new.items ≡ out.old.items ++ escape bytes.now) }
    ensures err { OnErr result (take (length out.old.items) out.new.items ≡ out.old.items) }
{
    if are_plain(bytes) {
        return out.extend_from_slice(bytes);
    }
    escape_each(out, bytes)
}

/// The same where some bytes don't stand for themselves. It stays a call, so that a word without escapes
/// is appended with few steps.
#[cold]
#[inline(never)]
fn escape_each(out: &mut Vec<u8>, bytes: &[u8]) -> Result<(), AllocError>
    ensures ok { OnOk result (out.new.items ≡ out.old.items ++ escape bytes.now) }
    ensures err { OnErr result (take (length out.old.items) out.new.items ≡ out.old.items) }
{
    for piece in percent_encode(bytes, CUTS) {
        out.extend_from_slice(piece.as_bytes())?;
    }
    Ok(())
}

/// Whether each of these bytes stands for itself in a word.
#[inline]
pub fn are_plain(bytes: &[u8]) -> bool
    ensures { result ≡ list_all is_plain bytes.now }
{
    !has_escaped(bytes)
}
