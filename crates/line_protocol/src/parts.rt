//! The parts of a request.
ghost use Rattle.std.specs.Prelude.{◌≡◌, ◌≤◌, IfOk};
ghost use Rattle.key_bytes.specs.Lengths.{IsKey};
ghost use Rattle.line_protocol.specs.Parts.{Answers, key_of, value_of, end_of, limit_of};
ghost use Rattle.line_protocol.specs.Requests.{IsEnd, IsValue};

use crate::escape::unescape;
use crate::{Fault, RequestFault, RequestKey, Value};
use key_bytes::{Bound, LONGEST_KEY, LONGEST_VALUE};
use std::alloc::Global;

/// The greatest limit that a scan may have, in pairs.
pub const MOST_SCANNED: u32 = 1_000_000;

/// How many digits a limit may have.
const LIMIT_DIGITS: usize = 7;

/// The key that a word stands for. Only one with escapes takes memory.
#[inline(always)]
pub(crate) fn read_key(alloc: Global, word: &[u8]) -> Result<RequestKey<'_>, RequestFault>
    ensures answers { Answers result (key_of word.now) }
    ensures key { IfOk result IsKey }
{
    let bytes = unescape(alloc, word)?;
    let length = bytes.as_slice().len();
    if length == 0 || length > LONGEST_KEY {
        return Err(RequestFault::Fault(Fault::Key));
    }
    Ok(RequestKey::of(bytes))
}

/// The value that a word stands for. Only one with escapes takes memory.
#[inline(always)]
pub(crate) fn read_value(alloc: Global, word: &[u8]) -> Result<Value<'_>, RequestFault>
    ensures answers { Answers result (value_of word.now) }
    ensures value { IfOk result IsValue }
{
    let bytes = unescape(alloc, word)?;
    if bytes.as_slice().len() > LONGEST_VALUE {
        return Err(RequestFault::Fault(Fault::Value));
    }
    Ok(Value::of(bytes))
}

/// The end of a scan that a word stands for; `*` alone is the open one.
pub(crate) fn read_end(alloc: Global, word: &[u8], bare: Bound) -> Result<Bound, RequestFault>
    ensures answers { Answers result (end_of bare word.now) }
    ensures end { IfOk result (IsEnd bare) }
{
    if word == b"*".as_slice() {
        return Ok(bare);
    }
    let key = read_key(alloc, word)?;
    Ok(Bound::At(key.copy(alloc)?))
}

/// The limit of a scan.
pub(crate) fn read_limit(word: &[u8]) -> Result<u32, RequestFault>
    ensures limit { result ≡ limit_of word.now }
    ensures most { IfOk result (λ limit. limit ≤ MOST_SCANNED) }
{
    if word.is_empty() || word.len() > LIMIT_DIGITS {
        return Err(RequestFault::Fault(Fault::Limit));
    }
    let mut limit: u32 = 0;
    for digit in word {
        if !digit.is_ascii_digit() {
            return Err(RequestFault::Fault(Fault::Limit));
        }
        limit = limit * 10 + u32::from(*digit - b'0');
    }
    if limit > MOST_SCANNED {
        return Err(RequestFault::Fault(Fault::Limit));
    }
    Ok(limit)
}
