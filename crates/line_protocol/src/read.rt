//! Reading a request.
ghost use Rattle.std.specs.Prelude.{◌≡◌, ◌≤◌, ◌↔◌, [], length, option_copied, IfOk};
ghost use Rattle.line_protocol.specs.Words.{words_of, words_after};
ghost use Rattle.line_protocol.specs.Parts.{Answers};
ghost use Rattle.line_protocol.specs.Requests.{AsksRequest, request, asked, put, get, del, scan, quit};

use crate::parts::{read_end, read_key, read_limit, read_value};
use crate::words::{
    behind_del, behind_get, behind_put, first_word, one_word, three_words, two_words,
};
use crate::{Fault, Request, RequestFault, ScanEnd};
use key_bytes::Bound;
use line_reader::LONGEST_LINE;
use std::alloc::Global;

/// The request of a line, or none for the empty one. A line with several faults has the first of
/// them in the order of their numbers, and of two faulty keys the first. What is copied are keys and
/// the value where it has escapes, once each; each end of a scan takes an allocation besides.
#[inline(always)]
pub fn read_request(alloc: Global, line: &[u8]) -> Result<Option<Request<'_>>, RequestFault>
    requires { length line.now ≤ LONGEST_LINE }
    ensures answers { Answers result (request line.now) }
    ensures none { (result ≡ Ok None) ↔ (line.now ≡ []) }
    ensures asks { IfOk result AsksRequest }
{
    if line.is_empty() {
        return Ok(None);
    }
    // Nearly all lines ask for one key.
    if let Some(rest) = behind_get(line) {
        read_get(alloc, Some(rest))
    } else if let Some(rest) = behind_put(line) {
        read_put(alloc, Some(rest))
    } else if let Some(rest) = behind_del(line) {
        read_del(alloc, Some(rest))
    } else {
        read_words(alloc, line)
    }
}

/// The request of the words of a line.
#[inline(never)]
fn read_words(alloc: Global, line: &[u8]) -> Result<Option<Request<'_>>, RequestFault>
    ensures answers { Answers result (asked (words_of line.now)) }
    ensures asks { IfOk result AsksRequest }
{
    let (command, rest) = first_word(line);
    if command == b"PUT".as_slice() {
        read_put(alloc, rest)
    } else if command == b"GET".as_slice() {
        read_get(alloc, rest)
    } else if command == b"DEL".as_slice() {
        read_del(alloc, rest)
    } else if command == b"SCAN".as_slice() {
        read_scan(alloc, rest)
    } else if command == b"QUIT".as_slice() {
        read_quit(rest)
    } else {
        Err(RequestFault::Fault(Fault::Command))
    }
}

#[inline(always)]
fn read_put(alloc: Global, rest: Option<&[u8]>) -> Result<Option<Request<'_>>, RequestFault>
    ensures answers { Answers result (put (words_after (option_copied rest.entry))) }
    ensures asks { IfOk result AsksRequest }
{
    match two_words(rest) {
        None => Err(RequestFault::Fault(Fault::Words)),
        Some((key, value)) => {
            let key = read_key(alloc, key)?;
            let value = read_value(alloc, value)?;
            Ok(Some(Request::Put(key, value)))
        }
    }
}

#[inline(always)]
fn read_get(alloc: Global, rest: Option<&[u8]>) -> Result<Option<Request<'_>>, RequestFault>
    ensures answers { Answers result (get (words_after (option_copied rest.entry))) }
    ensures asks { IfOk result AsksRequest }
{
    match one_word(rest) {
        None => Err(RequestFault::Fault(Fault::Words)),
        Some(key) => {
            let key = read_key(alloc, key)?;
            Ok(Some(Request::Get(key)))
        }
    }
}

#[inline(always)]
fn read_del(alloc: Global, rest: Option<&[u8]>) -> Result<Option<Request<'_>>, RequestFault>
    ensures answers { Answers result (del (words_after (option_copied rest.entry))) }
    ensures asks { IfOk result AsksRequest }
{
    match one_word(rest) {
        None => Err(RequestFault::Fault(Fault::Words)),
        Some(key) => {
            let key = read_key(alloc, key)?;
            Ok(Some(Request::Del(key)))
        }
    }
}

fn read_scan(alloc: Global, rest: Option<&[u8]>) -> Result<Option<Request<'_>>, RequestFault>
    ensures answers { Answers result (scan (words_after (option_copied rest.entry))) }
    ensures asks { IfOk result AsksRequest }
{
    match three_words(rest) {
        None => Err(RequestFault::Fault(Fault::Words)),
        Some((from, to, limit)) => {
            let from = read_end(alloc, from, Bound::Low)?;
            let to = read_end(alloc, to, Bound::High)?;
            let limit = read_limit(limit)?;
            let from = ScanEnd::of(alloc, from)?;
            let to = ScanEnd::of(alloc, to)?;
            Ok(Some(Request::Scan(from, to, limit)))
        }
    }
}

fn read_quit(rest: Option<&[u8]>) -> Result<Option<Request<'_>>, RequestFault>
    ensures answers { Answers result (quit (words_after (option_copied rest.entry))) }
    ensures asks { IfOk result AsksRequest }
{
    match rest {
        None => Ok(Some(Request::Quit)),
        Some(_) => Err(RequestFault::Fault(Fault::Words)),
    }
}
