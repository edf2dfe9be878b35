//! The lines of answers.
ghost use Rattle.std.specs.Prelude.{◌≡◌, is_some, IfSome};
ghost use Rattle.line_protocol.specs.ReplyLine.{AppendsAll};
ghost use Rattle.line_protocol.specs.Texts.{text, again_text, full_text, fault_text, is_whole, pair_line};

use crate::Fault;
use crate::reply_line::{append_line, append_numbers, append_pair, append_value};
use map_model::{Again, Full};
use std::alloc::AllocError;

/// What a request is answered.
#[derive(Drop)]
pub enum Answer<'a> {
    /// A put made the key.
    New,
    /// A put replaced the key's value.
    Set,
    /// The value that a get found.
    Value(&'a [u8]),
    /// A get or a del found no such key.
    Absent,
    /// A del took the key away.
    Gone,
    /// A scan ended behind so many pairs.
    End(u64),
    /// The session ends.
    Bye,
    /// The line is no request.
    Fault(Fault),
    /// The store has no room.
    Full(Full),
    /// Another lane was in the way.
    Again(Again),
    /// The store had no memory.
    NoMemory,
}

/// The line of an answer to a put or a del, or that there is no such key: it has no number and no bytes of its own.
/// There is none for any other answer.
#[inline(always)]
pub fn whole_line(answer: &Answer<'_>) -> Option<&'static [u8]>
    ensures line { IfSome result (λ line. line.now ≡ text answer.now) }
    ensures whole { is_some result ≡ is_whole answer.now }
{
    match answer {
        Answer::New => Some(b"NEW\n"),
        Answer::Set => Some(b"SET\n"),
        Answer::Absent => Some(b"NONE\n"),
        Answer::Gone => Some(b"GONE\n"),
        _ => None,
    }
}

/// Appends the line of an answer, or nothing where there is no memory for it.
#[inline(always)]
pub fn reply_text(out: &mut Vec<u8>, answer: &Answer<'_>) -> Result<(), AllocError>
    ensures { AppendsAll result out.old.items out.new.items (text answer.now) }
{
    match answer {
        Answer::New => append_line(out, b"NEW\n"),
        Answer::Set => append_line(out, b"SET\n"),
        Answer::Value(value) => append_value(out, value),
        Answer::Absent => append_line(out, b"NONE\n"),
        Answer::Gone => append_line(out, b"GONE\n"),
        Answer::End(count) => append_numbers(out, b"END", &[*count]),
        Answer::Bye => append_line(out, b"BYE\n"),
        Answer::Fault(fault) => fault_reply(out, *fault),
        Answer::Full(full) => full_reply(out, *full),
        Answer::Again(again) => again_reply(out, *again),
        Answer::NoMemory => append_line(out, b"NOMEM\n"),
    }
}

/// Appends the line of a pair of a scan, or nothing where there is no memory for it.
pub fn pair_text(out: &mut Vec<u8>, key: &[u8], value: &[u8]) -> Result<(), AllocError>
    ensures { AppendsAll result out.old.items out.new.items (pair_line key.now value.now) }
{
    append_pair(out, key, value)
}

#[inline(never)]
fn fault_reply(out: &mut Vec<u8>, fault: Fault) -> Result<(), AllocError>
    ensures { AppendsAll result out.old.items out.new.items (fault_text fault) }
{
    match fault {
        Fault::Command => append_numbers(out, b"ERR 1 command", &[]),
        Fault::Words => append_numbers(out, b"ERR 2 words", &[]),
        Fault::Key => append_numbers(out, b"ERR 3 key", &[]),
        Fault::Value => append_numbers(out, b"ERR 4 value", &[]),
        Fault::Limit => append_numbers(out, b"ERR 5 limit", &[]),
        Fault::Line => append_numbers(out, b"ERR 6 line", &[]),
    }
}

#[inline(never)]
fn full_reply(out: &mut Vec<u8>, full: Full) -> Result<(), AllocError>
    ensures { AppendsAll result out.old.items out.new.items (full_text full) }
{
    match full {
        Full::Values { drawn, cap } => append_numbers(out, b"FULL values", &[drawn, cap]),
        Full::Crowded { count, hard, .. } => {
            append_numbers(out, b"FULL crowded", &[u64::from(count), u64::from(hard)])
        }
    }
}

#[inline(never)]
fn again_reply(out: &mut Vec<u8>, again: Again) -> Result<(), AllocError>
    ensures { AppendsAll result out.old.items out.new.items (again_text again) }
{
    match again {
        Again::Locked { leaf, holder } => {
            append_numbers(out, b"AGAIN locked", &[u64::from(leaf), u64::from(holder)])
        }
        Again::Changed {
            leaf,
            before,
            after,
        } => append_numbers(out, b"AGAIN changed", &[u64::from(leaf), before, after]),
        Again::Stale {
            leaf,
            expected,
            searched,
        } => append_numbers(out, b"AGAIN stale", &[u64::from(leaf), expected, searched]),
        Again::Moved { first, second } => append_numbers(out, b"AGAIN moved", &[first, second]),
        Again::Turn { holder } => append_numbers(out, b"AGAIN turn", &[u64::from(holder)]),
        Again::Pinned { table, pins } => {
            append_numbers(out, b"AGAIN pinned", &[u64::from(table), pins])
        }
        Again::Bin { holder } => append_numbers(out, b"AGAIN bin", &[u64::from(holder)]),
        Again::Filled { leaf, count, hard } => append_numbers(
            out,
            b"AGAIN filled",
            &[u64::from(leaf), u64::from(count), u64::from(hard)],
        ),
    }
}
