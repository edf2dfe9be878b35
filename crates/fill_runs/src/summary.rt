//! The text of a summary.
ghost use Rattle.std.specs.Prelude.{◌≡◌, ◌++◌, ◌∷◌, [], IfOk};
ghost use Rattle.line_protocol.specs.ReplyLine.{number_line};
ghost use Rattle.fill_runs.specs.Tallies.{summary_of};

use crate::words::WordCounts;
use itoa::Buffer;
use std::alloc::AllocError;

/// Appends the line of the requests, and a line for each count.
pub(crate) fn append_summary(
    out: &mut Vec<u8>,
    requests: u32,
    counts: &WordCounts,
) -> Result<(), AllocError>
    ensures { IfOk result (λ _. out.new.items ≡ out.old.items ++ summary_of requests counts.now) }
{
    append_count(out, b"LINES", u64::from(requests))?;
    append_count(out, b"NEW", counts.news)?;
    append_count(out, b"SET", counts.sets)?;
    append_count(out, b"VALUE", counts.values)?;
    append_count(out, b"NONE", counts.nones)?;
    append_count(out, b"GONE", counts.gones)?;
    append_count(out, b"PAIR", counts.pairs)?;
    append_count(out, b"END", counts.ends)?;
    append_count(out, b"FULL", counts.fulls)?;
    append_count(out, b"NOMEM", counts.no_memories)?;
    Ok(())
}

// Appends a line of a word and a number.
fn append_count(out: &mut Vec<u8>, word: &[u8], number: u64) -> Result<(), AllocError>
    ensures { IfOk result (λ _. out.new.items ≡ out.old.items ++ number_line word.now (number ∷ [])) }
{
    let mut buffer = Buffer::new();
    out.extend_from_slice(word)?;
    out.extend_from_slice(b" ")?;
    out.extend_from_slice(buffer.format(number).as_bytes())?;
    out.extend_from_slice(b"\n")
}
