//! The lines of bytes that come in pieces.
ghost use Rattle.std.specs.Prelude.{◌≡◌, ◌++◌, ℕ, List, [], true, map, IfOk, OnOk};
ghost use Rattle.line_reader.specs.Cut.{lines, open_part};
ghost use Rattle.line_reader.specs.Told.{Holds, tells, told, told_lines};
ghost use Rattle.line_reader.specs.Kept.{kept_lines, joined};

use crate::{Event, Lines};
use std::alloc::{AllocError, Global};

/// The lines of all pieces, with `None` for each that is too long.
///
/// Where the cuts lie makes no difference: the lines are those of the bytes, one piece behind another.
pub fn read_all(alloc: Global, pieces: &[Vec<u8>]) -> Result<Vec<Option<Vec<u8>>>, AllocError>
    ensures { IfOk result (λ told. kept_lines told.items ≡ map tells (lines (joined pieces.now) true)) }
{
    let mut lines = Lines::new(alloc)?;
    let mut out = Vec::new(alloc);
    for piece in pieces {
        read_piece(alloc, &mut lines, &mut out, piece)?;
    }
    let event = lines.finish();
    keep_line(alloc, &mut out, event, lines.line())?;
    Ok(out)
}

/// Adds the lines that end in a piece.
fn read_piece(
    alloc: Global,
    lines: &mut Lines,
    out: &mut Vec<Option<Vec<u8>>>,
    piece: &[u8],
) -> Result<(), AllocError>
    ensures told { (part : List ℕ) → Holds lines.old part →
        OnOk result (kept_lines out.new.items ≡ kept_lines out.old.items ++ told_lines part piece.now) }
    ensures held { (part : List ℕ) → Holds lines.old part →
        OnOk result (Holds lines.new (open_part part piece.now)) }
{
    let mut at = 0;
    while at < piece.len() {
        let taken = lines.take(&piece[at..]);
        at += taken.used;
        keep_line(alloc, out, taken.event, lines.line())?;
    }
    Ok(())
}

/// Adds a line that was told.
fn keep_line(
    alloc: Global,
    out: &mut Vec<Option<Vec<u8>>>,
    event: Option<Event>,
    line: &[u8],
) -> Result<(), AllocError>
    ensures { OnOk result (kept_lines out.new.items ≡ kept_lines out.old.items ++ told event line.now) }
{
    match event {
        None => {}
        Some(Event::Line) => out.push(Some(line.to_vec(alloc)?))?,
        Some(Event::TooLong) => out.push(None)?,
    }
    Ok(())
}
