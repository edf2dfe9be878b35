//! A law of summaries.
ghost use Rattle.std.specs.Prelude.{◌≡◌, ℕ, List, [], false, map};
ghost use Rattle.line_reader.specs.Cut.{lines, without_cr};
ghost use Rattle.fill_runs.specs.Summary.{lines_behind};

/// The lines of a text that a summary counts are those that a reader of lines cuts from it, but that a CR at the end
/// of one is no part of what the reader tells.
pub fn counts_lines_as_cut()
    ensures { (text : List ℕ) → lines text false ≡ map without_cr (lines_behind [] text) }
{}
