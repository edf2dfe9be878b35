//! Counts of lines by their first words.
ghost use Rattle.std.specs.Prelude.{◌≡◌, ◌+◌, ◌-◌, ◌^◌, ◌∷◌, ◌++◌, ◌≤◌, min, ℕ, List, IfOk, [], take, if◌then◌else◌, vec_capacity};
ghost use Rattle.std.specs.Str.{bytes_eq};
ghost use Rattle.line_reader.specs.Cut.{open_part};
ghost use Rattle.fill_runs.specs.Summary.{first_word};
ghost use Rattle.fill_runs.specs.Tallies.{AreCounts, IsTallied};

use std::alloc::{AllocError, Global};

/// How many lines have each of the first words that a summary tells of.
#[derive(Clone, Copy, Debug)]
pub(crate) struct WordCounts {
    pub(crate) news: u64,
    pub(crate) sets: u64,
    pub(crate) values: u64,
    pub(crate) nones: u64,
    pub(crate) gones: u64,
    pub(crate) pairs: u64,
    pub(crate) ends: u64,
    pub(crate) fulls: u64,
    pub(crate) no_memories: u64,
}

impl WordCounts {
    /// Counts of no lines.
    fn none() -> WordCounts
        ensures { AreCounts result [] }
    {
        WordCounts {
            news: 0,
            sets: 0,
            values: 0,
            nones: 0,
            gones: 0,
            pairs: 0,
            ends: 0,
            fulls: 0,
            no_memories: 0,
        }
    }

    /// Counts a line, of which the first bytes are at hand.
    fn add(&mut self, line: &[u8])
        ensures { (text : List ℕ) → AreCounts self.old text → line.now ≡ take 6 (open_part [] text)
            → AreCounts self.new (text ++ 10 ∷ []) }
    {
        let word = first_word(line);
        self.news = count(self.news, word, b"NEW");
        self.sets = count(self.sets, word, b"SET");
        self.values = count(self.values, word, b"VALUE");
        self.nones = count(self.nones, word, b"NONE");
        self.gones = count(self.gones, word, b"GONE");
        self.pairs = count(self.pairs, word, b"PAIR");
        self.ends = count(self.ends, word, b"END");
        self.fulls = count(self.fulls, word, b"FULL");
        self.no_memories = count(self.no_memories, word, b"NOMEM");
    }
}

/// The bytes before the first space.
fn first_word(line: &[u8]) -> &[u8]
    ensures { result.now ≡ first_word line.now }
{
    for at in 0..line.len() {
        if line[at] == b' ' {
            return &line[..at];
        }
    }
    line
}

/// One more, where the word is this one. The count stands still at the end of its type.
fn count(before: u64, word: &[u8], told: &[u8]) -> u64
    ensures { result ≡ min (before + (if bytes_eq word.now told.now then 1 else 0)) (2 ^ 64 - 1) }
{
    if word == told {
        before.saturating_add(1)
    } else {
        before
    }
}

/// The counts of a text's lines, and the first bytes of the line that hasn't ended.
#[derive(Drop)]
pub(crate) struct LineCounts {
    pub(crate) counts: WordCounts,
    pub(crate) start: Vec<u8>,
    ghost reserved: { 6 ≤ vec_capacity start },
}

impl LineCounts {
    /// Counts of nothing. The bytes of a line's beginning are all the memory that they ever take.
    pub(crate) fn new(alloc: Global) -> Result<LineCounts, AllocError>
        ensures { IfOk result (λ l. IsTallied l.counts l.start.items []) }
    {
        Ok(LineCounts {
            counts: WordCounts::none(),
            start: Vec::with_capacity(alloc, 6)?,
        })
    }

    /// Counts on over one byte.
    fn take(&mut self, byte: u8)
        ensures { (text : List ℕ) → IsTallied self.old.counts self.old.start.items text
            → IsTallied self.new.counts self.new.start.items (text ++ byte ∷ []) }
    {
        if byte == b'\n' {
            self.counts.add(&self.start);
            self.start.clear();
        } else if self.start.len() < 6 {
            match self.start.push(byte) {
                Ok(()) => {}
                Err(_) => unreachable!(),
            }
        }
    }

    /// Counts on over a piece of a text.
    pub(crate) fn take_all(&mut self, piece: &[u8])
        ensures { (text : List ℕ) → IsTallied self.old.counts self.old.start.items text
            → IsTallied self.new.counts self.new.start.items (text ++ piece.now) }
    {
        for byte in piece {
            self.take(*byte);
        }
    }
}
