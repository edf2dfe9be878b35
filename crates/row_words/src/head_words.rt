//! Words that mostly fit in their lower sixteen bits.

ghost use Rattle.std.specs.Prelude.{◌≡◌, ◌<◌, ◌%◌, ◌^◌, IfOk, length, replicate, slice_index, slice_set};

use crate::padded_words::PaddedWords;
use std::alloc::{AllocError, Global};
use std::marker::Model;

/// A fixed number of words, all 0 at first. Their lower sixteen bits lie side by side, two bytes a word,
/// and are written at the start, so that a word that is read at random mostly costs a look at one place,
/// and a table made for few items touches few pages. The rest of the words has memory only up to the
/// last one that isn't 0: where each fits in sixteen bits it has none. A contract sees the list of the
/// words.
#[derive(Debug, Drop)]
pub(crate) struct HeadWords {
    low: Vec<u16>,
    // One for each low part: the word / 65536.
    high: PaddedWords,
}

impl Model for HeadWords {
    ghost use Rattle.std.specs.Prelude.{List, ℕ, ◌≡◌, ◌<◌, ◌^◌, length, slice_index, vec_len};
    ghost use Rattle.row_words.specs.Parts.{from_parts};

    ghost Value = { List ℕ };

    ghost view = { λ h. from_parts h.low.items h.high };

    ghost invariant = { λ h. (length h.high ≡ vec_len h.low) × ((i : ℕ) → slice_index h.high i < 2 ^ 48) };
}

#[tactic(auto, using(crate::proofs::Parts::parts_zeros, crate::proofs::Parts::parts_set, crate::proofs::Parts::parts_lower, crate::proofs::Parts::parts_get, crate::proofs::Parts::parts_many, crate::proofs::Parts::high_set, crate::proofs::Parts::high_zeros))]
impl HeadWords {
    /// That many words of 0.
    pub(crate) fn new(alloc: Global, count: usize) -> Result<HeadWords, AllocError>
        ensures { IfOk result (λ words. words ≡ replicate count 0) }
    {
        Ok(HeadWords {
            low: vec![in alloc; 0; count]?,
            high: PaddedWords::new(alloc, count)?,
        })
    }

    /// The lower 32 bits of the word at a place.
    pub(crate) fn lower(&self, i: usize) -> u32
        requires { i < length self.now }
        ensures { result ≡ slice_index self.now i % 2 ^ 32 }
    {
        self.low[i] as u32 + (self.high.get(i) % 65_536) as u32 * 65_536
    }

    /// The word at a place.
    pub(crate) fn get(&self, i: usize) -> u64
        requires { i < length self.now }
        ensures { result ≡ slice_index self.now i }
    {
        self.low[i] as u64 + self.high.get(i) * 65_536
    }

    /// Writes the word at a place.
    pub(crate) fn set(&mut self, i: usize, word: u64)
        requires { i < length self.old }
        ensures { self.new ≡ slice_set self.old i word }
    {
        self.low[i] = (word % 65_536) as u16;
        self.high.set(i, word / 65_536);
    }
}
