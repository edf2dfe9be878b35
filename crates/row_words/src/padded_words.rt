//! Words of which only the first lie in memory.

ghost use Rattle.std.specs.Prelude.{◌≡◌, ◌<◌, ◌≤◌, ◌+◌, ◌-◌, ◌^◌, [], ◌∷◌, ◌++◌, IfOk, IfSome, length, replicate, slice_index, slice_range, slice_set, vec_len, vec_capacity};

use std::alloc::{AllocError, Global};
use std::marker::Model;

/// A fixed number of words, all 0 at first. Only the words up to the last one that was written with
/// another value than 0 are kept; the words behind it are 0. The room for all of them is reserved at
/// once, so no write can fail, but a page of it is touched only when a word in it is kept. A contract
/// sees the list of all words.
#[derive(Debug, Drop)]
pub(crate) struct PaddedWords {
    // As many words as it has room for, the rest of them 0.
    kept: Vec<u64>,
}

impl Model for PaddedWords {
    ghost use Rattle.std.specs.Prelude.{List, ℕ, vec_capacity};
    ghost use Rattle.row_words.specs.Padded.{padded};

    ghost Value = { List ℕ };

    ghost view = { λ p. padded p.kept.items (vec_capacity p.kept) };
}

impl PaddedWords {
    /// That many words of 0.
    pub(crate) fn new(alloc: Global, count: usize) -> Result<PaddedWords, AllocError>
        ensures { IfOk result (λ words. words ≡ replicate count 0) }
    {
        Ok(PaddedWords {
            kept: Vec::with_capacity(alloc, count)?,
        })
    }

    /// The word at a place.
    pub(crate) fn get(&self, i: usize) -> u64
        ensures { result ≡ slice_index self.now i }
    {
        if i < self.kept.len() { self.kept[i] } else { 0 }
    }

    /// The three words from a place on.
    pub(crate) fn three(&self, from: usize) -> [u64; 3]
        requires { from < 2 ^ 32 }
        ensures { result ≡ slice_index self.now from ∷ slice_index self.now (from + 1) ∷ slice_index self.now (from + 2) ∷ [] }
    {
        if from + 3 <= self.kept.len() {
            return [self.kept[from], self.kept[from + 1], self.kept[from + 2]];
        }
        [self.get(from), self.get(from + 1), self.get(from + 2)]
    }

    /// The four words from a place on.
    pub(crate) fn four(&self, from: usize) -> [u64; 4]
        requires { from < 2 ^ 32 }
        ensures { result ≡ slice_index self.now from ∷ slice_index self.now (from + 1) ∷ slice_index self.now (from + 2) ∷ slice_index self.now (from + 3) ∷ [] }
    {
        if from + 4 <= self.kept.len() {
            return [
                self.kept[from],
                self.kept[from + 1],
                self.kept[from + 2],
                self.kept[from + 3],
            ];
        }
        [
            self.get(from),
            self.get(from + 1),
            self.get(from + 2),
            self.get(from + 3),
        ]
    }

    /// That many words from a place on as they lie in memory, where all of them are kept.
    pub(crate) fn kept_from(&self, from: usize, count: usize) -> Option<&[u64]>
        requires from { from < 2 ^ 32 }
        requires count { count < 2 ^ 32 }
        ensures many { IfSome result (λ words. length words.now ≡ count) }
        ensures words { IfSome result (λ words. words.now ≡ slice_range self.now from (from + count)) }
    {
        if from + count <= self.kept.len() {
            Some(&self.kept[from..from + count])
        } else {
            None
        }
    }

    /// Writes the word at a place. Where it is behind the kept words and isn't 0, those between become
    /// kept zeros.
    pub(crate) fn set(&mut self, i: usize, word: u64)
        requires { i < length self.old }
        ensures { self.new ≡ slice_set self.old i word }
    {
        if i < self.kept.len() {
            self.kept[i] = word;
        } else if word != 0 {
            fill(&mut self.kept, i);
            self.kept.push_reserved(word);
        }
    }
}

/// Adds zeros until there are that many words.
fn fill(words: &mut Vec<u64>, count: usize)
    requires more { vec_len words.old ≤ count }
    requires room { count ≤ vec_capacity words.old }
    ensures items { words.new.items ≡ words.old.items ++ replicate (count - vec_len words.old) 0 }
    ensures len { vec_len words.new ≡ count }
    ensures capacity { vec_capacity words.new ≡ vec_capacity words.old }
{
    for _i in words.len()..count {
        words.push_reserved(0);
    }
}
