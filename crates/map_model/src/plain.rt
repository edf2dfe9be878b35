//! A map in a sorted vector.
ghost use Rattle.std.specs.Prelude.{◌≡◌, [], ◌≤◌, ◌≢◌, length, IfOk, IfErr, OnOk, OnErr, IsSome, is_some, Some, None};
ghost use Rattle.std.specs.Bool.{OnFalse, OnTrue};
ghost use Rattle.key_bytes.specs.Bound.{bound_cmp};
ghost use Rattle.map_model.specs.Maps.{find, with, without, between};
ghost use Rattle.map_model.specs.Places.{IsAt, IsGapFor, IsCut};
ghost use Rattle.map_model.specs.Plain.{IsFirstPart, IsHistoryOf};
ghost use Rattle.map_model.specs.Calls.{Part, Pairs};
ghost use Rattle.map_model.specs.Ordered.{Follows, EntersLast};
ghost use Rattle.map_model.specs.declared.refusal.Refusal.TheVariants.{NoMemory};

use crate::{Ordered, Page, Refusal};
use key_bytes::{Bound, Bytes, Key};
use std::alloc::{AllocError, Global};
use std::cmp::Ordering;
use std::marker::Model;

/// The most pairs of one part of a `PlainMap`.
pub const MOST_PAIRS: usize = 256;

/// A map as a vector of its pairs in the order of the keys, for one caller alone.
///
/// A key is found by halves. A put of a new key, and a del, move the pairs above it. Nothing is
/// refused but for want of memory.
#[derive(Drop)]
pub struct PlainMap {
    alloc: Global,
    pairs: Vec<(Key, Bytes)>,
}

impl Model for PlainMap {
    ghost use Rattle.std.specs.Prelude.{List, ℕ};
    ghost use Rattle.map_model.specs.Maps.{Pairs, IsMap};

    ghost Value = { Pairs (List ℕ) };

    ghost view = { λ m. m.pairs.items };

    ghost invariant = { λ m. IsMap m.pairs.items };
}

impl PlainMap {
    /// The empty map, before any call.
    pub fn new(alloc: Global) -> PlainMap
        ensures empty { result ≡ [] }
        ensures stands { IsHistoryOf result [] }
    {
        PlainMap {
            alloc,
            pairs: Vec::new(alloc),
        }
    }

    // Where the key is, or where it would go.
    fn search(&self, key: &Key) -> Result<usize, usize>
        ensures at { IfOk result (IsAt self.now key.now) }
        ensures gap { IfErr result (IsGapFor self.now key.now) }
    {
        self.pairs.binary_search_by(|pair| pair.0.order(key))
    }

    /// Leaves the value at the key in `out` in place of what was there, and says whether there is one.
    pub fn look(&self, key: &Key, out: &mut Vec<u8>) -> Result<bool, AllocError>
        ensures found { IfOk result (λ found. OnTrue found (find self.now key.now ≡ Some out.new.items)) }
        ensures absent { IfOk result (λ found. OnFalse found
            ((find self.now key.now ≡ None) × (out.new.items ≡ []))) }
        ensures cleared { OnErr result (out.new.items ≡ []) }
    {
        out.clear();
        match self.search(key) {
            Ok(at) => {
                out.extend_from_slice(self.pairs[at].1.get())?;
                Ok(true)
            }
            Err(_) => Ok(false),
        }
    }

    /// Sets the value at the key, and says whether there was none.
    pub fn set(&mut self, key: &Key, value: &[u8]) -> Result<bool, AllocError>
        ensures map { OnOk result (self.new ≡ with self.old key.now value.now) }
        ensures new { IfOk result (λ new. OnTrue new (find self.old key.now ≡ None)) }
        ensures old { IfOk result (λ new. OnFalse new (IsSome (find self.old key.now))) }
        ensures err { OnErr result (self.new ≡ self.old) }
    {
        match self.search(key) {
            Ok(at) => {
                let value = Bytes::copied(self.alloc, value)?;
                self.pairs[at].1 = value;
                Ok(false)
            }
            Err(at) => {
                let key = key.copy()?;
                let value = Bytes::copied(self.alloc, value)?;
                self.pairs.insert(at, (key, value))?;
                Ok(true)
            }
        }
    }

    /// Takes the key out, and says whether it was there.
    pub fn take(&mut self, key: &Key) -> bool
        ensures map { self.new ≡ without self.old key.now }
        ensures gone { result ≡ is_some (find self.old key.now) }
    {
        match self.search(key) {
            Ok(at) => {
                self.pairs.remove(at);
                true
            }
            Err(_) => false,
        }
    }

    // The place of the first pair that isn't below the end.
    fn place(&self, end: &Bound) -> usize
        ensures { IsCut self.now end.now result }
    {
        match end {
            Bound::Low => 0,
            Bound::High => self.pairs.len(),
            Bound::At(key) => match self.search(key) {
                Ok(at) => at,
                Err(at) => at,
            },
        }
    }

    // The places of two ends.
    fn places(&self, from: &Bound, to: &Bound) -> (usize, usize)
        requires { bound_cmp from.now to.now ≡ Ordering.Less }
        ensures from { IsCut self.now from.now result.0 }
        ensures to { IsCut self.now to.now result.1 }
        ensures ordered { result.0 ≤ result.1 }
        ensures in_range { result.1 ≤ length self.now }
    {
        (self.place(from), self.place(to))
    }

    /// Leaves the first pairs from `from` on in `page`, at most `MOST_PAIRS`, and answers where they end:
    /// at `to`, or at the key of the next pair.
    pub fn first_pairs(
        &self,
        from: &Bound,
        to: &Bound,
        page: &mut Page,
    ) -> Result<Bound, AllocError>
        requires { bound_cmp from.now to.now ≡ Ordering.Less }
        ensures pairs { IfOk result (λ upto. page.new.pairs ≡ between self.now from.now upto) }
        ensures above { IfOk result (λ upto. bound_cmp from.now upto ≡ Ordering.Less) }
        ensures within { IfOk result (λ upto. bound_cmp upto to.now ≢ Ordering.Greater) }
        ensures most { length page.new.pairs ≤ MOST_PAIRS }
        ensures end { IfOk result (λ upto. IsFirstPart self.now from.now to.now upto page.new.pairs) }
        ensures cleared { OnErr result (page.new.pairs ≡ []) }
    {
        page.clear();
        let (start, stop) = self.places(from, to);
        if stop - start > MOST_PAIRS {
            let end = start + MOST_PAIRS;
            let upto = Bound::At(self.pairs[end].0.copy()?);
            fill(page, &self.pairs[start..end])?;
            Ok(upto)
        } else {
            let upto = to.copy()?;
            fill(page, &self.pairs[start..stop])?;
            Ok(upto)
        }
    }
}

// Puts these pairs into an empty page, or leaves it empty.
fn fill(page: &mut Page, pairs: &[(Key, Bytes)]) -> Result<(), AllocError>
    requires { page.old.pairs ≡ [] }
    ensures ok { OnOk result (page.new.pairs ≡ pairs.now) }
    ensures err { OnErr result (page.new.pairs ≡ []) }
{
    for (key, value) in pairs {
        if let Err(refused) = page.push(key.bytes(), value.get()) {
            page.clear();
            return Err(refused);
        }
    }
    Ok(())
}

impl Ordered for PlainMap {
    ghost use Rattle.std.specs.Prelude.{true, None};
    ghost use Rattle.map_model.specs.Plain.{IsHistoryOf};

    ghost lane = { λ m. 0 };

    ghost sole = { λ m. true };

    ghost origin = { λ m. 0 };

    ghost refusals = { λ m. 0 };

    ghost last = { λ m. None };

    ghost stands = { λ m h. IsHistoryOf m h };

    ghost fits = { λ m h. Unit {0} };

    ghost caused = { λ call m n r. ⊥ };

    ghost stands_legal = { λ m h history. history.legal };

    fn get(&mut self, key: &Key, out: &mut Vec<u8>) -> Result<bool, Refusal> {
        Ok(self.look(key, out)?)
    }

    fn put(&mut self, key: &Key, value: &[u8]) -> Result<bool, Refusal> {
        Ok(self.set(key, value)?)
    }

    fn del(&mut self, key: &Key) -> Result<bool, Refusal> {
        Ok(self.take(key))
    }

    fn part(&mut self, from: &Bound, to: &Bound, page: &mut Page) -> Result<Bound, Refusal>
        requires { bound_cmp from.now to.now ≡ Ordering.Less }
        ensures ok { IfOk result (λ upto. Follows (IsHistoryOf self.old) (IsHistoryOf self.new)
            (EntersLast 0 true (Part from.now upto) (Pairs page.new.pairs))) }
        ensures above { IfOk result (λ upto. bound_cmp from.now upto ≡ Ordering.Less) }
        ensures within { IfOk result (λ upto. bound_cmp upto to.now ≢ Ordering.Greater) }
        ensures kept { self.new ≡ self.old }
        ensures cleared { OnErr result (page.new.pairs ≡ []) }
        ensures memory { IfErr result (λ refusal. refusal ≡ NoMemory) }

        // How far it goes.
        ensures most { length page.new.pairs ≤ MOST_PAIRS }
        ensures end { IfOk result (λ upto. IsFirstPart self.old from.now to.now upto page.new.pairs) }
    {
        Ok(self.first_pairs(from, to, page)?)
    }

    fn rest(&mut self) {}

    fn wake(&mut self) {}
}
