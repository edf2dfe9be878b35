//! A store over one table with its leaves.
ghost use Rattle.std.specs.Prelude.{◌≡◌, ◌≢◌, ◌++◌, [], ◌∷◌, ◌≤◌, List, length, IfOk, IfErr, OnErr, Some, None, Ok, Err, true};
ghost use Rattle.std.specs.Bool.{OnFalse, OnTrue};
ghost use Rattle.key_bytes.specs.Bound.{bound_cmp};
ghost use Rattle.map_model.specs.Calls.{Put as PutCall, Del, answer_of};
ghost use Rattle.map_model.specs.History.{Entry, after, entry_of};
ghost use Rattle.map_model.specs.Maps.{find, between};
ghost use Rattle.map_model.specs.Ordered.{Follows, Enters, Stays, was_put, was_gone};
ghost use Rattle.map_model.specs.Refusals.{HasCause, refusal_of, NotAgain, NotFull};
ghost use Rattle.leaf_spans.specs.Ends.{part_end};
ghost use Rattle.leaf_table.specs.Facts.{IsWhole, IsMakeFault};
ghost use Rattle.solo_index.specs.Standing.{Store, Stands, Fits};
ghost use Rattle.solo_index.specs.declared.tending.Put.{Put as Done};
ghost use Rattle.solo_index.specs.declared.tending.Taken.{Taken as Gone};
ghost use Rattle.solo_index.specs.Tending.{HasAllValues, IsPut, IsTaken};
ghost use Rattle.solo_index.specs.Causes.{RefusesPut, Caused, IsNoted, values_full};

use crate::keys::{put_key, take_key};
use crate::tending::{Put, Taken};
use counts::raise;
use key_bytes::{Bound, Key};
use leaf_table::LeafTable;
use map_model::{Ordered, Page, Refusal};
use row_words::{MakeFault, Shape};
use std::alloc::{AllocError, Global};
use std::cmp::Ordering;
use std::marker::Model;

/// An ordered map for one caller, in leaves behind one table of anchors.
#[derive(Drop)]
pub struct Solo {
    table: LeafTable,
    // How many puts were refused for want of room, and the last refusal.
    refusals: u64,
    last: Option<Refusal>,
}

impl Model for Solo {
    ghost use Rattle.solo_index.specs.Standing.{Store};

    ghost Value = { Store };

    ghost view = { λ s. record { table = s.table; refusals = s.refusals; last = s.last } };
}

impl Solo {
    /// The empty index of this shape.
    pub fn make(alloc: Global, shape: &Shape) -> Result<Solo, MakeFault>
        ensures ok { IfOk result (λ solo. solo ≡ record { table = record { shape = shape.now; anchors = ([], 0) ∷ []; map = [] }; refusals = 0; last = None }) }
        ensures stands { IfOk result (λ solo. Stands solo.table []) }
        ensures fault { IfErr result (IsMakeFault shape.now) }
    {
        Ok(Solo {
            table: LeafTable::make(alloc, shape)?,
            refusals: 0,
            last: None,
        })
    }

    /// The numbers by which the index is laid out.
    pub fn shape(&self) -> Shape
        ensures shape { result ≡ self.now.table.shape }
        ensures whole { IsWhole self.now.table }
    {
        self.table.shape()
    }

    /// How many keys there are.
    pub fn len(&self) -> u64
        ensures { result ≡ length self.now.table.map }
    {
        self.table.len()
    }

    /// Leaves the value at the key in `out` in place of what was there, and says whether there is one.
    pub fn look(&mut self, key: &Key, out: &mut Vec<u8>) -> Result<bool, AllocError>
        ensures found { IfOk result (λ found. OnTrue found (find self.old.table.map key.now ≡ Some out.new.items)) }
        ensures absent { IfOk result (λ found. OnFalse found
            ((find self.old.table.map key.now ≡ None) × (out.new.items ≡ []))) }
        ensures cleared { OnErr result (out.new.items ≡ []) }
        ensures same { self.new ≡ self.old }
    {
        out.clear();
        let place = self.table.place_of(key);
        match self.table.find(place, key) {
            Some(value) => {
                out.extend_from_slice(value)?;
                Ok(true)
            }
            None => Ok(false),
        }
    }

    /// Leaves the pairs of one leaf from `from` on in `page`, and answers where they end: at `to`, or at
    /// the anchor that follows the leaf.
    pub fn first_part(
        &mut self,
        from: &Bound,
        to: &Bound,
        page: &mut Page,
    ) -> Result<Bound, AllocError>
        requires { bound_cmp from.now to.now ≡ Ordering.Less }
        ensures pairs { IfOk result (λ upto. page.new.pairs ≡ between self.old.table.map from.now upto) }
        ensures end { IfOk result (λ upto. upto ≡ part_end self.old.table.anchors from.now to.now) }
        ensures above { IfOk result (λ upto. bound_cmp from.now upto ≡ Ordering.Less) }
        ensures within { IfOk result (λ upto. bound_cmp upto to.now ≢ Ordering.Greater) }
        ensures most { length page.new.pairs ≤ self.old.table.shape.hard }
        ensures cleared { OnErr result (page.new.pairs ≡ []) }
        ensures same { self.new ≡ self.old }
    {
        self.table.part(from, to, page)
    }

    /// Sets the value at the key, and tends the key's leaf: where it has more keys than it should have
    /// afterwards, it is split once, if the table has room. A leaf with as many keys as it may have is
    /// split before it gets a new one.
    pub fn put_key(&mut self, key: &Key, value: &[u8]) -> Result<Put, Refusal>
        ensures ok { IfOk result (IsPut self.old.table self.new.table key.now value.now) }
        ensures refused { IfErr result (RefusesPut self.old.table self.new.table key.now) }
        ensures values { HasAllValues self.old.table → result ≡ Err (values_full self.old.table) }
        ensures counted { HasCause (λ (s : Store). s.refusals) (λ (s : Store). s.last) (Caused (PutCall key.now value.now)) self.old self.new (refusal_of result) }
        ensures whole { IsWhole self.old.table }
    {
        let answer = put_key(&mut self.table, key, value);
        if let Err(refusal) = answer {
            self.note(refusal);
        }
        answer
    }

    // Counts a refusal for want of room.
    fn note(&mut self, refusal: Refusal)
        ensures { IsNoted self.old self.new refusal }
    {
        match refusal {
            Refusal::NoMemory => {}
            _ => {
                self.refusals = raise(self.refusals);
                self.last = Some(refusal);
            }
        }
    }

    /// Takes the key out, and tends the key's leaf if the key was there: it is merged with a neighbour
    /// where both together have few enough keys, with the right one if that will do.
    pub fn take_key(&mut self, key: &Key) -> Taken
        ensures taken { IsTaken self.old.table self.new.table key.now result }
        ensures counted { (self.new.refusals ≡ self.old.refusals) × (self.new.last ≡ self.old.last) }
        ensures whole { IsWhole self.old.table }
    {
        take_key(&mut self.table, key)
    }
}

impl Ordered for Solo {
    ghost use Rattle.std.specs.Prelude.{true};
    ghost use Rattle.solo_index.specs.Standing.{Stands, Fits};
    ghost use Rattle.solo_index.specs.Causes.{Caused};

    ghost lane = { λ s. 0 };

    ghost sole = { λ s. true };

    ghost origin = { λ s. 0 };

    ghost refusals = { λ s. s.refusals };

    ghost last = { λ s. s.last };

    ghost stands = { λ s h. Stands s.table h };

    ghost fits = { λ s h. Fits s.table.shape h };

    ghost caused = { Caused };

    ghost stands_legal = { λ s h stands. stands.history.legal };

    fn get(&mut self, key: &Key, out: &mut Vec<u8>) -> Result<bool, Refusal> {
        Ok(self.look(key, out)?)
    }

    fn put(&mut self, key: &Key, value: &[u8]) -> Result<bool, Refusal>
        ensures ok { IfOk result (λ new. Follows (Stands self.old.table) (Stands self.new.table)
            (Enters 0 true (PutCall key.now value.now) (was_put new))) }
        ensures refused { OnErr result (Follows (Stands self.old.table) (Stands self.new.table) (Stays 0 true)) }
        ensures fits { (history : List Entry) → Fits self.old.table.shape history → Fits self.new.table.shape history }
        ensures counted { HasCause (λ (s : Store). s.refusals) (λ (s : Store). s.last) (Caused (PutCall key.now value.now)) self.old self.new (refusal_of result) }
        ensures alone { NotAgain result }
        ensures room { (seen : List Entry) → Stands self.old.table seen
            → Fits self.old.table.shape (seen ++ entry_of 0 seen (PutCall key.now value.now)
            (answer_of (after seen) (PutCall key.now value.now)) ∷ [])
            → NotFull result }

        // What it does to the table, and that each put is refused where there are as many values as
        // there may be.
        ensures done { IfOk result (λ new. (put : Done) × ((put.new ≡ new) × IsPut self.old.table self.new.table key.now value.now put)) }
        ensures cause { IfErr result (RefusesPut self.old.table self.new.table key.now) }
        ensures values { HasAllValues self.old.table → result ≡ Err (values_full self.old.table) }
    {
        match self.put_key(key, value) {
            Ok(put) => Ok(put.new),
            Err(refusal) => Err(refusal),
        }
    }

    fn del(&mut self, key: &Key) -> Result<bool, Refusal>
        ensures ok { IfOk result (λ gone. Follows (Stands self.old.table) (Stands self.new.table)
            (Enters 0 true (Del key.now) (was_gone gone))) }
        ensures fits { (history : List Entry) → Fits self.old.table.shape history → Fits self.new.table.shape history }
        ensures counted { (self.new.refusals ≡ self.old.refusals) × (self.new.last ≡ self.old.last) }

        // What it does to the table. It is never refused.
        ensures done { (taken : Gone) × ((result ≡ Ok taken.gone) × IsTaken self.old.table self.new.table key.now taken) }
    {
        Ok(self.take_key(key).gone)
    }

    fn part(&mut self, from: &Bound, to: &Bound, page: &mut Page) -> Result<Bound, Refusal> {
        Ok(self.first_part(from, to, page)?)
    }

    fn rest(&mut self) {}

    fn wake(&mut self) {}
}
