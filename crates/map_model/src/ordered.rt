//! What answers as an ordered map.
ghost use Rattle.std.specs.Prelude.{◌≡◌, ◌≤◌, ◌≢◌, ℕ, List, [], ◌∷◌, ◌++◌, Bool, Option, length, IfOk, OnErr, IsTrue};
ghost use Rattle.std.specs.Bool.{OnFalse};
ghost use Rattle.key_bytes.specs.Bound.{bound_cmp};
ghost use Rattle.map_model.specs.Calls.{Call, Get, Put, Del, Part, Pairs, answer_of};
ghost use Rattle.map_model.specs.History.{Entry, IsLegal, after, entry_of};
ghost use Rattle.map_model.specs.Ordered.{Follows, Enters, EntersLast, Stays, got, was_put, was_gone};
ghost use Rattle.map_model.specs.Refusals.{HasCause, refusal_of, NotAgain, NotFull};
ghost use Rattle.map_model.specs.declared.refusal.Refusal.{Refusal};

use crate::{Page, Refusal};
use key_bytes::{Bound, Key, LONGEST_VALUE};
use std::cmp::Ordering;

/// An ordered map from keys to values, seen by the histories of calls that it stands for.
///
/// A history that it stood for goes on with each call: behind it, and behind entries of other lanes,
/// stands the entry of an answered call with the reply given, and no entry of a refused one. Where the
/// store is the only lane, nothing else is new.
///
/// A new store stands for the empty history, and says so where it is made.
pub trait Ordered {
    /// The number of this store's lane.
    ghost lane: { Self → ℕ };

    /// Whether it is the only lane.
    ghost sole: { Self → Bool };

    /// The number of the index that it is a lane of. Lanes of one index have one number.
    ghost origin: { Self → ℕ };

    /// The count of calls that were refused for another lane or for want of room. It stands still at
    /// 2^64 - 1.
    ghost refusals: { Self → ℕ };

    /// The last such refusal.
    ghost last: { Self → Option Refusal };

    /// How many further lanes it can fork, which calls leave as it is. A store of one lane forks none.
    ghost room: { Self → ℕ } = { λ _. 0 };

    /// Whether a history may be the one that it has seen.
    ghost stands: { Self → List Entry → Type 0 };

    /// Whether there is room for what a history puts.
    ghost fits: { Self → List Entry → Type 0 };

    /// What stands behind a refusal of a call, by the store before the call and after it. A part is the
    /// call as it was asked: up to the upper end of its range.
    ghost caused: { Call → Self → Self → Refusal → Type 0 };

    /// Leaves the value at the key in `out` in place of what was there, and says whether there is one.
    fn get(&mut self, key: &Key, out: &mut Vec<u8>) -> Result<bool, Refusal>
        ensures ok { IfOk result (λ found. Follows (stands self.old) (stands self.new)
            (EntersLast (lane self.old) (sole self.old) (Get key.now) (got found out.new.items))) }
        ensures absent { IfOk result (λ found. OnFalse found (out.new.items ≡ [])) }
        ensures refused { OnErr result (Follows (stands self.old) (stands self.new)
            (Stays (lane self.old) (sole self.old))) }
        ensures cleared { OnErr result (out.new.items ≡ []) }
        ensures kept { (lane self.new ≡ lane self.old) × (sole self.new ≡ sole self.old)
            × (origin self.new ≡ origin self.old) }
        ensures forks { room self.new ≡ room self.old }
        ensures fits { (history : List Entry) → fits self.old history → fits self.new history }
        ensures counted { HasCause refusals last (caused (Get key.now)) self.old self.new
            (refusal_of result) }
        ensures alone { IsTrue (sole self.old) → NotAgain result }
        ensures room { NotFull result };

    /// Sets the value at the key, of at most `LONGEST_VALUE` bytes, and says whether there was none.
    fn put(&mut self, key: &Key, value: &[u8]) -> Result<bool, Refusal>
        requires { length value.now ≤ LONGEST_VALUE }
        ensures ok { IfOk result (λ new. Follows (stands self.old) (stands self.new)
            (Enters (lane self.old) (sole self.old) (Put key.now value.now) (was_put new))) }
        ensures refused { OnErr result (Follows (stands self.old) (stands self.new)
            (Stays (lane self.old) (sole self.old))) }
        ensures kept { (lane self.new ≡ lane self.old) × (sole self.new ≡ sole self.old)
            × (origin self.new ≡ origin self.old) }
        ensures forks { room self.new ≡ room self.old }
        ensures fits { (history : List Entry) → fits self.old history → fits self.new history }
        ensures counted { HasCause refusals last (caused (Put key.now value.now)) self.old self.new
            (refusal_of result) }
        ensures alone { IsTrue (sole self.old) → NotAgain result }
        ensures room { IsTrue (sole self.old) → (seen : List Entry) → stands self.old seen
            → fits self.old (seen ++ entry_of (lane self.old) seen (Put key.now value.now)
            (answer_of (after seen) (Put key.now value.now)) ∷ [])
            → NotFull result };

    /// Takes the key out, and says whether it was there.
    fn del(&mut self, key: &Key) -> Result<bool, Refusal>
        ensures ok { IfOk result (λ gone. Follows (stands self.old) (stands self.new)
            (Enters (lane self.old) (sole self.old) (Del key.now) (was_gone gone))) }
        ensures refused { OnErr result (Follows (stands self.old) (stands self.new)
            (Stays (lane self.old) (sole self.old))) }
        ensures kept { (lane self.new ≡ lane self.old) × (sole self.new ≡ sole self.old)
            × (origin self.new ≡ origin self.old) }
        ensures forks { room self.new ≡ room self.old }
        ensures fits { (history : List Entry) → fits self.old history → fits self.new history }
        ensures counted { HasCause refusals last (caused (Del key.now)) self.old self.new
            (refusal_of result) }
        ensures alone { IsTrue (sole self.old) → NotAgain result }
        ensures room { NotFull result };

    /// Leaves the pairs from `from`, included, to the answered end, excluded, in `page` in place of
    /// what was there. How far the answered end is from `from` is the store's choice: whoever wants all
    /// pairs up to `to` goes on from there.
    fn part(&mut self, from: &Bound, to: &Bound, page: &mut Page) -> Result<Bound, Refusal>
        requires { bound_cmp from.now to.now ≡ Ordering.Less }
        ensures ok { IfOk result (λ upto. Follows (stands self.old) (stands self.new)
            (EntersLast (lane self.old) (sole self.old) (Part from.now upto) (Pairs page.new.pairs))) }
        ensures above { IfOk result (λ upto. bound_cmp from.now upto ≡ Ordering.Less) }
        ensures within { IfOk result (λ upto. bound_cmp upto to.now ≢ Ordering.Greater) }
        ensures refused { OnErr result (Follows (stands self.old) (stands self.new)
            (Stays (lane self.old) (sole self.old))) }
        ensures cleared { OnErr result (page.new.pairs ≡ []) }
        ensures kept { (lane self.new ≡ lane self.old) × (sole self.new ≡ sole self.old)
            × (origin self.new ≡ origin self.old) }
        ensures forks { room self.new ≡ room self.old }
        ensures fits { (history : List Entry) → fits self.old history → fits self.new history }
        ensures counted { HasCause refusals last (caused (Part from.now to.now)) self.old self.new
            (refusal_of result) }
        ensures alone { IsTrue (sole self.old) → NotAgain result }
        ensures room { NotFull result };

    /// Lets other lanes go on while this one makes no call, as before a wait for input.
    fn rest(&mut self)
        ensures seen { Follows (stands self.old) (stands self.new) (λ old new. new ≡ old) }
        ensures kept { (lane self.new ≡ lane self.old) × (sole self.new ≡ sole self.old)
            × (origin self.new ≡ origin self.old) }
        ensures forks { room self.new ≡ room self.old }
        ensures fits { (history : List Entry) → fits self.old history → fits self.new history }
        ensures counted { (refusals self.new ≡ refusals self.old) × (last self.new ≡ last self.old) };

    /// Ends a rest.
    fn wake(&mut self)
        ensures seen { Follows (stands self.old) (stands self.new) (λ old new. new ≡ old) }
        ensures kept { (lane self.new ≡ lane self.old) × (sole self.new ≡ sole self.old)
            × (origin self.new ≡ origin self.old) }
        ensures forks { room self.new ≡ room self.old }
        ensures fits { (history : List Entry) → fits self.old history → fits self.new history }
        ensures counted { (refusals self.new ≡ refusals self.old) × (last self.new ≡ last self.old) };

    /// What it stands for is legal.
    ghost stands_legal: { (store : Self) (history : List Entry) → stands store history → IsLegal history };
}
