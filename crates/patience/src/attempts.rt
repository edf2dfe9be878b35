//! Calls that are made again while patience lasts.
ghost use Rattle.std.specs.Prelude.{◌≡◌, ◌≤◌, ◌≢◌, ◌++◌, ◌∷◌, [], OnErr, IfOk, length, List, IsTrue};
ghost use Rattle.key_bytes.specs.Bound.{bound_cmp};
ghost use Rattle.map_model.specs.Calls.{Get, Put, Del, Part, Pairs, answer_of};
ghost use Rattle.map_model.specs.History.{Entry, after, entry_of};
ghost use Rattle.map_model.specs.Ordered.{Follows, Enters, EntersLast, Stays, got, was_put, was_gone};
ghost use Rattle.map_model.specs.Refusals.{NotFull};
ghost use Rattle.patience.specs.Patience.{Tells};

use crate::limits::Patience;
use key_bytes::{Bound, Key, LONGEST_VALUE};
use map_model::{Ordered, Page, Refusal};
use std::cmp::Ordering;
use std::thread;

// A call of a store, made again while another lane is in the way and patience lasts.
macro_rules! patiently {
    ($patience:ident, $call:expr) => {{
        let mut tries = 0u32;
        'attempts: loop {
            match $call {
                Ok(answer) => return Ok(answer),
                Err(Refusal::Again(cause)) => {
                    tries = tries.saturating_add(1);
                    if !$patience.again(tries) {
                        return Err(Refusal::Again(cause));
                    }
                    // Whoever is in the way may need this processor.
                    thread::yield_now();
                }
                Err(Refusal::Full(cause)) => return Err(Refusal::Full(cause)),
                Err(Refusal::NoMemory) => return Err(Refusal::NoMemory),
            }
        }
    }};
}

/// Puts, again while patience lasts.
#[inline(always)]
pub fn put_patiently<O: Ordered, P: Patience>(
    store: &mut O,
    patience: &mut P,
    key: &Key,
    value: &[u8],
) -> Result<bool, Refusal>
    requires { length value.now ≤ LONGEST_VALUE }
    ensures ok { IfOk result (λ new. Follows (O.stands store.old) (O.stands store.new)
        (Enters (O.lane store.old) (O.sole store.old) (Put key.now value.now) (was_put new))) }
    ensures refused { OnErr result (Follows (O.stands store.old) (O.stands store.new)
        (Stays (O.lane store.old) (O.sole store.old))) }
    ensures kept { (O.lane store.new ≡ O.lane store.old) × (O.sole store.new ≡ O.sole store.old)
        × (O.origin store.new ≡ O.origin store.old) × (P.limit patience.new ≡ P.limit patience.old) }
    ensures forks { O.room store.new ≡ O.room store.old }
    ensures fits { (history : List Entry) → O.fits store.old history → O.fits store.new history }
    ensures told { Tells (P.limit patience.old) (O.sole store.old) (O.refusals store.old) (O.refusals store.new)
        (O.last store.new) result }
    ensures room { IsTrue (O.sole store.old) → (seen : List Entry) → O.stands store.old seen
        → O.fits store.old (seen ++ entry_of (O.lane store.old) seen (Put key.now value.now)
        (answer_of (after seen) (Put key.now value.now)) ∷ [])
        → NotFull result }
{
    patiently!(patience, store.put(key, value))
}

/// Leaves the value at the key in `value`, again while patience lasts.
#[inline(always)]
pub fn get_patiently<O: Ordered, P: Patience>(
    store: &mut O,
    patience: &mut P,
    key: &Key,
    value: &mut Vec<u8>,
) -> Result<bool, Refusal>
    ensures ok { IfOk result (λ found. Follows (O.stands store.old) (O.stands store.new)
        (EntersLast (O.lane store.old) (O.sole store.old) (Get key.now) (got found value.new.items))) }
    ensures refused { OnErr result (Follows (O.stands store.old) (O.stands store.new)
        (Stays (O.lane store.old) (O.sole store.old))) }
    ensures kept { (O.lane store.new ≡ O.lane store.old) × (O.sole store.new ≡ O.sole store.old)
        × (O.origin store.new ≡ O.origin store.old) × (P.limit patience.new ≡ P.limit patience.old) }
    ensures forks { O.room store.new ≡ O.room store.old }
    ensures fits { (history : List Entry) → O.fits store.old history → O.fits store.new history }
    ensures told { Tells (P.limit patience.old) (O.sole store.old) (O.refusals store.old) (O.refusals store.new)
        (O.last store.new) result }
    ensures room { NotFull result }
{
    patiently!(patience, store.get(key, value))
}

/// Takes the key out, again while patience lasts.
#[inline(always)]
pub fn del_patiently<O: Ordered, P: Patience>(
    store: &mut O,
    patience: &mut P,
    key: &Key,
) -> Result<bool, Refusal>
    ensures ok { IfOk result (λ gone. Follows (O.stands store.old) (O.stands store.new)
        (Enters (O.lane store.old) (O.sole store.old) (Del key.now) (was_gone gone))) }
    ensures refused { OnErr result (Follows (O.stands store.old) (O.stands store.new)
        (Stays (O.lane store.old) (O.sole store.old))) }
    ensures kept { (O.lane store.new ≡ O.lane store.old) × (O.sole store.new ≡ O.sole store.old)
        × (O.origin store.new ≡ O.origin store.old) × (P.limit patience.new ≡ P.limit patience.old) }
    ensures forks { O.room store.new ≡ O.room store.old }
    ensures fits { (history : List Entry) → O.fits store.old history → O.fits store.new history }
    ensures told { Tells (P.limit patience.old) (O.sole store.old) (O.refusals store.old) (O.refusals store.new)
        (O.last store.new) result }
    ensures room { NotFull result }
{
    patiently!(patience, store.del(key))
}

/// Leaves the first pairs between two ends in `page`, again while patience lasts.
#[inline(always)]
pub fn part_patiently<O: Ordered, P: Patience>(
    store: &mut O,
    patience: &mut P,
    from: &Bound,
    to: &Bound,
    page: &mut Page,
) -> Result<Bound, Refusal>
    requires { bound_cmp from.now to.now ≡ Ordering.Less }
    ensures ok { IfOk result (λ upto. Follows (O.stands store.old) (O.stands store.new)
        (EntersLast (O.lane store.old) (O.sole store.old) (Part from.now upto) (Pairs page.new.pairs))) }
    ensures above { IfOk result (λ upto. bound_cmp from.now upto ≡ Ordering.Less) }
    ensures within { IfOk result (λ upto. bound_cmp upto to.now ≢ Ordering.Greater) }
    ensures refused { OnErr result (Follows (O.stands store.old) (O.stands store.new)
        (Stays (O.lane store.old) (O.sole store.old))) }
    ensures kept { (O.lane store.new ≡ O.lane store.old) × (O.sole store.new ≡ O.sole store.old)
        × (O.origin store.new ≡ O.origin store.old) × (P.limit patience.new ≡ P.limit patience.old) }
    ensures forks { O.room store.new ≡ O.room store.old }
    ensures fits { (history : List Entry) → O.fits store.old history → O.fits store.new history }
    ensures told { Tells (P.limit patience.old) (O.sole store.old) (O.refusals store.old) (O.refusals store.new)
        (O.last store.new) result }
    ensures room { NotFull result }
{
    patiently!(patience, store.part(from, to, page))
}
