//! The calls of a store, made again while patience lasts.
ghost use Rattle.std.specs.Prelude.{◌≡◌, ◌≤◌, ◌++◌, ◌∷◌, [], IfOk, IfErr, OnErr, IsTrue, List, length};
ghost use Rattle.std.specs.Fn.{CalledAtTwo};
ghost use Rattle.map_model.specs.Calls.{Get, Put, Del, answer_of};
ghost use Rattle.map_model.specs.History.{Entry, after, entry_of};
ghost use Rattle.map_model.specs.Maps.{between};
ghost use Rattle.map_model.specs.Ordered.{Follows, Enters, EntersLast, Stays, got, was_put, was_gone};
ghost use Rattle.patience.specs.Scans.{HandsOn, Scans, Breaks};
ghost use Rattle.muslinscree.specs.Errors.{MayFail, IsNotFull};

use crate::Error;
use key_bytes::{Bound, Key, LONGEST_VALUE};
use map_model::{Ordered, Page, Refusal};
use patience::{Patience, del_patiently, get_patiently, put_patiently, scan_patiently};

/// Sets the value at the key, of at most `LONGEST_VALUE` bytes, and says whether there was none.
pub fn put<O: Ordered, P: Patience>(
    store: &mut O,
    patience: &mut P,
    key: &Key,
    value: &[u8],
) -> Result<bool, Error>
    requires { length value.now ≤ LONGEST_VALUE }
    ensures ok { IfOk result (λ new. Follows (O.stands store.old) (O.stands store.new)
        (Enters (O.lane store.old) (O.sole store.old) (Put key.now value.now) (was_put new))) }
    ensures refused { OnErr result (Follows (O.stands store.old) (O.stands store.new)
        (Stays (O.lane store.old) (O.sole store.old))) }
    ensures kept { (O.lane store.new ≡ O.lane store.old) × (O.sole store.new ≡ O.sole store.old)
        × (O.origin store.new ≡ O.origin store.old) × (P.limit patience.new ≡ P.limit patience.old) }
    ensures forks { O.room store.new ≡ O.room store.old }
    ensures fits { (history : List Entry) → O.fits store.old history → O.fits store.new history }
    ensures told { IfErr result (MayFail (P.limit patience.old) (O.sole store.old)) }
    ensures room { IsTrue (O.sole store.old) → (seen : List Entry) → O.stands store.old seen
        → O.fits store.old (seen ++ entry_of (O.lane store.old) seen (Put key.now value.now)
        (answer_of (after seen) (Put key.now value.now)) ∷ [])
        → IfErr result IsNotFull }
{
    match put_patiently(store, patience, key, value) {
        Ok(new) => Ok(new),
        Err(Refusal::Again(cause)) => Err(Error::Again(cause)),
        Err(Refusal::Full(cause)) => Err(Error::Full(cause)),
        Err(Refusal::NoMemory) => Err(Error::NoMemory),
    }
}

/// Leaves the value at the key in `value` in place of what was there, and says whether there is one.
pub fn get<O: Ordered, P: Patience>(
    store: &mut O,
    patience: &mut P,
    key: &Key,
    value: &mut Vec<u8>,
) -> Result<bool, Error>
    ensures ok { IfOk result (λ found. Follows (O.stands store.old) (O.stands store.new)
        (EntersLast (O.lane store.old) (O.sole store.old) (Get key.now) (got found value.new.items))) }
    ensures refused { OnErr result (Follows (O.stands store.old) (O.stands store.new)
        (Stays (O.lane store.old) (O.sole store.old))) }
    ensures kept { (O.lane store.new ≡ O.lane store.old) × (O.sole store.new ≡ O.sole store.old)
        × (O.origin store.new ≡ O.origin store.old) × (P.limit patience.new ≡ P.limit patience.old) }
    ensures forks { O.room store.new ≡ O.room store.old }
    ensures fits { (history : List Entry) → O.fits store.old history → O.fits store.new history }
    ensures told { IfErr result (MayFail (P.limit patience.old) (O.sole store.old)) }
    ensures room { IfErr result IsNotFull }
{
    match get_patiently(store, patience, key, value) {
        Ok(found) => Ok(found),
        Err(Refusal::Again(cause)) => Err(Error::Again(cause)),
        Err(Refusal::Full(cause)) => Err(Error::Full(cause)),
        Err(Refusal::NoMemory) => Err(Error::NoMemory),
    }
}

/// Takes the key out, and says whether it was there.
pub fn del<O: Ordered, P: Patience>(
    store: &mut O,
    patience: &mut P,
    key: &Key,
) -> Result<bool, Error>
    ensures ok { IfOk result (λ gone. Follows (O.stands store.old) (O.stands store.new)
        (Enters (O.lane store.old) (O.sole store.old) (Del key.now) (was_gone gone))) }
    ensures refused { OnErr result (Follows (O.stands store.old) (O.stands store.new)
        (Stays (O.lane store.old) (O.sole store.old))) }
    ensures kept { (O.lane store.new ≡ O.lane store.old) × (O.sole store.new ≡ O.sole store.old)
        × (O.origin store.new ≡ O.origin store.old) × (P.limit patience.new ≡ P.limit patience.old) }
    ensures forks { O.room store.new ≡ O.room store.old }
    ensures fits { (history : List Entry) → O.fits store.old history → O.fits store.new history }
    ensures told { IfErr result (MayFail (P.limit patience.old) (O.sole store.old)) }
    ensures room { IfErr result IsNotFull }
{
    match del_patiently(store, patience, key) {
        Ok(gone) => Ok(gone),
        Err(Refusal::Again(cause)) => Err(Error::Again(cause)),
        Err(Refusal::Full(cause)) => Err(Error::Full(cause)),
        Err(Refusal::NoMemory) => Err(Error::NoMemory),
    }
}

/// Hands on the pairs from `from`, included, to `to`, excluded, in the order of their keys, until `each`
/// answers false, and says whether none is left. `page` holds the pairs of a part; it may be used again.
///
/// Each part of the range is the map at one moment, and calls of other lanes may come between two parts.
pub fn scan<O: Ordered, P: Patience, F: FnMut(&[u8], &[u8]) -> bool>(
    store: &mut O,
    patience: &mut P,
    from: &Bound,
    to: &Bound,
    page: &mut Page,
    each: F,
) -> Result<bool, Error>
    requires { F.IsAlwaysCallable each }
    ensures ok { IfOk result (λ whole. Follows (O.stands store.old) (O.stands store.new)
        (Scans (CalledAtTwo F.FnMut) (O.lane store.old) (O.sole store.old) from.now to.now each whole)) }
    ensures map { IfOk result (λ whole. IsTrue (O.sole store.old) → (seen : List Entry) → O.stands store.old seen
        → (last : F) × HandsOn (CalledAtTwo F.FnMut) each (between (after seen) from.now to.now) whole last) }
    ensures refused { OnErr result (Follows (O.stands store.old) (O.stands store.new)
        (Breaks (CalledAtTwo F.FnMut) (O.lane store.old) (O.sole store.old) from.now to.now each)) }
    ensures kept { (O.lane store.new ≡ O.lane store.old) × (O.sole store.new ≡ O.sole store.old)
        × (O.origin store.new ≡ O.origin store.old) × (P.limit patience.new ≡ P.limit patience.old) }
    ensures forks { O.room store.new ≡ O.room store.old }
    ensures fits { (history : List Entry) → O.fits store.old history → O.fits store.new history }
    ensures told { IfErr result (MayFail (P.limit patience.old) (O.sole store.old)) }
    ensures room { IfErr result IsNotFull }
{
    match scan_patiently(store, patience, from, to, page, each) {
        Ok(whole) => Ok(whole),
        Err(Refusal::Again(cause)) => Err(Error::Again(cause)),
        Err(Refusal::Full(cause)) => Err(Error::Full(cause)),
        Err(Refusal::NoMemory) => Err(Error::NoMemory),
    }
}
