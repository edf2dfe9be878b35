//! Scans, part behind part.
ghost use Rattle.std.specs.Prelude.{◌≡◌, IfOk, IfErr, OnErr, IsTrue, List};
ghost use Rattle.std.specs.Fn.{CalledAtTwo};
ghost use Rattle.map_model.specs.History.{Entry, after};
ghost use Rattle.map_model.specs.Maps.{between};
ghost use Rattle.map_model.specs.Ordered.{Follows};
ghost use Rattle.map_model.specs.Refusals.{NotFull};
ghost use Rattle.patience.specs.Patience.{MayTell};
ghost use Rattle.patience.specs.Scans.{HandsOn, Scans, Breaks};

use crate::attempts::part_patiently;
use crate::limits::Patience;
use key_bytes::Bound;
use map_model::{Ordered, Page, Refusal};

/// Hands on the pairs from `from`, included, to `to`, excluded, in the order of their keys, until `each`
/// answers false. It says whether none is left.
///
/// A part of the range is asked for, again while patience lasts, and its pairs are handed on before the next
/// one is. Calls of other lanes may come between two parts. `page` holds a part's pairs; it may be used again.
pub fn scan_patiently<O: Ordered, P: Patience, F: FnMut(&[u8], &[u8]) -> bool>(
    store: &mut O,
    patience: &mut P,
    from: &Bound,
    to: &Bound,
    page: &mut Page,
    mut each: F,
) -> Result<bool, Refusal>
    requires { F.IsAlwaysCallable each }
    ensures ok { IfOk result (λ whole. Follows (O.stands store.old) (O.stands store.new)
        (Scans (CalledAtTwo F.FnMut) (O.lane store.old) (O.sole store.old) from.now to.now each whole)) }
    ensures map { IfOk result (λ whole. IsTrue (O.sole store.old) → (seen : List Entry) → O.stands store.old seen
        → (last : F) × HandsOn (CalledAtTwo F.FnMut) each (between (after seen) from.now to.now) whole last) }
    ensures refused { OnErr result (Follows (O.stands store.old) (O.stands store.new)
        (Breaks (CalledAtTwo F.FnMut) (O.lane store.old) (O.sole store.old) from.now to.now each)) }
    ensures kept { (O.lane store.new ≡ O.lane store.old) × (O.sole store.new ≡ O.sole store.old)
        × (O.origin store.new ≡ O.origin store.old) × (P.limit patience.new ≡ P.limit patience.old) }
    ensures forks { O.room store.new ≡ O.room store.old }
    ensures fits { (history : List Entry) → O.fits store.old history → O.fits store.new history }
    ensures told { IfErr result (MayTell (P.limit patience.old) (O.sole store.old)) }
    ensures room { NotFull result }
{
    scan_parts(store, patience, from, to, page, &mut each)
}

// The scan, as what it leaves in the history.
fn scan_parts<O: Ordered, P: Patience, F: FnMut(&[u8], &[u8]) -> bool>(
    store: &mut O,
    patience: &mut P,
    from: &Bound,
    to: &Bound,
    page: &mut Page,
    each: &mut F,
) -> Result<bool, Refusal>
    requires { F.IsAlwaysCallable each.old }
    ensures ok { IfOk result (λ whole. Follows (O.stands store.old) (O.stands store.new)
        (Scans (CalledAtTwo F.FnMut) (O.lane store.old) (O.sole store.old) from.now to.now each.old whole)) }
    ensures refused { OnErr result (Follows (O.stands store.old) (O.stands store.new)
        (Breaks (CalledAtTwo F.FnMut) (O.lane store.old) (O.sole store.old) from.now to.now each.old)) }
    ensures kept { (O.lane store.new ≡ O.lane store.old) × (O.sole store.new ≡ O.sole store.old)
        × (O.origin store.new ≡ O.origin store.old) × (P.limit patience.new ≡ P.limit patience.old) }
    ensures forks { O.room store.new ≡ O.room store.old }
    ensures fits { (history : List Entry) → O.fits store.old history → O.fits store.new history }
    ensures told { IfErr result (MayTell (P.limit patience.old) (O.sole store.old)) }
    ensures room { NotFull result }
{
    let mut at = from.copy()?;
    let mut more = at.order(to).is_lt();
    'parts: while more {
        match part_patiently(store, patience, &at, to, page) {
            Ok(upto) => {
                more = upto.order(to).is_lt();
                at = upto;
                if !hand_on(page, each) {
                    return Ok(false);
                }
            }
            Err(refusal) => return Err(refusal),
        }
    }
    Ok(true)
}

// Hands on the pairs of a page until `each` answers false.
fn hand_on<F: FnMut(&[u8], &[u8]) -> bool>(page: &Page, each: &mut F) -> bool
    requires { F.IsAlwaysCallable each.old }
    ensures callable { F.IsAlwaysCallable each.new }
    ensures handed { HandsOn (CalledAtTwo F.FnMut) each.old page.now.pairs result each.new }
{
    for i in 0..page.len() {
        if !each(page.key(i), page.value(i)) {
            return false;
        }
    }
    true
}
