//! Runs of calls over any ordered map, proved from the trait's contracts alone.
ghost use Rattle.std.specs.Prelude.{◌≡◌, ◌≤◌, ◌++◌, List, length, IfOk, OnOk, OnErr, IsTrue};
ghost use Rattle.key_bytes.specs.Bound.{bound_cmp};
ghost use Rattle.map_model.specs.Maps.{between};
ghost use Rattle.map_model.specs.History.{Entry, after};
ghost use Rattle.map_model.specs.Ordered.{Follows, got};
ghost use Rattle.test_stores.specs.Walks.{PutsThenGets, Goes, IsTold, Walks};

use key_bytes::{Bound, Key, LONGEST_VALUE};
use map_model::{Ordered, Page, Refusal};
use std::alloc::{AllocError, Global};
use std::cmp::Ordering;

/// Puts a value and gets it again. Where the store is the only lane, the value got is the one put.
pub fn put_then_get<O: Ordered>(
    store: &mut O,
    key: &Key,
    value: &[u8],
    out: &mut Vec<u8>,
) -> Result<bool, Refusal>
    requires { length value.now ≤ LONGEST_VALUE }
    ensures ok { IfOk result (λ found. Follows (O.stands store.old) (O.stands store.new)
        (PutsThenGets (O.lane store.old) (O.sole store.old) key.now value.now (got found out.new.items))) }
    ensures value { IfOk result (λ found. IsTrue (O.sole store.old) → (seen : List Entry)
        → O.stands store.old seen → IsTrue found × (out.new.items ≡ value.now)) }
    ensures refused { OnErr result (Follows (O.stands store.old) (O.stands store.new)
        (Goes (O.lane store.old) (O.sole store.old))) }
    ensures told { IsTold (O.refusals store.old) (O.refusals store.new) (O.last store.new) result }
{
    store.put(key, value)?;
    store.get(key, out)
}

/// Adds the pairs between two ends to `all`, part after part. Calls of other lanes may come between
/// the parts. Where the store is the only lane, the pairs are those of the map between the ends.
pub fn walk<O: Ordered>(
    alloc: Global,
    store: &mut O,
    from: Bound,
    to: &Bound,
    all: &mut Page,
) -> Result<(), Refusal>
    requires { bound_cmp from to.now ≡ Ordering.Less }
    ensures ok { OnOk result (Follows (O.stands store.old) (O.stands store.new)
        (Walks (O.lane store.old) (O.sole store.old) from to.now all.old.pairs all.new.pairs to.now)) }
    ensures whole { OnOk result (IsTrue (O.sole store.old) → (seen : List Entry)
        → O.stands store.old seen → all.new.pairs ≡ all.old.pairs ++ between (after seen) from to.now) }
    ensures refused { OnErr result (Follows (O.stands store.old) (O.stands store.new)
        (Goes (O.lane store.old) (O.sole store.old))) }
    ensures told { IsTold (O.refusals store.old) (O.refusals store.new) (O.last store.new) result }
{
    walk_parts(alloc, store, from, to, all)
}

// The walk, as what it leaves in the history.
fn walk_parts<O: Ordered>(
    alloc: Global,
    store: &mut O,
    from: Bound,
    to: &Bound,
    all: &mut Page,
) -> Result<(), Refusal>
    requires { bound_cmp from to.now ≡ Ordering.Less }
    ensures ok { OnOk result (Follows (O.stands store.old) (O.stands store.new)
        (Walks (O.lane store.old) (O.sole store.old) from to.now all.old.pairs all.new.pairs to.now)) }
    ensures refused { OnErr result (Follows (O.stands store.old) (O.stands store.new)
        (Goes (O.lane store.old) (O.sole store.old))) }
    ensures told { IsTold (O.refusals store.old) (O.refusals store.new) (O.last store.new) result }
{
    let mut page = Page::new(alloc);
    let mut at = from;
    at.order(to);
    'parts: loop {
        let upto = store.part(&at, to, &mut page)?;
        add_all(all, &page)?;
        let order = upto.order(to);
        at = upto;
        if !order.is_lt() {
            return Ok(());
        }
    }
}

// Adds the pairs of another page.
fn add_all(all: &mut Page, page: &Page) -> Result<(), AllocError>
    ensures { OnOk result (all.new.pairs ≡ all.old.pairs ++ page.now.pairs) }
{
    for i in 0..page.len() {
        all.push(page.key(i), page.value(i))?;
    }
    Ok(())
}
