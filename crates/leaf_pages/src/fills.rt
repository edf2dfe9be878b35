//! The pairs of the part.

ghost use Rattle.std.specs.Prelude.{◌≡◌, ◌≢◌, ◌⊎◌, ◌-◌, ◌<◌, ◌≤◌, [], length, take, drop, IsTrue, IfOk, OnOk, OnErr};
ghost use Rattle.key_bytes.specs.Bound.{bound_cmp};
ghost use Rattle.map_model.specs.Maps.{between};

use key_bytes::{Bound, Bytes};
use leaf_store::Leaf;
use map_model::Page;
use std::alloc::AllocError;
use std::cmp::Ordering;

/// Puts the pairs of a leaf between two ends into an empty page, or leaves it empty where there is no
/// memory. It puts the leaf in order first, so it takes as many steps as a sort of the new keys.
pub fn fill(
    leaf: &mut Leaf<Bytes>,
    from: &Bound,
    upto: &Bound,
    page: &mut Page,
) -> Result<(), AllocError>
    requires { page.old.pairs ≡ [] }
    ensures ok { OnOk result (page.new.pairs ≡ between leaf.old.map from.now upto.now) }
    ensures cleared { OnErr result (page.new.pairs ≡ []) }
    ensures map { leaf.new.map ≡ leaf.old.map }
    ensures salt { leaf.new.salt ≡ leaf.old.salt }
{
    let (start, end) = leaf.pairs_between(from, upto)?;
    push_pairs(leaf, start, end, page)
}

/// Puts the first pairs of a leaf between two ends into an empty page, at most so many, and answers
/// where they end: at `upto` where these are all, or at the key of the first one that is left out, of
/// which it takes a copy. It leaves the page empty where there is no memory. It puts the leaf in order
/// first, as [`fill`] does, and copies no pair beyond.
pub fn fill_few(
    leaf: &mut Leaf<Bytes>,
    from: &Bound,
    upto: Bound,
    most: usize,
    page: &mut Page,
) -> Result<Bound, AllocError>
    requires empty { page.old.pairs ≡ [] }
    requires some { 0 < most }
    requires range { bound_cmp from.now upto ≡ Ordering.Less }
    ensures pairs { IfOk result (λ end. page.new.pairs ≡ between leaf.old.map from.now end) }
    ensures end { IfOk result (λ end. (end ≡ upto) ⊎ (length page.new.pairs ≡ most)) }
    ensures most { length page.new.pairs ≤ most }
    ensures above { IfOk result (λ end. bound_cmp from.now end ≡ Ordering.Less) }
    ensures within { IfOk result (λ end. bound_cmp end upto ≢ Ordering.Greater) }
    ensures cleared { OnErr result (page.new.pairs ≡ []) }
    ensures map { leaf.new.map ≡ leaf.old.map }
    ensures salt { leaf.new.salt ≡ leaf.old.salt }
{
    let (start, end) = leaf.pairs_between(from, &upto)?;
    let stop = start + most.min(leaf.len() - start);
    if stop >= end {
        push_pairs(leaf, start, end, page)?;
        return Ok(upto);
    }
    let next = Bound::At(leaf.at(stop).0.copy()?);
    push_pairs(leaf, start, stop, page)?;
    Ok(next)
}

// Puts the pairs of a leaf from one place up to another into an empty page, or leaves it empty.
fn push_pairs(
    leaf: &Leaf<Bytes>,
    start: usize,
    end: usize,
    page: &mut Page,
) -> Result<(), AllocError>
    requires empty { page.old.pairs ≡ [] }
    requires ordered { IsTrue leaf.now.is_ordered }
    requires in_range { end ≤ length leaf.now.map }
    ensures ok { OnOk result (page.new.pairs ≡ take (end - start) (drop start leaf.now.map)) }
    ensures cleared { OnErr result (page.new.pairs ≡ []) }
{
    for i in start..end {
        let (key, value) = leaf.at(i);
        if let Err(refused) = page.push(key.bytes(), value.get()) {
            page.clear();
            return Err(refused);
        }
    }
    Ok(())
}
