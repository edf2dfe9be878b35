//! What is done about a leaf's size behind a change of its keys.

ghost use Rattle.std.specs.Prelude.{ℕ, ◌≡◌, ◌+◌, ◌<◌, ◌≤◌, true, MatchOption};
ghost use Rattle.std.specs.Option.{option_map};
ghost use Rattle.anchor_rules.specs.Anchors.{has_leaf};
ghost use Rattle.leaf_spans.specs.Tending.{IsLarge};
ghost use Rattle.leaf_table.specs.Facts.{AreBeside};
ghost use Rattle.leaf_table.specs.Table.{size_at};
ghost use Rattle.solo_index.specs.Tending.{IsPair, TendsLarge, TendsSmall, pair_on};

use leaf_spans::{Side, Wanted, partner, wish};
use leaf_table::{LeafTable, Neighbours, SplitFault};
use map_model::TableFull;

/// What was done about the size of a leaf.
#[derive(Clone, Copy, Debug, PartialEq, Eq)]
pub enum Tended {
    /// Its size asks for nothing.
    Nothing,
    /// Its upper half went to a new leaf.
    Split,
    /// It has more keys than it should have, and the table has no room for a split.
    Refused(TableFull),
    /// It and a neighbour became one.
    Merged,
    /// A split or a merge would have been made, and an allocation failed.
    NoMemory,
}

/// What a put did.
#[derive(Clone, Copy, Debug, PartialEq, Eq)]
pub struct Put {
    /// Whether the key wasn't there.
    pub new: bool,
    /// What was done about the key's leaf afterwards.
    pub tended: Tended,
}

/// What a del did.
#[derive(Clone, Copy, Debug, PartialEq, Eq)]
pub struct Taken {
    /// Whether the key was there.
    pub gone: bool,
    /// What was done about the key's leaf afterwards.
    pub tended: Tended,
}

/// Splits a leaf once, where it has more keys than it should have and the table has room.
pub(crate) fn tend_large(table: &mut LeafTable, leaf: u32) -> Tended
    requires { has_leaf table.old.anchors leaf ≡ true }
    ensures { TendsLarge table.old table.new leaf result }
{
    let shape = table.shape();
    match wish(table.size(leaf), shape.soft, shape.merge_sum) {
        Wanted::Split => split(table, leaf),
        _ => Tended::Nothing,
    }
}

// Splits a leaf, where the table has room.
fn split(table: &mut LeafTable, leaf: u32) -> Tended
    requires live { has_leaf table.old.anchors leaf ≡ true }
    requires large { IsLarge (size_at table.old) table.old.shape.soft leaf }
    requires some { 0 < table.old.shape.soft }
    ensures { TendsLarge table.old table.new leaf result }
{
    match table.split(leaf) {
        Ok(()) => Tended::Split,
        Err(SplitFault::Table(why)) => Tended::Refused(why),
        Err(SplitFault::NoMemory) => Tended::NoMemory,
    }
}

/// Merges a leaf with a neighbour, where both together have few enough keys: with the right one, else
/// with the left one.
pub(crate) fn tend_small(table: &mut LeafTable, leaf: u32) -> Tended
    requires { has_leaf table.old.anchors leaf ≡ true }
    ensures { TendsSmall table.old table.new leaf result }
{
    match mergeable(table, leaf) {
        Some((left, right)) => match table.merge(left, right) {
            Ok(()) => Tended::Merged,
            Err(_) => Tended::NoMemory,
        },
        None => Tended::Nothing,
    }
}

// The two leaves that are to be merged for a leaf's sake, the left one first.
fn mergeable(table: &mut LeafTable, leaf: u32) -> Option<(u32, u32)>
    requires { has_leaf table.old.anchors leaf ≡ true }
    ensures pair { MatchOption result ((left right : ℕ) → IsPair table.old leaf left right → ⊥)
        (λ pair. IsPair table.old leaf pair.0 pair.1) }
    ensures few { MatchOption result (Unit {0}) (λ pair. size_at table.old pair.0 + size_at table.old pair.1 ≤ table.old.shape.hard) }
    ensures same { table.new ≡ table.old }
{
    let shape = table.shape();
    match wish(table.size(leaf), shape.soft, shape.merge_sum) {
        Wanted::Merge => {
            let beside = table.neighbours(leaf);
            pair(table, leaf, beside)
        }
        _ => None,
    }
}

// A leaf with few keys and the neighbour with which it is to be merged, the left one first.
fn pair(table: &LeafTable, leaf: u32, beside: Neighbours) -> Option<(u32, u32)>
    requires live { has_leaf table.now.anchors leaf ≡ true }
    requires beside { AreBeside table.now.anchors leaf beside }
    ensures pair { MatchOption result ((left right : ℕ) → IsPair table.now leaf left right → ⊥)
        (λ pair. IsPair table.now leaf pair.0 pair.1) }
    ensures few { MatchOption result (Unit {0}) (λ pair. size_at table.now pair.0 + size_at table.now pair.1 ≤ table.now.shape.hard) }
{
    let merge_sum = table.shape().merge_sum;
    let left = size_of(table, beside.left);
    let right = size_of(table, beside.right);
    let side = partner(table.size(leaf), merge_sum, left, right);
    on_side(leaf, beside, side)
}

// How many keys a leaf has, if there is one.
fn size_of(table: &LeafTable, leaf: Option<u32>) -> Option<usize>
    requires { MatchOption leaf (Unit {0}) (λ leaf. has_leaf table.now.anchors leaf ≡ true) }
    ensures { result ≡ option_map (size_at table.now) leaf }
{
    match leaf {
        Some(leaf) => Some(table.size(leaf)),
        None => None,
    }
}

// A leaf and its neighbour on a side, the left one first.
fn on_side(leaf: u32, beside: Neighbours, side: Option<Side>) -> Option<(u32, u32)>
    ensures { result ≡ pair_on leaf beside.left beside.right side }
{
    match (side, beside.left, beside.right) {
        (Some(Side::Right), _, Some(right)) => Some((leaf, right)),
        (Some(Side::Left), Some(left), _) => Some((left, leaf)),
        _ => None,
    }
}
