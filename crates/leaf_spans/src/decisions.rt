//! When a leaf is split or merged, and with which neighbour.

ghost use Rattle.std.specs.Prelude.{◌↔◌, IsTrue};
ghost use Rattle.leaf_spans.specs.Tending.{IsPartner, IsWish, WillDo};

/// What a leaf's count of keys asks for.
#[derive(Clone, Copy, Debug, PartialEq, Eq)]
pub enum Wanted {
    /// It has more keys than it should have: its upper half goes to a new leaf.
    Split,
    /// It has so few keys that it may be merged with a neighbour, which [`partner`] names.
    Merge,
    /// It is let be.
    Nothing,
}

/// A neighbour of a leaf.
#[derive(Clone, Copy, Debug, PartialEq, Eq)]
pub enum Side {
    /// The leaf just before.
    Left,
    /// The leaf just behind.
    Right,
}

/// What is to be done about a leaf with this many keys: a leaf is split above `soft` keys, and merged
/// only where it and its neighbour have at most `merge_sum` keys together.
pub fn wish(count: usize, soft: u32, merge_sum: u32) -> Wanted
    ensures { IsWish count soft merge_sum result }
{
    if count > soft as usize {
        Wanted::Split
    } else if count <= merge_sum as usize {
        Wanted::Merge
    } else {
        Wanted::Nothing
    }
}

/// Which neighbour a leaf with this many keys is merged with, from the neighbours' counts of keys,
/// None where there is no such neighbour: the right one, else the left one, if both together have
/// at most `merge_sum` keys.
pub fn partner(
    count: usize,
    merge_sum: u32,
    left: Option<usize>,
    right: Option<usize>,
) -> Option<Side>
    ensures { IsPartner count merge_sum left right result }
{
    if will_do(count, merge_sum, right) {
        Some(Side::Right)
    } else if will_do(count, merge_sum, left) {
        Some(Side::Left)
    } else {
        None
    }
}

// Whether a neighbour is there and has few enough keys.
fn will_do(count: usize, merge_sum: u32, other: Option<usize>) -> bool
    ensures { IsTrue result ↔ WillDo count merge_sum other }
{
    match other {
        Some(other) => count.saturating_add(other) <= merge_sum as usize,
        None => false,
    }
}
