//! The links of free items.
//!
//! The items in no bucket are in one list, and the header has the first of them. An item's link
//! names the next one in such a way that words that are all 0 list every item, in the order of the
//! places: a table that begins with such words needs no word for an item that was never used. A
//! link of 0 names the item at the next place, if there is one, and `n + 1` the item that `n` would
//! name in a bucket: that at `n - 1`, or none where `n` is 0.

ghost use Rattle.std.specs.Prelude.{◌≡◌, ◌<◌, ◌≤◌, ◌-◌, ℕ};
ghost use Rattle.meta_trie.specs.Trie.{named_free};

use row_words::layout::UPPER;

/// The free item behind the one at a place of so many, by that one's link: as place + 1, or 0.
pub(crate) fn free_by_link(items: u32, at: u32, link: u32) -> u32
    requires at { at < items }
    requires few { items ≤ 4194304 }
    ensures { result ≡ named_free items at link }
{
    if link > 0 {
        link - 1
    } else if at + 1 == items {
        0
    } else {
        at + 2
    }
}

/// The link of a free item that is to name this one, given as place + 1, or 0.
pub(crate) fn free_link(free: u32) -> u32
    requires { free < UPPER - 1 }
    ensures { (items at : ℕ) → named_free items at result ≡ free }
{
    free + 1
}
