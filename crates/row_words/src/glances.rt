//! Looks at one item that read no more of it than is asked next.

ghost use Rattle.std.specs.Prelude.{◌≡◌, ◌<◌, ◌+◌, [], ◌∷◌, ◌++◌};
ghost use Rattle.row_words.specs.Decode.{item_at, IsUsed, Glanced, ChildProbed};

use crate::anchor_starts::{anchor_begins, anchor_goes_on};
use crate::layout::{ANCHOR_MARK, BITS_PART, LENGTHS, UPPER};
use crate::{ChildProbe, Glance, ItemRow, Words};
use std::sync::ledger::Ledger;
use steps::Steps;

/// What a short look at the item at a place tells of a prefix, whose hash is given, with this word of its
/// bits. It ticks one step. Only where hash and length agree are bytes compared.
#[inline]
pub fn glance_words<W: Words, L: Ledger>(
    words: &mut W,
    at: u32,
    prefix: &[u8],
    hash: u64,
    word: u32,
    steps: &mut Steps<L>,
) -> Glance
    requires used { IsUsed (W.shape words.old) (W.words words.old) at }
    requires word { word < 4 }
    ensures value { Glanced (W.shape words.old) (W.words words.old) at prefix.now hash word result }
    ensures steps { steps.new ≡ steps.old + 1 }
    ensures read { W.rows_read words.new ≡ W.rows_read words.old + 1 }
    ensures words { W.words words.new ≡ W.words words.old }
    ensures shape { W.shape words.new ≡ W.shape words.old }
    ensures stays { W.stays words.old words.new }
{
    steps.tick();
    let [found, link, sides] = words.item_head(at);
    let next = (link % UPPER) as u32;
    let leftmost = (sides % UPPER) as u32;
    if found != hash || (link / UPPER % LENGTHS) as usize != prefix.len() {
        return Glance::Miss { next };
    }
    if !anchor_begins(words, leftmost, prefix) {
        return Glance::Miss { next };
    }
    Glance::Hit {
        bits: words.item_part(at, BITS_PART + word),
    }
}

/// What a look at the item at a place tells of a child of a prefix, whose hash is given. It ticks one
/// step. Bytes are compared only where hash and length agree and the item isn't the last of its bucket.
#[inline]
pub fn child_words<W: Words, L: Ledger>(
    words: &mut W,
    at: u32,
    prefix: &[u8],
    byte: u8,
    hash: u64,
    steps: &mut Steps<L>,
) -> ChildProbe
    requires used { IsUsed (W.shape words.old) (W.words words.old) at }
    ensures value { ChildProbed (W.shape words.old) (W.words words.old) at (prefix.now ++ byte ∷ []) hash result }
    ensures steps { steps.new ≡ steps.old + 1 }
    ensures read { W.rows_read words.new ≡ W.rows_read words.old + 1 }
    ensures words { W.words words.new ≡ W.words words.old }
    ensures shape { W.shape words.new ≡ W.shape words.old }
    ensures stays { W.stays words.old words.new }
{
    steps.tick();
    let [found, link, sides] = words.item_head(at);
    let next = (link % UPPER) as u32;
    let rightmost = (sides / UPPER) as u32;
    if next == 0 {
        return ChildProbe::Found { rightmost };
    }
    if found != hash || (link / UPPER % LENGTHS) as usize != prefix.len() + 1 {
        return ChildProbe::Further { next };
    }
    if !anchor_goes_on(words, (sides % UPPER) as u32, prefix, byte) {
        return ChildProbe::Further { next };
    }
    ChildProbe::Found { rightmost }
}

/// The item at a place. It ticks one step.
#[inline]
pub fn item_words<W: Words, L: Ledger>(words: &mut W, at: u32, steps: &mut Steps<L>) -> ItemRow
    requires { at < (W.shape words.old).items }
    ensures value { result ≡ item_at (W.shape words.old) (W.words words.old) at }
    ensures steps { steps.new ≡ steps.old + 1 }
    ensures read { W.rows_read words.new ≡ W.rows_read words.old + 1 }
    ensures words { W.words words.new ≡ W.words words.old }
    ensures shape { W.shape words.new ≡ W.shape words.old }
    ensures stays { W.stays words.old words.new }
{
    steps.tick();
    let [_, link, sides] = words.item_head(at);
    ItemRow {
        next: (link % UPPER) as u32,
        len: (link / UPPER % LENGTHS) as u32,
        is_anchor: link / ANCHOR_MARK % 2 == 1,
        leftmost: (sides % UPPER) as u32,
        rightmost: (sides / UPPER) as u32,
        bits: words.item_bits(at),
    }
}
