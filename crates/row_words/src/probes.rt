//! A look at one item.

ghost use Rattle.std.specs.Prelude.{◌≡◌, ◌+◌};
ghost use Rattle.row_words.specs.Decode.{IsUsed, Probed};

use crate::anchor_starts::anchor_begins;
use crate::layout::{ANCHOR_MARK, LENGTHS, UPPER};
use crate::{ItemRow, Probe, Words};
use std::sync::ledger::Ledger;
use steps::Steps;

/// What a look at the item at a place tells of a prefix, whose hash is given. It ticks one step.
/// Only where hash and length agree are bytes compared.
pub fn probe_words<W: Words, L: Ledger>(
    words: &mut W,
    at: u32,
    prefix: &[u8],
    hash: u64,
    steps: &mut Steps<L>,
) -> Probe
    requires used { IsUsed (W.shape words.old) (W.words words.old) at }
    ensures value { Probed (W.shape words.old) (W.words words.old) at prefix.now hash result }
    ensures steps { steps.new ≡ steps.old + 1 }
    ensures read { W.rows_read words.new ≡ W.rows_read words.old + 1 }
    ensures words { W.words words.new ≡ W.words words.old }
    ensures shape { W.shape words.new ≡ W.shape words.old }
    ensures stays { W.stays words.old words.new }
{
    steps.tick();
    let [found, link, sides] = words.item_head(at);
    let next = (link % UPPER) as u32;
    let len = (link / UPPER % LENGTHS) as u32;
    let leftmost = (sides % UPPER) as u32;
    if found != hash || len as usize != prefix.len() {
        return Probe::Other { next };
    }
    if !anchor_begins(words, leftmost, prefix) {
        return Probe::Other { next };
    }
    Probe::Same(ItemRow {
        next,
        len,
        is_anchor: link / ANCHOR_MARK % 2 == 1,
        leftmost,
        rightmost: (sides / UPPER) as u32,
        bits: words.item_bits(at),
    })
}
