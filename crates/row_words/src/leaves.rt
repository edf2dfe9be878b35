//! A look at one leaf's row.

ghost use Rattle.std.specs.Prelude.{◌≡◌, ◌+◌};
ghost use Rattle.row_words.specs.Decode.{IsLive, anchor_at, previous_at, next_at};

use crate::layout::{ANCHOR_WORDS, BYTES_PART, MARK_PART, NEXT_PART, UPPER};
use crate::{AnchorWords, LeafRow, Words};
use std::sync::ledger::Ledger;
use steps::Steps;

/// The row of a live leaf. It ticks one step.
pub fn leaf_words<W: Words, L: Ledger>(words: &mut W, at: u32, steps: &mut Steps<L>) -> LeafRow
    requires live { IsLive (W.shape words.old) (W.words words.old) at }
    ensures anchor { result.anchor ≡ anchor_at (W.shape words.old) (W.words words.old) at }
    ensures previous { result.previous ≡ previous_at (W.shape words.old) (W.words words.old) at }
    ensures next { result.next ≡ next_at (W.shape words.old) (W.words words.old) at }
    ensures steps { steps.new ≡ steps.old + 1 }
    ensures read { W.rows_read words.new ≡ W.rows_read words.old + 1 }
    ensures words { W.words words.new ≡ W.words words.old }
    ensures shape { W.shape words.new ≡ W.shape words.old }
    ensures stays { W.stays words.old words.new }
{
    steps.tick();
    let mark = words.leaf_part(at, MARK_PART);
    let len = (mark - 1) as u32;
    let mut packed = [0; ANCHOR_WORDS];
    // The words behind the anchor's last byte aren't looked at.
    for j in 0..(len + 7) / 8 {
        packed[j as usize] = words.leaf_part(at, BYTES_PART + j);
    }
    LeafRow {
        anchor: AnchorWords { len, words: packed },
        previous: (words.leaf_before(at) % UPPER) as u32,
        next: (words.leaf_part(at, NEXT_PART) % UPPER) as u32,
    }
}

/// The leaf before a live one as number + 1, or 0. It ticks one step.
#[inline]
pub fn previous_words<W: Words, L: Ledger>(words: &mut W, at: u32, steps: &mut Steps<L>) -> u32
    requires live { IsLive (W.shape words.old) (W.words words.old) at }
    ensures value { result ≡ previous_at (W.shape words.old) (W.words words.old) at }
    ensures steps { steps.new ≡ steps.old + 1 }
    ensures read { W.rows_read words.new ≡ W.rows_read words.old + 1 }
    ensures words { W.words words.new ≡ W.words words.old }
    ensures shape { W.shape words.new ≡ W.shape words.old }
    ensures stays { W.stays words.old words.new }
{
    steps.tick();
    (words.leaf_before(at) % UPPER) as u32
}
