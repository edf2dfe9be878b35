//! The calls on one leaf. A leaf's word is its date times 256, and its holder's lane + 1, or 0 where
//! no lane holds it.

ghost use Rattle.std.specs.Prelude.{◌≡◌, ℕ, ◌+◌, ◌*◌, ◌/◌, ◌%◌, ◌^◌, ◌<◌, ◌≤◌, ◌↔◌, true, Some, None, IsSome, IsNone, IfSome, IsOk, IfOk, IfErr};
ghost use Rattle.anchor_rules.specs.Anchors.{Anchors};
ghost use Rattle.board_rule.specs.Rule.{leaf_word};
ghost use Rattle.board_rule.specs.Views.{held_at, has, looked, raised};
ghost use Rattle.board_rule.specs.Steps.{Grew, Gives, Fresh, Ends, current};
ghost use Rattle.board_rule.specs.Passes.{lane_of, view, IsOf};
ghost use Rattle.leaf_versions.specs.Holding.{IsHeld, Took};
ghost use Rattle.leaf_versions.specs.Refused.{WasSeen, StillSeen, IsRefused, NamesOther, NotStale};

use crate::held::Held;
use board_rule::{Board, Event, Pass, move_leaf_in, move_leaf_out};
use map_model::Again;
use std::sync::ledger::Ledger;
use steps::Steps;

/// Loads a leaf's word, and answers it: the version from which on the leaf has its span, times 256,
/// and the holder's lane + 1, or 0 where no lane holds it.
pub fn see(pass: &mut Pass, board: &Board, leaf: u32) -> u64
    requires of { IsOf board.now pass.old }
    requires lane { IsSome pass.old.lane }
    requires leaf { leaf < board.now.shape.leaves }
    ensures of { IsOf board.now pass.new }
    ensures lane { pass.new.lane ≡ pass.old.lane }
    ensures grew { Grew (view pass.old) (view pass.new) }
    ensures view { view pass.new ≡ looked (leaf_word board.now.shape leaf) result (view pass.old) }
    ensures still { StillSeen board.now.shape leaf (view pass.new) result }
{
    board_rule::look(pass, board, board.leaf_word(leaf) as u32)
}

/// Locks a leaf that was seen with this word, by a note of the version `searched`, and takes its
/// content out. It is refused where the word has a holder, or is newer than `searched`, without a
/// look; and where its exchange finds another word.
///
/// It is inlined wherever it is called, so that the content moves out of its place but once.
#[inline(always)]
pub fn lock<L: Ledger>(
    pass: &mut Pass,
    board: &Board,
    leaf: u32,
    seen: u64,
    searched: u64,
    steps: &mut Steps<L>,
) -> Result<Held, Again>
    requires of { IsOf board.now pass.old }
    requires lane { IsSome pass.old.lane }
    requires leaf { leaf < board.now.shape.leaves }
    requires seen { WasSeen board.now.shape leaf (view pass.old) seen }
    ensures of { IsOf board.now pass.new }
    ensures lane { pass.new.lane ≡ pass.old.lane }
    ensures grew { Grew (view pass.old) (view pass.new) }
    ensures steps { steps.new ≡ steps.old + 1 }

    // What is locked, and what each refusal says.
    ensures ok { IfOk result (λ held. Took board.now.shape leaf seen searched (lane_of pass.old.lane) (view pass.old) (view pass.new) held) }
    ensures refused { IfErr result (λ again. IsRefused board.now.shape leaf seen searched (view pass.old) (view pass.new) again) }

    // Where the pass doesn't hold the leaf and its view still bears the look out, no refusal names the
    // pass's own lane, none is `Stale` where the pass has the turn and searched the version, and a sole
    // pass is refused only as `Stale`.
    ensures other { held_at (view pass.old) leaf ≡ None → StillSeen board.now.shape leaf (view pass.old) seen → IfErr result (λ again. NamesOther (lane_of pass.old.lane) again) }
    ensures dated { held_at (view pass.old) leaf ≡ None → StillSeen board.now.shape leaf (view pass.old) seen → (n : ℕ) (A : Anchors) → (view pass.old).current ≡ Some (n, A) → n ≤ searched → IfErr result (λ again. NotStale again) }
    ensures sole { held_at (view pass.old) leaf ≡ None → StillSeen board.now.shape leaf (view pass.old) seen → (view pass.old).sole ≡ true → seen / 256 ≤ searched → IsOk result }
{
    steps.tick();
    if let Some(holder) = holder(seen) {
        return Err(Again::Locked { leaf, holder });
    }
    let expected = seen / 256;
    if expected > searched {
        return Err(Again::Stale {
            leaf,
            expected,
            searched,
        });
    }
    let found = board_rule::lock(pass, board, leaf, seen);
    if found == seen {
        let content = move_leaf_out(pass, board, leaf);
        return Ok(Held {
            leaf,
            date: expected,
            content,
        });
    }
    match holder(found) {
        Some(holder) => Err(Again::Locked { leaf, holder }),
        None => Err(Again::Changed {
            leaf,
            before: seen,
            after: found,
        }),
    }
}

// The lane that a leaf's word names as its holder.
fn holder(word: u64) -> Option<u32>
    ensures none { IsNone result ↔ (word % 256 ≡ 0) }
    ensures some { IfSome result (λ holder. word % 256 ≡ holder + 1) }
{
    match word % 256 {
        0 => None,
        name => Some((name - 1) as u32),
    }
}

/// Dates a held leaf one above the version, which the pass loaded under its turn.
pub fn raise(pass: &mut Pass, board: &Board, held: &mut Held, version: u64)
    requires of { IsOf board.now pass.old }
    requires lane { IsSome pass.old.lane }
    requires held { IsHeld board.now.shape (view pass.old) held.old }
    requires turn { IsSome (view pass.old).current }
    requires version { version ≡ current (view pass.old) }
    requires bound { version + 1 < 2 ^ 56 }
    ensures of { IsOf board.now pass.new }
    ensures lane { pass.new.lane ≡ pass.old.lane }
    ensures grew { Grew (view pass.old) (view pass.new) }
    ensures view { view pass.new ≡ raised (leaf_word board.now.shape held.old.leaf) held.old.leaf ((version + 1) * 256 + lane_of pass.old.lane + 1) (has (view pass.old) held.old.leaf) (view pass.old) }
    ensures held { IsHeld board.now.shape (view pass.new) held.new }
    ensures date { held.new.date ≡ version + 1 }
    ensures same { (held.new.leaf ≡ held.old.leaf) × (held.new.content ≡ held.old.content) }
{
    let word = (version + 1) * 256 + pass.number() as u64 + 1;
    board_rule::raise(pass, board, held.leaf, word);
    held.date = version + 1;
}

/// Puts the content of a held leaf back and gives the leaf back. The event's call, if it has one, is
/// then the last one of the history.
pub fn unlock<E: Event>(pass: &mut Pass, board: &Board, held: Held, event: &E)
    requires of { IsOf board.now pass.old }
    requires lane { IsSome pass.old.lane }
    requires held { IsHeld board.now.shape (view pass.old) held }
    requires gives { Gives board.now.shape (has (view pass.old) held.leaf) (E.deed event.now) held.content }
    requires note { Fresh (view pass.old) held.leaf (E.deed event.now) }
    ensures of { IsOf board.now pass.new }
    ensures lane { pass.new.lane ≡ pass.old.lane }
    ensures grew { Grew (view pass.old) (view pass.new) }
    ensures view { Ends (leaf_word board.now.shape held.leaf) held.leaf (held.date * 256) (lane_of pass.old.lane) (E.deed event.now) pass.old.seat.me pass.new.seat.me }
{
    let Held {
        leaf,
        date,
        content,
    } = held;
    move_leaf_in(pass, board, leaf, content);
    board_rule::unlock(pass, board, leaf, date * 256, event);
}
