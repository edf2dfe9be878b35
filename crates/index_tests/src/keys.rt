//! Puts and removals of single keys by the steps below the index: they don't tend the key's leaf.

ghost use Rattle.std.specs.Prelude.{◌≡◌, ◌≤◌, ◌<◌, None, Some, IsSome, IsNone, IfSome, IfNone, IfOk, IfErr, OnErr, length, if◌then◌else◌};
ghost use Rattle.map_model.specs.Calls.{Put, New, Set, answer_of};
ghost use Rattle.map_model.specs.Maps.{IsMap, with};
ghost use Rattle.board_rule.specs.Passes.{view, IsOf};
ghost use Rattle.board_rule.specs.Steps.{Gives};
ghost use Rattle.board_rule.specs.Views.{has};
ghost use Rattle.leaf_versions.specs.Holding.{IsHeld};
ghost use Rattle.worm_index.specs.Idle.{IsIdle};
ghost use Rattle.index_tests.specs.Leaves.{IsPlaced, IsNotedFor, HoldsOnly};

use board_rule::{Board, Event, Pass};
use key_bytes::{Bytes, Key};
use leaf_store::Leaf;
use leaf_versions::{Held, NoEntry, lock, see, unlock};
use map_model::Again;
use prefix_search::Hint;
use split_merge::{TendFault, Tended};
use std::alloc::Global;
use std::sync::ledger::Ledger;
use steps::Steps;
use twin_tables::{pin, seek_pinned};

// A key was put, which was there or not.
#[derive(Drop)]
struct Stored<'a> {
    key: &'a Key,
    value: &'a Bytes,
    there: bool,
}

impl<'a> Event for Stored<'a> {
    ghost use Rattle.std.specs.Prelude.{Some, if◌then◌else◌};
    ghost use Rattle.map_model.specs.Calls.{Put, New, Set};

    ghost deed = { λ e. Some (Put e.key.now e.value.now, if e.there then Set else New) };
}

// A key was taken out, if it was there.
#[derive(Drop)]
struct TakenOut<'a> {
    key: &'a Key,
    gone: bool,
}

impl<'a> Event for TakenOut<'a> {
    ghost use Rattle.std.specs.Prelude.{Some, if◌then◌else◌};
    ghost use Rattle.map_model.specs.Calls.{Del, Gone, Absent};

    ghost deed = { λ e. Some (Del e.key.now, if e.gone then Gone else Absent) };
}

// The leaf of a key by a version.
#[derive(Clone, Copy)]
pub(crate) struct Place<'k> {
    pub(crate) key: &'k Key,
    pub(crate) leaf: u32,
    pub(crate) version: u64,
}

/// Searches the published table for the leaf of a key.
pub(crate) fn locate<'k, L: Ledger>(
    pass: &mut Pass,
    board: &Board,
    key: &'k Key,
    steps: &mut Steps<L>,
) -> Result<Place<'k>, Again>
    requires of { IsOf board.now pass.old }
    requires lane { IsSome pass.old.lane }
    requires idle { IsIdle (view pass.old) }
    ensures of { IsOf board.now pass.new }
    ensures lane { pass.new.lane ≡ pass.old.lane }
    ensures idle { IsIdle (view pass.new) }
    ensures key { IfOk result (λ place. place.key.now ≡ key.now) }
    ensures placed { IfOk result (λ place. IsPlaced board.now.shape key.now place.version place.leaf (view pass.new)) }
{
    let mut hint = Hint::new();
    let mut pinned = pin(pass, board)?;
    let version = pinned.version();
    let sought = seek_pinned(&mut pinned, key, &mut hint, steps);
    pinned.unpin();
    Ok(Place {
        key,
        leaf: sought.leaf,
        version,
    })
}

/// Locks the leaf of a place, by its version.
pub(crate) fn hold<L: Ledger>(
    pass: &mut Pass,
    board: &Board,
    place: Place,
    steps: &mut Steps<L>,
) -> Result<Held, Again>
    requires of { IsOf board.now pass.old }
    requires lane { IsSome pass.old.lane }
    requires idle { IsIdle (view pass.old) }
    requires placed { IsPlaced board.now.shape place.key.now place.version place.leaf (view pass.old) }
    ensures of { IsOf board.now pass.new }
    ensures lane { pass.new.lane ≡ pass.old.lane }
    ensures held { IfOk result (λ held. IsHeld board.now.shape (view pass.new) held) }
    ensures gives { IfOk result (λ held. Gives board.now.shape (has (view pass.new) held.leaf) None held.content) }
    ensures few { IfOk result (λ held. IsMap held.content.map × (length held.content.map ≤ board.now.shape.hard)) }
    ensures note { IfOk result (λ held. IsNotedFor place.entry.key.now (view pass.new) held) }
    ensures only { IfOk result (λ held. HoldsOnly (view pass.new) held.leaf) }
    ensures idle { OnErr result (IsIdle (view pass.new)) }
{
    let seen = see(pass, board, place.leaf);
    match lock(pass, board, place.leaf, seen, place.version, steps) {
        Ok(held) => Ok(held),
        Err(again) => Err(again),
    }
}

/// Gives a leaf back with its keys as they are.
pub(crate) fn release(pass: &mut Pass, board: &Board, held: Held, _key: &Key)
    requires of { IsOf board.now pass.old }
    requires lane { IsSome pass.old.lane }
    requires held { IsHeld board.now.shape (view pass.old) held }
    requires gives { Gives board.now.shape (has (view pass.old) held.leaf) None held.content }
    requires note { IsNotedFor _key.now (view pass.old) held }
    requires only { HoldsOnly (view pass.old) held.leaf }
    ensures of { IsOf board.now pass.new }
    ensures lane { pass.new.lane ≡ pass.old.lane }
    ensures idle { IsIdle (view pass.new) }
{
    unlock(pass, board, held, &NoEntry);
}

// Puts a key into a leaf, and says whether it was there; does nothing where there is no room.
fn store(
    alloc: Global,
    content: &mut Leaf<Bytes>,
    hard: u32,
    key: &Key,
    value: &Bytes,
) -> Option<bool>
    ensures stored { IfSome result (λ there. (content.new.map ≡ with content.old.map key.now value.now) × ((if there then Set else New) ≡ answer_of content.old.map (Put key.now value.now)) × (length content.new.map ≤ hard)) }
    ensures kept { IfNone result (content.new.map ≡ content.old.map) }
    ensures salt { content.new.salt ≡ content.old.salt }
{
    if content.len() >= hard as usize {
        return None;
    }
    let Ok(key) = key.copy() else { return None };
    let Ok(value) = Bytes::copied(alloc, value.get()) else {
        return None;
    };
    match content.reserve_one() {
        Ok(()) => Some(content.insert_reserved(key, value).is_some()),
        Err(_) => None,
    }
}

// Puts a key into its held leaf, if that has room, and gives the leaf back.
fn put_held(pass: &mut Pass, board: &Board, mut held: Held, key: &Key, value: &Bytes) -> bool
    requires of { IsOf board.now pass.old }
    requires lane { IsSome pass.old.lane }
    requires held { IsHeld board.now.shape (view pass.old) held }
    requires gives { Gives board.now.shape (has (view pass.old) held.leaf) None held.content }
    requires note { IsNotedFor key.now (view pass.old) held }
    requires only { HoldsOnly (view pass.old) held.leaf }
    ensures of { IsOf board.now pass.new }
    ensures lane { pass.new.lane ≡ pass.old.lane }
    ensures idle { IsIdle (view pass.new) }
{
    let stored = store(
        pass.alloc(),
        &mut held.content,
        board.shape().hard,
        key,
        value,
    );
    match stored {
        Some(there) => unlock(pass, board, held, &Stored { key, value, there }),
        None => unlock(pass, board, held, &NoEntry),
    }
    stored.is_some()
}

// Takes a key out of its held leaf, gives the leaf back, and says whether the key was there.
fn take_held(pass: &mut Pass, board: &Board, mut held: Held, key: &Key) -> bool
    requires of { IsOf board.now pass.old }
    requires lane { IsSome pass.old.lane }
    requires held { IsHeld board.now.shape (view pass.old) held }
    requires gives { Gives board.now.shape (has (view pass.old) held.leaf) None held.content }
    requires few { IsMap held.content.map × (length held.content.map ≤ board.now.shape.hard) }
    requires note { IsNotedFor key.now (view pass.old) held }
    requires only { HoldsOnly (view pass.old) held.leaf }
    ensures of { IsOf board.now pass.new }
    ensures lane { pass.new.lane ≡ pass.old.lane }
    ensures idle { IsIdle (view pass.new) }
{
    let gone = held.content.remove(key).is_some();
    unlock(pass, board, held, &TakenOut { key, gone });
    gone
}

/// Tries once to put a key: it fails where another lane is in the way, or the leaf has no room.
pub(crate) fn put<L: Ledger>(
    pass: &mut Pass,
    board: &Board,
    key: &Key,
    value: &Bytes,
    steps: &mut Steps<L>,
) -> bool
    requires of { IsOf board.now pass.old }
    requires lane { IsSome pass.old.lane }
    requires idle { IsIdle (view pass.old) }
    ensures of { IsOf board.now pass.new }
    ensures lane { pass.new.lane ≡ pass.old.lane }
    ensures idle { IsIdle (view pass.new) }
{
    let Ok(place) = locate(pass, board, key, steps) else {
        return false;
    };
    match hold(pass, board, place, steps) {
        Ok(held) => put_held(pass, board, held, key, value),
        Err(_) => false,
    }
}

/// Tries once to take a key out: it fails where another lane is in the way, or the key isn't there.
pub(crate) fn take<L: Ledger>(
    pass: &mut Pass,
    board: &Board,
    key: &Key,
    steps: &mut Steps<L>,
) -> bool
    requires of { IsOf board.now pass.old }
    requires lane { IsSome pass.old.lane }
    requires idle { IsIdle (view pass.old) }
    ensures of { IsOf board.now pass.new }
    ensures lane { pass.new.lane ≡ pass.old.lane }
    ensures idle { IsIdle (view pass.new) }
{
    let Ok(place) = locate(pass, board, key, steps) else {
        return false;
    };
    match hold(pass, board, place, steps) {
        Ok(held) => take_held(pass, board, held, key),
        Err(_) => false,
    }
}

/// Why the leaf of a place isn't locked, if it isn't; else it is given back at once.
pub(crate) fn refusal<L: Ledger>(
    pass: &mut Pass,
    board: &Board,
    place: Place,
    steps: &mut Steps<L>,
) -> Option<Again>
    requires of { IsOf board.now pass.old }
    requires lane { IsSome pass.old.lane }
    requires idle { IsIdle (view pass.old) }
    requires placed { IsPlaced board.now.shape place.key.now place.version place.leaf (view pass.old) }
    ensures of { IsOf board.now pass.new }
    ensures lane { pass.new.lane ≡ pass.old.lane }
    ensures idle { IsIdle (view pass.new) }
{
    match hold(pass, board, place, steps) {
        Ok(held) => {
            release(pass, board, held, place.key);
            None
        }
        Err(again) => Some(again),
    }
}

/// Tends the leaf of a key.
pub(crate) fn tend<L: Ledger>(
    pass: &mut Pass,
    board: &Board,
    key: &Key,
    steps: &mut Steps<L>,
) -> Result<Tended, TendFault>
    requires of { IsOf board.now pass.old }
    requires lane { IsSome pass.old.lane }
    requires idle { IsIdle (view pass.old) }
    ensures of { IsOf board.now pass.new }
    ensures lane { pass.new.lane ≡ pass.old.lane }
    ensures idle { IsIdle (view pass.new) }
{
    split_merge::tend(pass, board, key, steps)
}

/// The word of a leaf.
pub(crate) fn word(pass: &mut Pass, board: &Board, leaf: u32) -> u64
    requires of { IsOf board.now pass.old }
    requires lane { IsSome pass.old.lane }
    requires idle { IsIdle (view pass.old) }
    requires leaf { leaf < board.now.shape.leaves }
    ensures of { IsOf board.now pass.new }
    ensures lane { pass.new.lane ≡ pass.old.lane }
    ensures idle { IsIdle (view pass.new) }
{
    see(pass, board, leaf)
}
