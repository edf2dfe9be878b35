//! A put and a del of one key, and the care for its leaf.

ghost use Rattle.std.specs.Prelude.{◌≡◌, ◌<◌, ◌⊎◌, true, IsSome, IfOk, IfErr, OnOk};
ghost use Rattle.anchor_rules.specs.Anchors.{has_leaf};
ghost use Rattle.map_model.specs.Maps.{find};
ghost use Rattle.leaf_table.specs.Facts.{IsWhole};
ghost use Rattle.leaf_table.specs.Places.{IsPlace};
ghost use Rattle.leaf_table.specs.Table.{size_at};
ghost use Rattle.solo_index.specs.Tending.{Opens, IsPut, IsTaken};
ghost use Rattle.solo_index.specs.Causes.{RefusesPut, LeavesCrowded};

use crate::tending::{Put, Taken, Tended, tend_large, tend_small};
use key_bytes::Key;
use leaf_table::{LeafTable, Place, SplitFault};
use map_model::{Full, Refusal};

/// Sets the value of a key, and tends its leaf.
pub(crate) fn put_key(table: &mut LeafTable, key: &Key, value: &[u8]) -> Result<Put, Refusal>
    ensures ok { IfOk result (IsPut table.old table.new key.now value.now) }
    ensures refused { IfErr result (RefusesPut table.old table.new key.now) }
    ensures whole { IsWhole table.old }
{
    let values = u64::from(table.shape().values);
    if table.len() == values {
        return Err(Refusal::Full(Full::Values {
            drawn: values,
            cap: values,
        }));
    }
    let place = open_leaf(table, key)?;
    let new = table.set(place, key, value)?;
    let tended = tend_large(table, place.leaf);
    Ok(Put { new, tended })
}

// The place of a key, in a leaf with room for the key: a crowded one is split first.
#[inline]
fn open_leaf(table: &mut LeafTable, key: &Key) -> Result<Place, Refusal>
    ensures opens { OnOk result (Opens table.old table.new key.now) }
    ensures place { IfOk result (λ place. IsPlace table.new key.now place) }
    ensures live { IfOk result (λ place. has_leaf table.new.anchors place.leaf ≡ true) }
    ensures room { IfOk result (λ place. (size_at table.new place.leaf < table.new.shape.hard) ⊎ IsSome (find table.new.map key.now)) }
    ensures refused { IfErr result (LeavesCrowded table.old table.new key.now) }
{
    let hard = table.shape().hard;
    let place = table.place_of(key);
    if table.size(place.leaf) < hard as usize || table.find(place, key).is_some() {
        return Ok(place);
    }
    match table.split(place.leaf) {
        Ok(()) => Ok(table.place_of(key)),
        Err(SplitFault::Table(why)) => Err(Refusal::Full(Full::Crowded {
            count: hard,
            hard,
            why,
        })),
        Err(SplitFault::NoMemory) => Err(Refusal::NoMemory),
    }
}

/// Takes a key out, and tends its leaf if the key was there.
pub(crate) fn take_key(table: &mut LeafTable, key: &Key) -> Taken
    ensures taken { IsTaken table.old table.new key.now result }
    ensures whole { IsWhole table.old }
{
    let _ = table.shape();
    let place = table.place_of(key);
    if !table.remove(place, key) {
        return Taken {
            gone: false,
            tended: Tended::Nothing,
        };
    }
    let tended = tend_small(table, place.leaf);
    Taken { gone: true, tended }
}
