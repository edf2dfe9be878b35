//! Changes of keys and values.

ghost use Rattle.std.specs.Prelude.{◌≡◌, ◌<◌, ◌⊎◌, not, is_some, IsSome, IfOk, OnOk, OnErr};
ghost use Rattle.std.specs.Bool.{OnTrue, OnFalse};
ghost use Rattle.key_bytes.specs.Fnv.{prefix_hash};
ghost use Rattle.map_model.specs.Maps.{IsMap, find, with, without};
ghost use Rattle.leaf_table.specs.Places.{IsPlace};
ghost use Rattle.leaf_table.specs.Table.{size_at};

use crate::{LeafTable, Place};
use key_bytes::{Bytes, Key};
use leaf_store::Leaf;
use std::alloc::{AllocError, Global};

impl LeafTable {
    /// Sets the value of a key, whose place this is, and says whether the key is new. A new key is
    /// copied with its value. The value of a key that is there is written over the old one, in the
    /// same memory where that has room; memory that a shorter value leaves over stays with the key.
    pub fn set(&mut self, place: Place, key: &Key, value: &[u8]) -> Result<bool, AllocError>
        requires place { IsPlace self.old key.now place }
        requires room { (size_at self.old place.leaf < self.old.shape.hard) ⊎ IsSome (find self.old.map key.now) }
        ensures ok { OnOk result (self.new ≡ record self.old { map = with self.old.map key.now value.now }) }
        ensures new { IfOk result (λ new. new ≡ not (is_some (find self.old.map key.now))) }
        ensures refused { OnErr result (self.new ≡ self.old) }
    {
        let leaf = &mut self.leaves[place.leaf as usize];
        let new = put(self.alloc, leaf, place.hash, key, value)?;
        if new {
            self.keys += 1;
        }
        Ok(new)
    }

    /// Takes a key out, whose place this is, and says whether it was there.
    pub fn remove(&mut self, place: Place, key: &Key) -> bool
        requires { IsPlace self.old key.now place }
        ensures map { self.new ≡ record self.old { map = without self.old.map key.now } }
        ensures gone { result ≡ is_some (find self.old.map key.now) }
    {
        let leaf = &mut self.leaves[place.leaf as usize];
        let gone = leaf.remove_hashed(place.hash, key).is_some();
        if gone {
            self.keys -= 1;
        }
        gone
    }
}

// Sets the value of a key in a leaf, and says whether the key is new.
fn put(
    alloc: Global,
    leaf: &mut Leaf<Bytes>,
    hash: u64,
    key: &Key,
    bytes: &[u8],
) -> Result<bool, AllocError>
    requires hash { hash ≡ prefix_hash leaf.old.salt key.now }
    requires ascends { IsMap leaf.old.map }
    ensures map { OnOk result (leaf.new.map ≡ with leaf.old.map key.now bytes.now) }
    ensures new { IfOk result (λ new. new ≡ not (is_some (find leaf.old.map key.now))) }
    ensures refused { OnErr result (leaf.new.map ≡ leaf.old.map) }
    ensures salt { leaf.new.salt ≡ leaf.old.salt }
{
    if write_over(leaf, hash, key, bytes)? {
        return Ok(false);
    }
    let value = Bytes::copied(alloc, bytes)?;
    leaf.reserve_one()?;
    leaf.insert_new(hash, key.copy()?, value);
    Ok(true)
}

// Writes bytes over the value of a key, where the key is in the leaf, and says whether it is.
fn write_over(
    leaf: &mut Leaf<Bytes>,
    hash: u64,
    key: &Key,
    bytes: &[u8],
) -> Result<bool, AllocError>
    requires hash { hash ≡ prefix_hash leaf.old.salt key.now }
    requires ascends { IsMap leaf.old.map }
    ensures there { IfOk result (λ there. there ≡ is_some (find leaf.old.map key.now)) }
    ensures written { IfOk result (λ there. OnTrue there (leaf.new.map ≡ with leaf.old.map key.now bytes.now)) }
    ensures absent { IfOk result (λ there. OnFalse there (leaf.new.map ≡ leaf.old.map)) }
    ensures refused { OnErr result (leaf.new.map ≡ leaf.old.map) }
    ensures salt { leaf.new.salt ≡ leaf.old.salt }
{
    match leaf.find_mut(hash, key) {
        Some(value) => {
            value.set(bytes)?;
            Ok(true)
        }
        None => Ok(false),
    }
}
