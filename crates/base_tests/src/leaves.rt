//! Leaves: worked calls, and generated ones beside a map of the standard library.
ghost use Rattle.std.specs.Prelude.{◌≡◌};

use crate::shared::key_of;
use key_bytes::{Bound, Key, prefix_hash};
use leaf_store::Leaf;
use std::alloc::Global;
use std::collections::BTreeMap;

fn number_of(key: &Key) -> u16 {
    match key.bytes() {
        [high, low] => u16::from_be_bytes([*high, *low]),
        _ => 0,
    }
}

// Adds a key that isn't there, writes over its value, and takes it out, all by one hash.
fn adds_writes_and_takes(leaf: &mut Leaf<u32>, salt: u64, key: &Key) -> bool
    requires salt { salt ≡ leaf.old.salt }
{
    let hash = prefix_hash(salt, key.bytes());
    let Ok(copy) = key.copy() else {
        return false;
    };
    if leaf.find_hashed(hash, key).is_some() || leaf.reserve_one().is_err() {
        return false;
    }
    leaf.insert_new(hash, copy, 10);
    if let Some(value) = leaf.find_mut(hash, key) {
        *value = 20;
    }
    leaf.find_hashed(hash, key) == Some(&20) && leaf.remove_hashed(hash, key) == Some(20)
}

fn serves_by_one_hash(alloc: Global) -> bool {
    let mut leaf = Leaf::new(alloc, 5);
    match key_of(alloc, 1) {
        Some(key) => adds_writes_and_takes(&mut leaf, 5, &key) && leaf.len() == 0,
        None => false,
    }
}

// A value is written in its place, and is found there, under a hash that is computed once.
#[test]
fn one_hash_serves_all_calls(rt: HostRuntime) {
    assert!(rt; serves_by_one_hash(rt.alloc()));
}

// The first two bytes of FNV-1a of the byte `a`, af63dc4c8601ec8c.
fn has_the_tag_of_a(alloc: Global) -> bool {
    let mut leaf = Leaf::new(alloc, 0);
    let Ok(key) = Key::new(alloc, b"a") else {
        return false;
    };
    if leaf.reserve_one().is_err() {
        return false;
    }
    leaf.insert_reserved(key, 1_u32);
    prefix_hash(0, b"a") >> 48 == 44_899 && leaf.tags().find(44_899, |_| true) == Some(0)
}

#[test]
fn tag_of_the_key_a(rt: HostRuntime) {
    assert!(rt; has_the_tag_of_a(rt.alloc()));
}

fn exchanges(alloc: Global) -> bool {
    let mut leaf = Leaf::new(alloc, 0);
    let (Some(key), Some(copy)) = (key_of(alloc, 1), key_of(alloc, 1)) else {
        return false;
    };
    let absent = leaf.replace(&key, 10_u32) == Err(10);
    if leaf.reserve_one().is_err() {
        return false;
    }
    leaf.insert_reserved(copy, 20);
    absent && leaf.replace(&key, 30) == Ok(20) && leaf.find(&key) == Some(&30)
}

// A value is exchanged where its key is there, and comes back where it isn't.
#[test]
fn values_are_exchanged(rt: HostRuntime) {
    assert!(rt; exchanges(rt.alloc()));
}

// Whether the leaf has the pairs of the map, by ascending keys.
fn has_its_pairs(leaf: &mut Leaf<u32>, map: &BTreeMap<u16, u32>) -> bool {
    let Ok((start, end)) = leaf.pairs_between(&Bound::Low, &Bound::High) else {
        return false;
    };
    if start != 0 || end != map.len() {
        return false;
    }
    let mut before = 0;
    for i in start..end {
        let (key, value) = leaf.at(i);
        let number = number_of(key);
        if number <= before || map.get(&number) != Some(value) {
            return false;
        }
        before = number;
    }
    true
}

// Sets a value in both, and says whether the old values are the same.
fn is_set_in_both(
    leaf: &mut Leaf<u32>,
    map: &mut BTreeMap<u16, u32>,
    key: Key,
    value: u32,
) -> bool {
    let number = number_of(&key);
    if leaf.reserve_one().is_err() {
        return false;
    }
    match map.insert(number, value) {
        Ok(old) => leaf.insert_reserved(key, value) == old,
        Err(_) => false,
    }
}

// Makes one call of both, and says whether they answer the same.
fn is_answered_alike(
    leaf: &mut Leaf<u32>,
    map: &mut BTreeMap<u16, u32>,
    key: Key,
    value: u32,
) -> bool {
    let number = number_of(&key);
    if leaf.find(&key) != map.get(&number) {
        return false;
    }
    if value % 4 == 0 {
        leaf.remove(&key) == map.remove(&number)
    } else {
        is_set_in_both(leaf, map, key, value)
    }
}

// Whether 2,000 calls over 64 keys leave a leaf and a map alike, each of them.
fn agrees_with_a_map(alloc: Global) -> bool {
    let mut leaf = Leaf::new(alloc, 0);
    let mut map = BTreeMap::new(alloc);
    let mut state = 1_u64;
    for _ in 0..2000 {
        state = state
            .wrapping_mul(6_364_136_223_846_793_005)
            .wrapping_add(1_442_695_040_888_963_407);
        let value = (state % 4_294_967_296) as u32 / 65_536;
        let Some(key) = key_of(alloc, (state >> 58) as u16 + 200) else {
            return false;
        };
        if !is_answered_alike(&mut leaf, &mut map, key, value) {
            return false;
        }
        if !has_its_pairs(&mut leaf, &map) {
            return false;
        }
    }
    true
}

#[test]
fn generated_calls_agree_with_a_map(rt: HostRuntime) {
    assert!(rt; agrees_with_a_map(rt.alloc()));
}
