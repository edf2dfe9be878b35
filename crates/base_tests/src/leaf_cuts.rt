//! Leaves that are cut into halves, and put together again.
ghost use Rattle.std.specs.Prelude.{◌≡◌, IfSome, IsTrue};

use crate::shared::key_of;
use leaf_store::Leaf;
use std::alloc::Global;

// Adds a key, with ten times its number as value.
fn enter(alloc: Global, leaf: &mut Leaf<u16>, number: u16) -> bool
    ensures { leaf.new.salt ≡ leaf.old.salt }
{
    match key_of(alloc, number) {
        Some(key) if leaf.reserve_one().is_ok() => {
            leaf.insert_reserved(key, number.wrapping_mul(10)).is_none()
        }
        _ => false,
    }
}

// A leaf of the keys 1 to 5, which came in another order.
fn five_keys(alloc: Global, salt: u64) -> Option<Leaf<u16>>
    ensures { IfSome result (λ leaf. leaf.salt ≡ salt) }
{
    let mut leaf = Leaf::new(alloc, salt);
    for number in [4, 2, 5, 1, 3] {
        if !enter(alloc, &mut leaf, number) {
            return None;
        }
    }
    Some(leaf)
}

// Whether the leaf has the key.
fn has(alloc: Global, leaf: &Leaf<u16>, number: u16) -> bool {
    match key_of(alloc, number) {
        Some(key) => leaf.find(&key) == Some(&number.wrapping_mul(10)),
        None => false,
    }
}

// Whether the keys of a leaf are just those from one number to another, the second one excluded.
fn has_just(alloc: Global, leaf: &Leaf<u16>, from: u16, upto: u16) -> bool {
    for number in from..upto {
        if !has(alloc, leaf, number) {
            return false;
        }
    }
    leaf.len() == usize::from(upto.saturating_sub(from))
}

// Whether the first key of a leaf in order is that of the number.
fn begins_at(leaf: &Leaf<u16>, number: u16) -> bool
    requires { IsTrue leaf.now.is_ordered }
{
    leaf.len() > 0 && leaf.at(0).0.bytes() == number.to_be_bytes().as_slice()
}

// Whether five keys are cut into three and two, which go to a leaf of this salt.
fn splits_off(alloc: Global, salt: u64) -> bool {
    let Some(mut left) = five_keys(alloc, 0) else {
        return false;
    };
    let mut right = Leaf::new(alloc, salt);
    if right.reserve(left.len()).is_err() || left.split_off(&mut right).is_err() {
        return false;
    }
    has_just(alloc, &left, 1, 4) && has_just(alloc, &right, 4, 6)
}

// Whether the upper half of five keys goes to a leaf of this salt.
fn halves(alloc: Global, salt: u64) -> bool {
    let Some(mut left) = five_keys(alloc, 0) else {
        return false;
    };
    let mut right = Leaf::new(alloc, salt);
    if right.reserve(left.len()).is_err() {
        return false;
    }
    left.halve(&mut right);
    begins_at(&left, 1)
        && begins_at(&right, 4)
        && has_just(alloc, &left, 1, 4)
        && has_just(alloc, &right, 4, 6)
}

// Under one salt the tags of a half move with its rows, and under two they are hashed again.
#[test]
fn the_upper_half_moves(rt: HostRuntime) {
    for salt in [0, 7] {
        assert!(rt; splits_off(rt.alloc(), salt), "to a salt of {salt}");
        assert!(rt; halves(rt.alloc(), salt), "to a salt of {salt}");
    }
}

// Whether the lower half of five keys goes to a leaf of the same salt.
fn splits_front(alloc: Global) -> bool {
    let Some(mut right) = five_keys(alloc, 3) else {
        return false;
    };
    let mut left = Leaf::new(alloc, 3);
    if left.reserve(right.len()).is_err() {
        return false;
    }
    right.split_front(&mut left);
    begins_at(&left, 1)
        && begins_at(&right, 4)
        && has_just(alloc, &left, 1, 4)
        && has_just(alloc, &right, 4, 6)
}

#[test]
fn the_lower_half_moves(rt: HostRuntime) {
    assert!(rt; splits_front(rt.alloc()));
}

// Whether a half moves on, into an empty leaf of another salt.
fn absorbs(alloc: Global) -> bool {
    let Some(mut left) = five_keys(alloc, 0) else {
        return false;
    };
    let mut right = Leaf::new(alloc, 7);
    if right.reserve(left.len()).is_err() {
        return false;
    }
    left.halve(&mut right);
    let mut whole = Leaf::new(alloc, 9);
    whole.absorb(&mut right).is_ok() && has_just(alloc, &whole, 4, 6) && right.len() == 0
}

#[test]
fn a_half_moves_on(rt: HostRuntime) {
    assert!(rt; absorbs(rt.alloc()));
}
