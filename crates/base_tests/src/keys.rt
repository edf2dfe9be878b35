//! Keys: the published hashes, and what is held where there is ample memory.
use key_bytes::{Bound, Bytes, Fnv, Key, KeyFault, prefix_hash, separator};
use std::alloc::Global;

#[test]
fn hashes_are_those_published(rt: HostRuntime) {
    // With salt 0 these are Fowler, Noll and Vo's own test vectors.
    for (text, hash) in [
        ("", 0xcbf29ce484222325),
        ("a", 0xaf63dc4c8601ec8c),
        ("foobar", 0x85944171f73967e8),
    ] {
        assert!(rt; prefix_hash(0, text.as_bytes()) == hash, "of {text}");
    }
}

// The hash of `foobar`, as that of `foo` that goes on.
fn goes_on() -> u64 {
    let start = Fnv::extend(Fnv::start(0), b"foo");
    Fnv::step(Fnv::extend(start, b"ba"), b'r')
}

#[test]
fn a_hash_goes_on(rt: HostRuntime) {
    assert_eq!(rt; goes_on(), 0x85944171f73967e8);
}

fn have_1_to_255_bytes(alloc: Global) -> bool {
    let bytes = [7; 256];
    matches!(Key::new(alloc, &bytes[..0]), Err(KeyFault::Empty))
        && matches!(Key::new(alloc, &bytes[..1]), Ok(_))
        && matches!(Key::new(alloc, &bytes[..255]), Ok(_))
        && matches!(Key::new(alloc, &bytes), Err(KeyFault::TooLong(256)))
}

#[test]
fn keys_have_1_to_255_bytes(rt: HostRuntime) {
    assert!(rt; have_1_to_255_bytes(rt.alloc()));
}

fn is_copied(key: &Key) -> bool {
    match key.copy() {
        Ok(copy) => copy.bytes() == key.bytes(),
        Err(_) => false,
    }
}

fn is_end_copied(end: &Bound) -> bool {
    match end.copy() {
        Ok(copy) => end.order(&copy).is_eq(),
        Err(_) => false,
    }
}

// Whether the two are parted by `Jo`, and all are copied.
fn are_parted_and_copied(alloc: Global) -> bool {
    let Ok(low) = Key::new(alloc, b"Jason") else {
        return false;
    };
    let Ok(high) = Key::new(alloc, b"John") else {
        return false;
    };
    let parted = match separator(alloc, &low, &high) {
        Ok(parting) => parting.bytes() == b"Jo".as_slice(),
        Err(_) => false,
    };
    let ascending = low.order(&high).is_lt();
    parted && ascending && is_copied(&low) && is_end_copied(&Bound::At(high))
}

#[test]
fn ample_memory_is_never_refused(rt: HostRuntime) {
    assert!(rt; are_parted_and_copied(rt.alloc()));
}

// Whether a list takes these bytes in place of others, and a key of them is copied.
fn is_set(alloc: Global, held: &mut Bytes, bytes: &[u8]) -> bool {
    let set = held.set(bytes).is_ok() && held.get() == bytes;
    match Key::new(alloc, bytes) {
        Ok(key) => set && key.bytes() == bytes && is_copied(&key),
        Err(_) => false,
    }
}

// Each length lies on another side of what a list or a key holds in itself.
fn are_all_lengths_set(alloc: Global) -> bool {
    let long = [7; 255];
    let Ok(mut held) = Bytes::copied(alloc, b"") else {
        return false;
    };
    for length in [32, 33, 255, 1] {
        if !is_set(alloc, &mut held, &long[..length]) {
            return false;
        }
    }
    true
}

#[test]
fn lists_of_any_length_are_held(rt: HostRuntime) {
    assert!(rt; are_all_lengths_set(rt.alloc()));
}

// Whether a vector is held as it is, and given back.
fn is_given_back(alloc: Global, bytes: &[u8]) -> bool {
    let Ok(list) = bytes.to_vec(alloc) else {
        return false;
    };
    let held = Bytes::of(list);
    let same = held.get() == bytes;
    match held.into_vec() {
        Ok(back) => same && back.as_slice() == bytes,
        Err(_) => false,
    }
}

#[test]
fn vectors_are_held_and_given_back(rt: HostRuntime) {
    let long = [7; 255];
    for length in [0, 32, 33, 255] {
        assert!(rt;
            is_given_back(rt.alloc(), &long[..length]),
            "of {length} bytes"
        );
    }
}
