//! The plain map, and the store that refuses by a list, with ample memory.
use key_bytes::{Bound, Key};
use map_model::{Again, Full, Ordered, Page, PlainMap, Refusal};
use std::alloc::Global;
use test_stores::{Refusing, put_then_get, walk};

// Whether a put tells if the key is new, and a get finds its value then.
fn is_put(map: &mut PlainMap, out: &mut Vec<u8>, key: &Key, value: u8, new: bool) -> bool {
    map.put(key, &[value]) == Ok(new)
        && map.get(key, out) == Ok(true)
        && out.as_slice() == [value].as_slice()
}

// Puts pairs of which the last one has the key of the first one.
fn are_put(alloc: Global, map: &mut PlainMap) -> bool {
    let mut out = Vec::new(alloc);
    for (text, value, new) in [
        ("Jos", b'0', true),
        ("Jo", b'2', true),
        ("J", b'3', true),
        ("Jos", b'1', false),
    ] {
        let Ok(key) = Key::new(alloc, text.as_bytes()) else {
            return false;
        };
        if !is_put(map, &mut out, &key, value, new) {
            return false;
        }
    }
    true
}

// Whether a part has the three pairs by ascending keys.
fn has_three(page: &Page) -> bool {
    if page.len() != 3 {
        return false;
    }
    let want = [("J", "3"), ("Jo", "2"), ("Jos", "1")];
    for i in 0..3 {
        let (key, value) = want[i];
        if page.key(i) != key.as_bytes() || page.value(i) != value.as_bytes() {
            return false;
        }
    }
    true
}

fn come_in_order(alloc: Global) -> bool {
    let mut map = PlainMap::new(alloc);
    let mut page = Page::new(alloc);
    if page.reserve(1, 4).is_err() || !are_put(alloc, &mut map) {
        return false;
    }
    match map.part(&Bound::Low, &Bound::High, &mut page) {
        Ok(upto) => upto.order(&Bound::High).is_eq() && has_three(&page),
        Err(_) => false,
    }
}

#[test]
fn pairs_come_in_the_order_of_keys(rt: HostRuntime) {
    assert!(rt; come_in_order(rt.alloc()));
}

// Whether each refusal is told once, and the store is then a map without a key below this one.
fn refuses_in_order(store: &mut Refusing, alloc: Global, key: Key, refusals: [Refusal; 3]) -> bool {
    let mut out = Vec::new(alloc);
    let [first, second, third] = refusals;
    let told = store.get(&key, &mut out) == Err(first)
        && store.get(&key, &mut out) == Ok(false)
        && store.put(&key, b"1") == Err(second)
        && store.del(&key) == Err(third)
        && store.put(&key, b"1") == Ok(true);
    let mut page = Page::new(alloc);
    match store.part(&Bound::Low, &Bound::At(key), &mut page) {
        Ok(upto) => told && page.len() == 0 && upto.order(&Bound::High).is_lt(),
        Err(_) => false,
    }
}

fn tells_three(alloc: Global) -> bool {
    let refusals = [
        Refusal::Again(Again::Turn { holder: 3 }),
        Refusal::Full(Full::Values { drawn: 2, cap: 2 }),
        Refusal::NoMemory,
    ];
    match (refusals.to_vec(alloc), Key::new(alloc, b"a")) {
        (Ok(list), Ok(key)) => {
            refuses_in_order(&mut Refusing::new(alloc, list), alloc, key, refusals)
        }
        _ => false,
    }
}

#[test]
fn refusals_come_in_order(rt: HostRuntime) {
    assert!(rt; tells_three(rt.alloc()));
}

// Puts 300 keys, more than one part has, each of which is found then.
fn are_300_put(alloc: Global, map: &mut PlainMap) -> bool {
    let mut out = Vec::new(alloc);
    for i in 0..300_u16 {
        let Ok(key) = Key::new(alloc, &i.to_be_bytes()) else {
            return false;
        };
        if put_then_get(map, &key, b"v", &mut out) != Ok(true) {
            return false;
        }
    }
    true
}

fn are_300_walked(alloc: Global) -> bool {
    let mut map = PlainMap::new(alloc);
    let mut all = Page::new(alloc);
    are_300_put(alloc, &mut map)
        && walk(alloc, &mut map, Bound::Low, &Bound::High, &mut all) == Ok(())
        && all.len() == 300
}

#[test]
fn runs_of_calls(rt: HostRuntime) {
    assert!(rt; are_300_walked(rt.alloc()));
}
