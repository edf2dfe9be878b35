//! A small index, worked by hand.
use key_bytes::{Bound, Key};
use map_model::{Full, Page, Refusal, TableFull};
use row_words::{MakeFault, Shape, ShapeFault};
use solo_index::{Put, Solo, Taken, Tended};
use std::alloc::Global;

// Leaves of at most two keys, three for a while.
fn narrow(leaves: u32, items: u32, values: u32) -> Shape {
    Shape {
        leaves,
        items,
        heads: 16,
        values,
        lanes: 1,
        soft: 2,
        hard: 3,
        merge_sum: 1,
        salt: 0,
    }
}

// A put of a key of one letter.
fn put(alloc: Global, store: &mut Solo, letter: u8) -> Result<Put, Refusal> {
    match Key::new(alloc, &[letter]) {
        Ok(key) => store.put_key(&key, b"1"),
        Err(_) => Err(Refusal::NoMemory),
    }
}

// Whether a put tells that the key is new, and what became of its leaf.
fn enters(alloc: Global, store: &mut Solo, letter: u8, tended: Tended) -> bool {
    put(alloc, store, letter) == Ok(Put { new: true, tended })
}

// The same of a put of a key that is there.
fn sets(alloc: Global, store: &mut Solo, letter: u8, tended: Tended) -> bool {
    put(alloc, store, letter) == Ok(Put { new: false, tended })
}

// Whether a del tells that its key was there, and what became of its leaf.
fn takes(alloc: Global, store: &mut Solo, letter: u8, tended: Tended) -> bool {
    match Key::new(alloc, &[letter]) {
        Ok(key) => store.take_key(&key) == Taken { gone: true, tended },
        Err(_) => false,
    }
}

// Whether a del tells that there is no such key.
fn misses(alloc: Global, store: &mut Solo, letter: u8) -> bool {
    let tended = Tended::Nothing;
    match Key::new(alloc, &[letter]) {
        Ok(key) => store.take_key(&key)
            == Taken {
                gone: false,
                tended,
            },
        Err(_) => false,
    }
}

// The letter at an end, 0 for none.
fn letter_of(end: &Bound) -> u8 {
    match end {
        Bound::At(key) => key.bytes().first().copied().unwrap_or(0),
        _ => 0,
    }
}

// Whether the first part from a letter on has so many pairs, and this letter at its end.
fn has_part(alloc: Global, store: &mut Solo, letter: u8, count: usize, end: u8) -> bool {
    let mut page = Page::new(alloc);
    let Ok(key) = Key::new(alloc, &[letter]) else {
        return false;
    };
    match store.first_part(&Bound::At(key), &Bound::High, &mut page) {
        Ok(upto) => page.len() == count && letter_of(&upto) == end,
        Err(_) => false,
    }
}

#[test]
fn shapes_out_of_range_make_nothing(rt: HostRuntime) {
    let mut shape = narrow(1, 1, 1);
    shape.soft = 3;
    let made = Solo::make(rt.alloc(), &shape);
    assert!(rt; matches!(&made, Err(MakeFault::Shape(ShapeFault::Soft))));
}

// Whether a third key splits its leaf: the first one has a and b, the second one c.
fn is_split(alloc: Global, store: &mut Solo) -> bool {
    enters(alloc, store, b'a', Tended::Nothing)
        && enters(alloc, store, b'b', Tended::Nothing)
        && enters(alloc, store, b'c', Tended::Split)
        && sets(alloc, store, b'c', Tended::Nothing)
        && store.len() == 3
        && has_part(alloc, store, b'A', 2, b'c')
        && has_part(alloc, store, b'c', 1, 0)
}

// Without a the two leaves have two keys, which are too many to be merged.
fn is_merged(alloc: Global, store: &mut Solo) -> bool {
    takes(alloc, store, b'a', Tended::Nothing)
        && misses(alloc, store, b'a')
        && takes(alloc, store, b'b', Tended::Merged)
        && takes(alloc, store, b'c', Tended::Nothing)
        && store.len() == 0
}

fn is_split_and_merged(alloc: Global) -> bool {
    let Ok(mut store) = Solo::make(alloc, &narrow(8, 100, 100)) else {
        return false;
    };
    store.shape().hard == 3 && is_split(alloc, &mut store) && is_merged(alloc, &mut store)
}

#[test]
fn leaves_are_split_and_merged(rt: HostRuntime) {
    assert!(rt; is_split_and_merged(rt.alloc()));
}

// An index of a to e: leaves of a and b, of c and d, and of e.
fn three_leaves(alloc: Global) -> Option<Solo> {
    let Ok(mut store) = Solo::make(alloc, &narrow(8, 100, 100)) else {
        return None;
    };
    for letter in *b"abcde" {
        if put(alloc, &mut store, letter).is_err() {
            return None;
        }
    }
    Some(store)
}

// Without d the middle one is empty and takes e, though the first one would do too, and without b the
// first one takes e.
fn merges_the_right_one_first(alloc: Global) -> bool {
    let Some(mut store) = three_leaves(alloc) else {
        return false;
    };
    takes(alloc, &mut store, b'a', Tended::Nothing)
        && takes(alloc, &mut store, b'c', Tended::Nothing)
        && takes(alloc, &mut store, b'd', Tended::Merged)
        && has_part(alloc, &mut store, b'A', 1, b'c')
        && takes(alloc, &mut store, b'b', Tended::Merged)
        && has_part(alloc, &mut store, b'A', 1, 0)
}

#[test]
fn the_right_neighbour_is_merged_first(rt: HostRuntime) {
    assert!(rt; merges_the_right_one_first(rt.alloc()));
}

// Whether a leaf of three keys that can't be split takes no fourth key, but a value of a key that is there.
fn is_crowded(alloc: Global, store: &mut Solo, why: TableFull) -> bool {
    let full = Refusal::Full(Full::Crowded {
        count: 3,
        hard: 3,
        why,
    });
    enters(alloc, store, b'a', Tended::Nothing)
        && enters(alloc, store, b'b', Tended::Nothing)
        && enters(alloc, store, b'c', Tended::Refused(why))
        && put(alloc, store, b'd') == Err(full)
        && sets(alloc, store, b'a', Tended::Refused(why))
}

// So in an index of so many leaves and one item, until a key is taken out.
fn is_crowded_for_a_while(alloc: Global, leaves: u32, why: TableFull) -> bool {
    let Ok(mut store) = Solo::make(alloc, &narrow(leaves, 1, 100)) else {
        return false;
    };
    is_crowded(alloc, &mut store, why)
        && takes(alloc, &mut store, b'a', Tended::Nothing)
        && enters(alloc, &mut store, b'd', Tended::Refused(why))
}

// Of one item, that of the empty prefix, none is left for the anchor b.
#[test]
fn a_crowded_leaf_takes_no_new_key(rt: HostRuntime) {
    let leaves = TableFull::Leaves { used: 1, cap: 1 };
    let items = TableFull::Items { needed: 1, free: 0 };
    assert!(rt; is_crowded_for_a_while(rt.alloc(), 1, leaves));
    assert!(rt; is_crowded_for_a_while(rt.alloc(), 2, items));
}

// Whether an index of two values takes no third one, also of a key that is there, until a key is taken out.
fn is_full_for_a_while(alloc: Global) -> bool {
    let Ok(mut store) = Solo::make(alloc, &narrow(8, 100, 2)) else {
        return false;
    };
    let full = Refusal::Full(Full::Values { drawn: 2, cap: 2 });
    enters(alloc, &mut store, b'a', Tended::Nothing)
        && enters(alloc, &mut store, b'b', Tended::Nothing)
        && put(alloc, &mut store, b'c') == Err(full)
        && put(alloc, &mut store, b'a') == Err(full)
        && takes(alloc, &mut store, b'a', Tended::Nothing)
        && enters(alloc, &mut store, b'c', Tended::Nothing)
}

#[test]
fn a_full_store_takes_no_value(rt: HostRuntime) {
    assert!(rt; is_full_for_a_while(rt.alloc()));
}
