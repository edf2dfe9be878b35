//! A small table of leaves, worked by hand.
use key_bytes::{Bound, Key};
use leaf_table::{LeafTable, SplitFault};
use map_model::{Page, TableFull};
use row_words::{MakeFault, Shape, ShapeFault};
use std::alloc::Global;
use std::cmp::Ordering;

// Leaves of at most three keys, and rows for two leaves and as many prefixes.
const SMALL: Shape = Shape {
    leaves: 2,
    items: 2,
    heads: 1,
    values: 1,
    lanes: 1,
    soft: 2,
    hard: 3,
    merge_sum: 1,
    salt: 5,
};

// Sets the value of a key, and says whether that was done and the key is new.
fn put(table: &mut LeafTable, key: &Key, value: &[u8]) -> bool {
    let place = table.place_of(key);
    if table.size(place.leaf) < table.shape().hard as usize {
        matches!(table.set(place, key, value), Ok(true))
    } else {
        false
    }
}

// Puts a new key with its own bytes as value.
fn enter(table: &mut LeafTable, alloc: Global, bytes: &[u8]) -> bool {
    match Key::new(alloc, bytes) {
        Ok(key) => put(table, &key, bytes),
        Err(_) => false,
    }
}

// Puts `cc`, `a` and `bb`, in this order.
fn fill(table: &mut LeafTable, alloc: Global) -> bool {
    let c = enter(table, alloc, b"cc");
    let a = enter(table, alloc, b"a");
    let b = enter(table, alloc, b"bb");
    a && b && c
}

// A table of these three.
fn three(alloc: Global) -> Result<LeafTable, MakeFault> {
    let mut table = LeafTable::make(alloc, &SMALL)?;
    fill(&mut table, alloc);
    Ok(table)
}

// Splits the leaf of a key, where it has at least two.
fn split(table: &mut LeafTable, alloc: Global, bytes: &[u8]) -> Result<(), SplitFault> {
    let Ok(key) = Key::new(alloc, bytes) else {
        return Err(SplitFault::NoMemory);
    };
    let leaf = table.place_of(&key).leaf;
    if table.size(leaf) < 2 {
        return Err(SplitFault::NoMemory);
    }
    table.split(leaf)
}

// The three in two leaves, of which the second has the anchor `c`.
fn two_leaves(alloc: Global) -> Result<LeafTable, MakeFault> {
    let mut table = three(alloc)?;
    match split(&mut table, alloc, b"bb") {
        Ok(()) => Ok(table),
        Err(_) => Err(MakeFault::NoMemory),
    }
}

// Merges the leaf of a lower key with the next one, which is that of a higher key.
fn merge(table: &mut LeafTable, low: &Key, high: &Key) -> bool {
    let right = table.place_of(high).leaf;
    let sum = table.size(right);
    let left = table.place_of(low).leaf;
    let hard = table.shape().hard as usize;
    if table.neighbours(left).right != Some(right) || sum > hard {
        return false;
    }
    table.size(left) <= hard - sum && table.merge(left, right).is_ok()
}

// Merges the leaves of `a` and `cc`.
fn join(table: &mut LeafTable, alloc: Global) -> bool {
    match (Key::new(alloc, b"a"), Key::new(alloc, b"cc")) {
        (Ok(low), Ok(high)) => merge(table, &low, &high),
        _ => false,
    }
}

// A leaf with its number of keys, and the leaves beside it.
type Seen = (u32, usize, Option<u32>, Option<u32>);

// What is seen of the leaf of a key.
fn seen(table: &mut LeafTable, alloc: Global, bytes: &[u8]) -> Option<Seen> {
    let Ok(key) = Key::new(alloc, bytes) else {
        return None;
    };
    let leaf = table.place_of(&key).leaf;
    let beside = table.neighbours(leaf);
    Some((leaf, table.size(leaf), beside.left, beside.right))
}

// Whether a key is there with this value.
fn has(table: &mut LeafTable, key: &Key, value: &[u8]) -> bool {
    let place = table.place_of(key);
    match table.find(place, key) {
        Some(found) => found == value,
        None => false,
    }
}

// Whether a key is there with its own bytes as value.
fn keeps(table: &mut LeafTable, alloc: Global, bytes: &[u8]) -> bool {
    match Key::new(alloc, bytes) {
        Ok(key) => has(table, &key, bytes),
        Err(_) => false,
    }
}

// Takes a key out, and says whether it was there.
fn take(table: &mut LeafTable, alloc: Global, bytes: &[u8]) -> bool {
    match Key::new(alloc, bytes) {
        Ok(key) => {
            let place = table.place_of(&key);
            table.remove(place, &key)
        }
        Err(_) => false,
    }
}

// The end of a range at a key.
fn at(alloc: Global, bytes: &[u8]) -> Bound {
    match Key::new(alloc, bytes) {
        Ok(key) => Bound::At(key),
        Err(_) => Bound::Low,
    }
}

// The number of pairs of the part from one end to another, where it ends at a third.
fn part(
    table: &mut LeafTable,
    alloc: Global,
    from: &Bound,
    to: &Bound,
    end: &Bound,
) -> Option<usize> {
    let mut page = Page::new(alloc);
    if !matches!(from.order(to), Ordering::Less) {
        return None;
    }
    match table.part(from, to, &mut page) {
        Ok(upto) if matches!(upto.order(end), Ordering::Equal) => Some(page.len()),
        _ => None,
    }
}

fn has_three(alloc: Global) -> bool {
    let Ok(mut table) = three(alloc) else {
        return false;
    };
    seen(&mut table, alloc, b"bb") == Some((0, 3, None, None))
}

#[test]
fn one_leaf_has_three_keys(rt: HostRuntime) {
    assert!(rt; has_three(rt.alloc()));
}

fn has_both_halves(alloc: Global) -> bool {
    let Ok(mut table) = two_leaves(alloc) else {
        return false;
    };
    seen(&mut table, alloc, b"bzz") == Some((0, 2, None, Some(1)))
        && seen(&mut table, alloc, b"c") == Some((1, 1, Some(0), None))
}

#[test]
fn leaves_part(rt: HostRuntime) {
    assert!(rt; has_both_halves(rt.alloc()));
}

fn keeps_just_its_keys(alloc: Global) -> bool {
    let Ok(mut table) = two_leaves(alloc) else {
        return false;
    };
    let b = keeps(&mut table, alloc, b"bb");
    let c = keeps(&mut table, alloc, b"cc");
    b && c && !keeps(&mut table, alloc, b"c") && table.len() == 3
}

#[test]
fn keys_stay_where_leaves_part(rt: HostRuntime) {
    assert!(rt; keeps_just_its_keys(rt.alloc()));
}

// Puts a value, then a longer one, then a shorter one.
fn write_thrice(table: &mut LeafTable, key: &Key) -> bool {
    put(table, key, b"first");
    let again = put(table, key, b"longer than that");
    let longer = has(table, key, b"longer than that");
    put(table, key, b"less");
    has(table, key, b"less") && longer && !again
}

fn writes_over(alloc: Global) -> bool {
    match (LeafTable::make(alloc, &SMALL), Key::new(alloc, b"k")) {
        (Ok(mut table), Ok(key)) => write_thrice(&mut table, &key),
        _ => false,
    }
}

#[test]
fn a_value_is_written_over(rt: HostRuntime) {
    assert!(rt; writes_over(rt.alloc()));
}

fn part_stops_at_the_anchor(alloc: Global) -> bool {
    let Ok(mut table) = two_leaves(alloc) else {
        return false;
    };
    let anchor = at(alloc, b"c");
    let low = part(&mut table, alloc, &Bound::Low, &Bound::High, &anchor);
    let high = part(&mut table, alloc, &anchor, &Bound::High, &Bound::High);
    low == Some(2) && high == Some(1)
}

#[test]
fn a_part_ends_at_the_next_anchor(rt: HostRuntime) {
    assert!(rt; part_stops_at_the_anchor(rt.alloc()));
}

fn part_stops_at_its_end(alloc: Global) -> bool {
    let Ok(mut table) = two_leaves(alloc) else {
        return false;
    };
    let end = at(alloc, b"bb");
    part(&mut table, alloc, &Bound::Low, &end, &end) == Some(1)
}

#[test]
fn a_part_ends_below_its_end(rt: HostRuntime) {
    assert!(rt; part_stops_at_its_end(rt.alloc()));
}

fn joins(alloc: Global) -> bool {
    let Ok(mut table) = two_leaves(alloc) else {
        return false;
    };
    join(&mut table, alloc)
        && seen(&mut table, alloc, b"cc") == Some((0, 3, None, None))
        && keeps(&mut table, alloc, b"cc")
}

#[test]
fn leaves_join(rt: HostRuntime) {
    assert!(rt; joins(rt.alloc()));
}

fn takes_once(alloc: Global) -> bool {
    let Ok(mut table) = three(alloc) else {
        return false;
    };
    let first = take(&mut table, alloc, b"cc");
    let second = take(&mut table, alloc, b"cc");
    first && !second && table.len() == 2
}

#[test]
fn a_key_is_taken_once(rt: HostRuntime) {
    assert!(rt; takes_once(rt.alloc()));
}

fn refuses_a_second_leaf(alloc: Global) -> bool {
    let shape = Shape { leaves: 1, ..SMALL };
    let Ok(mut table) = LeafTable::make(alloc, &shape) else {
        return false;
    };
    fill(&mut table, alloc);
    let full = TableFull::Leaves { used: 1, cap: 1 };
    split(&mut table, alloc, b"a") == Err(SplitFault::Table(full))
}

#[test]
fn one_leaf_alone_is_not_split(rt: HostRuntime) {
    assert!(rt; refuses_a_second_leaf(rt.alloc()));
}

// An anchor of two prefixes, `b` and `bb`, where one item is free.
fn refuses_two_items(alloc: Global) -> bool {
    let Ok(mut table) = LeafTable::make(alloc, &SMALL) else {
        return false;
    };
    enter(&mut table, alloc, b"ba");
    enter(&mut table, alloc, b"bb");
    let full = TableFull::Items { needed: 2, free: 1 };
    split(&mut table, alloc, b"ba") == Err(SplitFault::Table(full))
        && seen(&mut table, alloc, b"bb") == Some((0, 2, None, None))
}

#[test]
fn want_of_items_is_told(rt: HostRuntime) {
    assert!(rt; refuses_two_items(rt.alloc()));
}

#[test]
fn a_shape_out_of_range_is_refused(rt: HostRuntime) {
    let made = LeafTable::make(rt.alloc(), &Shape { soft: 3, ..SMALL });
    assert!(rt; matches!(made, Err(MakeFault::Shape(ShapeFault::Soft))));
}
