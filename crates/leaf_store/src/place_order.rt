//! The order of rows as a list of their places.
ghost use Rattle.std.specs.Prelude.{◌≡◌, ◌+◌, ◌<◌, ◌≤◌, List, ℕ, [], length, slice_index_or, vec_capacity, OnOk};
ghost use Rattle.std.specs.List.{Contains, SameBelow, swap_remove};
ghost use Rattle.std.specs.List.Sorted.{IsSortedBy};
ghost use Rattle.key_bytes.specs.declared.bound.Bound.TheVariants.{Low};
ghost use Rattle.map_model.specs.Halves.{key_at};
ghost use Rattle.map_model.specs.Maps.{between, sorted};
ghost use Rattle.std.specs.Ordering.{is_lt};
ghost use Rattle.leaf_store.specs.Order.{ArePlaces, AreInOrder, HasFront, IsLess, ListsAll, is_earlier, is_place_under};
ghost use Rattle.leaf_store.specs.Rows.{AreOnce, AreTags};

use crate::order::{count_under, is_under, sort_rows};
use crate::rows::retag;
use key_bytes::{Bound, Key};
use leaf_tags::Tags;
use std::alloc::AllocError;
use std::cmp::Ordering;

// The bytes of the key at a place, none where no row is.
fn key_in<V>(rows: &[(Key, V)], place: u16) -> &[u8]
    ensures { result.now ≡ key_at rows.now place }
{
    match rows.get(usize::from(place)) {
        Some(row) => row.0.bytes(),
        None => &[],
    }
}

// The order of the keys at two places.
fn order_keys<V>(rows: &[(Key, V)], a: u16, b: u16) -> Ordering
    ensures { is_lt result ≡ is_earlier rows.now a b }
{
    key_in(rows, a).cmp(key_in(rows, b))
}

// Where a place stands in a list.
fn index_of(order: &[u16], place: usize) -> usize
    requires { Contains order.now place }
    ensures in_range { result < length order.now }
    ensures there { slice_index_or order.now result place ≡ place }
{
    let mut at = 0;
    'seek: while usize::from(order[at]) != place {
        at += 1;
    }
    at
}

// Takes the place at an index out, whose row is about to be exchanged for the last one. Where that one is
// listed, its entry names the place from then on; else the place goes behind all others.
fn take_listed<V>(rows: &[(Key, V)], order: &mut Vec<u16>, at: usize, place: usize, last: usize)
    requires places { ArePlaces order.old.items }
    requires few { length order.old.items ≤ last + 1 }
    requires in_range { place ≤ last }
    requires small { last < 65536 }
    requires last { last + 1 ≡ length rows.now }
    requires listed { at < length order.old.items }
    requires there { slice_index_or order.old.items at place ≡ place }
    ensures places { ArePlaces order.new.items }
    ensures few { length order.new.items ≤ last }
    ensures front { (front less : ℕ) (d : List ℕ × V) → HasFront rows.now order.old.items front → IsLess at front less
        → HasFront (swap_remove rows.now place d) order.new.items less }
{
    let count = order.len();
    let _ = order.remove(at);
    if last >= count {
        order.push_reserved(place as u16);
    } else if place < last {
        let there = index_of(order, last);
        order[there] = place as u16;
    }
}

// How many first places ascend when the one at an index is out.
fn less_front(front: usize, at: usize) -> usize
    ensures { IsLess at front result }
{
    if at < front { front - 1 } else { front }
}

// Takes a place out, whose row is about to be exchanged for the last one. How many first places ascend
// afterwards, of so many that did.
pub(crate) fn take_place<V>(
    rows: &[(Key, V)],
    order: &mut Vec<u16>,
    front: usize,
    place: usize,
    last: usize,
) -> usize
    requires places { ArePlaces order.old.items }
    requires few { length order.old.items ≤ last + 1 }
    requires in_range { place ≤ last }
    requires small { last < 65536 }
    requires last { last + 1 ≡ length rows.now }
    requires front { HasFront rows.now order.old.items front }
    ensures places { ArePlaces order.new.items }
    ensures few { length order.new.items ≤ last }
    ensures front { (d : List ℕ × V) → HasFront (swap_remove rows.now place d) order.new.items result }
{
    if place >= order.len() {
        return front;
    }
    let at = index_of(order, place);
    take_listed(rows, order, at, place, last);
    less_front(front, at)
}

// Lists the places that aren't listed yet, behind the others.
fn list_places(order: &mut Vec<u16>, count: usize) -> Result<(), AllocError>
    requires places { ArePlaces order.old.items }
    requires few { length order.old.items ≤ count }
    ensures places { ArePlaces order.new.items }
    ensures few { length order.new.items ≤ count }
    ensures all { OnOk result (length order.new.items ≡ count) }
    ensures listed { SameBelow order.old.items order.new.items (length order.old.items) }
{
    // Places take 16 bits.
    if count > 65_536 {
        return Err(AllocError);
    }
    order.reserve_exact(count - order.len())?;
    for place in order.len()..count {
        order.push_reserved(place as u16);
    }
    Ok(())
}

// Puts the place at an index where it belongs among those before it, which ascend by their keys.
fn put_place<V>(rows: &[(Key, V)], order: &mut Vec<u16>, i: usize)
    requires places { ArePlaces order.old.items }
    requires in_range { i < length order.old.items }
    requires front { HasFront rows.now order.old.items i }
    ensures places { ArePlaces order.new.items }
    ensures count { length order.new.items ≡ length order.old.items }
    ensures front { HasFront rows.now order.new.items (i + 1) }
{
    let place = order.remove(i);
    let at = order[..i].partition_point(|listed| order_keys(rows, *listed, place).is_lt());
    let _ = order.insert(at, place);
}

// Puts the places behind those that ascend where they belong among them.
fn put_places<V>(rows: &[(Key, V)], order: &mut Vec<u16>, front: usize)
    requires places { ArePlaces order.old.items }
    requires front { HasFront rows.now order.old.items front }
    ensures places { ArePlaces order.new.items }
    ensures count { length order.new.items ≡ length order.old.items }
    ensures sorted { IsSortedBy (is_earlier rows.now) order.new.items }
{
    for i in front..order.len() {
        put_place(rows, order, i);
    }
}

// Lists the places of all rows by ascending keys, of which so many first ones ascend already. A few more
// are each looked for among these, and many are sorted with them.
fn order_places<V>(rows: &[(Key, V)], order: &mut Vec<u16>, front: usize) -> Result<(), AllocError>
    requires places { ArePlaces order.old.items }
    requires few { length order.old.items ≤ length rows.now }
    requires front { HasFront rows.now order.old.items front }
    ensures places { ArePlaces order.new.items }
    ensures few { length order.new.items ≤ length rows.now }
    ensures lists { OnOk result (ListsAll rows.now order.new.items) }
{
    list_places(order, rows.len())?;
    if order.len() - front <= order.len() / 4 {
        put_places(rows, order, front);
        return Ok(());
    }
    order.sort_by(|a, b| order_keys(rows, *a, *b))?;
    Ok(())
}

// Puts the order of rows in place: their places are listed by ascending keys, as so many first ones are,
// or, without memory for that, the rows themselves are sorted.
pub(crate) fn order_leaf<V>(
    rows: &mut Vec<(Key, V)>,
    tags: &mut Tags,
    salt: u64,
    order: &mut Vec<u16>,
    front: usize,
)
    requires keys { AreOnce rows.old.items }
    requires tags { AreTags salt rows.old.items tags.old.pairs }
    requires places { ArePlaces order.old.items }
    requires few { length order.old.items ≤ length rows.old.items }
    requires front { HasFront rows.old.items order.old.items front }
    ensures map { sorted rows.new.items ≡ sorted rows.old.items }
    ensures keys { AreOnce rows.new.items }
    ensures count { length rows.new.items ≡ length rows.old.items }
    ensures capacity { vec_capacity rows.new ≡ vec_capacity rows.old }
    ensures tags { AreTags salt rows.new.items tags.new.pairs }
    ensures spare { tags.old.spare ≤ tags.new.spare }
    ensures places { ArePlaces order.new.items }
    ensures few { length order.new.items ≤ length rows.new.items }
    ensures known { AreInOrder rows.new.items order.new.items }
{
    if order_places(rows, order, front).is_err() {
        sort_rows(rows);
        retag(tags, rows, salt);
        order.clear();
    }
}

// The place that is listed at an index, the index itself where none is.
pub(crate) fn place_at(order: &[u16], i: usize) -> usize
    ensures { result ≡ slice_index_or order.now i i }
{
    match order.get(i) {
        Some(place) => usize::from(*place),
        None => i,
    }
}

// How many of the rows, whose order is known, are below an end: a binary search.
pub(crate) fn count_in_order<V>(rows: &[(Key, V)], order: &[u16], end: &Bound) -> usize
    requires keys { AreOnce rows.now }
    requires places { ArePlaces order.now }
    requires known { AreInOrder rows.now order.now }
    ensures count { result ≡ length (between (sorted rows.now) Low end.now) }
    ensures in_range { result ≤ length rows.now }
{
    if order.is_empty() {
        count_under(rows, end)
    } else {
        count_listed(rows, order, end)
    }
}

// Whether a row is at the place, and its key is below an end.
fn is_place_under<V>(rows: &[(Key, V)], place: u16, end: &Bound) -> bool
    ensures { result ≡ is_place_under rows.now end.now place }
{
    match rows.get(usize::from(place)) {
        Some(row) => is_under(end, &row.0),
        None => false,
    }
}

// How many of the rows, whose places are listed by ascending keys, are below an end.
fn count_listed<V>(rows: &[(Key, V)], order: &[u16], end: &Bound) -> usize
    requires keys { AreOnce rows.now }
    requires places { ArePlaces order.now }
    requires lists { ListsAll rows.now order.now }
    ensures count { result ≡ length (between (sorted rows.now) Low end.now) }
    ensures in_range { result ≤ length rows.now }
{
    order.partition_point(|place| is_place_under(rows, *place, end))
}
