//! The order of rows by their keys, and where it is cut.
ghost use Rattle.std.specs.Prelude.{◌≡◌, ◌+◌, ◌-◌, ◌≤◌, ◌++◌, [], length, take, drop, reverse, vec_capacity, vec_len};
ghost use Rattle.key_bytes.specs.Bound.{is_under};
ghost use Rattle.key_bytes.specs.declared.bound.Bound.TheVariants.{Low};
ghost use Rattle.map_model.specs.Maps.{IsMap, between, sorted};
ghost use Rattle.leaf_store.specs.Rows.{AreOnce};

use key_bytes::{Bound, Key};
use std::cmp::Ordering;

// Sorts rows by their keys. It takes no memory.
pub(crate) fn sort_rows<V>(rows: &mut Vec<(Key, V)>)
    requires { AreOnce rows.old.items }
    ensures rows { rows.new.items ≡ sorted rows.old.items }
    ensures capacity { vec_capacity rows.new ≡ vec_capacity rows.old }
{
    rows.sort_unstable_by(|a, b| a.0.order(&b.0));
}

// Whether a key is below an end.
pub(crate) fn is_under(end: &Bound, key: &Key) -> bool
    ensures { result ≡ is_under end.now key.now }
{
    match end {
        Bound::Low => false,
        Bound::At(upto) => matches!(key.order(upto), Ordering::Less),
        Bound::High => true,
    }
}

// How many of the rows, which are in order, are below an end: a binary search.
pub(crate) fn count_under<V>(rows: &[(Key, V)], end: &Bound) -> usize
    requires { IsMap rows.now }
    ensures count { result ≡ length (between rows.now Low end.now) }
    ensures in_range { result ≤ length rows.now }
{
    rows.partition_point(|row| is_under(end, &row.0))
}

// Moves the rows from a place on into empty rows that have room for them, in their order.
pub(crate) fn move_tail<V>(from: &mut Vec<(Key, V)>, stay: usize, into: &mut Vec<(Key, V)>)
    requires in_range { stay ≤ vec_len from.old }
    requires empty { into.old.items ≡ [] }
    requires room { vec_len from.old - stay ≤ vec_capacity into.old }
    ensures stay { from.new.items ≡ take stay from.old.items }
    ensures go { into.new.items ≡ drop stay from.old.items }
    ensures from_capacity { vec_capacity from.new ≡ vec_capacity from.old }
    ensures into_capacity { vec_capacity into.new ≡ vec_capacity into.old }
{
    pour(from, stay, into);
    into.reverse();
}

// Moves that many first rows into empty rows that have room for them, in their order. Where there is no
// memory to lay the others aside as one block, rows move one by one.
pub(crate) fn move_head<V: Drop>(from: &mut Vec<(Key, V)>, go: usize, into: &mut Vec<(Key, V)>)
    requires in_range { go ≤ vec_len from.old }
    requires empty { into.old.items ≡ [] }
    requires room { go ≤ vec_capacity into.old }
    ensures stay { from.new.items ≡ drop go from.old.items }
    ensures go { into.new.items ≡ take go from.old.items }
{
    match from.split_off(go) {
        Ok(mut rest) => {
            move_all(from, into);
            move_all(&mut rest, from);
        }
        Err(_) => pour_head(from, go, into),
    }
}

// Moves rows behind others, which have room for them.
fn move_all<V>(from: &mut Vec<(Key, V)>, into: &mut Vec<(Key, V)>)
    requires { vec_len into.old + vec_len from.old ≤ vec_capacity into.old }
    ensures moved { into.new.items ≡ into.old.items ++ from.old.items }
    ensures emptied { from.new.items ≡ [] }
    ensures capacity { vec_capacity from.new ≡ vec_capacity from.old }
{
    match into.append(from) {
        Ok(()) => {}
        Err(_) => unreachable!(),
    }
}

// Moves that many first rows as `move_head` does, and takes no memory.
fn pour_head<V>(from: &mut Vec<(Key, V)>, go: usize, into: &mut Vec<(Key, V)>)
    requires in_range { go ≤ vec_len from.old }
    requires empty { into.old.items ≡ [] }
    requires room { go ≤ vec_capacity into.old }
    ensures stay { from.new.items ≡ drop go from.old.items }
    ensures go { into.new.items ≡ take go from.old.items }
{
    let stay = from.len() - go;
    from.reverse();
    pour(from, stay, into);
    from.reverse();
}

// Moves the rows from a place on into empty rows that have room for them, the last one first, so that
// no row moves twice within `from`.
fn pour<V>(from: &mut Vec<(Key, V)>, stay: usize, into: &mut Vec<(Key, V)>)
    requires in_range { stay ≤ vec_len from.old }
    requires empty { into.old.items ≡ [] }
    requires room { vec_len from.old - stay ≤ vec_capacity into.old }
    ensures moved { from.new.items ++ reverse into.new.items ≡ from.old.items }
    ensures stay { length from.new.items ≡ stay }
    ensures from_capacity { vec_capacity from.new ≡ vec_capacity from.old }
    ensures into_capacity { vec_capacity into.new ≡ vec_capacity into.old }
{
    'back: while from.len() > stay {
        if let Some(row) = from.pop() {
            into.push_reserved(row);
        }
    }
}
