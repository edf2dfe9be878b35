//! Puts and gets of both indexes.
ghost use Rattle.std.specs.Prelude.{◌≤◌, length};

use crate::Plan;
use crate::keys::{all_keys, asked_keys, shape};
use index_lane::Lane;
use key_bytes::{Key, LONGEST_VALUE};
use map_model::Ordered;
use solo_index::Solo;
use std::alloc::Global;
use std::io;
use std::rt::Clock;
use std::time::Instant;
use worm_index::Index;

// Puts the value at each key, and counts those that were new. It stays a call, as do the others, so that a profile
// tells them apart.
#[inline(never)]
fn put_all<T: Ordered>(map: &mut T, keys: &[Key], value: &[u8]) -> u64
    requires { length value.now ≤ LONGEST_VALUE }
{
    let mut new = 0u64;
    for key in keys {
        if map.put(key, value) == Ok(true) {
            new = new.wrapping_add(1);
        }
    }
    new
}

// The same of keys that are there.
#[inline(never)]
fn put_over_all<T: Ordered>(map: &mut T, keys: &[Key], value: &[u8]) -> u64
    requires { length value.now ≤ LONGEST_VALUE }
{
    let mut old = 0u64;
    for key in keys {
        if map.put(key, value) == Ok(false) {
            old = old.wrapping_add(1);
        }
    }
    old
}

// Gets each key, and adds the lengths of the values.
#[inline(never)]
fn get_all<T: Ordered>(map: &mut T, keys: &[Key], out: &mut Vec<u8>) -> u64 {
    let mut bytes = 0u64;
    for key in keys {
        if map.get(key, out) == Ok(true) {
            bytes = bytes.wrapping_add(out.len() as u64);
        }
    }
    bytes
}

// What the calls of a round found, and the nanoseconds that they took.
#[derive(Drop)]
struct Round {
    found: u64,
    nanoseconds: u128,
}

fn time<R: Clock, F: FnOnce() -> u64>(rt: &R, calls: F) -> io::Result<Round>
    requires { F.IsAlwaysCallable calls }
{
    let start = Instant::now(rt)?;
    let found = calls();
    let nanoseconds = start.elapsed(rt)?.as_nanos();
    Ok(Round { found, nanoseconds })
}

fn tell<R: Print>(rt: &R, name: &str, solo: &Round, lane: &Round) -> io::Result<()> {
    let same = if solo.found == lane.found {
        "same"
    } else {
        "other"
    };
    println!(rt; "{name} {} {} {same}", solo.nanoseconds, lane.nanoseconds)
}

/// Times puts of new keys once, and gets and puts over old values in each round.
pub(crate) fn time_calls<R: Clock + Print>(rt: &R, alloc: Global, plan: &Plan) -> io::Result<()> {
    let asked = asked_keys(alloc, plan);
    let value = b"value-000000000000000001";
    let mut out = Vec::new(alloc);
    let (Ok(mut solo), Ok((index, pass))) = (
        Solo::make(alloc, &shape()),
        Index::make(alloc, &shape()),
    ) else {
        return Ok(());
    };
    let mut lane = Lane::new(&index, pass);
    let keys = all_keys(alloc, plan);
    let one = time(rt, || put_all(&mut solo, &keys, value))?;
    let two = time(rt, || put_all(&mut lane, &keys, value))?;
    tell(rt, "new", &one, &two)?;
    for _ in 0..plan.rounds {
        let one = time(rt, || get_all(&mut solo, &asked, &mut out))?;
        let two = time(rt, || get_all(&mut lane, &asked, &mut out))?;
        tell(rt, "get", &one, &two)?;
        let one = time(rt, || put_over_all(&mut solo, &asked, value))?;
        let two = time(rt, || put_over_all(&mut lane, &asked, value))?;
        tell(rt, "over", &one, &two)?;
    }
    Ok(())
}
