//! Four threads put keys into one index, and scan those of their own prefix.
ghost use Rattle.std.specs.Prelude.{◌≡◌};

use muslinscree::{Bound, Bounded, Error, Index, Key, Lane, Lanes, Page, Shape, put, scan};
use std::alloc::Global;
use std::thread::{Threads, join};

// Puts ten keys that begin with a name, and counts the keys that do.
fn put_and_count<T: Lanes>(alloc: Global, lane: &mut T, name: u8) -> Result<u32, Error>
    ensures { T.origin lane.new ≡ T.origin lane.old }
{
    let mut patience = Bounded(1_000_000);
    for number in 0..10u8 {
        let key = Key::new(alloc, &[name, b'/', number])?;
        put(lane, &mut patience, &key, b"1")?;
    }
    let from = Bound::At(Key::new(alloc, &[name, b'/'])?);
    let mut page = Page::new(alloc);
    let mut count = 0u32;
    scan(
        lane,
        &mut patience,
        &from,
        &Bound::High,
        &mut page,
        |key: &[u8], _value: &[u8]| {
            let ours = key.starts_with(&[name, b'/']);
            count = count.saturating_add(u32::from(ours));
            ours
        },
    )?;
    Ok(count)
}

// The same, by a thread that hands its lane back.
fn work<T: Lanes>(alloc: Global, mut lane: T, name: u8) -> (T, u32)
    ensures { T.origin result.0 ≡ T.origin lane }
{
    let count = match put_and_count(alloc, &mut lane, name) {
        Ok(count) => count,
        Err(_) => 0,
    };
    (lane, count)
}

// Two threads work, each with a lane, and the second lane ends in the first.
fn by_two<R: Threads + Sync, T: Lanes>(
    rt: &R,
    alloc: Global,
    first: T,
    second: T,
    names: [u8; 2],
) -> (T, u32)
    requires { T.origin second ≡ T.origin first }
    ensures { T.origin result.0 ≡ T.origin first }
{
    let [a, b] = names;
    let ((mut first, one), (second, two)) = join(
        rt,
        move || work(alloc, first, a),
        move || work(alloc, second, b),
    );
    second.end(&mut first);
    (first, one.saturating_add(two))
}

// Four threads, two by two. A lane is forked from the first one, since a fork makes none itself.
fn by_four<R: Threads + Sync, T: Lanes>(rt: &R, alloc: Global, mut first: T) -> u32 {
    let (Ok(second), Ok(third), Ok(fourth)) = (first.fork(), first.fork(), first.fork()) else {
        return 0;
    };
    let ((mut first, one), (third, two)) = join(
        rt,
        move ||
            requires { T.origin second ≡ T.origin first }
        { by_two(rt, alloc, first, second, [b'a', b'b']) },
        move ||
            requires { T.origin fourth ≡ T.origin third }
        { by_two(rt, alloc, third, fourth, [b'c', b'd']) },
    );
    third.end(&mut first);
    one.saturating_add(two)
}

fn shares<R: Threads + Sync>(rt: &R, alloc: Global) -> bool {
    let Ok((index, pass)) = Index::make(alloc, &Shape::standard()) else {
        return false;
    };
    by_four(rt, alloc, Lane::new(&index, pass)) == 40
}

#[test]
fn four_threads_share_an_index(rt: HostRuntime) {
    assert!(rt; shares(&rt, rt.alloc()));
}
