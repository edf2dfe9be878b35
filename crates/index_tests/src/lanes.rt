//! Lanes at once, each with keys of its own among few leaves.

ghost use Rattle.std.specs.Prelude.{◌≡◌, ◌<◌, IsSome, IfOk};
ghost use Rattle.board_rule.specs.Passes.{view, IsOf};
ghost use Rattle.worm_index.specs.Idle.{IsIdle};

use board_rule::Pass;
use key_bytes::{Bound, Bytes, Key};
use map_model::{ForkFault, Page};
use row_words::Shape;
use std::alloc::{AllocError, Global};
use std::marker::Brand;
use std::sync::ledger::{Blank, Ledger};
use std::thread::{Threads, join};
use steps::Steps;
use worm_index::{Cursor, GetFault, Index, PutFault, fork, try_del, try_get, try_put};

const SMALL: Shape = Shape {
    leaves: 8,
    items: 32,
    heads: 8,
    values: 16,
    lanes: 5,
    soft: 2,
    hard: 4,
    merge_sum: 1,
    salt: 7,
};

// How often each lane puts all its keys and takes them out again, and how often all keys are read.
const ROUNDS: u32 = 100;

// A lane's keys, with the value that they have for a while and the one that they have at last.
#[derive(Clone, Copy)]
struct Task<'t> {
    keys: &'t [Key],
    first: &'t Bytes,
    last: &'t Bytes,
}

// Puts a key that isn't there, however often another lane is in the way.
fn put_often<L: Ledger>(
    pass: &mut Pass,
    index: &Index,
    key: &Key,
    value: &Bytes,
    steps: &mut Steps<L>,
) -> bool
    requires of { IsOf index.now.board pass.old }
    requires lane { IsSome pass.old.lane }
    requires idle { IsIdle (view pass.old) }
    ensures of { IsOf index.now.board pass.new }
    ensures lane { pass.new.lane ≡ pass.old.lane }
    ensures idle { IsIdle (view pass.new) }
{
    for _ in 0..1_000_000_000u32 {
        match try_put(pass, index, key, value.get(), steps) {
            Ok(new) => return new,
            Err(PutFault::Again(_)) | Err(PutFault::Full(_)) => {}
            Err(PutFault::ValueTooLong(_)) | Err(PutFault::NoMemory) => return false,
        }
    }
    false
}

// Takes a key out that is there, however often another lane is in the way.
fn take_often<L: Ledger>(pass: &mut Pass, index: &Index, key: &Key, steps: &mut Steps<L>) -> bool
    requires of { IsOf index.now.board pass.old }
    requires lane { IsSome pass.old.lane }
    requires idle { IsIdle (view pass.old) }
    ensures of { IsOf index.now.board pass.new }
    ensures lane { pass.new.lane ≡ pass.old.lane }
    ensures idle { IsIdle (view pass.new) }
{
    for _ in 0..1_000_000_000u32 {
        match try_del(pass, index, key, steps) {
            Ok(gone) => return gone,
            Err(_) => {}
        }
    }
    false
}

// Puts all these keys.
fn put_all<L: Ledger>(
    pass: &mut Pass,
    index: &Index,
    keys: &[Key],
    value: &Bytes,
    steps: &mut Steps<L>,
) -> bool
    requires of { IsOf index.now.board pass.old }
    requires lane { IsSome pass.old.lane }
    requires idle { IsIdle (view pass.old) }
    ensures of { IsOf index.now.board pass.new }
    ensures lane { pass.new.lane ≡ pass.old.lane }
    ensures idle { IsIdle (view pass.new) }
{
    for key in keys {
        if !put_often(pass, index, key, value, steps) {
            return false;
        }
    }
    true
}

// Takes all these keys out.
fn take_all<L: Ledger>(pass: &mut Pass, index: &Index, keys: &[Key], steps: &mut Steps<L>) -> bool
    requires of { IsOf index.now.board pass.old }
    requires lane { IsSome pass.old.lane }
    requires idle { IsIdle (view pass.old) }
    ensures of { IsOf index.now.board pass.new }
    ensures lane { pass.new.lane ≡ pass.old.lane }
    ensures idle { IsIdle (view pass.new) }
{
    for key in keys {
        if !take_often(pass, index, key, steps) {
            return false;
        }
    }
    true
}

// All of a lane's keys are there and gone by turns, and there at last.
fn work_counting<L: Ledger>(mut pass: Pass, index: &Index, task: Task, blank: Blank) -> bool
    requires of { IsOf index.now.board pass }
    requires lane { IsSome pass.lane }
    requires idle { IsIdle (view pass) }
    requires name { blank.name ≡ L.name }
    requires parts { blank.parts ≡ L.parts }
    requires some { 0 < blank.parts }
{
    let mut steps = Steps::<L>::new(blank);
    for _ in 0..ROUNDS {
        if !put_all(&mut pass, index, task.keys, task.first, &mut steps) {
            return false;
        }
        if !take_all(&mut pass, index, task.keys, &mut steps) {
            return false;
        }
    }
    put_all(&mut pass, index, task.keys, task.last, &mut steps)
}

fn work(pass: Pass, index: &Index, task: Task) -> bool
    requires of { IsOf index.now.board pass }
    requires lane { IsSome pass.lane }
    requires idle { IsIdle (view pass) }
{
    work_counting::<Brand>(pass, index, task, Blank::new(1))
}

// Reads all these keys once. A key that is there has a value of one byte.
fn read_all<L: Ledger>(
    pass: &mut Pass,
    index: &Index,
    keys: &[Key],
    out: &mut Vec<u8>,
    steps: &mut Steps<L>,
) -> bool
    requires of { IsOf index.now.board pass.old }
    requires lane { IsSome pass.old.lane }
    requires idle { IsIdle (view pass.old) }
    ensures of { IsOf index.now.board pass.new }
    ensures lane { pass.new.lane ≡ pass.old.lane }
    ensures idle { IsIdle (view pass.new) }
{
    for key in keys {
        match try_get(pass, index, key, out, steps) {
            Ok(true) => {
                if out.len() != 1 {
                    return false;
                }
            }
            Ok(false) | Err(GetFault::Again(_)) => {}
            Err(GetFault::NoMemory) => return false,
        }
    }
    true
}

fn read_counting<L: Ledger>(
    alloc: Global,
    mut pass: Pass,
    index: &Index,
    keys: &[Key],
    blank: Blank,
) -> bool
    requires of { IsOf index.now.board pass }
    requires lane { IsSome pass.lane }
    requires idle { IsIdle (view pass) }
    requires name { blank.name ≡ L.name }
    requires parts { blank.parts ≡ L.parts }
    requires some { 0 < blank.parts }
{
    let mut steps = Steps::<L>::new(blank);
    let mut out = Vec::new(alloc);
    for _ in 0..ROUNDS {
        if !read_all(&mut pass, index, keys, &mut out, &mut steps) {
            return false;
        }
    }
    true
}

fn read(alloc: Global, pass: Pass, index: &Index, keys: &[Key]) -> bool
    requires of { IsOf index.now.board pass }
    requires lane { IsSome pass.lane }
    requires idle { IsIdle (view pass) }
{
    read_counting::<Brand>(alloc, pass, index, keys, Blank::new(1))
}

// Whether all these keys have this value.
fn have_value<L: Ledger>(
    alloc: Global,
    pass: &mut Pass,
    index: &Index,
    keys: &[Key],
    value: &Bytes,
    steps: &mut Steps<L>,
) -> bool
    requires of { IsOf index.now.board pass.old }
    requires lane { IsSome pass.old.lane }
    requires idle { IsIdle (view pass.old) }
    ensures of { IsOf index.now.board pass.new }
    ensures lane { pass.new.lane ≡ pass.old.lane }
    ensures idle { IsIdle (view pass.new) }
{
    let mut out = Vec::new(alloc);
    for key in keys {
        let answer: Result<bool, GetFault> = try_get(pass, index, key, &mut out, steps);
        if answer != Ok(true) || out.as_slice() != value.get() {
            return false;
        }
    }
    true
}

// How many keys the index has, by a walk over all of it. It gives up behind so many parts.
fn count_keys<L: Ledger>(
    alloc: Global,
    pass: &mut Pass,
    index: &Index,
    steps: &mut Steps<L>,
) -> Option<usize>
    requires of { IsOf index.now.board pass.old }
    requires lane { IsSome pass.old.lane }
    requires idle { IsIdle (view pass.old) }
    ensures of { IsOf index.now.board pass.new }
    ensures lane { pass.new.lane ≡ pass.old.lane }
    ensures idle { IsIdle (view pass.new) }
{
    let mut cursor = Cursor::new(Bound::Low, Bound::High);
    let mut page = Page::new(alloc);
    let mut count = 0usize;
    for _ in 0..100u32 {
        match cursor.next(pass, index, &mut page, steps) {
            Ok(true) => count = count.saturating_add(page.len()),
            Ok(false) => return Some(count),
            Err(_) => return None,
        }
    }
    None
}

// The passes of four lanes that run at once.
struct Four {
    a: Pass,
    b: Pass,
    c: Pass,
    reader: Pass,
}

fn four_forks(alloc: Global, first: &mut Pass, index: &Index) -> Result<Four, ForkFault>
    requires of { IsOf index.now.board first.old }
    requires lane { IsSome first.old.lane }
    requires idle { IsIdle (view first.old) }
    ensures of { IsOf index.now.board first.new }
    ensures lane { first.new.lane ≡ first.old.lane }
    ensures idle { IsIdle (view first.new) }
    ensures four_of { IfOk result (λ four. IsOf index.now.board four.a × IsOf index.now.board four.b × IsOf index.now.board four.c × IsOf index.now.board four.reader) }
    ensures four_lanes { IfOk result (λ four. IsSome four.a.lane × IsSome four.b.lane × IsSome four.c.lane × IsSome four.reader.lane) }
    ensures four_idle { IfOk result (λ four. IsIdle (view four.a) × IsIdle (view four.b) × IsIdle (view four.c) × IsIdle (view four.reader)) }
{
    let a = fork(first, alloc, index)?;
    let b = fork(first, alloc, index)?;
    let c = fork(first, alloc, index)?;
    let reader = fork(first, alloc, index)?;
    Ok(Four { a, b, c, reader })
}

// Two lanes work at once.
fn two_work<R: Threads + Sync>(
    rt: &R,
    index: &Index,
    a: Pass,
    b: Pass,
    first: Task,
    second: Task,
) -> bool
    requires of { IsOf index.now.board a × IsOf index.now.board b }
    requires lanes { IsSome a.lane × IsSome b.lane }
    requires idle { IsIdle (view a) × IsIdle (view b) }
{
    let (one, other) = join(
        rt,
        move ||
            requires { IsOf index.now.board a × IsSome a.lane × IsIdle (view a) }
        { work(a, index, first) },
        move ||
            requires { IsOf index.now.board b × IsSome b.lane × IsIdle (view b) }
        { work(b, index, second) },
    );
    one && other
}

// One lane works while another reads.
fn one_works<R: Threads + Sync>(
    rt: &R,
    alloc: Global,
    index: &Index,
    c: Pass,
    reader: Pass,
    task: Task,
    keys: &[Key],
) -> bool
    requires of { IsOf index.now.board c × IsOf index.now.board reader }
    requires lanes { IsSome c.lane × IsSome reader.lane }
    requires idle { IsIdle (view c) × IsIdle (view reader) }
{
    let (one, other) = join(
        rt,
        move ||
            requires { IsOf index.now.board c × IsSome c.lane × IsIdle (view c) }
        { work(c, index, task) },
        move ||
            requires { IsOf index.now.board reader × IsSome reader.lane × IsIdle (view reader) }
        { read(alloc, reader, index, keys) },
    );
    one && other
}

// The keys of three lanes, which are eight, and all of them.
#[derive(Drop)]
struct Keys {
    a: Vec<Key>,
    b: Vec<Key>,
    c: Vec<Key>,
    all: Vec<Key>,
}

// A key of each of these letters.
fn letter_keys(alloc: Global, letters: &[u8]) -> Result<Vec<Key>, AllocError> {
    let mut keys = Vec::new(alloc);
    for letter in letters {
        if let Ok(key) = Key::new(alloc, &[*letter]) {
            keys.push(key)?;
        }
    }
    Ok(keys)
}

fn eight_keys(alloc: Global) -> Result<Keys, AllocError> {
    let a = letter_keys(alloc, b"adg")?;
    let b = letter_keys(alloc, b"beh")?;
    let c = letter_keys(alloc, b"cf")?;
    let all = letter_keys(alloc, b"abcdefgh")?;
    Ok(Keys { a, b, c, all })
}

// A value for a while, and the last one of each lane.
#[derive(Drop)]
struct Values {
    first: Bytes,
    a: Bytes,
    b: Bytes,
    c: Bytes,
}

fn four_values(alloc: Global) -> Result<Values, AllocError> {
    let first = Bytes::copied(alloc, b"0")?;
    let a = Bytes::copied(alloc, b"1")?;
    let b = Bytes::copied(alloc, b"2")?;
    let c = Bytes::copied(alloc, b"3")?;
    Ok(Values { first, a, b, c })
}

// Three lanes work and one reads, all at once.
fn all_work<R: Threads + Sync>(
    rt: &R,
    alloc: Global,
    index: &Index,
    four: Four,
    keys: &Keys,
    values: &Values,
) -> bool
    requires of { IsOf index.now.board four.a × IsOf index.now.board four.b × IsOf index.now.board four.c × IsOf index.now.board four.reader }
    requires lanes { IsSome four.a.lane × IsSome four.b.lane × IsSome four.c.lane × IsSome four.reader.lane }
    requires idle { IsIdle (view four.a) × IsIdle (view four.b) × IsIdle (view four.c) × IsIdle (view four.reader) }
{
    let Four { a, b, c, reader } = four;
    let first = &values.first;
    let one = Task {
        keys: keys.a.as_slice(),
        first,
        last: &values.a,
    };
    let two = Task {
        keys: keys.b.as_slice(),
        first,
        last: &values.b,
    };
    let three = Task {
        keys: keys.c.as_slice(),
        first,
        last: &values.c,
    };
    let all = keys.all.as_slice();
    let (left, right) = join(
        rt,
        move ||
            requires { IsOf index.now.board a × IsSome a.lane × IsIdle (view a) × IsOf index.now.board b × IsSome b.lane × IsIdle (view b) }
        { two_work(rt, index, a, b, one, two) },
        move ||
            requires { IsOf index.now.board c × IsSome c.lane × IsIdle (view c) × IsOf index.now.board reader × IsSome reader.lane × IsIdle (view reader) }
        { one_works(rt, alloc, index, c, reader, three, all) },
    );
    left && right
}

// Whether each lane's keys have the value that it put last, and no other key is there.
fn are_as_put<L: Ledger>(
    alloc: Global,
    pass: &mut Pass,
    index: &Index,
    keys: &Keys,
    values: &Values,
    blank: Blank,
) -> bool
    requires of { IsOf index.now.board pass.old }
    requires lane { IsSome pass.old.lane }
    requires idle { IsIdle (view pass.old) }
    requires name { blank.name ≡ L.name }
    requires parts { blank.parts ≡ L.parts }
    requires some { 0 < blank.parts }
{
    let mut steps = Steps::<L>::new(blank);
    let a = have_value(alloc, pass, index, keys.a.as_slice(), &values.a, &mut steps);
    let b = have_value(alloc, pass, index, keys.b.as_slice(), &values.b, &mut steps);
    let c = have_value(alloc, pass, index, keys.c.as_slice(), &values.c, &mut steps);
    a && b && c && count_keys(alloc, pass, index, &mut steps) == Some(8)
}

fn lanes_at_once<R: Threads + Sync>(rt: &R, alloc: Global) -> bool {
    let (Ok(keys), Ok(values)) = (eight_keys(alloc), four_values(alloc)) else {
        return false;
    };
    let Ok((index, mut pass)) = Index::make(alloc, &SMALL) else {
        return false;
    };
    let Ok(four) = four_forks(alloc, &mut pass, &index) else {
        return false;
    };
    let whole = keys.all.len() == 8;
    let worked = all_work(rt, alloc, &index, four, &keys, &values);
    whole && worked && are_as_put::<Brand>(alloc, &mut pass, &index, &keys, &values, Blank::new(1))
}

#[test]
fn three_lanes_change_few_leaves_while_one_reads(rt: HostRuntime) {
    assert!(&rt; lanes_at_once(&rt, rt.alloc()));
}
