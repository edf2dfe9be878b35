//! Searches of a table of the index on one thread, whose words lie in vectors, and of the pinned table of the shared one.
ghost use Rattle.std.specs.Prelude.{◌≡◌, ◌<◌, None, IsSome};
ghost use Rattle.board_rule.specs.Passes.{view, IsOf};
ghost use Rattle.worm_index.specs.Idle.{IsIdle};

use crate::Plan;
use crate::keys::{all_keys, asked_keys, shape};
use board_rule::Pass;
use key_bytes::Key;
use leaf_table::LeafTable;
use prefix_search::Hint;
use std::alloc::Global;
use std::io;
use std::marker::Brand;
use std::rt::Clock;
use std::sync::ledger::{Blank, Ledger};
use std::time::Instant;
use steps::Steps;
use twin_tables::{pin, seek_pinned};
use worm_index::{Index, try_put};

// Puts the keys into the table of one thread, and splits each leaf that has more keys than it should.
fn put_in_vectors(table: &mut LeafTable, keys: &[Key], value: &[u8]) {
    for key in keys {
        let place = table.place_of(key);
        if table.size(place.leaf) < table.shape().hard as usize {
            // Without memory for them there are fewer keys.
            let _ = table.set(place, key, value);
        }
        let place = table.place_of(key);
        if table.size(place.leaf) > table.shape().soft as usize {
            let _ = table.split(place.leaf);
        }
    }
}

fn put_shared<L: Ledger>(
    pass: &mut Pass,
    index: &Index,
    keys: &[Key],
    value: &[u8],
    steps: &mut Steps<L>,
)
    requires of { IsOf index.now.board pass.old }
    requires lane { IsSome pass.old.lane }
    requires idle { IsIdle (view pass.old) }
    ensures of { IsOf index.now.board pass.new }
    ensures lane { pass.new.lane ≡ pass.old.lane }
    ensures idle { IsIdle (view pass.new) }
{
    for key in keys {
        // Without memory for them there are fewer keys.
        let _ = try_put(pass, index, key, value, steps);
    }
}

// Adds the numbers of the leaves that the keys lie in. It stays a call, so that a profile tells it apart.
#[inline(never)]
fn search_vectors(table: &mut LeafTable, keys: &[Key]) -> u64 {
    let mut leaves = 0u64;
    for key in keys {
        leaves = leaves.wrapping_add(u64::from(table.place_of(key).leaf));
    }
    leaves
}

// The same by the published table, which is pinned for each search.
#[inline(never)]
fn search_pinned<L: Ledger>(
    pass: &mut Pass,
    index: &Index,
    keys: &[Key],
    steps: &mut Steps<L>,
) -> u64
    requires of { IsOf index.now.board pass.old }
    requires lane { IsSome pass.old.lane }
    requires bare { (view pass.old).pin ≡ None }
    ensures of { IsOf index.now.board pass.new }
    ensures lane { pass.new.lane ≡ pass.old.lane }
    ensures bare { (view pass.new).pin ≡ None }
{
    let mut hint = Hint::new();
    let mut leaves = 0u64;
    for key in keys {
        let leaf = leaf_of(pass, index, key, &mut hint, steps);
        leaves = leaves.wrapping_add(u64::from(leaf));
    }
    leaves
}

fn leaf_of<L: Ledger>(
    pass: &mut Pass,
    index: &Index,
    key: &Key,
    hint: &mut Hint,
    steps: &mut Steps<L>,
) -> u32
    requires of { IsOf index.now.board pass.old }
    requires lane { IsSome pass.old.lane }
    requires bare { (view pass.old).pin ≡ None }
    ensures of { IsOf index.now.board pass.new }
    ensures lane { pass.new.lane ≡ pass.old.lane }
    ensures bare { (view pass.new).pin ≡ None }
{
    match pin(pass, index.board()) {
        Ok(mut pinned) => {
            let leaf = seek_pinned(&mut pinned, key, hint, steps).leaf;
            pinned.unpin();
            leaf
        }
        Err(_) => 0,
    }
}

fn time_both<R: Clock + Print, L: Ledger>(
    rt: &R,
    alloc: Global,
    plan: &Plan,
    blank: Blank,
) -> io::Result<()>
    requires name { blank.name ≡ L.name }
    requires parts { blank.parts ≡ L.parts }
    requires some { 0 < blank.parts }
{
    let mut steps = Steps::<L>::new(blank);
    let value = b"value-000000000000000001";
    let keys = all_keys(alloc, plan);
    let asked = asked_keys(alloc, plan);
    let (Ok(mut table), Ok((index, mut pass))) = (
        LeafTable::make(alloc, &shape()),
        Index::make(alloc, &shape()),
    ) else {
        return Ok(());
    };
    put_in_vectors(&mut table, &keys, value);
    put_shared(&mut pass, &index, &keys, value, &mut steps);
    for _ in 0..plan.rounds {
        let start = Instant::now(rt)?;
        let one = search_vectors(&mut table, &asked);
        let middle = Instant::now(rt)?;
        let two = search_pinned(&mut pass, &index, &asked, &mut steps);
        let pinned = middle.elapsed(rt)?.as_nanos();
        let vectors = middle.duration_since(start).as_nanos();
        let same = if one == two { "same" } else { "other" };
        println!(rt; "search {vectors} {pinned} {same}")?;
    }
    Ok(())
}

/// Times searches in each round.
pub(crate) fn time_searches<R: Clock + Print>(
    rt: &R,
    alloc: Global,
    plan: &Plan,
) -> io::Result<()> {
    time_both::<R, Brand>(rt, alloc, plan, Blank::new(1))
}
