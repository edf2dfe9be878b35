//! Searches of a small table.
ghost use Rattle.std.specs.Prelude.{◌≡◌, ◌<◌, IfOk, length};
ghost use Rattle.anchor_rules.specs.Items.{first_leaf};
ghost use Rattle.row_words.specs.VecRows.{shape_of, words_of};
ghost use Rattle.meta_trie.specs.Stands.{IsTable};

use crate::shared::{SMALL, three_anchors};
use anchor_rules::Anchors;
use key_bytes::{Key, prefix_hash};
use meta_trie::build;
use prefix_search::{Hint, Sought, locate, longest, seek};
use row_words::VecRows;
use std::alloc::Global;
use std::marker::Brand;
use std::sync::ledger::{Blank, Ledger};
use std::test::Fail;
use steps::Steps;

// Keys, their leaves among the empty anchor, `Jo` and `Jos`, and the lengths of their longest prefixes that have items.
const KEYS: [(&str, u32, u32); 7] = [
    ("J", 0, 1),
    ("Jn", 0, 1),
    ("Jo", 1, 2),
    ("Jor", 1, 2),
    ("Jos", 2, 3),
    ("Josephine", 2, 3),
    ("Jp", 2, 1),
];

// The same anchors and leaves in a list.
fn three_in_a_list(alloc: Global) -> Result<Anchors, Fail>
    ensures { IfOk result (λ anchors. (length anchors < 4) × (first_leaf anchors ≡ 0)) }
{
    let mut anchors = Anchors::first(alloc, 0)?;
    let first = Key::new(alloc, b"Jo")?;
    anchors.with_split(0, first, 1)?;
    let second = Key::new(alloc, b"Jos")?;
    anchors.with_split(1, second, 2)?;
    Ok(anchors)
}

// A table of these.
fn three_built(alloc: Global) -> Result<VecRows, Fail>
    ensures { IfOk result (λ rows. IsTable (shape_of rows) (words_of rows)) }
{
    let anchors = three_in_a_list(alloc)?;
    let mut rows = VecRows::new(alloc, &SMALL)?;
    build(&mut rows, &anchors)?;
    Ok(rows)
}

// The leaf of a key, and the length of its longest prefix that has an item.
fn search<L: Ledger>(rows: &mut VecRows, key: &Key, blank: Blank) -> (u32, u32)
    requires name { blank.name ≡ L.name }
    requires parts { blank.parts ≡ L.parts }
    requires some { 0 < blank.parts }
    requires table { IsTable (shape_of rows.old) (words_of rows.old) }
    ensures { IsTable (shape_of rows.new) (words_of rows.new) }
{
    let mut steps = Steps::<L>::new(blank);
    let len = longest(rows, key, &mut steps).len;
    (locate(rows, key, &mut steps).leaf, len)
}

fn is_found(rows: &mut VecRows, alloc: Global, text: &str, leaf: u32, len: u32) -> bool
    requires { IsTable (shape_of rows.old) (words_of rows.old) }
    ensures { IsTable (shape_of rows.new) (words_of rows.new) }
{
    match Key::new(alloc, text.as_bytes()) {
        Ok(key) => search::<Brand>(rows, &key, Blank::new(1)) == (leaf, len),
        Err(_) => false,
    }
}

// Whether all keys have their leaves and prefixes.
fn are_found(rows: &mut VecRows, alloc: Global) -> bool
    requires { IsTable (shape_of rows.old) (words_of rows.old) }
{
    for (text, leaf, len) in KEYS {
        if !is_found(rows, alloc, text, leaf, len) {
            return false;
        }
    }
    true
}

fn are_found_where_added(alloc: Global) -> Result<bool, Fail> {
    let mut rows = three_anchors(alloc)?;
    Ok(are_found(&mut rows, alloc))
}

fn are_found_where_built(alloc: Global) -> Result<bool, Fail> {
    let mut rows = three_built(alloc)?;
    Ok(are_found(&mut rows, alloc))
}

#[test]
fn keys_among_three_anchors(rt: HostRuntime) -> Result<(), Fail> {
    assert!(rt; are_found_where_added(rt.alloc())?);
    assert!(rt; are_found_where_built(rt.alloc())?);
    Ok(())
}

// The leaf of a key and its hash, by themselves.
fn only_leaf<L: Ledger>(rows: &mut VecRows, key: &Key, hint: &mut Hint, blank: Blank) -> Sought
    requires name { blank.name ≡ L.name }
    requires parts { blank.parts ≡ L.parts }
    requires some { 0 < blank.parts }
    requires table { IsTable (shape_of rows.old) (words_of rows.old) }
    ensures { IsTable (shape_of rows.new) (words_of rows.new) }
{
    let mut steps = Steps::<L>::new(blank);
    seek(rows, key, hint, &mut steps)
}

fn is_sought(rows: &mut VecRows, alloc: Global, text: &str, hint: &mut Hint, leaf: u32) -> bool
    requires { IsTable (shape_of rows.old) (words_of rows.old) }
    ensures { IsTable (shape_of rows.new) (words_of rows.new) }
{
    let Ok(key) = Key::new(alloc, text.as_bytes()) else {
        return false;
    };
    let sought = only_leaf::<Brand>(rows, &key, hint, Blank::new(1));
    sought.leaf == leaf && sought.hash == prefix_hash(SMALL.salt, text.as_bytes())
}

// Whether all keys are sought with this hint, which learns from each.
fn are_sought(rows: &mut VecRows, alloc: Global, hint: &mut Hint) -> bool
    requires { IsTable (shape_of rows.old) (words_of rows.old) }
    ensures { IsTable (shape_of rows.new) (words_of rows.new) }
{
    for (text, leaf, _) in KEYS {
        if !is_sought(rows, alloc, text, hint, leaf) {
            return false;
        }
    }
    true
}

// The second time the hint is that of the searches before.
fn are_sought_twice(alloc: Global) -> Result<bool, Fail> {
    let mut rows = three_anchors(alloc)?;
    let mut hint = Hint::new();
    let first = are_sought(&mut rows, alloc, &mut hint);
    Ok(first && are_sought(&mut rows, alloc, &mut hint))
}

#[test]
fn keys_sought_twice_among_three_anchors(rt: HostRuntime) -> Result<(), Fail> {
    assert!(rt; are_sought_twice(rt.alloc())?);
    Ok(())
}
