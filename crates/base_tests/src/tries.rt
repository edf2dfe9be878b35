//! Tables of a few anchors, as these come and go.
ghost use Rattle.std.specs.Prelude.{◌≡◌, ◌<◌, [], ◌∷◌, ℕ, List, IfOk};
ghost use Rattle.row_words.specs.VecRows.{shape_of, words_of};
ghost use Rattle.meta_trie.specs.Stands.{StandsFor, IsTable};

use crate::shared::three_anchors;
use meta_trie::{free_leaf, look, remove_anchor};
use row_words::{Rows, VecRows};
use std::alloc::Global;
use std::marker::Brand;
use std::sync::ledger::{Blank, Ledger};
use std::test::Fail;
use steps::Steps;

// The prefixes of the three anchors are four, as many as there are items.
fn has_room_for_a_leaf(alloc: Global) -> Result<bool, Fail> {
    let mut rows = three_anchors(alloc)?;
    Ok(free_leaf(&mut rows) == Ok(3) && rows.longest() == 3)
}

#[test]
fn adds_anchors(rt: HostRuntime) -> Result<(), Fail> {
    assert!(rt; has_room_for_a_leaf(rt.alloc())?);
    Ok(())
}

// The table of the empty anchor and `Jos`, with leaves 0 and 2, from which `Jo` was removed.
fn without_middle(alloc: Global) -> Result<VecRows, Fail>
    ensures { IfOk result (λ rows. (jos : List ℕ) × StandsFor (shape_of rows) (words_of rows) (([], 0) ∷ (jos, 2) ∷ [])) }
{
    let mut rows = three_anchors(alloc)?;
    remove_anchor(&mut rows, 1);
    Ok(rows)
}

// Whether a prefix is an anchor, its first leaf and its last one, and the bytes from 64 to 127 that
// go on from it.
type Seen = (bool, u32, u32, u64);

fn seen<L: Ledger>(rows: &mut VecRows, prefix: &[u8], blank: Blank) -> Option<Seen>
    requires name { blank.name ≡ L.name }
    requires parts { blank.parts ≡ L.parts }
    requires some { 0 < blank.parts }
    requires table { IsTable (shape_of rows.old) (words_of rows.old) }
    ensures { IsTable (shape_of rows.new) (words_of rows.new) }
{
    let mut steps = Steps::<L>::new(blank);
    match look(rows, prefix, &mut steps) {
        Some(item) => Some((item.is_anchor, item.leftmost, item.rightmost, item.bits[1])),
        None => None,
    }
}

fn known(rows: &mut VecRows, prefix: &[u8]) -> Option<Seen>
    requires { IsTable (shape_of rows.old) (words_of rows.old) }
    ensures { IsTable (shape_of rows.new) (words_of rows.new) }
{
    seen::<Brand>(rows, prefix, Blank::new(1))
}

// The bit of an ASCII letter.
fn letter(c: u8) -> u64 {
    1 << (c % 64)
}

fn knows_two_anchors(alloc: Global) -> Result<bool, Fail> {
    let mut rows = without_middle(alloc)?;
    let empty = known(&mut rows, b"");
    let j = known(&mut rows, b"J");
    let jo = known(&mut rows, b"Jo");
    let jos = known(&mut rows, b"Jos");
    let anchors = empty == Some((true, 0, 2, letter(b'J'))) && jos == Some((true, 2, 2, 0));
    let others = j == Some((false, 2, 2, letter(b'o'))) && jo == Some((false, 2, 2, letter(b's')));
    Ok(anchors && others && rows.longest() == 3)
}

#[test]
fn prefixes_without_the_middle(rt: HostRuntime) -> Result<(), Fail> {
    assert!(rt; knows_two_anchors(rt.alloc())?);
    Ok(())
}

fn knows_the_empty_anchor(alloc: Global) -> Result<bool, Fail> {
    let mut rows = without_middle(alloc)?;
    remove_anchor(&mut rows, 2);
    let empty = known(&mut rows, b"");
    let j = known(&mut rows, b"J");
    let jos = known(&mut rows, b"Jos");
    Ok(empty == Some((true, 0, 0, 0)) && j.is_none() && jos.is_none() && rows.longest() == 0)
}

#[test]
fn prefixes_of_the_empty_anchor_alone(rt: HostRuntime) -> Result<(), Fail> {
    assert!(rt; knows_the_empty_anchor(rt.alloc())?);
    Ok(())
}
