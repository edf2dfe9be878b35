//! The table of a whole list of anchors.

ghost use Rattle.std.specs.Prelude.{◌≡◌, ◌<◌, ◌≤◌, ◌+◌, ◌∷◌, [], true, false, length, take, OnOk, OnErr, IfErr};
ghost use Rattle.anchor_rules.specs.Anchors.{AreAnchors, AreShort};
ghost use Rattle.anchor_rules.specs.Items.{first_leaf};
ghost use Rattle.meta_trie.specs.Stands.{StandsFor, prefix_count};
ghost use Rattle.meta_trie.specs.Fits.{AreLeavesBelow, IsLeafPast, FitsAnchors, AreAnchorsTooMany};

use crate::adds::add_counting;
use crate::starts::start;
use anchor_rules::Anchors;
use key_bytes::lcp;
use map_model::TableFull;
use row_words::RowsMut;
use std::marker::Brand;
use std::sync::ledger::Blank;

/// Makes the rows stand for these anchors, whatever they were. Where there is no room for them they
/// stand for the empty anchor with leaf 0. It takes no memory, and writes the item of a prefix once
/// for each anchor that begins with it.
pub fn build<R: RowsMut>(rows: &mut R, anchors: &Anchors) -> Result<(), TableFull>
    requires few { length anchors.now < 4294967296 }
    requires zero { first_leaf anchors.now ≡ 0 }
    ensures ok { OnOk result (StandsFor (R.shape rows.old) (R.words rows.new) anchors.now) }
    ensures room { OnOk result (FitsAnchors (R.shape rows.old) anchors.now) }
    ensures full { IfErr result (AreAnchorsTooMany (R.shape rows.old) anchors.now) }
    ensures refused { OnErr result (StandsFor (R.shape rows.old) (R.words rows.new) (([], 0) ∷ [])) }
    ensures shape { R.shape rows.new ≡ R.shape rows.old }
    ensures stays { R.stays rows.old rows.new }
{
    start(rows);
    let shape = rows.layout();
    let used = anchors.len() as u32;
    if !leaves_below(anchors, shape.leaves) {
        return Err(TableFull::Leaves {
            used,
            cap: shape.leaves,
        });
    }
    let needed = count_prefixes(anchors);
    if needed > shape.items {
        return Err(TableFull::Items {
            needed,
            free: shape.items,
        });
    }
    for i in 1..anchors.len() {
        add_next(rows, anchors, i);
    }
    Ok(())
}

/// Whether the number of each leaf is below the cap.
fn leaves_below(anchors: &Anchors, cap: u32) -> bool
    ensures below { result ≡ true → AreLeavesBelow cap anchors.now }
    ensures past { result ≡ false → IsLeafPast cap anchors.now }
{
    for i in 0..anchors.len() {
        if anchors.leaf(i) >= cap {
            return false;
        }
    }
    true
}

/// How many prefixes the anchors have.
fn count_prefixes(anchors: &Anchors) -> u32
    requires { length anchors.now ≤ 65536 }
    ensures { result ≡ prefix_count anchors.now }
{
    let mut count = 1;
    for i in 1..anchors.len() {
        let anchor = anchors.anchor(i);
        count += (anchor.len() - lcp(anchors.anchor(i - 1), anchor)) as u32;
    }
    count
}

/// Adds the anchor at a place to those before it.
fn add_next<R: RowsMut>(rows: &mut R, anchors: &Anchors, i: usize)
    requires some { 0 < i }
    requires within { i < length anchors.now }
    requires anchors { AreAnchors anchors.now }
    requires short { AreShort anchors.now }
    requires fits { FitsAnchors (R.shape rows.old) anchors.now }
    requires table { StandsFor (R.shape rows.old) (R.words rows.old) (take i anchors.now) }
    ensures table { StandsFor (R.shape rows.old) (R.words rows.new) (take (i + 1) anchors.now) }
    ensures shape { R.shape rows.new ≡ R.shape rows.old }
    ensures stays { R.stays rows.old rows.new }
{
    let left = anchors.leaf(i - 1);
    let leaf = anchors.leaf(i);
    let anchor = anchors.anchor(i);
    match add_counting::<R, Brand>(rows, left, anchor, leaf, Blank::new(1)) {
        Ok(()) => {}
        Err(_) => unreachable!(),
    }
}
