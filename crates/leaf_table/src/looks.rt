//! Looking for a key, and at the leaves.

ghost use Rattle.std.specs.Prelude.{◌≡◌, ◌<◌, Some, None, MatchOption, true};
ghost use Rattle.key_bytes.specs.Fnv.{prefix_hash};
ghost use Rattle.anchor_rules.specs.Anchors.{target, has_leaf};
ghost use Rattle.map_model.specs.Maps as maps;
ghost use Rattle.row_words.specs.VecRows.{shape_of, words_of};
ghost use Rattle.meta_trie.specs.Stands.{StandsFor, anchors_of};
ghost use Rattle.leaf_table.specs.Facts.{AreBeside};
ghost use Rattle.leaf_table.specs.Places.{IsPlace};
ghost use Rattle.leaf_table.specs.Table.{size_at};

use crate::{LeafTable, Neighbours, Place};
use key_bytes::Key;
use meta_trie::neighbours;
use prefix_search::{Hint, seek};
use row_words::VecRows;
use std::marker::Brand;
use std::sync::ledger::{Blank, Ledger};
use steps::Steps;

impl LeafTable {
    /// Where the key belongs. It takes at most a look for each binary digit of the key's length or of
    /// that of the longest anchor, whichever is less: fewer where the last keys ended at about the same
    /// length. The place serves until the next split or merge.
    #[inline]
    pub fn place_of(&mut self, key: &Key) -> Place
        ensures place { IsPlace self.old key.now result }
        ensures live { has_leaf self.old.anchors result.leaf ≡ true }
        ensures same { self.new ≡ self.old }
    {
        seek_key::<Brand>(&mut self.rows, key, &mut self.hint, Blank::new(1))
    }

    /// How many keys a leaf has.
    pub fn size(&self, leaf: u32) -> usize
        requires { has_leaf self.now.anchors leaf ≡ true }
        ensures { result ≡ size_at self.now leaf }
    {
        self.leaves[leaf as usize].len()
    }

    /// The value of a key, whose place this is.
    #[inline]
    pub fn find(&self, place: Place, key: &Key) -> Option<&[u8]>
        requires { IsPlace self.now key.now place }
        ensures { MatchOption result (maps.find self.now.map key.now ≡ None) (λ value. maps.find self.now.map key.now ≡ Some value.now) }
    {
        match self.leaves[place.leaf as usize].find_hashed(place.hash, key) {
            Some(value) => Some(value.get()),
            None => None,
        }
    }

    /// The leaves just before and just behind a leaf.
    pub fn neighbours(&mut self, leaf: u32) -> Neighbours
        requires { has_leaf self.old.anchors leaf ≡ true }
        ensures beside { AreBeside self.old.anchors leaf result }
        ensures same { self.new ≡ self.old }
    {
        beside::<Brand>(&mut self.rows, leaf, Blank::new(1))
    }
}

// The place of a key, with a counter for the steps of the search.
#[inline]
fn seek_key<L: Ledger>(rows: &mut VecRows, key: &Key, hint: &mut Hint, blank: Blank) -> Place
    requires name { blank.name ≡ L.name }
    requires parts { blank.parts ≡ L.parts }
    requires some { 0 < blank.parts }
    requires stands { StandsFor (shape_of rows.old) (words_of rows.old) (anchors_of (shape_of rows.old) (words_of rows.old)) }
    ensures leaf { result.leaf ≡ target (anchors_of (shape_of rows.old) (words_of rows.old)) key.now }
    ensures hash { result.hash ≡ prefix_hash (shape_of rows.old).salt key.now }
    ensures words { words_of rows.new ≡ words_of rows.old }
    ensures shape { shape_of rows.new ≡ shape_of rows.old }
{
    let mut steps = Steps::<L>::new(blank);
    let sought = seek(rows, key, hint, &mut steps);
    Place {
        leaf: sought.leaf,
        hash: sought.hash,
    }
}

// The leaves just before and just behind a leaf, with a counter for the look at its row.
fn beside<L: Ledger>(rows: &mut VecRows, leaf: u32, blank: Blank) -> Neighbours
    requires name { blank.name ≡ L.name }
    requires parts { blank.parts ≡ L.parts }
    requires some { 0 < blank.parts }
    requires stands { StandsFor (shape_of rows.old) (words_of rows.old) (anchors_of (shape_of rows.old) (words_of rows.old)) }
    requires live { has_leaf (anchors_of (shape_of rows.old) (words_of rows.old)) leaf ≡ true }
    ensures beside { AreBeside (anchors_of (shape_of rows.old) (words_of rows.old)) leaf result }
    ensures words { words_of rows.new ≡ words_of rows.old }
    ensures shape { shape_of rows.new ≡ shape_of rows.old }
{
    let mut steps = Steps::<L>::new(blank);
    let sides = neighbours(rows, leaf, &mut steps);
    Neighbours {
        left: sides.before,
        right: sides.behind,
    }
}
