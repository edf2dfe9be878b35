//! Parts of the map.

ghost use Rattle.std.specs.Prelude.{◌≡◌, ◌≢◌, ◌<◌, ◌≤◌, [], length, IfOk, OnErr};
ghost use Rattle.key_bytes.specs.Bound.{bound_cmp};
ghost use Rattle.map_model.specs.Maps.{between};
ghost use Rattle.row_words.specs.VecRows.{shape_of, words_of};
ghost use Rattle.meta_trie.specs.Stands.{StandsFor, anchors_of};
ghost use Rattle.prefix_search.specs.Search.{IsFollowed};
ghost use Rattle.leaf_spans.specs.Ends.{leaf_from, part_end};

use crate::LeafTable;
use key_bytes::Bound;
use leaf_pages::{fill, lower_end};
use map_model::Page;
use prefix_search::{Located, locate_end};
use row_words::VecRows;
use std::alloc::{AllocError, Global};
use std::cmp::Ordering;
use std::marker::Brand;
use std::sync::ledger::{Blank, Ledger};
use steps::Steps;

impl LeafTable {
    /// Leaves the first pairs from `from` on in `page`, those of one leaf, and answers where they
    /// end: at `to`, or at the anchor that follows the leaf.
    pub fn part(&mut self, from: &Bound, to: &Bound, page: &mut Page) -> Result<Bound, AllocError>
        requires { bound_cmp from.now to.now ≡ Ordering.Less }
        ensures pairs { IfOk result (λ upto. page.new.pairs ≡ between self.old.map from.now upto) }
        ensures end { IfOk result (λ upto. upto ≡ part_end self.old.anchors from.now to.now) }
        ensures above { IfOk result (λ upto. bound_cmp from.now upto ≡ Ordering.Less) }
        ensures within { IfOk result (λ upto. bound_cmp upto to.now ≢ Ordering.Greater) }
        ensures most { length page.new.pairs ≤ self.old.shape.hard }
        ensures cleared { OnErr result (page.new.pairs ≡ []) }
        ensures same { self.new ≡ self.old }
    {
        page.clear();
        let located = locate_from::<Brand>(&mut self.rows, from, Blank::new(1));
        let upto = lower_end(self.alloc, located.next, to)?;
        fill(&mut self.leaves[located.leaf as usize], from, &upto, page)?;
        Ok(upto)
    }
}

// The leaf from which on keys from an end on are found, with a counter for the steps of the search.
fn locate_from<L: Ledger>(rows: &mut VecRows, from: &Bound, blank: Blank) -> Located
    requires name { blank.name ≡ L.name }
    requires parts { blank.parts ≡ L.parts }
    requires some { 0 < blank.parts }
    requires stands { StandsFor (shape_of rows.old) (words_of rows.old) (anchors_of (shape_of rows.old) (words_of rows.old)) }
    ensures leaf { result.leaf ≡ leaf_from (anchors_of (shape_of rows.old) (words_of rows.old)) from.now }
    ensures next { IsFollowed (anchors_of (shape_of rows.old) (words_of rows.old)) result.leaf result.next }
    ensures words { words_of rows.new ≡ words_of rows.old }
    ensures shape { shape_of rows.new ≡ shape_of rows.old }
{
    let mut steps = Steps::<L>::new(blank);
    locate_end(rows, from, &mut steps)
}
