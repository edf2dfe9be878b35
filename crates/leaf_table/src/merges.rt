//! Merging two leaves.

ghost use Rattle.std.specs.Prelude.{ℕ, ◌≡◌, ◌≢◌, ◌+◌, ◌<◌, ◌≤◌, ◌⊎◌, ◌++◌, List, [], length, true, None, OnOk, OnErr, vec_capacity};
ghost use Rattle.anchor_rules.specs.Anchors.{adjacent};
ghost use Rattle.map_model.specs.Maps.{find, sorted};
ghost use Rattle.leaf_table.specs.Changes.{IsMerged};
ghost use Rattle.leaf_table.specs.Leaves.{map_at, HaveSalt};
ghost use Rattle.leaf_table.specs.Table.{size_at};

use crate::LeafTable;
use key_bytes::Bytes;
use leaf_store::Leaf;
use meta_trie::remove_anchor;
use row_words::Rows;
use std::alloc::AllocError;
use std::mem;

impl LeafTable {
    /// Merges two neighbouring leaves: the left one has the keys of both afterwards. The memory of
    /// the right one is freed.
    pub fn merge(&mut self, left: u32, right: u32) -> Result<(), AllocError>
        requires adjacent { adjacent self.old.anchors left right ≡ true }
        requires few { size_at self.old left + size_at self.old right ≤ self.old.shape.hard }
        ensures ok { OnOk result (IsMerged self.old self.new left right) }
        ensures refused { OnErr result (self.new ≡ self.old) }
    {
        let empty = Leaf::new(self.alloc, self.rows.salt());
        join(&mut self.leaves, left as usize, right as usize, empty)?;
        remove_anchor(&mut self.rows, right);
        self.full_below = self.full_below.min(right);
        Ok(())
    }
}

// Moves the pairs of a leaf to another one, and puts an empty leaf in its place.
fn join(
    leaves: &mut Vec<Leaf<Bytes>>,
    left: usize,
    right: usize,
    empty: Leaf<Bytes>,
) -> Result<(), AllocError>
    requires left { left < length leaves.old.items }
    requires right { right < length leaves.old.items }
    requires apart { left ≢ right }
    requires empty { empty.map ≡ [] }
    requires keys { (key : List ℕ) → (find (map_at leaves.old.items left) key ≡ None) ⊎ (find (map_at leaves.old.items right) key ≡ None) }
    ensures joined { OnOk result (map_at leaves.new.items left ≡ sorted (map_at leaves.old.items left ++ map_at leaves.old.items right)) }
    ensures emptied { OnOk result (map_at leaves.new.items right ≡ []) }
    ensures others { (other : ℕ) → other ≢ left → other ≢ right → map_at leaves.new.items other ≡ map_at leaves.old.items other }
    ensures refused { OnErr result ((leaf : ℕ) → map_at leaves.new.items leaf ≡ map_at leaves.old.items leaf) }
    ensures count { length leaves.new.items ≡ length leaves.old.items }
    ensures capacity { vec_capacity leaves.new ≡ vec_capacity leaves.old }
    ensures salts { (salt : ℕ) → HaveSalt leaves.old.items salt → empty.salt ≡ salt → HaveSalt leaves.new.items salt }
{
    let taken = mem::replace(&mut leaves[right], empty);
    match leaves[left].join(taken) {
        Ok(()) => Ok(()),
        Err(back) => {
            leaves[right] = back;
            Err(AllocError)
        }
    }
}
