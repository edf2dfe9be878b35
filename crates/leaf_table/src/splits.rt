//! Splitting a leaf.

ghost use Rattle.std.specs.Prelude.{ℕ, ◌≡◌, ◌≢◌, ◌<◌, ◌≤◌, [], length, true, IfOk, IfErr, OnOk, OnErr, vec_capacity};
ghost use Rattle.anchor_rules.specs.Anchors.{has_leaf};
ghost use Rattle.map_model.specs.Halves.{lower_half, upper_half, parting, stay_count};
ghost use Rattle.leaf_table.specs.Changes.{IsSplit};
ghost use Rattle.leaf_table.specs.Facts.{IsSplitFault};
ghost use Rattle.leaf_table.specs.Leaves.{map_at, HaveSalt};
ghost use Rattle.leaf_table.specs.Table.{size_at};

use crate::{LeafTable, SplitFault};
use key_bytes::{Bytes, Key};
use leaf_store::Leaf;
use meta_trie::{add_anchor, free_leaf_from};
use row_words::RowsMut;
use std::alloc::{AllocError, Global};
use std::mem;

// What a split needs before any row changes.
#[derive(Drop)]
struct Parting {
    // The anchor of the new leaf.
    anchor: Key,
    // An empty leaf with room for the lower half of the keys.
    room: Leaf<Bytes>,
}

impl LeafTable {
    /// Splits a leaf: its upper half goes to the least leaf that isn't live. Of an odd number of
    /// keys the greater half stays. It reads one word of each leaf's row up to that leaf, beginning
    /// behind the one that the split before took, or at a lesser one that was merged away since. The
    /// upper half takes the leaf's memory along, and the lower one moves into just as much as it needs:
    /// so keys that come in their order, of which no more goes to the lower half, leave no room behind.
    pub fn split(&mut self, leaf: u32) -> Result<(), SplitFault>
        requires live { has_leaf self.old.anchors leaf ≡ true }
        requires two { 2 ≤ size_at self.old leaf }
        ensures ok { OnOk result (IsSplit self.old self.new leaf) }
        ensures fault { IfErr result (IsSplitFault self.old leaf) }
        ensures refused { OnErr result (self.new ≡ self.old) }
    {
        let right = free_leaf_from(&mut self.rows, self.full_below)?;
        let salt = self.rows.layout().salt;
        let parting = part_of(self.alloc, &mut self.leaves[leaf as usize], salt)?;
        add_anchor(&mut self.rows, leaf, &parting.anchor, right)?;
        halve(
            &mut self.leaves,
            leaf as usize,
            right as usize,
            parting.room,
        );
        // The new leaf was the least that wasn't live.
        self.full_below = right + 1;
        Ok(())
    }
}

// The anchor that parts the halves of a leaf, and room for the lower one.
fn part_of(alloc: Global, leaf: &mut Leaf<Bytes>, salt: u64) -> Result<Parting, AllocError>
    requires { 2 ≤ length leaf.old.map }
    ensures map { leaf.new.map ≡ leaf.old.map }
    ensures salt { leaf.new.salt ≡ leaf.old.salt }
    ensures anchor { IfOk result (λ p. p.anchor ≡ parting leaf.old.map) }
    ensures empty { IfOk result (λ p. p.room.map ≡ []) }
    ensures salted { IfOk result (λ p. p.room.salt ≡ salt) }
    ensures room { IfOk result (λ p. stay_count (length leaf.old.map) ≤ p.room.spare) }
{
    let anchor = leaf.parting(alloc)?;
    let mut room = Leaf::new(alloc, salt);
    room.reserve(leaf.len() - leaf.len() / 2)?;
    Ok(Parting { anchor, room })
}

// Moves the lower half of a leaf into an empty one with room for it, which gets the leaf's number. The
// leaf with the upper half gets another.
fn halve(leaves: &mut Vec<Leaf<Bytes>>, left: usize, right: usize, room: Leaf<Bytes>)
    requires left { left < length leaves.old.items }
    requires right { right ≤ length leaves.old.items }
    requires reserved { right < vec_capacity leaves.old }
    requires apart { left ≢ right }
    requires empty { room.map ≡ [] }
    requires salted { HaveSalt leaves.old.items room.salt }
    requires room { stay_count (length (map_at leaves.old.items left)) ≤ room.spare }
    ensures stay { map_at leaves.new.items left ≡ lower_half (map_at leaves.old.items left) }
    ensures go { map_at leaves.new.items right ≡ upper_half (map_at leaves.old.items left) }
    ensures others { (other : ℕ) → other ≢ left → other ≢ right → map_at leaves.new.items other ≡ map_at leaves.old.items other }
    ensures listed { right < length leaves.new.items }
    ensures kept { length leaves.old.items ≤ length leaves.new.items }
    ensures capacity { vec_capacity leaves.new ≡ vec_capacity leaves.old }
    ensures salts { HaveSalt leaves.new.items room.salt }
{
    let mut lower = room;
    leaves[left].split_front(&mut lower);
    let upper = mem::replace(&mut leaves[left], lower);
    enlist(leaves, right, upper);
}

// Gives a leaf a number: one that there is, or the next one.
fn enlist(leaves: &mut Vec<Leaf<Bytes>>, number: usize, leaf: Leaf<Bytes>)
    requires next { number ≤ length leaves.old.items }
    requires reserved { number < vec_capacity leaves.old }
    ensures map { map_at leaves.new.items number ≡ leaf.map }
    ensures others { (other : ℕ) → other ≢ number → map_at leaves.new.items other ≡ map_at leaves.old.items other }
    ensures listed { number < length leaves.new.items }
    ensures kept { length leaves.old.items ≤ length leaves.new.items }
    ensures capacity { vec_capacity leaves.new ≡ vec_capacity leaves.old }
    ensures salts { (salt : ℕ) → HaveSalt leaves.old.items salt → leaf.salt ≡ salt → HaveSalt leaves.new.items salt }
{
    if number < leaves.len() {
        leaves[number] = leaf;
    } else {
        leaves.push_reserved(leaf);
    }
}
