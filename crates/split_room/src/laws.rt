//! Where a history fits, a leaf with too many keys can be split.

ghost use Rattle.std.specs.Prelude.{◌*◌, ◌++◌, ◌≤◌, ℕ, List};
ghost use Rattle.anchor_rules.specs.Anchors.{Anchors, span};
ghost use Rattle.leaf_spans.specs.Spread.{inside, size_in};
ghost use Rattle.leaf_spans.specs.Tending.{IsLarge};
ghost use Rattle.map_model.specs.Halves.{parting};
ghost use Rattle.map_model.specs.History.{Entry, after};
ghost use Rattle.map_model.specs.declared.refusal.TableFull.{TableFull};
ghost use Rattle.history_sizes.specs.Fits.{Fits};
ghost use Rattle.row_words.specs.declared.shape.Shape.{Shape};
ghost use Rattle.meta_trie.specs.Stands.{AreLeavesFull, AreItemsFull};
ghost use Rattle.split_room.specs.Room.{AreAccounted};

/// Where a table has room for what a history puts, with more behind it, there are a leaf and items for
/// the split of a leaf with more than `soft` keys, and there were few changes of the anchors.
pub fn room_for_splits()
    ensures leaves { (k : Shape) (A : Anchors) (h more : List Entry) (changes leaf : ℕ) → 2 ≤ k.soft → AreAccounted k A h changes
        → IsLarge (size_in A (after h)) k.soft leaf → Fits k.values k.leaves k.items k.soft (h ++ more) → (why : TableFull) → AreLeavesFull k A why → ⊥ }
    ensures items { (k : Shape) (A : Anchors) (h more : List Entry) (changes leaf : ℕ) → 2 ≤ k.soft → AreAccounted k A h changes
        → IsLarge (size_in A (after h)) k.soft leaf → Fits k.values k.leaves k.items k.soft (h ++ more) → (why : TableFull) → AreItemsFull k A leaf (parting (inside (span A leaf) (after h))) why → ⊥ }
    ensures changes { (k : Shape) (A : Anchors) (h more : List Entry) (changes : ℕ) → 2 ≤ k.soft → AreAccounted k A h changes
        → Fits k.values k.leaves k.items k.soft (h ++ more) → changes ≤ 2 * k.values }
{}
