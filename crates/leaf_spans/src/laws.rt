//! Laws of maps that lie over the leaves of anchors, each leaf having just the keys in its span.
ghost use Rattle.std.specs.Prelude.{◌≡◌, ◌≢◌, ◌+◌, ◌-◌, ◌*◌, ◌/◌, ◌<◌, ◌≤◌, ◌∷◌, ◌++◌, ◌⊎◌, ℕ, List, [], length, take, Option, Some, None, true, false};
ghost use Rattle.std.specs.List.{AllByRecursion};
ghost use Rattle.std.specs.Option.{option_map};
ghost use Rattle.key_bytes.specs.Order.{is_below};
ghost use Rattle.key_bytes.specs.declared.bound.Bound.TheVariants.{Low, At, High};
ghost use Rattle.anchor_rules.specs.Anchors.{Anchors, AreAnchors, Span, adjacent, has_leaf, span, splits, target, with_merge, with_split};
ghost use Rattle.anchor_rules.specs.Neighbours.{IsBefore, IsBehind};
ghost use Rattle.map_model.specs.Calls.{Call, answer_of, map_after};
ghost use Rattle.map_model.specs.Halves.{key_at, lower_half, map_values, parting, stay_count, upper_half};
ghost use Rattle.map_model.specs.Maps.{IsMap, Pairs, between, find, with, without};
ghost use Rattle.leaf_spans.specs.Calls.{CountsNew, Lies};
ghost use Rattle.leaf_spans.specs.Counting.{AreFew, Counted};
ghost use Rattle.leaf_spans.specs.Spread.{Spread, inside, joined, size_in};
ghost use Rattle.leaf_spans.specs.Tending.{AreMergeable, IsLetBe, IsPartner, IsWish};
ghost use Rattle.leaf_spans.specs.declared.decisions.Side.TheVariants.{Left, Right};
ghost use Rattle.leaf_spans.specs.declared.decisions.Wanted.TheVariants.{Merge, Nothing};

/// The key that parts the halves of a map is above all keys of the lower half, and above none of the
/// upper one; and of the beginnings of the first key there no shorter one is. Values don't count.
pub fn parted_halves<V, W>()
    ensures lower { (m : Pairs V) → IsMap m → 1 < length m → between m Low (At (parting m)) ≡ lower_half m }
    ensures upper { (m : Pairs V) → IsMap m → 1 < length m → between m (At (parting m)) High ≡ upper_half m }
    ensures shortest { (m : Pairs V) → IsMap m → 1 < length m → (n : ℕ) → n < length (parting m)
        → is_below (key_at m (stay_count (length m) - 1)) (take n (key_at m (stay_count (length m)))) ≡ false }
    ensures values { (f : V → W) (m : Pairs V) → parting (map_values f m) ≡ parting m }
{}

/// What is found in a map that lies over leaves, and what the leaves together have.
pub fn spread_leaves<V>()
    ensures find { (A : Anchors) (m : Pairs V) (maps : ℕ → Pairs V) → AreAnchors A → Spread A m maps
        → (key : List ℕ) → find m key ≡ find (maps (target A key)) key }
    ensures together { (A : Anchors) (m : Pairs V) (maps : ℕ → Pairs V) → AreAnchors A → Spread A m maps
        → joined A maps ≡ m }
{}

/// A map still lies over its leaves where one key's leaf changes as the map does.
pub fn spread_changes<V>()
    ensures put { (A : Anchors) (m : Pairs V) (maps new : ℕ → Pairs V) (key : List ℕ) (value : V) → AreAnchors A → Spread A m maps
        → new (target A key) ≡ with (maps (target A key)) key value
        → ((other : ℕ) → other ≢ target A key → new other ≡ maps other)
        → Spread A (with m key value) new }
    ensures del { (A : Anchors) (m : Pairs V) (maps new : ℕ → Pairs V) (key : List ℕ) → AreAnchors A → Spread A m maps
        → new (target A key) ≡ without (maps (target A key)) key
        → ((other : ℕ) → other ≢ target A key → new other ≡ maps other)
        → Spread A (without m key) new }
{}

/// A map still lies over its leaves where a leaf gives its upper half to a new one behind the key that
/// parts the halves, and where a leaf takes the pairs of the next one.
pub fn spread_moves<V>()
    ensures anchor { (A : Anchors) (m : Pairs V) (left right : ℕ) → IsMap m → 1 < size_in A m left → has_leaf A right ≡ false
        → splits A left (parting (inside (span A left) m)) right ≡ true }
    ensures split { (A : Anchors) (m : Pairs V) (maps new : ℕ → Pairs V) (left right : ℕ) → Spread A m maps
        → 1 < length (maps left) → has_leaf A right ≡ false
        → new left ≡ lower_half (maps left) → new right ≡ upper_half (maps left)
        → ((other : ℕ) → other ≢ left → other ≢ right → new other ≡ maps other)
        → Spread (with_split A left (parting (maps left)) right) m new }
    ensures merge { (A : Anchors) (m : Pairs V) (maps new : ℕ → Pairs V) (left right : ℕ) → AreAnchors A → Spread A m maps
        → adjacent A left right ≡ true
        → new left ≡ maps left ++ maps right → new right ≡ []
        → ((other : ℕ) → other ≢ left → other ≢ right → new other ≡ maps other)
        → Spread (with_merge A right) m new }
{}

/// A call whose keys lie in one leaf's span is answered by that leaf's part of the map, changes that
/// part as it changes the whole, and leaves the part of every other leaf.
pub fn calls_in_spans()
    ensures answer { (s : Span) (m : Pairs (List ℕ)) (call : Call) → IsMap m → Lies s call
        → answer_of (inside (Some s) m) call ≡ answer_of m call }
    ensures after { (s : Span) (m : Pairs (List ℕ)) (call : Call) → IsMap m → Lies s call
        → map_after (inside (Some s) m) call ≡ inside (Some s) (map_after m call) }
    ensures others { (A : Anchors) (leaf other : ℕ) (s : Span) (m : Pairs (List ℕ)) (call : Call) → AreAnchors A → IsMap m
        → span A leaf ≡ Some s → Lies s call → other ≢ leaf
        → inside (span A other) (map_after m call) ≡ inside (span A other) m }
{}

/// New keys account for the sizes of all leaves and for all changes of anchors, over calls, splits of
/// leaves with more than `soft` keys and merges of neighbours with at most `merge_sum` together.
pub fn counted_keys()
    ensures start { (size : ℕ → ℕ) (leaf soft : ℕ) → size leaf ≡ 0 → Counted (([], leaf) ∷ []) size soft 0 0 0 }
    ensures call { (A : Anchors) (m : Pairs (List ℕ)) (leaf : ℕ) (s : Span) (call : Call) → AreAnchors A → IsMap m
        → span A leaf ≡ Some s → Lies s call
        → (soft new_keys more changes longest longer : ℕ) → CountsNew (answer_of m call) new_keys more → longest ≤ longer
        → Counted A (size_in A m) soft new_keys changes longest
        → Counted A (size_in A (map_after m call)) soft more changes longer }
    ensures split { (A : Anchors) (m : Pairs (List ℕ)) (left right soft new_keys changes longest : ℕ) → AreAnchors A → IsMap m
        → 0 < soft → soft < size_in A m left → has_leaf A right ≡ false
        → AllByRecursion (λ (x : List ℕ × List ℕ). length x.0 ≤ longest) m
        → Counted A (size_in A m) soft new_keys changes longest
        → (let B = with_split A left (parting (inside (span A left) m)) right in Counted B (size_in B m) soft new_keys (changes + 1) longest) }
    ensures merge { (A : Anchors) (m : Pairs (List ℕ)) (left right soft merge_sum new_keys changes longest : ℕ) → AreAnchors A → IsMap m
        → merge_sum ≤ soft / 2 → adjacent A left right ≡ true → size_in A m left + size_in A m right ≤ merge_sum
        → Counted A (size_in A m) soft new_keys changes longest
        → (let B = with_merge A right in Counted B (size_in B m) soft new_keys (changes + 1) longest) }

    // So there are not too many leaves, nor too many changes of anchors.
    ensures leaves { (A : Anchors) (size : ℕ → ℕ) (soft new_keys changes longest : ℕ) → Counted A size soft new_keys changes longest
        → soft / 2 * (length A - 1) ≤ new_keys }
    ensures changes { (A : Anchors) (size : ℕ → ℕ) (soft new_keys changes longest : ℕ) → Counted A size soft new_keys changes longest
        → soft / 2 * (changes + length A - 1) ≤ 2 * new_keys }
{}

/// No leaf gets more keys than it may have by a split, nor by a merge of neighbours with at most
/// `merge_sum` together, and by a call only the leaf of its keys may.
pub fn few_keys()
    ensures call { (A : Anchors) (m : Pairs (List ℕ)) (leaf : ℕ) (s : Span) (call : Call) (hard : ℕ) → AreAnchors A → IsMap m
        → span A leaf ≡ Some s → Lies s call → size_in A (map_after m call) leaf ≤ hard
        → AreFew (size_in A m) hard → AreFew (size_in A (map_after m call)) hard }
    ensures split { (A : Anchors) (m : Pairs (List ℕ)) (left right soft hard : ℕ) → AreAnchors A → IsMap m
        → 0 < soft → soft < size_in A m left → has_leaf A right ≡ false
        → AreFew (size_in A m) hard
        → (let B = with_split A left (parting (inside (span A left) m)) right in AreFew (size_in B m) hard) }
    ensures merge { (A : Anchors) (m : Pairs (List ℕ)) (left right merge_sum hard : ℕ) → AreAnchors A → IsMap m
        → merge_sum ≤ hard → adjacent A left right ≡ true → size_in A m left + size_in A m right ≤ merge_sum
        → AreFew (size_in A m) hard → (let B = with_merge A right in AreFew (size_in B m) hard) }
{}

/// [`partner`](crate::partner) names the neighbour that is to be merged, and a leaf for which
/// [`wish`](crate::wish) or it asks nothing is let be.
pub fn chosen_neighbours()
    ensures right { (A : Anchors) (size : ℕ → ℕ) (merge_sum leaf right : ℕ) (left : Option ℕ) → AreAnchors A
        → IsBehind A leaf (Some right)
        → IsPartner (size leaf) merge_sum (option_map size left) (Some (size right)) (Some Right)
        → AreMergeable A size merge_sum leaf leaf right }
    ensures left { (A : Anchors) (size : ℕ → ℕ) (merge_sum leaf left : ℕ) (right : Option ℕ) → AreAnchors A
        → IsBefore A leaf (Some left) → IsBehind A leaf right
        → IsPartner (size leaf) merge_sum (Some (size left)) (option_map size right) (Some Left)
        → AreMergeable A size merge_sum leaf left leaf }
    ensures none { (A : Anchors) (size : ℕ → ℕ) (soft merge_sum leaf : ℕ) (left right : Option ℕ) → AreAnchors A
        → IsBefore A leaf left → IsBehind A leaf right → IsWish (size leaf) soft merge_sum Merge
        → IsPartner (size leaf) merge_sum (option_map size left) (option_map size right) None
        → IsLetBe A size soft merge_sum leaf }
    ensures nothing { (A : Anchors) (size : ℕ → ℕ) (soft merge_sum leaf : ℕ) → AreAnchors A
        → IsWish (size leaf) soft merge_sum Nothing → IsLetBe A size soft merge_sum leaf }
{}
