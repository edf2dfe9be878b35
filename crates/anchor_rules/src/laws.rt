//! Laws of anchors.
ghost use Rattle.std.specs.Prelude.{◌≡◌, ◌≢◌, ◌++◌, ◌∷◌, ℕ, List, [], take, drop, if◌then◌else◌, true, false, Some, None};
ghost use Rattle.anchor_rules.specs.Anchors.{Anchors, AreAnchors, Span, adjacent, span, splits, target, with_merge, with_split};
ghost use Rattle.anchor_rules.specs.Closing.{IsPrefixFree, closed_anchors};
ghost use Rattle.anchor_rules.specs.Items.{IsLongest, Item, greatest_below, item, leaf_before};

/// With a token below all bytes behind each anchor that is a proper prefix of another, anchors still
/// ascend, and none is a prefix of another.
pub fn closed_apart()
    ensures { (A : Anchors) → AreAnchors A → IsPrefixFree (closed_anchors A) }
{}

/// The leaf of a key, from the longest prefix of the key that an anchor begins with, and from what is
/// known of that prefix.
pub fn search_ends()
    // The prefix is an anchor, and no anchor goes on from it.
    ensures childless { (A : Anchors) (key : List ℕ) (n : ℕ) (it : Item) → AreAnchors A → IsLongest A key n it
        → it.is_anchor ≡ true → ((c : ℕ) → it.child c ≡ false) → target A key ≡ it.leftmost }

    // The prefix is the whole key.
    ensures whole { (A : Anchors) (key : List ℕ) (n : ℕ) (it : Item) → AreAnchors A → IsLongest A key n it
        → drop n key ≡ [] → target A key ≡ (if it.is_anchor then it.leftmost else leaf_before A it.leftmost) }

    // Below the byte with which the key goes on there is one with which an anchor does.
    ensures child_below { (A : Anchors) (key : List ℕ) (n : ℕ) (it : Item) (byte : ℕ) (rest : List ℕ) (c : ℕ) → AreAnchors A → IsLongest A key n it
        → drop n key ≡ byte ∷ rest → greatest_below it.child byte ≡ Some c
        → (child : Item) × (item A (take n key ++ c ∷ []) ≡ Some child) × (target A key ≡ child.rightmost) }

    // There is none, and the prefix is an anchor.
    ensures anchor { (A : Anchors) (key : List ℕ) (n : ℕ) (it : Item) (byte : ℕ) (rest : List ℕ) → AreAnchors A → IsLongest A key n it
        → drop n key ≡ byte ∷ rest → greatest_below it.child byte ≡ None → it.is_anchor ≡ true → target A key ≡ it.leftmost }

    // There is none, and the prefix is no anchor.
    ensures before { (A : Anchors) (key : List ℕ) (n : ℕ) (it : Item) (byte : ℕ) (rest : List ℕ) → AreAnchors A → IsLongest A key n it
        → drop n key ≡ byte ∷ rest → greatest_below it.child byte ≡ None → it.is_anchor ≡ false → target A key ≡ leaf_before A it.leftmost }
{}

/// What a new anchor and a leaf's end do to the spans of all leaves.
pub fn changed_spans()
    ensures split { (A : Anchors) (left : ℕ) (anchor : List ℕ) (right : ℕ) (s : Span) → AreAnchors A
        → splits A left anchor right ≡ true → span A left ≡ Some s
        → (span (with_split A left anchor right) left ≡ Some (s.0, Some anchor)) × (span (with_split A left anchor right) right ≡ Some (anchor, s.1)) }
    ensures split_others { (A : Anchors) (left : ℕ) (anchor : List ℕ) (right other : ℕ) → other ≢ left → other ≢ right
        → span (with_split A left anchor right) other ≡ span A other }
    ensures merge { (A : Anchors) (left right : ℕ) (s t : Span) → AreAnchors A
        → adjacent A left right ≡ true → span A left ≡ Some s → span A right ≡ Some t
        → (span (with_merge A right) left ≡ Some (s.0, t.1)) × (span (with_merge A right) right ≡ None) }
    ensures merge_others { (A : Anchors) (left right other : ℕ) → AreAnchors A → adjacent A left right ≡ true
        → other ≢ left → other ≢ right → span (with_merge A right) other ≡ span A other }
{}
