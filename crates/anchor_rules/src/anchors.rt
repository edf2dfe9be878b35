//! Anchors with their leaves.
ghost use Rattle.std.specs.Prelude.{ℕ, ◌≡◌, ◌+◌, ◌<◌, [], ◌∷◌, Some, true, length, drop, remove, is_some, IfSome, IfOk, OnOk, OnErr};
ghost use Rattle.std.specs.Option.{option_copied};
ghost use Rattle.anchor_rules.specs.Anchors as anchors;
ghost use Rattle.anchor_rules.specs.Anchors.{AreAnchors, AreShort, Span, anchor_at, leaf_at, has_leaf, in_span};
ghost use Rattle.anchor_rules.specs.Closing.{is_closed};
ghost use Rattle.anchor_rules.specs.Places.{place_in, is_next, IsEndFor};

use key_bytes::{Bytes, Key, LONGEST_KEY};
use std::alloc::{AllocError, Global};
use std::marker::Model;

/// Which leaf has which keys: ascending anchors, each with the number of its leaf. A leaf has the
/// keys from its anchor on, up to the next anchor. The first anchor is empty, so that each key has
/// its leaf. A leaf is looked for from the first one on, and a key by halves.
#[derive(Debug, Drop)]
pub struct Anchors {
    rows: Vec<(Bytes, u32)>,
}

impl Model for Anchors {
    ghost use Rattle.std.specs.Prelude.{List, ℕ};
    ghost use Rattle.anchor_rules.specs.Anchors.{AreAnchors, AreShort};

    ghost Value = { List (List ℕ × ℕ) };

    ghost view = { λ a. a.rows.items };

    ghost invariant = { λ a. AreAnchors a.rows.items × AreShort a.rows.items };
}

impl Anchors {
    /// One leaf, which has all keys.
    pub fn first(alloc: Global, leaf: u32) -> Result<Anchors, AllocError>
        ensures { IfOk result (λ a. a ≡ ([], leaf) ∷ []) }
    {
        let mut rows = Vec::new(alloc);
        rows.push((Bytes::copied(alloc, &[])?, leaf))?;
        Ok(Anchors { rows })
    }

    /// How many leaves there are.
    pub fn len(&self) -> usize
        ensures len { result ≡ length self.now }
        ensures anchors { AreAnchors self.now }
        ensures short { AreShort self.now }
    {
        self.rows.len()
    }

    /// The anchor at a place.
    pub fn anchor(&self, i: usize) -> &[u8]
        requires { i < length self.now }
        ensures { result.now ≡ anchor_at self.now i }
    {
        self.rows[i].0.get()
    }

    /// The leaf at a place.
    pub fn leaf(&self, i: usize) -> u32
        requires { i < length self.now }
        ensures { result ≡ leaf_at self.now i }
    {
        self.rows[i].1
    }

    /// The place of a leaf.
    #[tactic(auto, using(crate::proofs::Found::place_some))]
    pub fn place(&self, leaf: u32) -> Option<usize>
        ensures at { IfSome result (λ i. (i < length self.now) × (leaf_at self.now i ≡ leaf)) }
        ensures some { is_some result ≡ has_leaf self.now leaf }
    {
        place_of(&self.rows, leaf)
    }

    /// The leaf that has the key.
    pub fn target(&self, key: &Key) -> u32
        ensures target { result ≡ anchors.target self.now key.now }

        // The key is in this leaf's span, and in that of no other.
        ensures within { (s : Span) × (anchors.span self.now result ≡ Some s) × (in_span s key.now ≡ true) }
        ensures only { (leaf : ℕ) (s : Span) → anchors.span self.now leaf ≡ Some s → in_span s key.now ≡ true → leaf ≡ result }
    {
        let above = first_above(&self.rows, key.bytes());
        self.rows[above - 1].1
    }

    /// The leaf's anchor and the next one, if it isn't the last.
    pub fn span(&self, leaf: u32) -> (&[u8], Option<&[u8]>)
        requires { has_leaf self.now leaf ≡ true }
        ensures { anchors.span self.now leaf ≡ Some (result.0.now, option_copied result.1) }
    {
        match place_of(&self.rows, leaf) {
            Some(i) => (self.rows[i].0.get(), next_anchor(&self.rows, i)),
            None => unreachable!(),
        }
    }

    /// Whether the leaf's keys from this anchor on can go to a leaf of this new number.
    pub fn splits(&self, leaf: u32, anchor: &Key, new_leaf: u32) -> bool
        ensures { result ≡ anchors.splits self.now leaf anchor.now new_leaf }
    {
        if place_of(&self.rows, new_leaf).is_some() {
            return false;
        }
        match place_of(&self.rows, leaf) {
            Some(i) => cuts(&self.rows, i, anchor.bytes()),
            None => false,
        }
    }

    /// Puts in a new leaf, which has the leaf's keys from this anchor on. Moves all that comes
    /// after it by one place.
    pub fn with_split(&mut self, leaf: u32, anchor: Key, new_leaf: u32) -> Result<(), AllocError>
        requires { anchors.splits self.old leaf anchor new_leaf ≡ true }
        ensures split { OnOk result (self.new ≡ anchors.with_split self.old leaf anchor new_leaf) }
        ensures refused { OnErr result (self.new ≡ self.old) }
    {
        prove!(anchor.bytes().len() <= LONGEST_KEY);
        match place_of(&self.rows, leaf) {
            Some(i) => {
                let alloc = *self.rows.allocator();
                let copied = Bytes::copied(alloc, anchor.bytes())?;
                self.rows.insert(i + 1, (copied, new_leaf))?;
            }
            None => unreachable!(),
        }
        Ok(())
    }

    /// Whether the right leaf comes next after the left one.
    pub fn adjacent(&self, left: u32, right: u32) -> bool
        ensures { result ≡ anchors.adjacent self.now left right }
    {
        comes_next(&self.rows, left, right)
    }

    /// Takes out the right leaf, whose keys are then the left one's.
    pub fn with_merge(&mut self, left: u32, right: u32)
        requires { anchors.adjacent self.old left right ≡ true }
        ensures { self.new ≡ anchors.with_merge self.old right }
    {
        match place_of(&self.rows, left) {
            Some(i) => {
                take_row(&mut self.rows, i + 1);
            }
            None => unreachable!(),
        }
    }

    /// Whether the anchor at a place wants a closing token, as a proper prefix of another. It is
    /// then one of the next anchor, so two anchors are compared.
    pub fn closed(&self, i: usize) -> bool
        requires { i < length self.now }
        ensures { result ≡ is_closed self.now (anchor_at self.now i) }
    {
        match next_anchor(&self.rows, i) {
            Some(next) => next.starts_with(self.rows[i].0.get()),
            None => false,
        }
    }
}

// Takes a row out.
fn take_row(rows: &mut Vec<(Bytes, u32)>, i: usize)
    requires { i < length rows.old.items }
    ensures items { rows.new.items ≡ remove rows.old.items i }
{
    rows.remove(i);
}

// The place of a leaf.
#[tactic(auto, using(crate::proofs::Found::place_found), unfolding(crate::specs::Places::place_in))]
fn place_of(rows: &[(Bytes, u32)], leaf: u32) -> Option<usize>
    ensures place { result ≡ place_in rows.now leaf }
    ensures at { IfSome result (λ i. (i < length rows.now) × (leaf_at rows.now i ≡ leaf)) }
{
    rows.iter().position(|row| row.1 == leaf)
}

// The first place of an anchor above these bytes, or the end.
fn first_above(rows: &[(Bytes, u32)], bytes: &[u8]) -> usize
    requires { AreAnchors rows.now }
    ensures { IsEndFor rows.now bytes.now result }
{
    rows.partition_point(|row| row.0.get().cmp(bytes).is_le())
}

// The anchor after a place.
fn next_anchor(rows: &[(Bytes, u32)], i: usize) -> Option<&[u8]>
    requires { i < length rows.now }
    ensures { option_copied result ≡ anchors.next_anchor (drop (i + 1) rows.now) }
{
    match rows.get(i + 1) {
        Some(next) => Some(next.0.get()),
        None => None,
    }
}

// Whether the right leaf comes next after the left one.
#[tactic(auto, using(crate::proofs::Found::adjacent_unknown))]
fn comes_next(rows: &[(Bytes, u32)], left: u32, right: u32) -> bool
    requires { AreAnchors rows.now }
    ensures { result ≡ anchors.adjacent rows.now left right }
{
    match place_of(rows, left) {
        Some(i) => has_next(rows, i, right),
        None => false,
    }
}

// Whether this leaf comes next after a place.
fn has_next(rows: &[(Bytes, u32)], i: usize, leaf: u32) -> bool
    requires { i < length rows.now }
    ensures { result ≡ is_next (drop (i + 1) rows.now) leaf }
{
    match rows.get(i + 1) {
        Some(next) => next.1 == leaf,
        None => false,
    }
}

// Whether the bytes are above the anchor at a place, and below the next one.
fn cuts(rows: &[(Bytes, u32)], i: usize, bytes: &[u8]) -> bool
    requires { i < length rows.now }
    ensures { result ≡ anchors.cuts (Some (anchor_at rows.now i, anchors.next_anchor (drop (i + 1) rows.now))) bytes.now }
{
    rows[i].0.get().cmp(bytes).is_lt()
        && match next_anchor(rows, i) {
            Some(next) => bytes.cmp(next).is_lt(),
            None => true,
        }
}
