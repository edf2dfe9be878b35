//! Tags in ascending order, each with a place.
ghost use Rattle.std.specs.Prelude.{◌≡◌, ℕ, ◌+◌, ◌<◌, ◌≤◌, ◌⊎◌, List, ◌∷◌, [], true, false, length, slice_index_or, MatchOption, OnOk, IsOk, Some};
ghost use Rattle.std.specs.List.{Contains};
ghost use Rattle.std.specs.List.Sorted.{IsPermutation};
ghost use Rattle.leaf_tags.specs.Tags.{first_place, places_below, places_from, renumbered, IsByTag, IsCut};

use std::alloc::{AllocError, Global};
use std::marker::Model;

/// Pairs of a tag and a place, in ascending order of their tags.
///
/// Pairs of one tag stand beside each other in no particular order. A pair takes 4 bytes, all in
/// one block of memory; there are at most 65,536.
#[derive(Drop)]
pub struct Tags {
    pairs: Vec<(u16, u16)>,
}

impl Model for Tags {
    ghost use Rattle.std.specs.Prelude.{ℕ, ◌-◌, length, min, vec_capacity};
    ghost use Rattle.leaf_tags.specs.Tags.{TagList, IsTagList};

    ghost Value = { TagList };

    ghost view = { λ t. record { pairs = t.pairs.items; spare = min (vec_capacity t.pairs) 65536 - length t.pairs.items } };

    ghost invariant = { λ t. IsTagList t.pairs.items };
}

// Where a tag would stand among `count` tags that are spread evenly over all 65,536.
fn first_place(tag: u16, count: usize) -> usize
    ensures place { result ≡ first_place tag count }
    ensures in_range { result ≤ count }
{
    (u128::from(tag) * count as u128 / 65536) as usize
}

impl Tags {
    /// No pairs. It takes no memory until room is reserved.
    pub fn new(alloc: Global) -> Tags
        ensures { result.pairs ≡ [] }
    {
        Tags {
            pairs: Vec::new(alloc),
        }
    }

    /// The number of pairs.
    pub fn len(&self) -> usize
        ensures len { result ≡ length self.now.pairs }
        ensures ascending { IsByTag self.now.pairs }

        // With those for which there is room they are at most 65,536.
        ensures few { result + self.now.spare ≤ 65536 }
    {
        self.pairs.len()
    }

    /// A place of this tag that passes the test `eq`.
    ///
    /// The search goes outwards from the tag's first place, up and then down, and stops where the
    /// tag's run ends. With well spread tags it passes about as many pairs of other tags as the
    /// square root of `len`, without a call of `eq`.
    pub fn find<F: Fn(usize) -> bool>(&self, tag: u16, eq: F) -> Option<usize>
        requires { (place : ℕ) → Contains self.now.pairs (tag, place) → F.pre eq place }

        // A place of the tag that passes. There is none exactly where each place of the tag fails.
        ensures found { MatchOption result ((place : ℕ) → Contains self.now.pairs (tag, place) → F.post eq place false) (λ place. Contains self.now.pairs (tag, place) × F.post eq place true) }

        // A pair of the tag at the first place is the answer, unless it fails.
        ensures first { (place : ℕ) → first_place tag (length self.now.pairs) < length self.now.pairs → ((d : ℕ × ℕ) → slice_index_or self.now.pairs (first_place tag (length self.now.pairs)) d ≡ (tag, place)) → (result ≡ Some place) ⊎ F.post eq place false }
    {
        let start = first_place(tag, self.pairs.len());
        match self.find_from(start, tag, &eq) {
            Some(place) => Some(place),
            None => self.find_before(start, tag, &eq),
        }
    }

    // A place of the tag that passes, among the pairs from `start` on, the nearest first.
    fn find_from<F: Fn(usize) -> bool>(&self, start: usize, tag: u16, eq: &F) -> Option<usize>
        requires { (place : ℕ) → Contains self.now.pairs (tag, place) → F.pre eq.now place }
        ensures found { MatchOption result ((k place : ℕ) (d : ℕ × ℕ) → start ≤ k → k < length self.now.pairs → slice_index_or self.now.pairs k d ≡ (tag, place) → F.post eq.now place false) (λ place. Contains self.now.pairs (tag, place) × F.post eq.now place true) }
        ensures first { (place : ℕ) → start < length self.now.pairs → ((d : ℕ × ℕ) → slice_index_or self.now.pairs start d ≡ (tag, place)) → (result ≡ Some place) ⊎ F.post eq.now place false }
    {
        let mut at = start;
        'onward: while at < self.pairs.len() && self.pairs[at].0 <= tag {
            let (found, place) = self.pairs[at];
            if found == tag && eq(usize::from(place)) {
                return Some(usize::from(place));
            }
            at += 1;
        }
        None
    }

    // A place of the tag that passes, among the pairs before `start`, the nearest first.
    fn find_before<F: Fn(usize) -> bool>(&self, start: usize, tag: u16, eq: &F) -> Option<usize>
        requires test { (place : ℕ) → Contains self.now.pairs (tag, place) → F.pre eq.now place }
        requires in_range { start ≤ length self.now.pairs }
        ensures { MatchOption result ((k place : ℕ) (d : ℕ × ℕ) → k < start → slice_index_or self.now.pairs k d ≡ (tag, place) → F.post eq.now place false) (λ place. Contains self.now.pairs (tag, place) × F.post eq.now place true) }
    {
        let mut at = start;
        'back: while at > 0 && self.pairs[at - 1].0 >= tag {
            at -= 1;
            let (found, place) = self.pairs[at];
            if found == tag && eq(usize::from(place)) {
                return Some(usize::from(place));
            }
        }
        None
    }

    /// Makes room for one more pair.
    pub fn reserve(&mut self) -> Result<(), AllocError>
        ensures pairs { self.new.pairs ≡ self.old.pairs }
        ensures room { OnOk result (1 ≤ self.new.spare) }
        ensures kept { self.old.spare ≤ self.new.spare }
        ensures succeeds { 1 ≤ self.old.spare → IsOk result }
    {
        self.reserve_many(1)
    }

    /// Makes room for `count` more pairs. There is none for more than 65,536 in all.
    pub fn reserve_many(&mut self, count: usize) -> Result<(), AllocError>
        ensures pairs { self.new.pairs ≡ self.old.pairs }
        ensures room { OnOk result (count ≤ self.new.spare) }
        ensures kept { self.old.spare ≤ self.new.spare }
        ensures succeeds { count ≤ self.old.spare → IsOk result }
    {
        if count > 65_536 - self.pairs.len() {
            return Err(AllocError);
        }
        self.pairs.reserve(count)
    }

    /// Adds a pair, at the cost of a move of all that stand behind it.
    pub fn add(&mut self, tag: u16, place: usize)
        requires room { 1 ≤ self.old.spare }
        requires fits { place < 65536 }
        ensures pairs { IsPermutation ((tag, place) ∷ self.old.pairs) self.new.pairs }
        ensures spare { self.old.spare ≤ self.new.spare + 1 }
    {
        let at = self.start_of(tag);
        let _ = self.pairs.insert(at, (tag, place as u16));
    }

    /// Takes a pair out, at the cost of a move of all that stand behind it.
    pub fn remove(&mut self, tag: u16, place: usize)
        requires { Contains self.old.pairs (tag, place) }
        ensures pairs { IsPermutation self.old.pairs ((tag, place) ∷ self.new.pairs) }
        ensures spare { self.new.spare ≡ self.old.spare + 1 }
    {
        let at = self.index_of(tag, place);
        self.pairs.remove(at);
    }

    /// Gives the pair of a tag and the place `before` the place `after`. No other pair moves.
    pub fn moved(&mut self, tag: u16, before: usize, after: usize)
        requires there { Contains self.old.pairs (tag, before) }
        requires fits { after < 65536 }

        // With the other of the two pairs, both lists have the same pairs.
        ensures pairs { IsPermutation ((tag, after) ∷ self.old.pairs) ((tag, before) ∷ self.new.pairs) }
        ensures spare { self.new.spare ≡ self.old.spare }
    {
        let at = self.index_of(tag, before);
        self.pairs[at] = (tag, after as u16);
    }

    /// Takes all pairs out, and keeps their memory as room.
    pub fn clear(&mut self)
        ensures pairs { self.new.pairs ≡ [] }
        ensures spare { self.new.spare ≡ self.old.spare + length self.old.pairs }
    {
        self.pairs.clear();
    }

    /// Takes out the pairs whose place isn't below `count`, and keeps their memory as room.
    pub fn truncate(&mut self, count: usize)
        ensures pairs { self.new.pairs ≡ places_below count self.old.pairs }
        ensures spare { self.new.spare + length self.new.pairs ≡ self.old.spare + length self.old.pairs }
        ensures kept { self.old.spare ≤ self.new.spare }
    {
        self.pairs.retain(|pair| usize::from(pair.1) < count);
    }

    /// Moves the pairs whose place isn't below `count` into `right`, which has none, each with its
    /// place less `count`. Both lists stay in the order of their tags. It takes no memory, and one
    /// step for each pair.
    pub fn split_off(&mut self, count: usize, right: &mut Tags)
        requires empty { right.old.pairs ≡ [] }
        requires room { length (places_from count self.old.pairs) ≤ right.old.spare }
        ensures stay { self.new.pairs ≡ places_below count self.old.pairs }
        ensures go { right.new.pairs ≡ places_from count self.old.pairs }
        ensures kept { self.old.spare ≤ self.new.spare }
        ensures taken { right.new.spare + length right.new.pairs ≡ right.old.spare }
    {
        for at in 0..self.pairs.len() {
            let (tag, place) = self.pairs[at];
            if usize::from(place) >= count {
                right.pairs.push_reserved((tag, place - count as u16));
            }
        }
        self.truncate(count);
    }

    /// Gives the pair with the place `p` the place `places[p]`, for each pair. No pair moves, so it
    /// takes one step for each.
    pub fn renumber(&mut self, places: &[u16])
        requires { (tag place : ℕ) → Contains self.old.pairs (tag, place) → place < length places.now }
        ensures pairs { self.new.pairs ≡ renumbered places.now self.old.pairs }
        ensures spare { self.new.spare ≡ self.old.spare }
    {
        for pair in self.pairs.iter_mut() {
            pair.1 = places[usize::from(pair.1)];
        }
    }

    // Where the pairs begin whose tag isn't below this one, sought from the tag's first place.
    fn start_of(&self, tag: u16) -> usize
        ensures { IsCut self.now.pairs tag result }
    {
        let mut at = self.past_lower(first_place(tag, self.pairs.len()), tag);
        'down: while at > 0 && self.pairs[at - 1].0 >= tag {
            at -= 1;
        }
        at
    }

    // The next index from `start` on whose pair has no lower tag.
    fn past_lower(&self, start: usize, tag: u16) -> usize
        requires { start ≤ length self.now.pairs }
        ensures in_range { result ≤ length self.now.pairs }
        ensures upper { (k : ℕ) (d : ℕ × ℕ) → result ≤ k → k < length self.now.pairs → tag ≤ (slice_index_or self.now.pairs k d).0 }
    {
        let mut at = start;
        'up: while at < self.pairs.len() && self.pairs[at].0 < tag {
            at += 1;
        }
        at
    }

    // Where a pair stands in the list.
    fn index_of(&self, tag: u16, place: usize) -> usize
        requires { Contains self.now.pairs (tag, place) }
        ensures in_range { result < length self.now.pairs }
        ensures pair { (d : ℕ × ℕ) → slice_index_or self.now.pairs result d ≡ (tag, place) }
    {
        let mut at = self.start_of(tag);
        'seek: while usize::from(self.pairs[at].1) != place {
            at += 1;
        }
        at
    }
}
