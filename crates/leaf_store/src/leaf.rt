//! A leaf.
ghost use Rattle.std.specs.Prelude.{◌≡◌, ℕ, ◌+◌, ◌-◌, ◌/◌, ◌<◌, ◌≤◌, ◌⊎◌, List, [], ◌++◌, length, take, drop, map, slice_index_or, MatchOption, IsSome, IsNone, IsOk, IsTrue, IfOk, IfErr, OnOk, OnErr, None, Some};
ghost use Rattle.std.specs.List.{Contains, range_with_len};
ghost use Rattle.std.specs.List.Sorted.{IsPermutation};
ghost use Rattle.key_bytes.specs.declared.bound.Bound.TheVariants.{Low};
ghost use Rattle.map_model.specs.Halves.{keys_of, lower_half, parting, upper_half};
ghost use Rattle.map_model.specs.Maps.{IsMap, find, with, without, between, sorted};
ghost use Rattle.std.specs.Borrow.{sem};
ghost use Rattle.key_bytes.specs.Fnv.{prefix_hash};
ghost use Rattle.leaf_store.specs.Lent.{LendsValue};
ghost use Rattle.leaf_store.specs.Tag.{tag_of};

use crate::order::{move_head, move_tail};
use crate::place_order::{count_in_order, order_leaf, place_at, take_place};
use crate::ranks::settle;
use crate::rows::{add_tags, cut_tags, first_bits, place_of, take_tag};
use key_bytes::{Bound, Key, prefix_hash, separator};
use leaf_tags::Tags;
use std::alloc::{AllocError, Global};
use std::marker::Model;
use std::mem;

/// A map from keys to values of any type.
///
/// Its rows stand in any order in one block of memory, and are found by the tags of their keys. A
/// call that finds one key compares mostly one key or none. No call copies a key or a value.
///
/// The order of the keys is asked for now and then, and kept as a list of places, so that no row moves
/// for it. A new key isn't listed before the order is asked for again.
#[derive(Drop)]
pub struct Leaf<V> {
    rows: Vec<(Key, V)>,
    tags: Tags,
    salt: u64,
    // The places of the first rows: ascending by their keys when they were listed, with those behind
    // that got another row since. None are listed where the rows themselves ascend.
    order: Vec<u16>,
    // How many of the first listed places ascend by their keys still.
    front: usize,
    ordered: bool,
}

impl<V> Model for Leaf<V> {
    ghost use Rattle.std.specs.Prelude.{ℕ, ◌-◌, length, vec_capacity, min};
    ghost use Rattle.map_model.specs.Halves.{keys_of};
    ghost use Rattle.map_model.specs.Maps.{sorted};
    ghost use Rattle.leaf_store.specs.Leaf.{LeafMap};
    ghost use Rattle.leaf_store.specs.Order.{HasFront};
    ghost use Rattle.leaf_store.specs.Rows.{IsLeaf};

    ghost Value = { LeafMap V };

    ghost view = { λ l. record { map = sorted l.rows.items; keys = keys_of l.rows.items; spare = min (vec_capacity l.rows - length l.rows.items) l.tags.spare; salt = l.salt; is_ordered = l.ordered } };

    ghost invariant = { λ l. IsLeaf l.salt l.rows.items l.tags.pairs l.order.items l.ordered × HasFront l.rows.items l.order.items l.front };
}

impl<V> Leaf<V> {
    /// A leaf with no keys, whose tags are hashed with this salt. It takes no memory until room is
    /// reserved.
    pub fn new(alloc: Global, salt: u64) -> Leaf<V>
        ensures map { result.map ≡ [] }
        ensures salt { result.salt ≡ salt }
    {
        Leaf {
            rows: Vec::new(alloc),
            tags: Tags::new(alloc),
            salt,
            order: Vec::new(alloc),
            front: 0,
            ordered: true,
        }
    }

    /// The number of keys.
    pub fn len(&self) -> usize
        ensures len { result ≡ length self.now.map }
        ensures ascending { IsMap self.now.map }
    {
        self.rows.len()
    }

    /// The tags of the keys, each with the place of its key's row.
    pub fn tags(&self) -> &Tags
        // The tag at a place is that of the key in the row there. Each tag stands there as often as keys
        // have it, and each place below `len` once.
        ensures each { (tag place : ℕ) → Contains result.now.pairs (tag, place) → tag ≡ tag_of self.now.salt (slice_index_or self.now.keys place []) }
        ensures tags { IsPermutation (map (λ p. tag_of self.now.salt p.0) self.now.map) (map (λ p. p.0) result.now.pairs) }
        ensures places { IsPermutation (range_with_len 0 (length self.now.map)) (map (λ p. p.1) result.now.pairs) }

        // The rows are those of the map's keys.
        ensures rows { IsPermutation (keys_of self.now.map) self.now.keys }
    {
        &self.tags
    }

    /// The value of a key.
    pub fn find(&self, key: &Key) -> Option<&V>
        ensures { MatchOption result (find self.now.map key.now ≡ None) (λ value. find self.now.map key.now ≡ Some value.now) }
    {
        self.find_hashed(prefix_hash(self.salt, key.bytes()), key)
    }

    /// [`Leaf::find`] for a key whose hash is known.
    pub fn find_hashed(&self, hash: u64, key: &Key) -> Option<&V>
        requires { hash ≡ prefix_hash self.now.salt key.now }
        ensures { MatchOption result (find self.now.map key.now ≡ None) (λ value. find self.now.map key.now ≡ Some value.now) }
    {
        match place_of(&self.rows, &self.tags, first_bits(hash), key) {
            Some(place) => Some(&self.rows[place].1),
            None => None,
        }
    }

    /// The value of a key whose hash is known, to be changed in its place. No row moves, and nothing
    /// is copied.
    pub fn find_mut(&mut self, hash: u64, key: &Key) -> Option<&mut V>
        requires { hash ≡ prefix_hash self.old.salt key.now }

        // The leaf ends with what the value is when its loan ends, and is else as it was.
        ensures* lends { sem 𝓛 (LendsValue V.row self.entry key.now result) }
        ensures value { MatchOption result (find self.old.map key.now ≡ None) (λ value. find self.old.map key.now ≡ Some value.now) }
    {
        match place_of(&self.rows, &self.tags, first_bits(hash), key) {
            Some(place) => {
                let row = &mut self.rows[place];
                Some(&mut row.1)
            }
            None => None,
        }
    }

    /// Makes room for `count` more keys, and no more room than that for the rows. There is none for more
    /// than 65,536 keys in all.
    pub fn reserve(&mut self, count: usize) -> Result<(), AllocError>
        ensures stays { self.new ≡ record self.old { spare = self.new.spare } }
        ensures room { OnOk result (count ≤ self.new.spare) }
        ensures kept { self.old.spare ≤ self.new.spare }
        ensures succeeds { count ≤ self.old.spare → IsOk result }
    {
        self.rows.reserve_exact(count)?;
        self.tags.reserve_many(count)
    }

    /// Makes room for one more key, of at most 65,536. The room grows by doubling, so that few of these
    /// calls move the rows.
    pub fn reserve_one(&mut self) -> Result<(), AllocError>
        ensures stays { self.new ≡ record self.old { spare = self.new.spare } }
        ensures room { OnOk result (1 ≤ self.new.spare) }
        ensures kept { self.old.spare ≤ self.new.spare }
        ensures succeeds { 1 ≤ self.old.spare → IsOk result }
    {
        self.rows.reserve(1)?;
        self.tags.reserve()
    }

    /// Sets the value of a key, and gives back the old one. A key that is new goes to the end of
    /// the rows; one that was there keeps its row, and the key given is dropped.
    pub fn insert_reserved(&mut self, key: Key, value: V) -> Option<V>
        requires { (1 ≤ self.old.spare) ⊎ IsSome (find self.old.map key) }
        ensures map { self.new.map ≡ with self.old.map key value }
        ensures old { result ≡ find self.old.map key }
        ensures salt { self.new.salt ≡ self.old.salt }

        // A new key takes the room of one, and an old one keeps the order.
        ensures spare { self.old.spare ≤ self.new.spare + 1 }
        ensures replaced { IsSome result → (self.new.is_ordered ≡ self.old.is_ordered) × (self.new.spare ≡ self.old.spare) }
    {
        let hash = prefix_hash(self.salt, key.bytes());
        match self.find_mut(hash, &key) {
            Some(held) => Some(mem::replace(held, value)),
            None => {
                self.insert_new(hash, key, value);
                None
            }
        }
    }

    /// Adds a key that isn't there and whose hash is known, at the end of the rows.
    /// [`Leaf::insert_reserved`] looks for the key before.
    pub fn insert_new(&mut self, hash: u64, key: Key, value: V)
        requires hash { hash ≡ prefix_hash self.old.salt key }
        requires absent { find self.old.map key ≡ None }
        requires room { 1 ≤ self.old.spare }
        ensures map { self.new.map ≡ with self.old.map key value }
        ensures salt { self.new.salt ≡ self.old.salt }
        ensures spare { self.old.spare ≤ self.new.spare + 1 }
    {
        self.ordered = false;
        let place = self.tags.len();
        self.tags.add(first_bits(hash), place);
        self.rows.push_reserved((key, value));
    }

    /// Exchanges the value of a key that is there for this one, and gives back the old one; else gives
    /// back this one. It takes no memory.
    pub fn replace(&mut self, key: &Key, value: V) -> Result<V, V>
        ensures old { IfOk result (λ old. find self.old.map key.now ≡ Some old) }
        ensures map { OnOk result (self.new.map ≡ with self.old.map key.now value) }
        ensures kept { OnOk result (self.new ≡ record self.old { map = self.new.map }) }

        ensures back { IfErr result (λ back. back ≡ value) }
        ensures absent { OnErr result (find self.old.map key.now ≡ None) }
        ensures same { OnErr result (self.new ≡ self.old) }
    {
        match self.find_mut(prefix_hash(self.salt, key.bytes()), key) {
            Some(held) => Ok(mem::replace(held, value)),
            None => Err(value),
        }
    }

    /// Takes a key out, and gives back its value. The last row moves to its place. Where places are
    /// listed, two of them are looked for.
    pub fn remove(&mut self, key: &Key) -> Option<V>
        ensures map { self.new.map ≡ without self.old.map key.now }
        ensures value { result ≡ find self.old.map key.now }
        ensures salt { self.new.salt ≡ self.old.salt }
        ensures spare { self.old.spare ≤ self.new.spare }
        ensures absent { IsNone result → self.new ≡ self.old }
    {
        self.remove_hashed(prefix_hash(self.salt, key.bytes()), key)
    }

    /// [`Leaf::remove`] for a key whose hash is known.
    pub fn remove_hashed(&mut self, hash: u64, key: &Key) -> Option<V>
        requires { hash ≡ prefix_hash self.old.salt key.now }
        ensures map { self.new.map ≡ without self.old.map key.now }
        ensures value { result ≡ find self.old.map key.now }
        ensures salt { self.new.salt ≡ self.old.salt }
        ensures spare { self.old.spare ≤ self.new.spare }
        ensures absent { IsNone result → self.new ≡ self.old }
    {
        let tag = first_bits(hash);
        let place = place_of(&self.rows, &self.tags, tag, key)?;
        self.ordered = false;
        self.front = take_place(
            &self.rows,
            &mut self.order,
            self.front,
            place,
            self.tags.len() - 1,
        );
        take_tag(&mut self.tags, &self.rows, self.salt, tag, place);
        let (_, value) = self.rows.swap_remove(place);
        Some(value)
    }

    /// Puts the order in place, unless it is, and gives the places in it of the pairs from `from`,
    /// included, to `upto`, excluded. Where `from` is above `upto` the first place is above the
    /// second, and there are no such pairs.
    ///
    /// What is put in order are the places, two bytes for each row. Those that were in order the last
    /// time still are, and up to a third as many new ones cost a binary search each; more than that are
    /// sorted with them. Without memory for them the rows themselves are sorted, so this call never
    /// fails. An order that is in place costs two binary searches.
    pub fn pairs_between(
        &mut self,
        from: &Bound,
        upto: &Bound,
    ) -> Result<(usize, usize), AllocError>
        // The places are the numbers of keys below the two ends.
        ensures start { IfOk result (λ r. r.0 ≡ length (between self.old.map Low from.now)) }
        ensures end { IfOk result (λ r. r.1 ≡ length (between self.old.map Low upto.now)) }
        ensures in_range { IfOk result (λ r. (r.0 ≤ length self.old.map) × (r.1 ≤ length self.old.map)) }
        ensures pairs { IfOk result (λ r. between self.old.map from.now upto.now ≡ take (r.1 - r.0) (drop r.0 self.old.map)) }
        ensures answers { IsOk result }

        // The map stays, and a leaf that was in order stays as it is.
        ensures map { self.new.map ≡ self.old.map }
        ensures salt { self.new.salt ≡ self.old.salt }
        ensures spare { self.old.spare ≤ self.new.spare }
        ensures ordered { OnOk result (IsTrue self.new.is_ordered) }
        ensures again { IsTrue self.old.is_ordered → self.new ≡ self.old }
    {
        self.put_in_order();
        let start = count_in_order(&self.rows, &self.order, from);
        let end = count_in_order(&self.rows, &self.order, upto);
        Ok((start, end))
    }

    /// The pair at a place in the order.
    pub fn at(&self, i: usize) -> (&Key, &V)
        requires ordered { IsTrue self.now.is_ordered }
        requires in_range { i < length self.now.map }
        ensures { (d : List ℕ × V) → slice_index_or self.now.map i d ≡ (result.0.now, result.1.now) }
    {
        let row = &self.rows[place_at(&self.order, i)];
        (&row.0, &row.1)
    }

    /// The key that parts the leaf's halves: the shortest beginning of the upper half's first key that
    /// is above the lower half's last one. It puts the rows in order, which doesn't fail; memory is
    /// wanted for the key alone.
    pub fn parting(&mut self, alloc: Global) -> Result<Key, AllocError>
        requires { 2 ≤ length self.old.map }
        ensures key { IfOk result (λ key. key ≡ parting self.old.map) }
        ensures map { self.new.map ≡ self.old.map }
        ensures salt { self.new.salt ≡ self.old.salt }
        ensures spare { self.old.spare ≤ self.new.spare }
        ensures ordered { IsTrue self.new.is_ordered }
    {
        self.arrange_rows();
        let stay = self.len() - self.len() / 2;
        separator(alloc, self.at(stay - 1).0, self.at(stay).0)
    }

    /// Cuts the leaf: its lower half stays, the greater one where they differ by a key, and the
    /// other half goes to `right`, which was made before and has room for it. So nothing can refuse
    /// the cut. Both are in order afterwards.
    ///
    /// The rows and their tags move into the room of `right`. Keys are hashed again only where the two
    /// salts differ.
    pub fn halve(&mut self, right: &mut Leaf<V>)
        requires empty { right.old.map ≡ [] }
        requires room { length self.old.map - (length self.old.map + 1) / 2 ≤ right.old.spare }
        ensures stay { self.new.map ≡ lower_half self.old.map }
        ensures go { right.new.map ≡ upper_half self.old.map }
        ensures salts { (self.new.salt ≡ self.old.salt) × (right.new.salt ≡ right.old.salt) }
        ensures spare { self.old.spare ≤ self.new.spare }
        ensures ordered { IsTrue self.new.is_ordered × IsTrue right.new.is_ordered }
    {
        self.arrange_rows();
        let stay = self.rows.len() - self.rows.len() / 2;
        cut_tags(
            &mut self.tags,
            &self.rows,
            self.salt,
            stay,
            &mut right.tags,
            right.salt,
        );
        move_tail(&mut self.rows, stay, &mut right.rows);
        self.order.clear();
        self.front = 0;
        right.ordered = true;
    }

    /// [`Leaf::halve`], as a call that might be refused: it never is.
    pub fn split_off(&mut self, right: &mut Leaf<V>) -> Result<(), AllocError>
        requires empty { right.old.map ≡ [] }
        requires room { length self.old.map - (length self.old.map + 1) / 2 ≤ right.old.spare }
        ensures stay { OnOk result (self.new.map ≡ lower_half self.old.map) }
        ensures go { OnOk result (right.new.map ≡ upper_half self.old.map) }
        ensures answers { IsOk result }

        ensures refused { OnErr result ((self.new.map ≡ self.old.map) × (right.new.map ≡ right.old.map)) }
        ensures salts { (self.new.salt ≡ self.old.salt) × (right.new.salt ≡ right.old.salt) }
        ensures spare { self.old.spare ≤ self.new.spare }
        ensures ordered { OnOk result (IsTrue self.new.is_ordered × IsTrue right.new.is_ordered) }
    {
        self.halve(right);
        Ok(())
    }

    /// Cuts the leaf as [`Leaf::halve`] does, but its upper half stays, and the lower half goes to
    /// `left`, which has the same salt. Both are in order afterwards.
    ///
    /// So the memory of the leaf stays with the upper half, where keys go on that come in their order,
    /// and the lower half has no more room for rows than `left` has. While rows move, the upper half is
    /// laid aside; without memory for that this call is slower, so it never fails. No key is hashed.
    pub fn split_front(&mut self, left: &mut Leaf<V>)
    where
        V: Drop,
        requires empty { left.old.map ≡ [] }
        requires salt { left.old.salt ≡ self.old.salt }
        requires room { (length self.old.map + 1) / 2 ≤ left.old.spare }
        ensures stay { self.new.map ≡ upper_half self.old.map }
        ensures go { left.new.map ≡ lower_half self.old.map }
        ensures salts { (self.new.salt ≡ self.old.salt) × (left.new.salt ≡ left.old.salt) }
        ensures ordered { IsTrue self.new.is_ordered × IsTrue left.new.is_ordered }
    {
        self.arrange_rows();
        let go = self.rows.len() - self.rows.len() / 2;
        self.tags.split_off(go, &mut left.tags);
        mem::swap(&mut self.tags, &mut left.tags);
        move_head(&mut self.rows, go, &mut left.rows);
        self.order.clear();
        self.front = 0;
        left.ordered = true;
    }

    /// Takes in all pairs of `right`, which is empty afterwards and keeps its room.
    pub fn absorb(&mut self, right: &mut Leaf<V>) -> Result<(), AllocError>
        requires { (key : List ℕ) → (find self.old.map key ≡ None) ⊎ (find right.old.map key ≡ None) }
        ensures joined { OnOk result (self.new.map ≡ sorted (self.old.map ++ right.old.map)) }
        ensures emptied { OnOk result (right.new.map ≡ []) }
        ensures succeeds { length right.old.map ≤ self.old.spare → IsOk result }

        ensures refused { OnErr result ((self.new.map ≡ self.old.map) × (right.new ≡ right.old)) }
        ensures salts { (self.new.salt ≡ self.old.salt) × (right.new.salt ≡ right.old.salt) }
        ensures room { right.old.spare ≤ right.new.spare }
    {
        self.reserve(right.rows.len())?;
        self.rows.append(&mut right.rows)?;
        right.tags.clear();
        right.order.clear();
        right.front = 0;
        add_tags(&mut self.tags, &self.rows, self.salt);
        self.ordered = false;
        Ok(())
    }

    /// [`Leaf::absorb`] of a leaf that isn't wanted any more. Where there is no memory for its pairs, it
    /// comes back as it was.
    pub fn join(&mut self, mut right: Leaf<V>) -> Result<(), Leaf<V>>
    where
        V: Drop,
        requires { (key : List ℕ) → (find self.old.map key ≡ None) ⊎ (find right.map key ≡ None) }
        ensures joined { OnOk result (self.new.map ≡ sorted (self.old.map ++ right.map)) }
        ensures succeeds { length right.map ≤ self.old.spare → IsOk result }

        ensures back { IfErr result (λ back. back ≡ right) }
        ensures refused { OnErr result (self.new.map ≡ self.old.map) }
        ensures salt { self.new.salt ≡ self.old.salt }
    {
        match self.absorb(&mut right) {
            Ok(()) => Ok(()),
            Err(_) => Err(right),
        }
    }

    // Puts the order in place, unless it is.
    fn put_in_order(&mut self)
        ensures map { self.new.map ≡ self.old.map }
        ensures ordered { IsTrue self.new.is_ordered }
        ensures salt { self.new.salt ≡ self.old.salt }
        ensures spare { self.old.spare ≤ self.new.spare }
        ensures again { IsTrue self.old.is_ordered → self.new ≡ self.old }
    {
        if !self.ordered {
            order_leaf(
                &mut self.rows,
                &mut self.tags,
                self.salt,
                &mut self.order,
                self.front,
            );
            self.front = self.order.len();
            self.ordered = true;
        }
    }

    // Puts the rows themselves in the order of their keys, unless they are.
    fn arrange_rows(&mut self)
        ensures map { self.new.map ≡ self.old.map }
        ensures keys { self.new.keys ≡ keys_of self.new.map }
        ensures ordered { IsTrue self.new.is_ordered }
        ensures salt { self.new.salt ≡ self.old.salt }
        ensures spare { self.old.spare ≤ self.new.spare }
    {
        if !self.ordered || !self.order.is_empty() {
            settle(&mut self.rows, &mut self.tags, self.salt);
            self.order.clear();
            self.front = 0;
            self.ordered = true;
        }
    }
}

// A leaf may go to another thread, where its values may.
fn leaf_is_send<V: Send>() {
    is_send::<Leaf<V>>();
}

fn is_send<T: Send>() {}
