//! The pairs of a part.
ghost use Rattle.std.specs.Prelude.{◌≡◌, ℕ, ◌≤◌, ◌<◌, ◌+◌, ◌-◌, ◌^◌, ◌⊎◌, [], ◌∷◌, ◌++◌, length, take, drop, slice_index_or, slice_range, OnOk, OnErr};
ghost use Rattle.map_model.specs.Pages.{HasNoLessRoom, cut, joined, AreEnds, start_at};

use key_bytes::copy_few;
use std::alloc::{AllocError, Global};
use std::marker::Model;

/// Pairs of byte strings, with room for more.
///
/// The bytes lie one behind another in one vector, so that a pair takes no allocation of its own. The room
/// behind them is written once, when it is made, so that a pair is copied over bytes that are there.
#[derive(Drop)]
pub struct Page {
    // The bytes of the pairs, and behind them the room for more.
    bytes: Vec<u8>,
    // How many of the bytes are those of pairs.
    used: usize,
    // The end of each key, and that of its value.
    ends: Vec<(usize, usize)>,
    // How many pairs whoever gave the page still wants.
    wanted: usize,
}

impl Model for Page {
    ghost use Rattle.map_model.specs.Pages.{Paged, cut, AreEnds};
    ghost use Rattle.std.specs.Prelude.{◌-◌, ◌≤◌, length, vec_capacity, vec_len};

    ghost Value = { Paged };

    ghost view = { λ p. record {
      pairs = cut p.bytes.items 0 p.ends.items;
      wanted = p.wanted;
      spare_pairs = vec_capacity p.ends - vec_len p.ends;
      spare_bytes = length p.bytes.items - p.used;
    } };

    ghost invariant = { λ p. AreEnds 0 p.ends.items p.used × (p.used ≤ length p.bytes.items) };
}

impl Page {
    /// A page with no pair, and no room yet. It wants as many pairs as can be counted.
    pub fn new(alloc: Global) -> Page
        ensures pairs { result.pairs ≡ [] }
        ensures wanted { result.wanted ≡ 2 ^ 64 - 1 }
    {
        Page {
            bytes: Vec::new(alloc),
            used: 0,
            ends: Vec::new(alloc),
            wanted: usize::MAX,
        }
    }

    /// Says how many pairs are still wanted by whoever gives the page. A store may end a part behind so
    /// many pairs, or go on.
    pub fn want(&mut self, pairs: usize)
        ensures wanted { self.new.wanted ≡ pairs }
        ensures pairs { self.new.pairs ≡ self.old.pairs }
        ensures room { HasNoLessRoom self.old self.new }
    {
        self.wanted = pairs;
    }

    /// How many pairs are still wanted, as it was last said.
    pub fn wanted(&self) -> usize
        ensures { result ≡ self.now.wanted }
    {
        self.wanted
    }

    /// How many pairs it has.
    pub fn len(&self) -> usize
        ensures { result ≡ length self.now.pairs }
    {
        self.ends.len()
    }

    /// The key of pair `i`, counted from 0.
    pub fn key(&self, i: usize) -> &[u8]
        requires { i < length self.now.pairs }
        ensures { result.now ≡ (slice_index_or self.now.pairs i ([], [])).0 }
    {
        pair_at(&self.bytes, &self.ends, i).0
    }

    /// The value of pair `i`, counted from 0.
    pub fn value(&self, i: usize) -> &[u8]
        requires { i < length self.now.pairs }
        ensures { result.now ≡ (slice_index_or self.now.pairs i ([], [])).1 }
    {
        pair_at(&self.bytes, &self.ends, i).1
    }

    /// The bytes of the first pairs, one behind another: each key, and behind it its value.
    pub fn front(&self, count: usize) -> &[u8]
        requires { count ≤ length self.now.pairs }
        ensures { result.now ≡ joined (take count self.now.pairs) }
    {
        &self.bytes[..start_of(&self.ends, count)]
    }

    /// Makes room for so many more pairs, and for so many more bytes of keys and values together. It
    /// takes no memory where there is as much.
    pub fn reserve(&mut self, pairs: usize, bytes: usize) -> Result<(), AllocError>
        ensures same { self.new.pairs ≡ self.old.pairs }
        ensures wanted { self.new.wanted ≡ self.old.wanted }
        ensures pairs { OnOk result (pairs ≤ self.new.spare_pairs) }
        ensures bytes { OnOk result (bytes ≤ self.new.spare_bytes) }
        ensures taken { OnErr result ((self.old.spare_pairs < pairs) ⊎ (self.old.spare_bytes < bytes)) }
        ensures room { HasNoLessRoom self.old self.new }
    {
        self.ends.reserve(pairs)?;
        make_room(&mut self.bytes, self.used, bytes)
    }

    /// Adds a pair behind the others. It takes no memory where there is room for it.
    pub fn push(&mut self, key: &[u8], value: &[u8]) -> Result<(), AllocError>
        ensures ok { OnOk result (self.new.pairs ≡ self.old.pairs ++ (key.now, value.now) ∷ []) }
        ensures err { OnErr result (self.new.pairs ≡ self.old.pairs) }
        ensures wanted { self.new.wanted ≡ self.old.wanted }
        ensures taken { OnErr result ((self.old.spare_pairs < 1)
            ⊎ (self.old.spare_bytes < length key.now + length value.now)) }
        ensures pairs { self.old.spare_pairs ≤ self.new.spare_pairs + 1 }
        ensures bytes { self.old.spare_bytes ≤ self.new.spare_bytes + (length key.now + length value.now) }
        ensures room { OnErr result (HasNoLessRoom self.old self.new) }
    {
        self.ends.reserve(1)?;
        make_room(&mut self.bytes, self.used, key.len() + value.len())?;
        let middle = self.used + key.len();
        let end = middle + value.len();
        put_bytes(&mut self.bytes, self.used, key);
        put_bytes(&mut self.bytes, middle, value);
        self.ends.push_reserved((middle, end));
        self.used = end;
        Ok(())
    }

    /// Takes all pairs out, and keeps the room.
    pub fn clear(&mut self)
        ensures none { self.new.pairs ≡ [] }
        ensures wanted { self.new.wanted ≡ self.old.wanted }
        ensures room { HasNoLessRoom self.old self.new }
    {
        self.used = 0;
        self.ends.clear();
    }
}

// Makes room for so many bytes behind those that are used, unless there is.
fn make_room(bytes: &mut Vec<u8>, used: usize, more: usize) -> Result<(), AllocError>
    requires { used ≤ length bytes.old.items }
    ensures front { take used bytes.new.items ≡ take used bytes.old.items }
    ensures longer { length bytes.old.items ≤ length bytes.new.items }
    ensures room { OnOk result (more ≤ length bytes.new.items - used) }
    ensures taken { OnErr result (length bytes.old.items - used < more) }
{
    if more <= bytes.len() - used {
        return Ok(());
    }
    lengthen(bytes, used, more)
}

// The part of `make_room` that takes memory, apart so that the test is inlined.
#[cold]
#[inline(never)]
fn lengthen(bytes: &mut Vec<u8>, used: usize, more: usize) -> Result<(), AllocError>
    requires in_range { used ≤ length bytes.old.items }
    requires short { length bytes.old.items - used < more }
    ensures front { take used bytes.new.items ≡ take used bytes.old.items }
    ensures longer { length bytes.old.items ≤ length bytes.new.items }
    ensures room { OnOk result (more ≤ length bytes.new.items - used) }
{
    bytes.reserve(more - (bytes.len() - used))?;
    bytes.resize(bytes.capacity(), 0)
}

// Writes bytes over those at a place.
fn put_bytes(bytes: &mut Vec<u8>, at: usize, part: &[u8])
    requires { at + length part.now ≤ length bytes.old.items }
    ensures bytes { bytes.new.items ≡ take at bytes.old.items ++ (part.now ++ drop (at + length part.now) bytes.old.items) }
    ensures len { length bytes.new.items ≡ length bytes.old.items }
{
    copy_few(&mut bytes[at..at + part.len()], part);
}

// The key and the value of a pair.
fn pair_at<'a>(bytes: &'a [u8], ends: &[(usize, usize)], i: usize) -> (&'a [u8], &'a [u8])
    requires in_range { i < length ends.now }
    requires ends { (used : ℕ) × AreEnds 0 ends.now used × (used ≤ length bytes.now) }
    ensures key { result.0.now ≡ (slice_index_or (cut bytes.now 0 ends.now) i ([], [])).0 }
    ensures value { result.1.now ≡ (slice_index_or (cut bytes.now 0 ends.now) i ([], [])).1 }
{
    let (start, middle, end) = places_of(bytes, ends, i);
    (&bytes[start..middle], &bytes[middle..end])
}

// Where a pair begins, and where its key and its value end.
fn places_of(bytes: &[u8], ends: &[(usize, usize)], i: usize) -> (usize, usize, usize)
    requires in_range { i < length ends.now }
    requires ends { (used : ℕ) × AreEnds 0 ends.now used × (used ≤ length bytes.now) }
    ensures pair { slice_index_or (cut bytes.now 0 ends.now) i ([], [])
        ≡ (slice_range bytes.now result.0 result.1, slice_range bytes.now result.1 result.2) }
    ensures ordered { (result.0 ≤ result.1) × (result.1 ≤ result.2) × (result.2 ≤ length bytes.now) }
{
    let (middle, end) = ends[i];
    (start_of(ends, i), middle, end)
}

// Where a pair begins, or, behind the last one, where that ends.
fn start_of(ends: &[(usize, usize)], i: usize) -> usize
    requires { i ≤ length ends.now }
    ensures { result ≡ start_at 0 ends.now i }
{
    if i == 0 { 0 } else { ends[i - 1].1 }
}
