//! Bytes of anchors, packed into words.

ghost use Rattle.std.specs.Prelude.{◌≡◌, ◌<◌, ◌≤◌, ◌+◌, ◌*◌, ◌/◌, ◌%◌, ◌^◌, ◌==◌, ℕ, length, slice_index, take, IfOk};

use crate::layout::{ANCHOR_BYTES, ANCHOR_WORDS, LONGEST_ANCHOR, UPPER};
use std::alloc::{AllocError, Global};
use std::marker::Model;

/// The bytes of an anchor, at most [`LONGEST_ANCHOR`], packed into words with the first byte lowest. A contract sees
/// the list of the bytes.
#[derive(Debug, Drop)]
pub struct AnchorWords {
    pub(crate) len: u32,
    pub(crate) words: [u64; ANCHOR_WORDS],
}

impl Model for AnchorWords {
    ghost use Rattle.std.specs.Prelude.{List, ℕ, ◌<◌, ◌+◌};
    ghost use Rattle.row_words.specs.declared.layout.TheConstants.{LONGEST_ANCHOR};
    ghost use Rattle.row_words.specs.Bytes.{bytes_from};

    ghost Value = { List ℕ };

    ghost view = { λ a. bytes_from a.words 0 a.len };

    ghost invariant = { λ a. a.len < LONGEST_ANCHOR + 1 };
}

impl AnchorWords {
    /// These bytes, packed.
    pub fn new(bytes: &[u8]) -> AnchorWords
        requires { length bytes.now < LONGEST_ANCHOR + 1 }
        ensures { result ≡ bytes.now }
    {
        let mut words = [0; ANCHOR_WORDS];
        for i in 0..(bytes.len() + 7) / 8 {
            words[i] = packed_word(bytes, i);
        }
        AnchorWords {
            len: bytes.len() as u32,
            words,
        }
    }

    /// How many bytes there are.
    pub fn len(&self) -> usize
        ensures { result ≡ length self.now }
    {
        self.len as usize
    }

    /// Whether there is no byte.
    pub fn is_empty(&self) -> bool
        ensures { result ≡ (length self.now == 0) }
    {
        self.len == 0
    }

    /// The byte at an index.
    pub fn byte(&self, i: usize) -> u8
        requires { i < length self.now }
        ensures { result ≡ slice_index self.now i }
    {
        ((self.words[i / 8] >> (8 * (i % 8))) & 0xff) as u8
    }

    /// Writes the bytes to the front of these, a word at a time. The rest of the last word is written too, and no
    /// byte behind it.
    pub fn unpack(&self, into: &mut [u8; ANCHOR_BYTES])
        ensures bytes { take (length self.now) into.new ≡ self.now }
        ensures fits { length self.now < LONGEST_ANCHOR + 1 }
    {
        for i in 0..(self.len as usize + 7) / 8 {
            into[8 * i..8 * i + 8].copy_from_slice(&self.words[i].to_le_bytes());
        }
    }

    /// A copy of the bytes.
    pub fn to_vec(&self, alloc: Global) -> Result<Vec<u8>, AllocError>
        ensures { IfOk result (λ bytes. bytes.items ≡ self.now) }
    {
        let mut bytes = [0; ANCHOR_BYTES];
        self.unpack(&mut bytes);
        Vec::from_slice(alloc, &bytes[..self.len()])
    }
}

/// Word `i` of these bytes as they are packed: eight of them, the first one lowest, with 0 for each
/// that is past the end.
pub fn packed_word(bytes: &[u8], i: usize) -> u64
    requires { i < 2 ^ 32 }
    ensures { (j : ℕ) → j < 8 → result / 2 ^ (8 * j) % 256 ≡ slice_index bytes.now (8 * i + j) }
{
    if i < bytes.len() / 8 {
        return whole_word(bytes, 8 * i);
    }
    let low = four(bytes, 8 * i);
    let high = four(bytes, 8 * i + 4);
    low as u64 + high as u64 * UPPER
}

/// The eight bytes from a place on, the first one lowest. There are as many, so no byte is asked
/// for by itself: the machine reads one word.
pub(crate) fn whole_word(bytes: &[u8], from: usize) -> u64
    requires { from + 8 ≤ length bytes.now }
    ensures { (j : ℕ) → j < 8 → result / 2 ^ (8 * j) % 256 ≡ slice_index bytes.now (from + j) }
{
    let low = whole_four(bytes, from);
    let high = whole_four(bytes, from + 4);
    low as u64 + high as u64 * UPPER
}

/// The four bytes from a place on, the first one lowest.
pub(crate) fn whole_four(bytes: &[u8], from: usize) -> u32
    requires { from + 4 ≤ length bytes.now }
    ensures first { result % 256 ≡ slice_index bytes.now from }
    ensures second { result / 256 % 256 ≡ slice_index bytes.now (from + 1) }
    ensures third { result / 65536 % 256 ≡ slice_index bytes.now (from + 2) }
    ensures fourth { result / 16777216 ≡ slice_index bytes.now (from + 3) }
{
    let first = bytes[from] as u32;
    let second = bytes[from + 1] as u32;
    let third = bytes[from + 2] as u32;
    let fourth = bytes[from + 3] as u32;
    first + second * 256 + third * 65_536 + fourth * 16_777_216
}

/// The four bytes from a place on, the first one lowest, with 0 for each that is past the end.
fn four(bytes: &[u8], from: usize) -> u32
    requires { from < 2 ^ 36 }
    ensures first { result % 256 ≡ slice_index bytes.now from }
    ensures second { result / 256 % 256 ≡ slice_index bytes.now (from + 1) }
    ensures third { result / 65536 % 256 ≡ slice_index bytes.now (from + 2) }
    ensures fourth { result / 16777216 ≡ slice_index bytes.now (from + 3) }
{
    let first = byte_or_zero(bytes, from) as u32;
    let second = byte_or_zero(bytes, from + 1) as u32;
    let third = byte_or_zero(bytes, from + 2) as u32;
    let fourth = byte_or_zero(bytes, from + 3) as u32;
    first + second * 256 + third * 65_536 + fourth * 16_777_216
}

fn byte_or_zero(bytes: &[u8], i: usize) -> u8
    ensures { result ≡ slice_index bytes.now i }
{
    if i < bytes.len() { bytes[i] } else { 0 }
}
