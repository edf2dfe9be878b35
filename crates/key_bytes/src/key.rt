//! A key.
ghost use Rattle.std.specs.Prelude.{◌≡◌, IfOk};
ghost use Rattle.key_bytes.specs.Key.{IsKey, IsKeyAnswer};
ghost use Rattle.key_bytes.specs.Order.{bytes_cmp};

use crate::LONGEST_KEY;
use crate::few::{FEW, FewBytes};
use std::alloc::{AllocError, Global};
use std::cmp::Ordering;
use std::marker::Model;

/// A key of an ordered map: 1 to `LONGEST_KEY` bytes of any value. Up to 48 of them lie in the key itself, which
/// takes 64 bytes, and more than that in an allocation of their own.
#[derive(Debug, Drop)]
pub struct Key {
    held: Held,
}

// Where the bytes of a key lie.
#[derive(Debug, Drop)]
enum Held {
    // In the key itself.
    Few(FewBytes),
    // In an allocation, since they are more than `FEW`.
    Many(Vec<u8>),
}

impl Model for Key {
    ghost use Rattle.std.specs.Prelude.{List, ℕ};
    ghost use Rattle.key_bytes.specs.Lengths.{IsKey};
    ghost use Rattle.key_bytes.specs.Held.{held_bytes};

    ghost Value = { List ℕ };

    ghost view = { λ k. held_bytes k.held };

    ghost invariant = { λ k. IsKey (held_bytes k.held) };
}

/// Why bytes are no key.
#[derive(Debug, Drop)]
pub enum KeyFault {
    /// There are no bytes.
    Empty,
    /// There are this many bytes, which is more than `LONGEST_KEY`.
    TooLong(usize),
    /// The bytes are a key, and there was no memory for a copy of them.
    NoMemory,
}

impl Key {
    /// The key of these bytes, which are copied once.
    #[inline]
    pub fn new(alloc: Global, bytes: &[u8]) -> Result<Key, KeyFault>
        ensures { IsKeyAnswer bytes.now result }
    {
        if bytes.is_empty() {
            return Err(KeyFault::Empty);
        }
        if bytes.len() > LONGEST_KEY {
            return Err(KeyFault::TooLong(bytes.len()));
        }
        if bytes.len() <= FEW {
            return Ok(Key {
                held: Held::Few(FewBytes::of(bytes)),
            });
        }
        match Vec::from_slice(alloc, bytes) {
            Ok(bytes) => Ok(Key {
                held: Held::Many(bytes),
            }),
            Err(_) => Err(KeyFault::NoMemory),
        }
    }

    /// A second key of the same bytes.
    #[inline]
    pub fn copy(&self) -> Result<Key, AllocError>
        ensures copied { IfOk result (λ k. k ≡ self.now) }
    {
        match &self.held {
            Held::Few(few) => Ok(Key {
                held: Held::Few(few.copy()),
            }),
            Held::Many(bytes) => Ok(Key {
                held: Held::Many(Vec::from_slice(*bytes.allocator(), bytes)?),
            }),
        }
    }

    /// Its bytes.
    #[inline]
    pub fn bytes(&self) -> &[u8]
        ensures bytes { result.now ≡ self.now }
        ensures key { IsKey self.now }
    {
        match &self.held {
            Held::Few(few) => few.get(),
            Held::Many(bytes) => bytes.as_slice(),
        }
    }

    /// The order of the bytes, from the first one on, as numbers from 0 to 255. A key comes before
    /// all longer keys that begin with it. The cost is that of the common prefix.
    pub fn order(&self, other: &Key) -> Ordering
        ensures order { result ≡ bytes_cmp self.now other.now }
        ensures keys { IsKey self.now × IsKey other.now }
    {
        self.bytes().cmp(other.bytes())
    }
}
