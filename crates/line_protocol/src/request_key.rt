//! The key of a request.
ghost use Rattle.std.specs.Prelude.{◌≡◌, IfOk};
ghost use Rattle.std.specs.Cow.{cow_slice_items};
ghost use Rattle.key_bytes.specs.Lengths.{IsKey};

use key_bytes::Key;
use std::alloc::{AllocError, Global};
use std::borrow::CowSlice;
use std::marker::Model;

/// The bytes of a key, which contracts see as their list. They are lent from the line where its word has no
/// `%`, and else stand in an allocation of their own. So a request that is read is small, and the bytes of
/// a key move once, into the key that a store is asked for.
#[derive(Debug, Drop)]
pub struct RequestKey<'a> {
    bytes: CowSlice<'a, u8, Global>,
}

impl<'a> Model for RequestKey<'a> {
    ghost use Rattle.std.specs.Prelude.{List, ℕ};
    ghost use Rattle.std.specs.Cow.{cow_slice_items};
    ghost use Rattle.key_bytes.specs.Lengths.{IsKey};

    ghost Value = { List ℕ };

    ghost view = { λ k. cow_slice_items k.bytes };

    ghost invariant = { λ k. IsKey (cow_slice_items k.bytes) };
}

impl<'a> RequestKey<'a> {
    /// The key of these bytes.
    #[inline(always)]
    pub(crate) fn of(bytes: CowSlice<'a, u8, Global>) -> RequestKey<'a>
        requires { IsKey (cow_slice_items bytes) }
        ensures { result ≡ cow_slice_items bytes.entry }
    {
        RequestKey { bytes }
    }

    /// The bytes.
    #[inline]
    pub fn bytes(&self) -> &[u8]
        ensures bytes { result.now ≡ self.now }
        ensures key { IsKey self.now }
    {
        self.bytes.as_slice()
    }

    /// A key with a copy of the bytes.
    #[inline(always)]
    pub fn copy(&self, alloc: Global) -> Result<Key, AllocError>
        ensures { IfOk result (λ key. key ≡ self.now) }
    {
        // Only memory can be wanting, since the bytes are those of a key.
        match Key::new(alloc, self.bytes()) {
            Ok(key) => Ok(key),
            Err(_) => Err(AllocError),
        }
    }
}
