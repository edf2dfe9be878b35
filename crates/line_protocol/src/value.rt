//! The value of a put.
ghost use Rattle.std.specs.Prelude.{◌≡◌};
ghost use Rattle.std.specs.Cow.{cow_slice_items};

use std::alloc::Global;
use std::borrow::CowSlice;
use std::marker::Model;

/// The bytes of a value, which contracts see as their list. They are lent from the line where its word
/// has no `%`, and else stand in an allocation of their own.
#[derive(Debug, Drop)]
pub struct Value<'a> {
    bytes: CowSlice<'a, u8, Global>,
}

impl<'a> Model for Value<'a> {
    ghost use Rattle.std.specs.Prelude.{List, ℕ};
    ghost use Rattle.std.specs.Cow.{cow_slice_items};

    ghost Value = { List ℕ };

    ghost view = { λ v. cow_slice_items v.bytes };
}

impl<'a> Value<'a> {
    /// The value of these bytes.
    #[inline]
    pub(crate) fn of(bytes: CowSlice<'a, u8, Global>) -> Value<'a>
        ensures { result ≡ cow_slice_items bytes.entry }
    {
        Value { bytes }
    }

    /// The bytes.
    #[inline]
    pub fn get(&self) -> &[u8]
        ensures { result.now ≡ self.now }
    {
        self.bytes.as_slice()
    }
}
