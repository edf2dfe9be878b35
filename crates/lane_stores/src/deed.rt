//! What a call did.
use key_bytes::{Bound, Key};
use map_model::Page;

/// A call that was answered, with its reply, or none. It's for contracts alone: they see by it which entry is added.
#[derive(Drop)]
pub(crate) enum Deed<'a> {
    /// Nothing was answered.
    Nothing,
    /// Whether there is a value at the key, and the value.
    Got(&'a Key, bool, &'a [u8]),
    /// The value was set, and whether there was none.
    WasPut(&'a Key, &'a [u8], bool),
    /// Whether the key was there.
    WasGone(&'a Key, bool),
    /// The pairs from one end to the other.
    Left(&'a Bound, &'a Bound, &'a Page),
}
