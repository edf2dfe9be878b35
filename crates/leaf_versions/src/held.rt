//! A leaf in the hands of its holder.

ghost use Rattle.std.specs.Prelude.{◌≡◌, ◌^◌, ◌<◌};

use key_bytes::Bytes;
use leaf_store::Leaf;

/// A leaf that a pass has locked, with its content, which is its holder's to change. It can't be let
/// go: [`unlock`](crate::unlock) takes it.
pub struct Held {
    pub(crate) leaf: u32,
    // The version from which on the leaf has its span.
    pub(crate) date: u64,
    pub content: Leaf<Bytes>,
    ghost bounded: { date < 2 ^ 56 },
}

impl Held {
    /// The number of the leaf.
    pub fn leaf(&self) -> u32
        ensures { result ≡ self.now.leaf }
    {
        self.leaf
    }

    /// The version from which on the leaf has its span.
    pub fn date(&self) -> u64
        ensures { result ≡ self.now.date }
    {
        self.date
    }
}
