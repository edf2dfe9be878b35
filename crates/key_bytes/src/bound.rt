//! An end of a range of keys.
ghost use Rattle.std.specs.Prelude.{◌≡◌, Some, None, IfOk, MatchOption};
ghost use Rattle.key_bytes.specs.Bound.{bound_cmp, key_of, side_of, IsBound};

use crate::Key;
use std::alloc::AllocError;
use std::cmp::Ordering;

/// An end of a range of keys. As a lower end a key belongs to the range, as an upper end it
/// doesn't.
#[derive(Debug, Drop)]
pub enum Bound {
    /// Below all keys.
    Low,
    /// At this key.
    At(Key),
    /// Above all keys.
    High,
}

impl Bound {
    /// `Low` comes first, then keys in their order, then `High`.
    pub fn order(&self, other: &Bound) -> Ordering
        ensures order { result ≡ bound_cmp self.now other.now }
        ensures bounds { IsBound self.now × IsBound other.now }
    {
        match (self.key_bytes(), other.key_bytes()) {
            (Some(one), Some(two)) => one.cmp(two),
            _ => self.side().cmp(&other.side()),
        }
    }

    /// A second end of the same kind, with a copy of its key.
    pub fn copy(&self) -> Result<Bound, AllocError>
        ensures copied { IfOk result (λ b. b ≡ self.now) }
    {
        match self {
            Bound::Low => Ok(Bound::Low),
            Bound::High => Ok(Bound::High),
            Bound::At(key) => Ok(Bound::At(key.copy()?)),
        }
    }

    // The bytes of its key, if it is at one.
    fn key_bytes(&self) -> Option<&[u8]>
        ensures found { MatchOption result (key_of self.now ≡ None) (λ bytes. key_of self.now ≡ Some bytes.now) }
        ensures bound { IsBound self.now }
    {
        match self {
            Bound::At(key) => Some(key.bytes()),
            _ => None,
        }
    }

    // Where it stands to all keys.
    fn side(&self) -> Ordering
        ensures { result ≡ side_of self.now }
    {
        match self {
            Bound::Low => Ordering::Less,
            Bound::At(_) => Ordering::Equal,
            Bound::High => Ordering::Greater,
        }
    }
}
