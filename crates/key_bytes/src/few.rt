//! Few bytes.
ghost use Rattle.std.specs.Prelude.{◌≡◌, ◌≤◌, length};

use crate::copy_few;
use std::marker::Model;

/// The most bytes that are few.
pub(crate) const FEW: usize = 48;

/// Up to [`FEW`] bytes, which lie in the value itself. A copy takes no look at how many they are.
#[derive(Debug, Drop)]
pub(crate) struct FewBytes {
    len: usize,
    bytes: [u8; FEW],
}

impl Model for FewBytes {
    ghost use Rattle.std.specs.Prelude.{List, ℕ, ◌≤◌, take};
    ghost use Rattle.key_bytes.specs.declared.few.TheConstants.{FEW};

    ghost Value = { List ℕ };

    ghost view = { λ f. take f.len f.bytes };

    ghost invariant = { λ f. f.len ≤ FEW };
}

impl FewBytes {
    /// A copy of these bytes.
    #[inline]
    pub(crate) fn of(bytes: &[u8]) -> FewBytes
        requires { length bytes.now ≤ FEW }
        ensures { result ≡ bytes.now }
    {
        let mut few = [0; FEW];
        copy_few(&mut few[..bytes.len()], bytes);
        FewBytes {
            len: bytes.len(),
            bytes: few,
        }
    }

    /// The same bytes again.
    #[inline]
    pub(crate) fn copy(&self) -> FewBytes
        ensures { result ≡ self.now }
    {
        FewBytes {
            len: self.len,
            bytes: self.bytes,
        }
    }

    /// The bytes.
    #[inline]
    pub(crate) fn get(&self) -> &[u8]
        ensures { result.now ≡ self.now }
    {
        &self.bytes[..self.len]
    }
}
