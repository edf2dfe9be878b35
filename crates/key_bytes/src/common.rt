//! What two lists of bytes begin with.
ghost use Rattle.std.specs.Prelude.{◌≡◌, ◌+◌, take, true, false, IfOk};
ghost use Rattle.key_bytes.specs.Order.{is_below};
ghost use Rattle.key_bytes.specs.Common.{lcp};

use crate::Key;
use std::alloc::{AllocError, Global};

/// The length of the longest common prefix, in bytes.
pub fn lcp(a: &[u8], b: &[u8]) -> usize
    ensures { result ≡ lcp a.now b.now }
{
    let mut i = 0;
    'same: while i < a.len() && i < b.len() && a[i] == b[i] {
        i += 1;
    }
    i
}

/// The bytes of `b` as far as the first one in which it differs from `a`, that one included. They
/// are a key between the two.
#[tactic(auto, using(crate::proofs::Separators::separator_short, crate::proofs::Separators::separator_length, crate::proofs::Separators::separator_above, crate::proofs::Separators::separator_within))]
pub fn separator(alloc: Global, a: &Key, b: &Key) -> Result<Key, AllocError>
    requires { is_below a.now b.now ≡ true }
    ensures key { IfOk result (λ k. k ≡ take (lcp a.now b.now + 1) b.now) }
    ensures above { IfOk result (λ k. is_below a.now k ≡ true) }
    ensures within { IfOk result (λ k. is_below b.now k ≡ false) }
{
    let a = a.bytes();
    let b = b.bytes();
    let n = lcp(a, b);
    let part = &b[..n + 1];
    // Only memory can be wanting, since these are no more bytes than `b` has.
    match Key::new(alloc, part) {
        Ok(key) => Ok(key),
        Err(_) => Err(AllocError),
    }
}
