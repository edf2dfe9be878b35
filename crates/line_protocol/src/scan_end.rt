//! An end of a scan, which lies apart.
ghost use Rattle.std.specs.Prelude.{◌≡◌, IfOk};

use key_bytes::Bound;
use std::alloc::{AllocError, Global};
use std::marker::Model;

/// An end of a scan, which contracts see as its bound. It lies in an allocation of its own, so that a
/// request that is no scan is small: one with two bounds in place would be moved as a large one each
/// time, and nearly all requests are for one key.
#[derive(Debug, Drop)]
pub struct ScanEnd {
    bound: Box<Bound>,
}

impl Model for ScanEnd {
    ghost use Rattle.key_bytes.specs.declared.bound.Bound.{Bound};

    ghost Value = { Bound };

    ghost view = { λ e. e.bound.value };
}

impl ScanEnd {
    /// The end at this bound.
    pub fn of(alloc: Global, bound: Bound) -> Result<ScanEnd, AllocError>
        ensures { IfOk result (λ e. e ≡ bound) }
    {
        match Box::new(alloc, bound) {
            Ok(bound) => Ok(ScanEnd { bound }),
            Err(..) => Err(AllocError),
        }
    }

    /// The bound.
    #[inline]
    pub fn get(&self) -> &Bound
        ensures { result.now ≡ self.now }
    {
        &self.bound
    }

    /// The bound, whose allocation ends.
    #[inline]
    pub fn into_bound(self) -> Bound
        ensures { result ≡ self }
    {
        Box::into_inner(self.bound)
    }
}
