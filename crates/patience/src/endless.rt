//! Patience without end.
use crate::limits::Patience;
use std::alloc::AllocError;
use std::sync::Wait;

/// Tries again for as long as another lane is in the way. It counts its answers, and after 2^64 - 1 of them, which
/// no run comes to, it waits for ever in place of the next one.
pub struct Endless<'a, R: Wait + Sync> {
    rt: &'a R,
    answers: u64,
}

impl<'a, R: Wait + Sync> Endless<'a, R> {
    /// Patience that has not answered yet. It takes no memory.
    pub fn new(rt: &'a R) -> Endless<'a, R> {
        Endless { rt, answers: 0 }
    }
}

impl<R: Wait + Sync> Clone for Endless<'_, R> {
    fn clone(&self) -> Result<Self, AllocError> {
        Ok(*self)
    }
}

impl<R: Wait + Sync> Copy for Endless<'_, R> {}

impl<R: Wait + Sync> Patience for Endless<'_, R> {
    ghost use Rattle.std.specs.Prelude.{◌-◌, ◌^◌, None};

    ghost limit = { λ e. None };

    ghost left = { λ e tries. 2 ^ 64 - 1 - e.answers };

    fn again(&mut self, _tries: u32) -> bool {
        if self.answers == u64::MAX {
            for _ in self.rt.forever() {}
            unreachable!()
        }
        self.answers += 1;
        true
    }
}
