//! Why a call of the outside gave nothing.
ghost use Rattle.std.specs.Prelude.{◌≡◌};
ghost use Rattle.outside.specs.declared.stop.Stop.TheVariants.{NoMemory};

use std::alloc::AllocError;

/// Why nothing was read or written.
#[derive(Clone, Copy, PartialEq, Eq, Debug)]
pub enum Stop {
    /// The other end failed, and the object counted it.
    Failed,
    /// There was no memory for the call.
    NoMemory,
}

impl From<AllocError> for Stop {
    ghost from_gives = { λ _ stop. stop ≡ NoMemory };

    fn from(_: AllocError) -> Self {
        Stop::NoMemory
    }
}
