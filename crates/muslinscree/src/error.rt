//! Why a call of the crate wasn't answered.
ghost use Rattle.std.specs.Prelude.{◌≡◌};
ghost use Rattle.muslinscree.specs.Errors.{of_key, of_make, of_refusal, of_fork};
ghost use Rattle.muslinscree.specs.declared.error.Error.TheVariants as error;

use key_bytes::{KeyFault, LONGEST_KEY};
use map_model::{Again, ForkFault, Full, Refusal};
use row_words::{MakeFault, ShapeFault};
use std::alloc::{AllocError, AllocFailed};
use std::fmt;

/// Why a key or an index wasn't made, or a call wasn't answered. Each fault of the crates below has its variant.
#[derive(Clone, Copy, Debug, PartialEq, Eq)]
pub enum Error {
    /// A key has at least one byte.
    EmptyKey,
    /// A key of so many bytes is longer than `LONGEST_KEY`.
    LongKey(usize),
    /// A field of the shape is out of its range.
    Shape(ShapeFault),
    /// Another lane was in the way, and patience was at its end.
    Again(Again),
    /// There is no room for a new key or its value.
    Full(Full),
    /// As many lanes were made as there may be.
    Lanes { given: u64, cap: u64 },
    /// An allocation failed.
    NoMemory,
}

impl fmt::Display for Error {
    fn fmt<W: fmt::Write>(&self, f: &mut fmt::Formatter<W>) -> fmt::Result {
        match self {
            Error::EmptyKey => write!(f, "a key has at least one byte"),
            Error::LongKey(len) => write!(f, "a key of {len} bytes has more than {LONGEST_KEY}"),
            Error::Shape(field) => write!(f, "out of its range in the shape: {field:?}"),
            Error::Again(cause) => write!(f, "another lane was in the way: {cause:?}"),
            Error::Full(cause) => write!(f, "no room: {cause:?}"),
            Error::Lanes { given, cap } => write!(f, "{given} lanes of {cap} were made"),
            Error::NoMemory => write!(f, "an allocation failed"),
        }
    }
}

impl std::error::Error for Error {}

impl From<KeyFault> for Error {
    ghost from_gives = { λ fault error. error ≡ of_key fault };

    fn from(fault: KeyFault) -> Self {
        match fault {
            KeyFault::Empty => Error::EmptyKey,
            KeyFault::TooLong(len) => Error::LongKey(len),
            KeyFault::NoMemory => Error::NoMemory,
        }
    }
}

impl From<MakeFault> for Error {
    ghost from_gives = { λ fault error. error ≡ of_make fault };

    fn from(fault: MakeFault) -> Self {
        match fault {
            MakeFault::Shape(field) => Error::Shape(field),
            MakeFault::NoMemory => Error::NoMemory,
        }
    }
}

impl From<Refusal> for Error {
    ghost from_gives = { λ refusal error. error ≡ of_refusal refusal };

    fn from(refusal: Refusal) -> Self {
        match refusal {
            Refusal::Again(cause) => Error::Again(cause),
            Refusal::Full(cause) => Error::Full(cause),
            Refusal::NoMemory => Error::NoMemory,
        }
    }
}

impl From<ForkFault> for Error {
    ghost from_gives = { λ fault error. error ≡ of_fork fault };

    fn from(fault: ForkFault) -> Self {
        match fault {
            ForkFault::Lanes { given, cap } => Error::Lanes { given, cap },
            ForkFault::NoMemory => Error::NoMemory,
        }
    }
}

impl From<AllocError> for Error {
    ghost from_gives = { λ _ e. e ≡ error.NoMemory };

    fn from(_: AllocError) -> Self {
        Error::NoMemory
    }
}

impl<T: Drop> From<AllocFailed<T>> for Error {
    ghost from_gives = { λ _ e. e ≡ error.NoMemory };

    fn from(_: AllocFailed<T>) -> Self {
        Error::NoMemory
    }
}
