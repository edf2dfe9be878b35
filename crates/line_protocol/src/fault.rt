//! Why a line is no request.
ghost use Rattle.std.specs.Prelude.{◌≡◌};
ghost use Rattle.line_protocol.specs.declared.fault.RequestFault.TheVariants.{NoMemory};

use std::alloc::AllocError;

/// What is wrong with a line, in the order of the numbers that replies have, from 1.
#[derive(Clone, Copy, Debug, PartialEq)]
pub enum Fault {
    /// The first word is no command.
    Command,
    /// The command has another number of words.
    Words,
    /// A key, or an end of a scan, has no byte, or more than a key may have.
    Key,
    /// The value has more bytes than a value may have.
    Value,
    /// The limit isn't 1 to 7 decimal digits of a value of at most `MOST_SCANNED`.
    Limit,
    /// The line has more bytes than a line may have.
    Line,
}

/// Why no request was read.
#[derive(Clone, Copy, Debug)]
pub enum RequestFault {
    /// The line has this fault, and perhaps later ones.
    Fault(Fault),
    /// An allocation failed.
    NoMemory,
}

impl From<AllocError> for RequestFault {
    ghost from_gives = { λ _ fault. fault ≡ NoMemory };

    fn from(_: AllocError) -> Self {
        RequestFault::NoMemory
    }
}
