//! What is read.
ghost use Rattle.std.specs.Prelude.{◌≡◌, ◌<◌, ℕ, Option, length};
ghost use Rattle.std.specs.Io.{ReadsAtMost};
ghost use Rattle.outside.specs.Causes.{FaultsCounted};
ghost use Rattle.outside.specs.Moved.{moved, is_zero};
ghost use Rattle.outside.specs.Reading.{Told, Took, Ended};

use crate::Stop;

/// A source of bytes.
pub trait Source {
    /// The bytes given and left, and whether 0 was answered; `None` where the source doesn't tell.
    ghost told: { Self → Option Told };

    /// How often the source failed.
    ghost faults: { Self → ℕ };

    /// The number of the connection of which this is an end, which no call changes. A source that is no end of one has
    /// any number.
    ghost connection: { Self → ℕ };

    /// Puts the next bytes in front of `buf`, and answers how many. 0 is the end of input.
    fn read(&mut self, buf: &mut [u8]) -> Result<usize, Stop>
        requires { 0 < length buf.old }
        ensures bound { ReadsAtMost result buf.new }
        ensures bytes { Took (told self.old) (told self.new) (moved result buf.new) }
        ensures ended { Ended (told self.old) (told self.new) (is_zero result) }
        ensures cause { FaultsCounted (faults self.old) (faults self.new) result }
        ensures connection { connection self.new ≡ connection self.old };
}
