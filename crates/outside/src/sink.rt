//! What is written.
ghost use Rattle.std.specs.Prelude.{◌≡◌, ◌<◌, ℕ, List, Option, length, IfOk};
ghost use Rattle.std.specs.Io.{WritesAtMost};
ghost use Rattle.outside.specs.Causes.{FaultsCounted};
ghost use Rattle.outside.specs.Moved.{moved};
ghost use Rattle.outside.specs.Writing.{Wrote};

use crate::Stop;

/// A sink of bytes.
pub trait Sink {
    /// The bytes written; `None` where the sink doesn't tell.
    ghost written: { Self → Option (List ℕ) };

    /// How often the sink failed.
    ghost faults: { Self → ℕ };

    /// The number of the connection of which this is an end, which no call changes. A sink that is no end of one has
    /// any number.
    ghost connection: { Self → ℕ };

    /// Appends some first bytes, and answers how many: at least one, where there is one.
    fn write(&mut self, bytes: &[u8]) -> Result<usize, Stop>
        ensures bound { WritesAtMost result bytes.now }
        ensures some { IfOk result (λ n. 0 < length bytes.now → 0 < n) }
        ensures bytes { Wrote (written self.old) (written self.new) (moved result bytes.now) }
        ensures cause { FaultsCounted (faults self.old) (faults self.new) result }
        ensures connection { connection self.new ≡ connection self.old };
}
