//! Where connections come from.
ghost use Rattle.std.specs.Prelude.{◌≡◌, ℕ, ◌+◌, ◌-◌, ◌^◌, min, List, Option, IfOk};
ghost use Rattle.outside.specs.Causes.{FaultsCounted};
ghost use Rattle.outside.specs.Connections.{Connection, IsUnread, IsUnwritten, Opens, Ends, Closes};

use crate::{Sink, Source, Stop};

/// What clients connect to. Its connections are numbered from 0 in the order in which it gave them, and each has two
/// ends, which have its number.
///
/// A connection that was served is ended by both of its own ends, and what is left of it is given back: where the types
/// are not known, neither can be let go otherwise. So none is closed before it was ended, and nothing is
/// written behind its end.
pub trait Door {
    /// What a client sends.
    type Input: Source + Send;

    /// What a client gets.
    type Output: Sink + Send;

    /// What is left of a connection that has ended. Nothing can be read from it or written to it.
    type Ended: Send;

    /// A connection that has ended; `None` where it doesn't tell.
    ghost past: { Self.Ended → Option Connection };

    /// The number of a connection that has ended.
    ghost number: { Self.Ended → ℕ };

    /// The closed connections in the order of closing; `None` where the door doesn't tell.
    ghost closed: { Self → Option (List Connection) };

    /// How many connections it gave, which is the number of the next one.
    ghost opened: { Self → ℕ };

    /// How many connections were closed.
    ghost closings: { Self → ℕ };

    /// How often the door failed.
    ghost faults: { Self → ℕ };

    /// Begins to listen at an address.
    fn listen(&mut self, address: &str) -> Result<(), Stop>
        ensures cause { FaultsCounted (faults self.old) (faults self.new) result }
        ensures closed { closed self.new ≡ closed self.old }
        ensures opened { opened self.new ≡ opened self.old }
        ensures closings { closings self.new ≡ closings self.old };

    /// Waits for a connection.
    fn accept(&mut self) -> Result<(Self::Input, Self::Output), Stop>
        ensures unread { IfOk result (λ ends. IsUnread (Self.Input.told ends.0)) }
        ensures unwritten { IfOk result (λ ends. IsUnwritten (Self.Output.written ends.1)) }
        ensures input { IfOk result (λ ends. Self.Input.connection ends.0 ≡ opened self.old) }
        ensures output { IfOk result (λ ends. Self.Output.connection ends.1 ≡ opened self.old) }
        ensures opened { Opens (opened self.old) (opened self.new) result }
        ensures cause { FaultsCounted (faults self.old) (faults self.new) result }
        ensures closed { closed self.new ≡ closed self.old }
        ensures closings { closings self.new ≡ closings self.old };

    /// Ends a connection, with no memory and without the door: what was written is handed on, the client sees the end
    /// of it, and both ends are let go. A client that is gone misses its replies.
    fn finish(input: Self::Input, output: Self::Output) -> Self::Ended
        requires { Self.Input.connection input ≡ Self.Output.connection output }
        ensures past { Ends (Self.Input.told input) (Self.Output.written output) (past result) }
        ensures number { number result ≡ Self.Input.connection input };

    /// Takes a connection that has ended back, with no memory.
    fn close(&mut self, ended: Self::Ended)
        ensures closed { Closes (closed self.old) (closed self.new) (past ended) }
        ensures closings { closings self.new ≡ min (closings self.old + 1) (2 ^ 64 - 1) }
        ensures opened { opened self.new ≡ opened self.old }
        ensures kept { faults self.new ≡ faults self.old };
}
