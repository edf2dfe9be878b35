//! An unlock that adds nothing to the history.

use board_rule::Event;

/// The event of an unlock behind which the leaf has the map that it had.
#[derive(Drop)]
pub struct NoEntry;

impl Event for NoEntry {
    ghost use Rattle.std.specs.Prelude.{None};

    ghost deed = { λ _. None };
}
