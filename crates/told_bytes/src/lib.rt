//! A list of bytes that only contracts see, for totals of bytes that are gone.
#![tactic(auto)]

ghost use Rattle.std.specs.Prelude.{◌≡◌, ◌++◌, [], List, ℕ};
ghost use Rattle.std.specs.Borrow.{ftrue};
ghost use Rattle.std.specs.Coded.{coded_ℕ, coded_list};

use std::marker::Model;

/// A list of bytes that takes no memory: at run time nothing is kept, so only contracts can say
/// what the list is.
#[derive(Drop)]
pub struct Trace {
    pub ghost bytes: { List ℕ } by { coded_list coded_ℕ },
}

impl Model for Trace {
    ghost also_owns = { λ _. ftrue };
}

impl Trace {
    /// No byte yet.
    pub fn new() -> Trace
        ensures { result.bytes ≡ [] }
    {
        Trace {}
    }

    /// The bytes so far, and these behind them.
    pub fn then(&self, _piece: &[u8]) -> Trace
        ensures { result.bytes ≡ self.now.bytes ++ _piece.now }
    {
        Trace {}
    }
}
