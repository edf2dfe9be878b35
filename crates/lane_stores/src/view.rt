//! What a lane's seat knows, which exists in proofs alone.
ghost use Rattle.std.specs.Prelude.{ℕ, List, Bool};
ghost use Rattle.std.specs.Borrow.{ftrue};
ghost use Rattle.map_model.specs.History.{Entry};

use std::marker::Model;

/// All that proofs say of a seat. No value of it is ever made.
pub struct View {
    // How many lanes there are, whether there is no other seat, and whether the map is out with this one.
    pub ghost most: { ℕ },
    pub ghost sole: { Bool },
    pub ghost holds: { Bool },
    // The number of the next fork, and how many it can still make.
    pub ghost next: { ℕ },
    pub ghost room: { ℕ },
    // The history as far as it saw it, the lanes of which it saw all calls, and what was joined last.
    pub ghost seen: { List Entry },
    pub ghost ended: { List ℕ },
    pub ghost met: { List (List ℕ × List Entry) },
}

impl Model for View {
    ghost also_owns = { λ _. ftrue };
}
