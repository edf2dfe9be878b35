//! What can be forked.
ghost use Rattle.std.specs.Prelude.{◌≡◌, ◌≤◌, ◌<◌, ◌+◌, ◌-◌, ◌^◌, ◌⊎◌, ℕ, List, min, IfOk, OnErr, OnOk, false};
ghost use Rattle.std.specs.List.{AllByRecursion};
ghost use mathlib.Core.List.{IsPrefix};
ghost use Rattle.map_model.specs.History.{Entry, IsNumbered, own};
ghost use Rattle.map_model.specs.Lanes.{IsFork, ForksByRoom, TellsLanes, TellsGiven};

use crate::{ForkFault, Ordered};

/// A lane of an index, from which further lanes are forked. It stands for one history: what it has seen.
///
/// A fork begins with what its store has seen, and from then on each of the two goes on alone. What both
/// did is joined where one is ended into the other.
pub trait Lanes: Ordered + Send + Drop + Sized {
    /// The history that it has seen.
    ghost seen: { Self → List Entry };

    /// How many lane numbers its index has.
    ghost lanes: { Self → ℕ };

    /// No fork that it makes from now on has a number below this one.
    ghost next: { Self → ℕ };

    /// Whether it has seen all calls of a lane. It has of its own lane, and of each that was ended into it.
    ghost has_all: { Self → ℕ → Type 0 };

    /// What stands behind the count of lanes given that a refused fork tells, by the lane before the fork
    /// and after it.
    ghost given: { Self → Self → ℕ → Type 0 };

    /// Makes a lane with a number of its own, which has seen what this one has.
    fn fork(&mut self) -> Result<Self, ForkFault>
        ensures seen { seen self.new ≡ seen self.old }
        ensures kept { (Self.lane self.new ≡ Self.lane self.old) × (Self.origin self.new ≡ Self.origin self.old)
            × (lanes self.new ≡ lanes self.old) }
        ensures counted { (Self.refusals self.new ≡ Self.refusals self.old)
            × (Self.last self.new ≡ Self.last self.old) }
        ensures fits { (history : List Entry) → Self.fits self.old history → Self.fits self.new history }
        ensures next { next self.old ≤ next self.new }
        ensures all { (n : ℕ) → has_all self.old n → has_all self.new n }
        ensures child { IfOk result (λ child. IsFork Self.lane Self.sole Self.origin Self.refusals Self.last
            seen Self.room lanes next self.old self.new child) }
        ensures among { OnOk result (Self.sole self.new ≡ false) }
        ensures alone { OnErr result (Self.sole self.new ≡ Self.sole self.old) }
        ensures room { ForksByRoom (Self.room self.old) (Self.room self.new) result }
        ensures full { Self.room self.old ≡ 0 → TellsLanes (lanes self.old) result }
        ensures given { TellsGiven (given self.old self.new) result };

    /// Ends this lane. The other one has then seen what both had, and has the forks that this one could
    /// still make, but for one whose number this one had taken already.
    fn end(self, into: &mut Self)
        requires { Self.origin self ≡ Self.origin into.old }
        ensures one { (seen into.new ≡ seen into.old) ⊎ (seen into.new ≡ seen self) }
        ensures begins { IsPrefix (seen into.old) (seen into.new) × IsPrefix (seen self) (seen into.new) }
        ensures into { (n : ℕ) → has_all into.old n
            → has_all into.new n × (own n (seen into.new) ≡ own n (seen into.old)) }
        ensures ended { (n : ℕ) → has_all self n
            → has_all into.new n × (own n (seen into.new) ≡ own n (seen self)) }
        ensures kept { (Self.lane into.new ≡ Self.lane into.old) × (Self.sole into.new ≡ Self.sole into.old)
            × (Self.origin into.new ≡ Self.origin into.old) × (lanes into.new ≡ lanes into.old) }
        ensures next { next into.old ≤ next into.new }
        ensures counted { (Self.refusals into.new ≡ min (Self.refusals into.old + Self.refusals self) (2 ^ 64 - 1))
            × (Self.last into.new ≡ Self.last into.old) }
        ensures room { (Self.room into.old ≤ Self.room into.new)
            × (Self.room into.new ≤ Self.room into.old + Self.room self)
            × (Self.room into.old + Self.room self ≤ Self.room into.new + 1) };

    /// It stands for what it has seen.
    ghost stands_seen: { (store : Self) → Self.stands store (seen store) };

    /// And for no other history.
    ghost only_seen: { (store : Self) (history : List Entry) → Self.stands store history → history ≡ seen store };

    /// In it no call stands twice.
    ghost numbered: { (store : Self) → IsNumbered (seen store) };

    /// Its calls are of lanes of the index.
    ghost of_lanes: { (store : Self) → AllByRecursion (λ (e : Entry). e.lane < lanes store) (seen store) };

    /// It has seen all calls of its own lane.
    ghost has_own: { (store : Self) → has_all store (Self.lane store) };

    /// Forks have higher numbers than its own.
    ghost above: { (store : Self) → Self.lane store < next store };

    /// Its number is one of the index's.
    ghost within: { (store : Self) → Self.lane store < lanes store };
}
