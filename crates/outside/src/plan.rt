//! Which calls of an object in memory fail.
ghost use Rattle.std.specs.Prelude.{◌≡◌, ◌≤◌};
ghost use Rattle.std.specs.Bool.{OnTrue};
ghost use Rattle.counts.specs.Counts.{Rose};

use counts::raise;

/// The numbers, from 1, of the calls that fail, with counts of all calls and of those that failed.
#[derive(Drop)]
pub(crate) struct Plan {
    pub(crate) fails: Vec<u64>,
    pub(crate) calls: u64,
    pub(crate) faults: u64,
}

impl Plan {
    ghost use Rattle.outside.specs.Plans.{planned, fails_next, after_call, faulted};

    pub(crate) fn new(fails: Vec<u64>) -> Plan
        ensures { planned result ≡ record { fails = fails.items; calls = 0; faults = 0 } }
    {
        Plan {
            fails,
            calls: 0,
            faults: 0,
        }
    }

    /// Counts the next call, and says whether it fails.
    pub(crate) fn fails_next(&mut self) -> bool
        ensures answer { result ≡ fails_next (planned self.old) }
        ensures after { planned self.new ≡ after_call (planned self.old) }
        ensures kept { self.old.faults ≤ self.new.faults }
        ensures rose { OnTrue result (Rose self.old.faults self.new.faults) }
    {
        self.calls = raise(self.calls);
        let fails = self.fails.contains(&self.calls);
        if fails {
            self.faults = raise(self.faults);
        }
        fails
    }

    /// Counts a failure that wasn't planned.
    pub(crate) fn count_fault(&mut self)
        ensures after { planned self.new ≡ faulted (planned self.old) }
        ensures rose { Rose self.old.faults self.new.faults }
        ensures kept { self.old.faults ≤ self.new.faults }
    {
        self.faults = raise(self.faults);
    }
}
