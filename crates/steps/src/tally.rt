//! A number that only contracts see.

ghost use Rattle.std.specs.Prelude.{◌≡◌, ◌+◌, ℕ};
ghost use Rattle.std.specs.Borrow.{ftrue};
ghost use Rattle.std.specs.Coded.{coded_ℕ};

use std::fmt::{Debug, Error, Formatter, Write};
use std::marker::Model;
use std::snapshot::Snapshot;

/// A number that takes no memory, for what a value is to tell of all its calls so far. At run time
/// nothing is kept, so only contracts can say what the number is.
#[derive(Drop)]
pub struct Tally {
    told: Snapshot<Count>,
}

impl Model for Tally {
    ghost use Rattle.std.specs.Prelude.{ℕ};

    ghost Value = { ℕ };

    ghost view = { λ t. t.told.value.count };
}

impl Tally {
    /// Nothing is counted yet.
    pub fn new() -> Tally
        ensures { result ≡ 0 }
    {
        Tally {
            told: Snapshot::of(&Count::zero()),
        }
    }

    /// The number, and one more.
    pub fn and_one(&self) -> Tally
        ensures { result ≡ self.now + 1 }
    {
        Tally {
            told: Snapshot::of(&Count::after(&self.told)),
        }
    }
}

impl Debug for Tally {
    fn fmt<W: Write>(&self, f: &mut Formatter<W>) -> Result<(), Error> {
        f.write_str("Tally")
    }
}

// The number itself. A tally has only what clauses see of it, so that it may go to another thread.
#[derive(Drop)]
struct Count {
    pub ghost count: { ℕ } by { coded_ℕ },
}

impl Model for Count {
    ghost also_owns = { λ _. ftrue };
}

impl Count {
    fn zero() -> Count
        ensures { result.count ≡ 0 }
    {
        Count {}
    }

    fn after(_told: &Snapshot<Count>) -> Count
        ensures { result.count ≡ _told.now.value.count + 1 }
    {
        Count {}
    }
}

// A tally may go to another thread.
fn tallies_are_send() {
    is_send::<Tally>();
}

fn is_send<T: Send>() {}
