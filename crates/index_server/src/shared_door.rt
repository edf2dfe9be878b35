//! A door that workers share.
ghost use Rattle.std.specs.Prelude.{◌≡◌, ◌<◌, ◌≤◌, ◌+◌, ◌-◌, ◌^◌, min, ℕ, true};
ghost use Rattle.std.specs.Bool.{OnTrue};
ghost use Rattle.counts.specs.Counts.{Rose, RoseBy};

use counts::raise;
use outside::{Door, Stop};
use std::marker::Brand;
use std::sync::ledger::{Book, Ledger, Share};

/// For how many connections a door is shared, and what it had counted then. Each call that shares one picks it.
pub trait Begun: Ledger {
    ghost sessions: { ℕ };

    ghost opened: { ℕ };

    ghost closings: { ℕ };

    ghost faults: { ℕ };
}

impl Begun for Brand {
    ghost sessions = { 0 };

    ghost opened = { 0 };

    ghost closings = { 0 };

    ghost faults = { 0 };
}

/// A door, with how many connections were accepted and closed since it was shared. Each worker's share counts those
/// that it closed, and the book all of them.
pub(crate) struct SharedDoor<D: Door, B: Begun> {
    door: D,
    sessions: u64,
    accepted: u64,
    closed: u64,
    failed: bool,
    book: Book<B>,
    ghost counted: { closed ≡ min book.total (2 ^ 64 - 1) },
    ghost closings: { RoseBy book.total B.closings (D.closings door) },
    ghost most: { D.closings door ≤ B.closings + book.total },
    ghost bound: { D.closings door ≤ B.closings + closed },
    ghost asked: { sessions ≡ B.sessions },
    ghost opened: { 0 < sessions → D.opened door ≡ B.opened + accepted },
    ghost enough: { 0 < sessions → accepted ≤ sessions },
    ghost faults: { B.faults ≤ D.faults door },
    ghost fault: { failed ≡ true → Rose B.faults (D.faults door) },
}

/// What a worker is to do.
pub(crate) enum Next<D: Door> {
    Serve(D::Input, D::Output),
    AskAgain,
    Leave,
}

impl<D: Door, B: Begun> SharedDoor<D, B> {
    /// Shares a door for so many connections; 0 is no bound.
    pub(crate) fn new(door: D, book: Book<B>, sessions: u64) -> SharedDoor<D, B>
        requires empty { book.total ≡ 0 }
        requires begun { (sessions ≡ B.sessions) × (D.opened door ≡ B.opened) × (D.closings door ≡ B.closings)
            × (D.faults door ≡ B.faults) }
    {
        SharedDoor {
            door,
            sessions,
            accepted: 0,
            closed: 0,
            failed: false,
            book,
        }
    }

    /// Waits for the next connection, unless the door failed or enough were accepted.
    pub(crate) fn accept(&mut self) -> Next<D>
        ensures { (input : D.Input) → (output : D.Output) → result ≡ Next.Serve input output
            → D.Input.connection input ≡ D.Output.connection output }
    {
        if self.failed || (self.sessions != 0 && self.accepted == self.sessions) {
            return Next::Leave;
        }
        match self.door.accept() {
            Ok((input, output)) => {
                self.accepted = raise(self.accepted);
                Next::Serve(input, output)
            }
            Err(Stop::Failed) => {
                self.failed = true;
                Next::Leave
            }
            Err(Stop::NoMemory) => Next::AskAgain,
        }
    }

    /// Gives a connection back that has ended, and counts it in the worker's share.
    pub(crate) fn close(&mut self, ended: D::Ended, share: &mut Share<B>)
        requires { 0 < share.old.parts }
        ensures counted { share.new.amount ≡ share.old.amount + 1 }
        ensures part { share.new.parts ≡ share.old.parts }
    {
        self.door.close(ended);
        self.book.add(share, 1);
        self.closed = raise(self.closed);
    }

    /// The door, whether it failed, and how many connections were accepted and closed: as many as all shares counted.
    pub(crate) fn finish(self, all: &mut Share<B>) -> (D, bool, u64, u64)
        requires { all.old.parts ≡ B.parts }
        ensures counted { (RoseBy all.old.amount B.closings (D.closings result.0)) × (D.closings result.0 ≤ B.closings + all.old.amount) }
        ensures opened { 0 < B.sessions → D.opened result.0 ≡ B.opened + result.2 }
        ensures fault { OnTrue result.1 (Rose B.faults (D.faults result.0)) }
        ensures closings { RoseBy result.3 B.closings (D.closings result.0) × (D.closings result.0 ≤ B.closings + result.3) }
    {
        let SharedDoor {
            door,
            sessions: _,
            accepted,
            closed,
            failed,
            mut book,
        } = self;
        book.audit(all);
        (door, failed, accepted, closed)
    }
}
