//! A store that refuses by a list.
ghost use Rattle.std.specs.Prelude.{◌≡◌, IfSome, Some, []};
ghost use Rattle.std.specs.Bool.{OnFalse};
ghost use Rattle.map_model.specs.Plain.{IsHistoryOf};
ghost use Rattle.test_stores.specs.Refusing.{IsNext, IsForAny, Refuses};

use key_bytes::{Bound, Key};
use map_model::{Ordered, Page, PlainMap, Refusal};
use std::alloc::Global;

/// A map that answers a list of refusals before it passes each call on. It isn't alone.
///
/// Want of room is told to puts alone: where it is next in the list, other calls are passed on.
#[derive(Drop)]
pub struct Refusing {
    map: PlainMap,
    refusals: Vec<Refusal>,
    // The place of the next refusal.
    at: usize,
    count: u64,
    last: Option<Refusal>,
}

impl Refusing {
    /// An empty map that will answer these refusals, in order.
    pub fn new(alloc: Global, refusals: Vec<Refusal>) -> Refusing
        ensures stands { IsHistoryOf result.map [] }
        ensures refusals { (result.refusals.items ≡ refusals.items) × (result.at ≡ 0) }
        ensures count { result.count ≡ 0 }
    {
        Refusing {
            map: PlainMap::new(alloc),
            refusals,
            at: 0,
            count: 0,
            last: None,
        }
    }

    // The next refusal, where it may be answered.
    fn next(&self, to_put: bool) -> Option<Refusal>
        ensures next { IfSome result (λ refusal. IsNext self.now.refusals.items self.now.at refusal) }
        ensures room { IfSome result (λ refusal. OnFalse to_put (IsForAny refusal)) }
    {
        if self.at >= self.refusals.len() {
            return None;
        }
        match self.refusals[self.at] {
            Refusal::Full(_) if !to_put => None,
            refusal => Some(refusal),
        }
    }

    // Takes the next refusal from the list, and counts it.
    fn refuse(&mut self, to_put: bool) -> Option<Refusal>
        ensures refuses { Refuses self.old self.new result }
        ensures room { IfSome result (λ refusal. OnFalse to_put (IsForAny refusal)) }
    {
        let refusal = self.next(to_put)?;
        self.at += 1;
        match refusal {
            Refusal::NoMemory => {}
            Refusal::Again(_) | Refusal::Full(_) => {
                self.count = counts::raise(self.count);
                self.last = Some(refusal);
            }
        }
        Some(refusal)
    }
}

impl Ordered for Refusing {
    ghost use Rattle.std.specs.Prelude.{false};
    ghost use Rattle.map_model.specs.Plain.{IsHistoryOf};
    ghost use Rattle.test_stores.specs.Refusing.{IsNext};

    ghost lane = { λ s. 0 };

    ghost sole = { λ s. false };

    ghost origin = { λ s. 0 };

    ghost refusals = { λ s. s.count };

    ghost last = { λ s. s.last };

    ghost stands = { λ s h. IsHistoryOf s.map h };

    ghost fits = { λ s h. Unit {0} };

    ghost caused = { λ call s t r. IsNext s.refusals.items s.at r };

    ghost stands_legal = { λ s h history. history.legal };

    fn get(&mut self, key: &Key, out: &mut Vec<u8>) -> Result<bool, Refusal> {
        match self.refuse(false) {
            Some(refusal) => {
                out.clear();
                Err(refusal)
            }
            None => self.map.get(key, out),
        }
    }

    fn put(&mut self, key: &Key, value: &[u8]) -> Result<bool, Refusal> {
        match self.refuse(true) {
            Some(refusal) => Err(refusal),
            None => self.map.put(key, value),
        }
    }

    fn del(&mut self, key: &Key) -> Result<bool, Refusal> {
        match self.refuse(false) {
            Some(refusal) => Err(refusal),
            None => self.map.del(key),
        }
    }

    fn part(&mut self, from: &Bound, to: &Bound, page: &mut Page) -> Result<Bound, Refusal> {
        match self.refuse(false) {
            Some(refusal) => {
                page.clear();
                Err(refusal)
            }
            None => self.map.part(from, to, page),
        }
    }

    fn rest(&mut self) {}

    fn wake(&mut self) {}
}
