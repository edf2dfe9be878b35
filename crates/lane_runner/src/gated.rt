//! A gate round the calls of a store.
ghost use Rattle.std.specs.Prelude.{◌≡◌};

use counts::raise;
use key_bytes::{Bound, Key};
use map_model::{Ordered, Page, Refusal};
use outside::Gate;

/// A store that calls a gate before each of its calls and after it. A rest and a wake go round the gate.
#[derive(Drop)]
pub(crate) struct Gated<'a, T, G> {
    store: T,
    gate: &'a G,
    lane: u32,
    calls: u64,
}

impl<'a, T, G> Gated<'a, T, G> {
    /// The store, which tells the gate this number as its lane's. Its calls are numbered from 1.
    pub(crate) fn new(store: T, gate: &'a G, lane: u32) -> Gated<'a, T, G>
        ensures { result.store ≡ store }
    {
        Gated {
            store,
            gate,
            lane,
            calls: 0,
        }
    }

    /// The store without its gate.
    pub(crate) fn into_store(self) -> T
        ensures { result ≡ self.entry.store }
    {
        let Gated { store, .. } = self;
        store
    }
}

impl<T: Ordered, G: Gate> Ordered for Gated<'_, T, G> {
    ghost lane = { λ s. T.lane s.store };

    ghost sole = { λ s. T.sole s.store };

    ghost origin = { λ s. T.origin s.store };

    ghost refusals = { λ s. T.refusals s.store };

    ghost last = { λ s. T.last s.store };

    ghost room = { λ s. T.room s.store };

    ghost stands = { λ s h. T.stands s.store h };

    ghost fits = { λ s h. T.fits s.store h };

    ghost caused = { λ call s t r. T.caused call s.store t.store r };

    ghost stands_legal = { λ s h stood. T.stands_legal s.store h stood };

    fn get(&mut self, key: &Key, out: &mut Vec<u8>) -> Result<bool, Refusal> {
        self.calls = raise(self.calls);
        self.gate.before(self.lane, self.calls);
        let answer = self.store.get(key, out);
        self.gate.after(self.lane, self.calls);
        answer
    }

    fn put(&mut self, key: &Key, value: &[u8]) -> Result<bool, Refusal> {
        self.calls = raise(self.calls);
        self.gate.before(self.lane, self.calls);
        let answer = self.store.put(key, value);
        self.gate.after(self.lane, self.calls);
        answer
    }

    fn del(&mut self, key: &Key) -> Result<bool, Refusal> {
        self.calls = raise(self.calls);
        self.gate.before(self.lane, self.calls);
        let answer = self.store.del(key);
        self.gate.after(self.lane, self.calls);
        answer
    }

    fn part(&mut self, from: &Bound, to: &Bound, page: &mut Page) -> Result<Bound, Refusal> {
        self.calls = raise(self.calls);
        self.gate.before(self.lane, self.calls);
        let answer = self.store.part(from, to, page);
        self.gate.after(self.lane, self.calls);
        answer
    }

    fn rest(&mut self) {
        self.store.rest();
    }

    fn wake(&mut self) {
        self.store.wake();
    }
}
