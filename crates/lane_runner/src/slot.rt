//! A lane with its script, and what becomes of the script.
ghost use Rattle.std.specs.Prelude.{◌≡◌, [], false};
ghost use Rattle.lane_runner.specs.Tasks.{Ran};

use crate::gated::Gated;
use crate::output::Output;
use crate::script::Script;
use key_bytes::Bytes;
use map_model::Lanes;
use outside::Gate;
use session::{Patience, SessionEnd, serve};
use std::alloc::Global;
use std::marker::Model;

/// The outcome of a script: what was answered, and why its session ended.
#[derive(Debug, Drop)]
pub struct LaneEnd {
    /// The replies to its lines, or some first bytes of them where memory was wanting.
    pub output: Bytes,
    /// How its session ended: by a QUIT line, at the end of the script or for want of memory.
    pub ending: SessionEnd,
}

/// A lane, its script, and the replies so far.
#[derive(Drop)]
pub(crate) struct Slot<'a, T: Lanes, G, P: Patience> {
    store: Gated<'a, T, G>,
    script: Script,
    output: Output,
    patience: P,
    ending: SessionEnd,
}

impl<'a, T: Lanes, G, P: Patience> Model for Slot<'a, T, G, P> {
    ghost use Rattle.lane_runner.specs.Tasks.{Task};
    ghost use Rattle.lane_runner.specs.Scripts.{told_of};

    ghost Value = { Task };

    ghost view = { λ s. record {
      lane = T.lane s.store.store;
      sole = T.sole s.store.store;
      origin = T.origin s.store.store;
      room = T.room s.store.store;
      refusals = T.refusals s.store.store;
      seen = T.seen s.store.store;
      limit = P.limit s.patience;
      script = told_of s.script;
      output = s.output.bytes.items;
      ending = s.ending;
    } };
}

impl<'a, T: Lanes, G: Gate, P: Patience + Copy> Slot<'a, T, G, P> {
    /// A lane with the whole of its script before it and no reply yet.
    pub(crate) fn new(
        alloc: Global,
        store: T,
        gate: &'a G,
        number: u32,
        patience: P,
        script: Vec<u8>,
    ) -> Slot<'a, T, G, P>
        ensures lane { (result.lane ≡ T.lane store) × (result.sole ≡ T.sole store) × (result.origin ≡ T.origin store) }
        ensures room { result.room ≡ T.room store }
        ensures seen { (result.seen ≡ T.seen store) × (result.refusals ≡ T.refusals store) }
        ensures limit { result.limit ≡ P.limit patience }
        ensures script { result.script ≡ record { given = []; left = script.items; ended = false } }
        ensures output { result.output ≡ [] }
    {
        Slot {
            store: Gated::new(store, gate, number),
            script: Script::new(script),
            output: Output::new(alloc),
            patience,
            ending: SessionEnd::EndOfInput,
        }
    }

    /// Runs the lane's session over its script, and keeps how it ended.
    pub(crate) fn run(&mut self, alloc: Global)
        ensures { Ran self.old self.new }
    {
        let budget = self.script.budget();
        self.ending = serve(
            alloc,
            &mut self.store,
            &mut self.script,
            &mut self.output,
            &mut self.patience,
            budget,
        );
    }

    /// The lane alone.
    pub(crate) fn into_lane(self) -> T
        ensures lane { (T.lane result ≡ self.entry.lane) × (T.origin result ≡ self.entry.origin)
            × (T.refusals result ≡ self.entry.refusals) × (T.seen result ≡ self.entry.seen) }
        ensures room { T.room result ≡ self.entry.room }
    {
        self.finish().0
    }

    /// The lane without its gate, and the outcome of its script.
    pub(crate) fn finish(self) -> (T, LaneEnd)
        ensures lane { (T.lane result.0 ≡ self.entry.lane) × (T.origin result.0 ≡ self.entry.origin)
            × (T.refusals result.0 ≡ self.entry.refusals) × (T.seen result.0 ≡ self.entry.seen) }
        ensures room { T.room result.0 ≡ self.entry.room }
        ensures end { (result.1.output ≡ self.entry.output) × (result.1.ending ≡ self.entry.ending) }
    {
        let Slot {
            store,
            output,
            ending,
            ..
        } = self;
        (
            store.into_store(),
            LaneEnd {
                output: Bytes::of(output.bytes),
                ending,
            },
        )
    }
}
