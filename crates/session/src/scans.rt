//! Scans, part behind part.
ghost use Rattle.std.specs.Prelude.{◌≡◌, ◌∷◌, [], ◌||◌, ◌==◌, not, List, Ok, Some};
ghost use Rattle.line_protocol.specs.declared.request.Request.TheVariants as asks;
ghost use Rattle.map_model.specs.History.{Entry};
ghost use Rattle.outside.specs.Causes.{FaultsCounted};
ghost use Rattle.session.specs.Transcripts.{Serves};
ghost use Rattle.session.specs.Turns.{WritesPieces};

use crate::buffers::Buffers;
use crate::writes::{refuse, reply, write_pairs};
use key_bytes::Bound;
use line_protocol::Answer;
use map_model::Ordered;
use outside::{Sink, Stop};
use patience::{Patience, part_patiently};

// Whether no further part is asked for.
fn is_over(more: bool, left: usize) -> bool
    ensures { result ≡ (not more || (left == 0)) }
{
    !more || left == 0
}

/// Serves a scan of at most so many pairs, and writes its lines: those of a part before the next one is
/// asked for. It stays a call, so that a line which asks for one pair sets up nothing of it.
#[inline(never)]
pub(crate) fn serve_scan<O: Ordered, K: Sink, P: Patience>(
    store: &mut O,
    sink: &mut K,
    patience: &mut P,
    buffers: &mut Buffers,
    from: Bound,
    to: &Bound,
    most: u32,
) -> Result<(), Stop>
    ensures served { Serves O.stands O.lane O.sole O.fits O.refusals O.last (P.limit patience.old) store.old store.new
        (λ asked. asked ≡ Ok (Some (asks.Scan from to.now most)) ∷ [])
        (WritesPieces result (K.written sink.old) (K.written sink.new)) }
    ensures kept { (O.lane store.new ≡ O.lane store.old) × (O.sole store.new ≡ O.sole store.old)
        × (O.origin store.new ≡ O.origin store.old) × (P.limit patience.new ≡ P.limit patience.old)
        × (K.connection sink.new ≡ K.connection sink.old) }
    ensures forks { O.room store.new ≡ O.room store.old }
    ensures fits { (history : List Entry) → O.fits store.old history → O.fits store.new history }
    ensures cause { FaultsCounted (K.faults sink.old) (K.faults sink.new) result }
{
    let mut at = from;
    let mut left = most as usize;
    let mut more = at.order(to).is_lt();
    'parts: loop {
        if is_over(more, left) {
            let count = (most as usize - left) as u64;
            return reply(sink, &mut buffers.reply, &Answer::End(count));
        }
        buffers.page.want(left);
        match part_patiently(store, patience, &at, to, &mut buffers.page) {
            Ok(upto) => {
                more = upto.order(to).is_lt();
                at = upto;
                match write_pairs(sink, &mut buffers.lines, &buffers.page, left) {
                    Ok(count) => left -= count,
                    Err(stop) => return Err(stop),
                }
            }
            Err(refusal) => return refuse(sink, &mut buffers.reply, refusal),
        }
    }
}
