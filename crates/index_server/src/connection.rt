//! One connection.
ghost use Rattle.std.specs.Prelude.{◌≡◌, List, None};
ghost use Rattle.map_model.specs.History.{Entry};
ghost use Rattle.session.specs.Sessions.{Session};
ghost use Rattle.session.specs.declared.session.SessionEnd.{SessionEnd};
ghost use Rattle.index_server.specs.declared.connection.TheConstants.{CONNECTION_BYTES};

use map_model::Ordered;
use outside::{Sink, Source};
use session::{Endless, serve};
use std::alloc::Global;
use std::sync::Wait;

/// How many bytes of a connection are taken at most: 1 TiB.
pub const CONNECTION_BYTES: u64 = 1_099_511_627_776;

/// Gives a connection its session, and leaves the store at rest.
pub(crate) fn serve_connection<R: Wait + Sync, T: Ordered, S: Source, K: Sink>(
    rt: &R,
    alloc: Global,
    store: &mut T,
    input: &mut S,
    output: &mut K,
)
    ensures session { (end : SessionEnd) × Session end CONNECTION_BYTES (S.told input.old) (S.told input.new)
        (K.written output.old) (K.written output.new)
        None (T.lane store.old) (T.sole store.old) (T.fits store.old)
        (T.refusals store.old) (T.refusals store.new) (T.last store.old) (T.last store.new)
        (T.stands store.old) (T.stands store.new) }
    ensures kept { (T.lane store.new ≡ T.lane store.old) × (T.sole store.new ≡ T.sole store.old)
        × (T.origin store.new ≡ T.origin store.old)
        × (S.connection input.new ≡ S.connection input.old) × (K.connection output.new ≡ K.connection output.old) }
    ensures forks { T.room store.new ≡ T.room store.old }
    ensures fits { (history : List Entry) → T.fits store.old history → T.fits store.new history }
{
    let mut patience = Endless::new(rt);
    serve(alloc, store, input, output, &mut patience, CONNECTION_BYTES);
}
