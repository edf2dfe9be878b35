//! A session over a plain map that is the only lane.
use map_model::PlainMap;
use outside::{MemSink, MemSource};
use session::SessionEnd;
use sole_sessions::serve_sole;
use std::alloc::Global;

fn is_served_to_its_quit(alloc: Global) -> bool {
    let script = b"PUT a 1\nPUT b 2\nGET a\nDEL a\nSCAN * * 10\nQUIT\nGET b\n";
    let want = b"NEW\nNEW\nVALUE 1\nGONE\nPAIR b 2\nEND 1\nBYE\n";
    let mut store = PlainMap::new(alloc);
    let Ok(mut source) = MemSource::new(alloc, script, 7, &[]) else {
        return false;
    };
    let Ok(mut sink) = MemSink::new(alloc, &[]) else {
        return false;
    };
    serve_sole(alloc, &mut store, &mut source, &mut sink, 1000) == SessionEnd::Quit
        && sink.bytes() == want.as_slice()
}

#[test]
fn a_session_is_answered_to_its_quit(rt: HostRuntime) {
    assert!(rt; is_served_to_its_quit(rt.alloc()));
}
