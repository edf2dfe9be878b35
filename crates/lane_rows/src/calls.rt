//! Each call of a lane through a session, and a fork with its end.
ghost use Rattle.std.specs.Prelude.{◌≡◌};

use index_lane::Lane;
use map_model::{ForkFault, Lanes, Ordered};
use outside::{MemSink, MemSource};
use row_words::Shape;
use session::{Bounded, SessionEnd, serve};
use std::alloc::Global;
use worm_index::Index;

const SMALL: Shape = Shape {
    leaves: 2,
    items: 8,
    heads: 4,
    values: 8,
    lanes: 2,
    soft: 2,
    hard: 3,
    merge_sum: 1,
    salt: 3,
};

// Whether a store answers these lines so.
fn answers_so<O: Ordered>(alloc: Global, store: &mut O, lines: &[u8], want: &[u8]) -> bool
    ensures { O.origin store.new ≡ O.origin store.old }
{
    let (Ok(mut source), Ok(mut sink)) = (
        MemSource::new(alloc, lines, 7, &[]),
        MemSink::new(alloc, &[]),
    ) else {
        return false;
    };
    let end = serve(
        alloc,
        store,
        &mut source,
        &mut sink,
        &mut Bounded(1),
        1 << 40,
    );
    end == SessionEnd::EndOfInput && sink.bytes() == want
}

fn each_call_is_answered(alloc: Global) -> bool {
    let Ok((index, pass)) = Index::make(alloc, &SMALL) else {
        return false;
    };
    let mut lane = Lane::new(&index, pass);
    answers_so(
        alloc,
        &mut lane,
        b"GET a\nPUT a 1\nPUT a 2\nGET a\n",
        b"NONE\nNEW\nSET\nVALUE 2\n",
    ) && answers_so(
        alloc,
        &mut lane,
        b"PUT b 3\nPUT c 4\nDEL b\nDEL b\n",
        b"NEW\nNEW\nGONE\nNONE\n",
    ) && answers_so(
        alloc,
        &mut lane,
        b"SCAN * * 9\n",
        b"PAIR a 2\nPAIR c 4\nEND 2\n",
    )
}

#[test]
fn a_session_is_served(rt: HostRuntime) {
    assert!(rt; each_call_is_answered(rt.alloc()));
}

// What a fork puts its store sees once the fork has ended into it. No second fork is made.
fn forks_are_ended(alloc: Global) -> bool {
    let Ok((index, pass)) = Index::make(alloc, &SMALL) else {
        return false;
    };
    let mut first = Lane::new(&index, pass);
    let Ok(mut second) = first.fork() else {
        return false;
    };
    let full = matches!(first.fork(), Err(ForkFault::Lanes { given: 2, cap: 2 }));
    let put = answers_so(alloc, &mut second, b"PUT a 1\n", b"NEW\n");
    second.end(&mut first);
    full && put && answers_so(alloc, &mut first, b"GET a\n", b"VALUE 1\n")
}

#[test]
fn a_fork_ends_into_its_store(rt: HostRuntime) {
    assert!(rt; forks_are_ended(rt.alloc()));
}
