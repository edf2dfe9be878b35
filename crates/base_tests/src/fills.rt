//! Fills of a plain map, and the tally of replies.
use fill_runs::{FillEnd, Tally, fill};
use map_model::PlainMap;
use outside::{MemSink, Sink};
use std::alloc::Global;

// Numbers and counts, and summaries of what another program's map answered.
const SUMMARIES: [(u64, u32, &[u8]); 4] = [
    (
        1,
        1,
        b"LINES 1\nNEW 1\nSET 0\nVALUE 0\nNONE 0\nGONE 0\nPAIR 0\nEND 0\nFULL 0\nNOMEM 0\n",
    ),
    (
        1,
        0,
        b"LINES 0\nNEW 0\nSET 0\nVALUE 0\nNONE 0\nGONE 0\nPAIR 0\nEND 0\nFULL 0\nNOMEM 0\n",
    ),
    (
        7,
        20,
        b"LINES 20\nNEW 12\nSET 0\nVALUE 0\nNONE 5\nGONE 0\nPAIR 16\nEND 3\nFULL 0\nNOMEM 0\n",
    ),
    (
        7,
        5000,
        b"LINES 5000\nNEW 2242\nSET 264\nVALUE 198\nNONE 1911\nGONE 74\nPAIR 6052\nEND 311\nFULL 0\nNOMEM 0\n",
    ),
];

// Whether a fill of a new map ends so and writes this, into a sink whose writes with these numbers fail.
fn is_filled(
    alloc: Global,
    (number, count): (u64, u32),
    fails: &[u64],
    end: FillEnd,
    want: &[u8],
) -> bool {
    let mut map = PlainMap::new(alloc);
    let Ok(mut sink) = MemSink::new(alloc, fails) else {
        return false;
    };
    fill(alloc, &mut map, number, count, &mut sink) == end && sink.bytes() == want
}

#[test]
fn summaries_are_those_of_another_map(rt: HostRuntime) {
    for (number, count, summary) in SUMMARIES {
        assert!(rt;
            is_filled(rt.alloc(), (number, count), &[], FillEnd::Done, summary),
            "{count} lines of {number}"
        );
    }
}

#[test]
fn a_failing_sink_ends_a_fill(rt: HostRuntime) {
    assert!(rt; is_filled(rt.alloc(), (1, 1), &[1], FillEnd::WriteFault, b""));
}

// Whether a tally takes pieces of replies, and sums them up.
fn is_tallied(alloc: Global, pieces: &[&[u8]], summary: &[u8]) -> bool {
    let Ok(mut tally) = Tally::new(alloc) else {
        return false;
    };
    for piece in pieces {
        if tally.write(piece) != Ok(piece.len()) {
            return false;
        }
    }
    let mut text = Vec::new(alloc);
    tally.summarize(9, &mut text).is_ok() && text.as_slice() == summary
}

#[test]
fn a_tally_tells_all_first_words(rt: HostRuntime) {
    let pieces = [
        b"NEW\nSET\nVALUE NEW\nVAL".as_slice(),
        b"UE \nNONE\nGONE\n\n NEW\nPAIR a b\nEND 1\nFULL values 1 1\nNO",
        b"MEM\nNEWER\nNOMEMORY\nFULLY\nAGAIN turn 1\nNEW",
    ];
    let summary =
        b"LINES 9\nNEW 1\nSET 1\nVALUE 2\nNONE 1\nGONE 1\nPAIR 1\nEND 1\nFULL 1\nNOMEM 1\n";
    assert!(rt; is_tallied(rt.alloc(), &pieces, summary));
}
