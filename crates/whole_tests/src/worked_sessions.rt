//! Sessions that were worked by hand, over stores, a source and a sink in memory.
use map_model::{Again, Ordered, PlainMap, Refusal};
use outside::{MemSink, MemSource};
use session::{Bounded, Endless, Patience, SessionEnd, serve};
use std::alloc::Global;
use test_stores::Refusing;

#[derive(Drop)]
struct Row {
    input: &'static str,
    reads_failing: &'static [u64],
    writes_failing: &'static [u64],
    budget: u64,
    output: &'static str,
    end: SessionEnd,
}

const ROWS: [Row; 4] = [
    Row {
        input: "PUT a 1\nPUT b 2\nGET a\nDEL a\nSCAN * * 10\nQUIT now\nQUIT\nGET b\n",
        reads_failing: &[],
        writes_failing: &[],
        budget: 1000,
        output: "NEW\nNEW\nVALUE 1\nGONE\nPAIR b 2\nEND 1\nERR 2 words\nBYE\n",
        end: SessionEnd::Quit,
    },
    Row {
        input: "PUT a 1\nGET a\n",
        reads_failing: &[],
        writes_failing: &[],
        budget: 8,
        output: "NEW\n",
        end: SessionEnd::Spent { taken: 8 },
    },
    Row {
        input: "PUT a 1\nGET a\nGE",
        reads_failing: &[2],
        writes_failing: &[],
        budget: 1000,
        output: "NEW\nVALUE 1\n",
        end: SessionEnd::ReadFault,
    },
    Row {
        input: "PUT a 1\nGET a\n",
        reads_failing: &[],
        writes_failing: &[1],
        budget: 1000,
        output: "",
        end: SessionEnd::WriteFault,
    },
];

// Two gets, each of which finds nothing.
fn two_gets(output: &'static str) -> Row {
    Row {
        input: "GET a\nGET a\n",
        reads_failing: &[],
        writes_failing: &[],
        budget: 1000,
        output,
        end: SessionEnd::EndOfInput,
    }
}

// Whether the session over this store ends and writes as its row says.
fn is_as_worked<O: Ordered, P: Patience>(
    alloc: Global,
    store: &mut O,
    patience: &mut P,
    row: &Row,
) -> bool {
    let Ok(mut source) = MemSource::new(alloc, row.input.as_bytes(), 4096, row.reads_failing) else {
        return false;
    };
    let Ok(mut sink) = MemSink::new(alloc, row.writes_failing) else {
        return false;
    };
    let end = serve(alloc, store, &mut source, &mut sink, patience, row.budget);
    end == row.end && sink.bytes() == row.output.as_bytes()
}

fn are_as_worked(alloc: Global) -> bool {
    for row in &ROWS {
        if !is_as_worked(alloc, &mut PlainMap::new(alloc), &mut Bounded(1), row) {
            return false;
        }
    }
    true
}

#[test]
fn sessions_end_as_worked(rt: HostRuntime) {
    assert!(rt; are_as_worked(rt.alloc()));
}

// Another lane is twice in the way of the first get.
fn is_refused_as_worked<P: Patience>(
    alloc: Global,
    patience: &mut P,
    output: &'static str,
) -> bool {
    let turn = Refusal::Again(Again::Turn { holder: 3 });
    let Ok(refusals) = [turn, turn].to_vec(alloc) else {
        return false;
    };
    is_as_worked(
        alloc,
        &mut Refusing::new(alloc, refusals),
        patience,
        &two_gets(output),
    )
}

#[test]
fn the_last_of_as_many_refusals_is_told(rt: HostRuntime) {
    assert!(rt; is_refused_as_worked(rt.alloc(), &mut Bounded(2), "AGAIN turn 3\nNONE\n"));
}

#[test]
fn no_attempts_are_one_attempt(rt: HostRuntime) {
    assert!(rt; is_refused_as_worked(rt.alloc(), &mut Bounded(0), "AGAIN turn 3\nAGAIN turn 3\n"));
}

#[test]
fn endless_patience_tells_no_refusal(rt: HostRuntime) {
    assert!(rt; is_refused_as_worked(rt.alloc(), &mut Endless::new(&rt), "NONE\nNONE\n"));
}
