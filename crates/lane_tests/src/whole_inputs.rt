//! Inputs that are read whole and answered by lanes.
use lane_command::{InputFault, LanesEnd, answer_input, read_input};
use lane_stores::SharedMap;
use outside::{MemSink, MemSource};
use std::alloc::Global;
use std::sync::Wait;
use std::test::*;
use std::thread::Threads;

const LINES: &[u8] = b"0 PUT a 1\n1 PUT b 2\n0 GET a\n1 GET b\n2 GET a";

const SAID: &[u8] = b"ERR 7 lane\nLANE 0\nNEW\nVALUE 1\nLANE 1\nNEW\nVALUE 2\n";

// How many lanes answer an input, which of its reads and of the writes fail, by their numbers, and how it ends.
#[derive(Drop)]
struct Case<'a> {
    lanes: u32,
    tries: Option<u32>,
    input: &'a [u8],
    failing_writes: &'a [u64],
    end: LanesEnd,
    said: &'a [u8],
}

// Whether lanes of a new map end so, and say so much.
fn ends_so<R: Threads + Wait + Sync>(rt: &R, alloc: Global, case: &Case<'_>) -> bool {
    if case.lanes == 0 {
        return false;
    }
    let Ok((map, first)) = SharedMap::make(alloc, case.lanes) else {
        return false;
    };
    let mut first = map.first_lane(first);
    let Ok(mut source) = MemSource::new(alloc, case.input, 7, &[]) else {
        return false;
    };
    let Ok(mut sink) = MemSink::new(alloc, case.failing_writes) else {
        return false;
    };
    let Ok(input) = read_input(alloc, &mut source) else {
        return false;
    };
    let end = answer_input(
        rt, alloc, &mut first, input, case.lanes, case.tries, &mut sink,
    );
    end == case.end && sink.bytes() == case.said
}

fn says<R: Threads + Wait + Sync>(
    rt: &R,
    alloc: Global,
    lanes: u32,
    input: &[u8],
    said: &[u8],
) -> bool {
    let case = Case {
        lanes,
        tries: None,
        input,
        failing_writes: &[],
        end: LanesEnd::Done,
        said,
    };
    ends_so(rt, alloc, &case)
}

#[test]
fn two_lanes_say_what_their_lines_ask(rt: HostRuntime) {
    assert!(rt; says(&rt, rt.alloc(), 2, LINES, SAID));
}

#[test]
fn the_end_of_input_ends_a_line(rt: HostRuntime) {
    assert!(rt;
        says(
            &rt,
            rt.alloc(),
            1,
            b"0 PUT a 1\n\n0 GET a",
            b"LANE 0\nNEW\nVALUE 1\n"
        )
    );
}

#[test]
fn an_empty_input_asks_no_lane(rt: HostRuntime) {
    assert!(rt; says(&rt, rt.alloc(), 3, b"", b"LANE 0\nLANE 1\nLANE 2\n"));
}

// Whether a lane that is alone is never in its own way.
fn tries_once<R: Threads + Wait + Sync>(rt: &R, alloc: Global) -> bool {
    let case = Case {
        lanes: 1,
        tries: Some(1),
        input: b"0 PUT a 1\n0 GET a\n0 QUIT\n0 GET a\n",
        failing_writes: &[],
        end: LanesEnd::Done,
        said: b"LANE 0\nNEW\nVALUE 1\nBYE\n",
    };
    ends_so(rt, alloc, &case)
}

#[test]
fn one_try_is_enough_for_one_lane(rt: HostRuntime) {
    assert!(rt; tries_once(&rt, rt.alloc()));
}

// Whether a failing write leaves just what was written before it.
fn stops_at<R: Threads + Wait + Sync>(rt: &R, alloc: Global, write: u64, said: &[u8]) -> bool {
    let case = Case {
        lanes: 2,
        tries: None,
        input: LINES,
        failing_writes: &[write],
        end: LanesEnd::WriteFault,
        said,
    };
    SAID.starts_with(said) && ends_so(rt, alloc, &case)
}

fn stops_at_each<R: Threads + Wait + Sync>(rt: &R, alloc: Global) -> bool {
    stops_at(rt, alloc, 1, b"")
        && stops_at(rt, alloc, 2, b"ERR 7 lane\n")
        && stops_at(rt, alloc, 3, b"ERR 7 lane\nLANE 0\n")
        && stops_at(rt, alloc, 4, b"ERR 7 lane\nLANE 0\nNEW\nVALUE 1\n")
        && stops_at(rt, alloc, 5, b"ERR 7 lane\nLANE 0\nNEW\nVALUE 1\nLANE 1\n")
}

#[test]
fn each_write_may_fail(rt: HostRuntime) {
    assert!(rt; stops_at_each(&rt, rt.alloc()));
}

// Whether a read that fails is told, whatever was read before.
fn tells_fault_of(alloc: Global, read: u64) -> bool {
    match MemSource::new(alloc, LINES, 7, &[read]) {
        Ok(mut source) => match read_input(alloc, &mut source) {
            Ok(_) => false,
            Err(fault) => fault == InputFault::ReadFault,
        },
        Err(_) => false,
    }
}

#[test]
fn each_read_may_fail(rt: HostRuntime) {
    assert!(rt; (1..=8).all(|read| tells_fault_of(rt.alloc(), read)));
}
