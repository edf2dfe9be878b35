//! Many lanes over few keys.
use lane_runner::{LaneEnd, run_lanes};
use lane_stores::{SharedLane, SharedMap};
use outside::OpenGate;
use session::Endless;
use std::alloc::{AllocError, Global};
use std::sync::Wait;
use std::test::*;
use std::thread::Threads;

// What each lane is asked so many times over.
const LINES: &[u8] =
    b"PUT a 1\nDEL b\nPUT c 3\nGET a\nDEL a\nPUT b 2\nPUT d 4\nDEL c\nSCAN * * 9\nDEL d\nPUT a 5\n";

const TIMES: u32 = 40;

const LANES: u32 = 8;

fn script(alloc: Global) -> Result<Vec<u8>, AllocError> {
    let mut script = Vec::new(alloc);
    for _ in 0..TIMES {
        script.extend_from_slice(LINES)?;
    }
    Ok(script)
}

fn same_scripts(alloc: Global, lanes: u32) -> Result<Vec<Vec<u8>>, AllocError> {
    let mut scripts = Vec::new(alloc);
    for _ in 0..lanes {
        scripts.push(script(alloc)?)?;
    }
    Ok(scripts)
}

// How many lines of an output are this one.
fn count(output: &[u8], line: &[u8]) -> u64 {
    let mut count = 0u64;
    for other in output.split(|b| *b == b'\n') {
        if other == line {
            count = count.saturating_add(1);
        }
    }
    count
}

// How often all outputs have this line.
fn count_all(ends: &[LaneEnd], line: &[u8]) -> u64 {
    let mut total = 0u64;
    for end in ends {
        total = total.saturating_add(count(end.output.get(), line));
    }
    total
}

// The output of one script that a lane serves alone.
fn last_output<R: Threads + Wait + Sync>(
    rt: &R,
    alloc: Global,
    first: &mut SharedLane<'_>,
    script: &[u8],
) -> Option<Vec<u8>> {
    let scripts = vec![in alloc; script.to_vec(alloc).ok()?].ok()?;
    if scripts.is_empty() {
        return None;
    }
    let mut ends = run_lanes(rt, alloc, scripts, first, &OpenGate, Endless::new(rt)).ok()?;
    let end = ends.pop()?;
    end.output.get().to_vec(alloc).ok()
}

// Whether what was made and not taken away again, in all outputs, are as many keys as there are at the end.
fn are_keys_accounted_for<R: Threads + Wait + Sync>(rt: &R, alloc: Global) -> bool {
    let Ok((map, first)) = SharedMap::make(alloc, LANES) else {
        return false;
    };
    let mut first = map.first_lane(first);
    let Ok(scripts) = same_scripts(alloc, LANES) else {
        return false;
    };
    if scripts.is_empty() {
        return false;
    }
    let Ok(ends) = run_lanes(rt, alloc, scripts, &mut first, &OpenGate, Endless::new(rt)) else {
        return false;
    };
    let made = count_all(ends.as_slice(), b"NEW");
    let gone = count_all(ends.as_slice(), b"GONE");
    match last_output(rt, alloc, &mut first, b"SCAN * * 9\n") {
        Some(output) => count_pairs(&output) == made.saturating_sub(gone)
            && made >= gone
            && made > 0,
        None => false,
    }
}

// How many pairs a scan has.
fn count_pairs(output: &[u8]) -> u64 {
    let mut count = 0u64;
    for line in output.split(|b| *b == b'\n') {
        if line.starts_with(b"PAIR ") {
            count = count.saturating_add(1);
        }
    }
    count
}

#[test]
fn eight_lanes_leave_the_keys_that_they_made(rt: HostRuntime) {
    assert!(rt; are_keys_accounted_for(&rt, rt.alloc()));
}

// Whether each lane's own key is answered in its own output.
fn are_outputs_their_own<R: Threads + Wait + Sync>(rt: &R, alloc: Global) -> bool {
    let Ok((map, first)) = SharedMap::make(alloc, 2) else {
        return false;
    };
    let mut first = map.first_lane(first);
    let Ok(scripts) = two_scripts(alloc) else {
        return false;
    };
    if scripts.is_empty() {
        return false;
    }
    match run_lanes(rt, alloc, scripts, &mut first, &OpenGate, Endless::new(rt)) {
        Ok(ends) => {
            ends.len() == 2
                && ends[0].output.get() == b"NEW\nVALUE 1\n".as_slice()
                && ends[1].output.get() == b"NEW\nVALUE 2\nBYE\n".as_slice()
        }
        Err(_) => false,
    }
}

fn two_scripts(alloc: Global) -> Result<Vec<Vec<u8>>, AllocError> {
    let mut scripts = Vec::new(alloc);
    scripts.push(b"PUT a 1\nGET a\n".to_vec(alloc)?)?;
    scripts.push(b"PUT b 2\nGET b\nQUIT\nGET b\n".to_vec(alloc)?)?;
    Ok(scripts)
}

#[test]
fn each_lane_has_the_output_of_its_own_script(rt: HostRuntime) {
    assert!(rt; are_outputs_their_own(&rt, rt.alloc()));
}
