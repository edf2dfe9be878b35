//! Lanes of one index in threads, with few leaves among them.
use index_lane::Lane;
use lane_runner::{LaneEnd, run_lanes};
use outside::OpenGate;
use row_words::Shape;
use session::Endless;
use std::alloc::{AllocError, Global};
use std::sync::Wait;
use std::test::*;
use std::thread::Threads;
use worm_index::Index;

const SMALL: Shape = Shape {
    leaves: 16,
    items: 64,
    heads: 16,
    values: 32,
    lanes: 2,
    soft: 2,
    hard: 8,
    merge_sum: 1,
    salt: 5,
};

// How often each lane puts its three keys and takes two of them out again.
const TIMES: u32 = 200;

fn repeated(alloc: Global, lines: &[u8]) -> Result<Vec<u8>, AllocError> {
    let mut all = Vec::new(alloc);
    for _ in 0..TIMES {
        all.extend_from_slice(lines)?;
    }
    Ok(all)
}

fn two_scripts(alloc: Global) -> Result<Vec<Vec<u8>>, AllocError> {
    let mut scripts = Vec::new(alloc);
    scripts.push(repeated(alloc, b"PUT a 1\nPUT c 1\nPUT e 1\nDEL a\nDEL c\nDEL e\n")?)?;
    scripts.push(repeated(alloc, b"PUT b 2\nPUT d 2\nPUT f 2\nDEL b\nDEL d\nDEL f\n")?)?;
    Ok(scripts)
}

// Whether each lane is answered as if it were alone, since the two have no key in common.
fn are_answered_alone(alloc: Global, ends: &[LaneEnd]) -> bool {
    match repeated(alloc, b"NEW\nNEW\nNEW\nGONE\nGONE\nGONE\n") {
        Ok(want) => ends.iter().all(|end| end.output.get() == want.as_slice()),
        Err(_) => false,
    }
}

fn two_at_once<R: Threads + Wait + Sync>(rt: &R, alloc: Global) -> bool {
    let Ok((index, pass)) = Index::make(alloc, &SMALL) else {
        return false;
    };
    let mut first = Lane::new(&index, pass);
    let Ok(scripts) = two_scripts(alloc) else {
        return false;
    };
    if scripts.is_empty() {
        return false;
    }
    match run_lanes(rt, alloc, scripts, &mut first, &OpenGate, Endless::new(rt)) {
        Ok(ends) => ends.len() == 2 && are_answered_alone(alloc, ends.as_slice()),
        Err(_) => false,
    }
}

#[test]
fn two_lanes_are_answered_as_if_alone(rt: HostRuntime) {
    assert!(rt; two_at_once(&rt, rt.alloc()));
}
