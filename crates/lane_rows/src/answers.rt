//! The same lines to a lane, to the index for one caller and to a plain map, with ample memory.
use generated_lines::Generated;
use index_lane::Lane;
use map_model::{Ordered, PlainMap};
use outside::{MemSink, MemSource, Source};
use row_words::Shape;
use session::{Bounded, SessionEnd, serve};
use solo_index::Solo;
use std::alloc::{AllocError, Global};
use worm_index::Index;

// Four keys, which leaves of two at least and of four at most part among them.
const NARROW: Shape = Shape {
    leaves: 4,
    items: 64,
    heads: 16,
    values: 5,
    lanes: 2,
    soft: 2,
    hard: 4,
    merge_sum: 1,
    salt: 0,
};

// What the scripts are made of.
const LINES: [&[u8]; 16] = [
    b"PUT a 1\n",
    b"PUT ab 22\n",
    b"PUT b 333\n",
    b"PUT c 4444\n",
    b"PUT a 5\n",
    b"PUT c 6\n",
    b"PUT ab 7\n",
    b"PUT b 8\n",
    b"GET a\n",
    b"GET c\n",
    b"DEL a\n",
    b"DEL ab\n",
    b"DEL b\n",
    b"DEL c\n",
    b"SCAN * * 10\n",
    b"SCAN ab c 2\n",
];

// What a session writes that comes to the end of its input.
fn output_of<O: Ordered, S: Source>(
    alloc: Global,
    store: &mut O,
    source: &mut S,
) -> Option<Vec<u8>> {
    let Ok(mut sink) = MemSink::new(alloc, &[]) else {
        return None;
    };
    let end = serve(alloc, store, source, &mut sink, &mut Bounded(1), 1 << 40);
    if end != SessionEnd::EndOfInput {
        return None;
    }
    sink.bytes().to_vec(alloc).ok()
}

// What generated lines are answered.
fn generated_output<O: Ordered>(alloc: Global, store: &mut O) -> Option<Vec<u8>> {
    let Ok(mut source) = Generated::new(alloc, 7, 5000) else {
        return None;
    };
    output_of(alloc, store, &mut source)
}

fn lane_generated(alloc: Global) -> Option<Vec<u8>> {
    let Ok((index, pass)) = Index::make(alloc, &Shape::standard()) else {
        return None;
    };
    let mut lane = Lane::new(&index, pass);
    generated_output(alloc, &mut lane)
}

fn are_generated_lines_answered_alike(alloc: Global) -> bool {
    let Ok(mut solo) = Solo::make(alloc, &Shape::standard()) else {
        return false;
    };
    let (Some(by_lane), Some(by_solo), Some(by_map)) = (
        lane_generated(alloc),
        generated_output(alloc, &mut solo),
        generated_output(alloc, &mut PlainMap::new(alloc)),
    ) else {
        return false;
    };
    by_lane == by_solo && by_solo == by_map && by_map.len() > 5000
}

#[test]
fn generated_lines_are_answered_alike(rt: HostRuntime) {
    assert!(rt; are_generated_lines_answered_alike(rt.alloc()));
}

// A script of 200 lines.
fn some_script(alloc: Global, number: u32) -> Result<Vec<u8>, AllocError> {
    let mut script = Vec::new(alloc);
    let mut number = number;
    for _ in 0..200 {
        number = number.wrapping_mul(1_664_525).wrapping_add(1_013_904_223);
        script.extend_from_slice(LINES[(number >> 28) as usize])?;
    }
    Ok(script)
}

// What a script is answered.
fn answers<O: Ordered>(alloc: Global, store: &mut O, script: &[u8]) -> Option<Vec<u8>> {
    let Ok(mut source) = MemSource::new(alloc, script, 4096, &[]) else {
        return None;
    };
    output_of(alloc, store, &mut source)
}

fn lane_answers(alloc: Global, script: &[u8]) -> Option<Vec<u8>> {
    let Ok((index, pass)) = Index::make(alloc, &NARROW) else {
        return None;
    };
    let mut lane = Lane::new(&index, pass);
    answers(alloc, &mut lane, script)
}

// Whether a script is answered alike by all three. The shape has room for all of it.
fn is_script_answered_alike(alloc: Global, number: u32) -> bool {
    let (Ok(mut solo), Ok(script)) = (Solo::make(alloc, &NARROW), some_script(alloc, number)) else {
        return false;
    };
    let (Some(by_lane), Some(by_solo), Some(by_map)) = (
        lane_answers(alloc, &script),
        answers(alloc, &mut solo, &script),
        answers(alloc, &mut PlainMap::new(alloc), &script),
    ) else {
        return false;
    };
    by_lane == by_solo && by_solo == by_map && by_map.len() > 200
}

fn are_scripts_answered_alike(alloc: Global) -> bool {
    for number in 0..20 {
        if !is_script_answered_alike(alloc, number) {
            return false;
        }
    }
    true
}

#[test]
fn scripts_are_answered_alike(rt: HostRuntime) {
    assert!(rt; are_scripts_answered_alike(rt.alloc()));
}
