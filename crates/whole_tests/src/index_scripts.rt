//! The same scripts over the index and over a plain map, with ample memory.
use generated_lines::Generated;
use map_model::{Ordered, PlainMap};
use outside::{MemSink, MemSource, Source};
use row_words::Shape;
use session::{Bounded, SessionEnd, serve};
use solo_index::Solo;
use std::alloc::{AllocError, Global};

// Four keys at most, in up to three leaves of two keys, three for a while.
const NARROW: Shape = Shape {
    leaves: 3,
    items: 64,
    heads: 16,
    values: 5,
    lanes: 1,
    soft: 2,
    hard: 3,
    merge_sum: 1,
    salt: 0,
};

// What a session writes that comes to the end of its input.
fn output_of<O: Ordered, S: Source>(
    alloc: Global,
    store: &mut O,
    source: &mut S,
) -> Option<Vec<u8>> {
    let Ok(mut sink) = MemSink::new(alloc, &[]) else {
        return None;
    };
    let end = serve(alloc, store, source, &mut sink, &mut Bounded(1), 1 << 40);
    if end != SessionEnd::EndOfInput {
        return None;
    }
    sink.bytes().to_vec(alloc).ok()
}

// The output of the session over generated lines.
fn generated_output<O: Ordered>(alloc: Global, store: &mut O) -> Option<Vec<u8>> {
    let Ok(mut source) = Generated::new(alloc, 7, 5000) else {
        return None;
    };
    output_of(alloc, store, &mut source)
}

fn are_generated_lines_answered_alike(alloc: Global) -> bool {
    let Ok(mut index) = Solo::make(alloc, &Shape::standard()) else {
        return false;
    };
    let Some(got) = generated_output(alloc, &mut index) else {
        return false;
    };
    let Some(want) = generated_output(alloc, &mut PlainMap::new(alloc)) else {
        return false;
    };
    got == want
}

#[test]
fn generated_lines_are_answered_alike(rt: HostRuntime) {
    assert!(rt; are_generated_lines_answered_alike(rt.alloc()));
}

// The number behind a number.
fn next_number(number: u32) -> u32 {
    number.wrapping_mul(1_664_525).wrapping_add(1_013_904_223)
}

// Appends a line over one of four keys.
fn add_line(alloc: Global, script: &mut Vec<u8>, number: u32) -> Result<(), AllocError> {
    let key = ["a", "b", "c", "d"][(number >> 30) as usize];
    let line = match (number >> 27) % 8 {
        0..=3 => format!(in alloc; "PUT {key} {}\n", (number >> 20) % 100)?,
        4 => format!(in alloc; "GET {key}\n")?,
        5 | 6 => format!(in alloc; "DEL {key}\n")?,
        _ => String::from_str(alloc, "SCAN * * 10\n")?,
    };
    script.extend_from_slice(line.as_bytes())
}

// A script of 200 lines, and the number behind those that it is made of.
fn some_script(alloc: Global, number: u32) -> Result<(Vec<u8>, u32), AllocError> {
    let mut script = Vec::new(alloc);
    let mut number = number;
    for _ in 0..200 {
        number = next_number(number);
        add_line(alloc, &mut script, number)?;
    }
    Ok((script, number))
}

// What a script is answered.
fn answers<O: Ordered>(alloc: Global, store: &mut O, script: &[u8]) -> Option<Vec<u8>> {
    let Ok(mut source) = MemSource::new(alloc, script, 4096, &[]) else {
        return None;
    };
    output_of(alloc, store, &mut source)
}

#[derive(Clone, Copy)]
enum Comparison {
    Alike,
    Unlike,
    // The index had no room for a line.
    Full,
}

// How the index answers a script beside the plain map.
fn compared(alloc: Global, script: &[u8]) -> Comparison {
    let Ok(mut index) = Solo::make(alloc, &NARROW) else {
        return Comparison::Unlike;
    };
    let Some(got) = answers(alloc, &mut index, script) else {
        return Comparison::Unlike;
    };
    let Some(want) = answers(alloc, &mut PlainMap::new(alloc), script) else {
        return Comparison::Unlike;
    };

    // Of the answers to these lines, FULL alone has an F.
    if got.contains(&b'F') {
        Comparison::Full
    } else if got == want {
        Comparison::Alike
    } else {
        Comparison::Unlike
    }
}

// Whether none of 20 scripts is answered otherwise, and at least 15 have room.
fn are_scripts_answered_alike(alloc: Global) -> bool {
    let mut number = 7;
    let mut alike = 0_u32;
    for _ in 0..20 {
        let Ok((script, next)) = some_script(alloc, number) else {
            return false;
        };
        number = next;
        match compared(alloc, &script) {
            Comparison::Alike => alike = alike.saturating_add(1),
            Comparison::Full => {}
            Comparison::Unlike => return false,
        }
    }
    alike >= 15
}

#[test]
fn scripts_are_answered_alike(rt: HostRuntime) {
    assert!(rt; are_scripts_answered_alike(rt.alloc()));
}
