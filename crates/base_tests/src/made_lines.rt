//! Generated lines: those that another program computed, however they are read.
use generated_lines::Generated;
use outside::Source;
use std::alloc::{AllocError, Global};

// The first lines of number 7, of all kinds.
const LINES: &[u8] = b"PUT http://host06.example/item/000556 0
SCAN http://host13.example/item/006463 * 20
DEL http://host06.example/item/003506
PUT http://host46.example/item/007346 3
PUT http://host40.example/item/001090 4
PUT http://host39.example/item/004439 5
PUT http://host28.example/item/009728 6
PUT http://host28.example/item/001528 7
SCAN http://host28.example/item/003478 * 20
GET http://host23.example/item/001373
PUT http://host41.example/item/004391 10
";

// The bytes of all reads of a buffer of 1 byte, or of 4,096 bytes.
fn read_all(alloc: Global, number: u64, count: u32, single: bool) -> Result<Vec<u8>, AllocError> {
    let mut source = Generated::new(alloc, number, count)?;
    let mut all = Vec::new(alloc);
    let mut buf = [0; 4096];
    let most = if single { 1 } else { 4096 };
    for _ in 0..1000 {
        match source.read(&mut buf[..most]) {
            Ok(n) => all.extend_from_slice(&buf[..n.min(most)])?,
            Err(_) => break,
        }
    }
    Ok(all)
}

// Whether these are the lines that are made of a number.
fn are_made(alloc: Global, number: u64, count: u32, single: bool, want: &[u8]) -> bool {
    match read_all(alloc, number, count, single) {
        Ok(all) => all.as_slice() == want,
        Err(_) => false,
    }
}

// Whether all lines are those that were computed.
fn are_as_computed(alloc: Global, single: bool) -> bool {
    let first = b"PUT http://host48.example/item/009548 0\n";
    let last = b"GET http://host27.example/item/004977\n";
    are_made(alloc, 7, 11, single, LINES)
        && are_made(alloc, 1, 1, single, first)
        && are_made(alloc, 1, 0, single, b"")
        && are_made(alloc, u64::MAX, 1, single, last)
}

#[test]
fn lines_are_those_computed_elsewhere(rt: HostRuntime) {
    assert!(rt; are_as_computed(rt.alloc(), true));
    assert!(rt; are_as_computed(rt.alloc(), false));
}
