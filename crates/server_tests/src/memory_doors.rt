//! A server with one worker over a door in memory: each connection is read to its end, and has the replies to its own
//! requests.
use index_server::{DoorEnd, serve_alone};
use map_model::PlainMap;
use outside::MemDoor;
use std::alloc::{AllocError, Global};
use std::sync::Wait;

// A door of these clients, of whose calls some fail.
pub(crate) fn door_of(
    alloc: Global,
    inputs: &[&[u8]],
    fails: &[u64],
) -> Result<MemDoor, AllocError> {
    let mut clients = Vec::with_capacity(alloc, inputs.len())?;
    for input in inputs {
        if clients.push(input.to_vec(alloc)?).is_err() {
            return Err(AllocError);
        }
    }
    MemDoor::new(alloc, clients, fails)
}

// Whether these were written, one for each closed connection.
pub(crate) fn has_written(door: &MemDoor, want: &[&[u8]]) -> bool {
    let outputs = door.outputs();
    outputs.len() == want.len()
        && outputs
            .iter()
            .zip(want)
            .all(|(sink, want)| sink.bytes() == *want)
}

// What is asked of a server, and what comes of it.
#[derive(Clone, Copy)]
struct Course<'a> {
    inputs: &'a [&'a [u8]],
    fails: &'a [u64],
    sessions: u64,
    end: DoorEnd,
    outputs: &'a [&'a [u8]],
}

// Whether a server over an empty map goes so.
fn goes_as<R: Wait + Sync>(rt: &R, alloc: Global, course: Course<'_>) -> bool {
    let Ok(mut door) = door_of(alloc, course.inputs, course.fails) else {
        return false;
    };
    let mut map = PlainMap::new(alloc);
    let end = serve_alone(rt, alloc, &mut door, &mut map, course.sessions);
    end == course.end && has_written(&door, course.outputs)
}

#[test]
fn clients_are_served_one_after_another(rt: HostRuntime) {
    let course = Course {
        inputs: &[b"PUT a 1", b"GET a"],
        fails: &[],
        sessions: 2,
        end: DoorEnd::Done,
        outputs: &[b"NEW\n", b"VALUE 1\n"],
    };
    assert!(rt; goes_as(&rt, rt.alloc(), course));
}

#[test]
fn a_door_without_a_further_client_fails(rt: HostRuntime) {
    let course = Course {
        inputs: &[b"PUT a 1", b"GET a"],
        fails: &[],
        sessions: 3,
        end: DoorEnd::DoorFault,
        outputs: &[b"NEW\n", b"VALUE 1\n"],
    };
    assert!(rt; goes_as(&rt, rt.alloc(), course));
}

#[test]
fn no_bound_is_no_bound(rt: HostRuntime) {
    let course = Course {
        inputs: &[b"PUT a 1\nQUIT\nPUT a 2\n", b"\nGET a\nNO\nGET b"],
        fails: &[3],
        sessions: 0,
        end: DoorEnd::DoorFault,
        outputs: &[b"NEW\nBYE\n", b"VALUE 1\nERR 1 command\nNONE\n"],
    };
    assert!(rt; goes_as(&rt, rt.alloc(), course));
}
