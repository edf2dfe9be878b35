//! Sources, sinks and doors in memory, where there is ample.
use outside::{Door, Gate, MemDoor, MemSink, MemSource, OpenGate, Sink, Source, Stop};
use std::alloc::{AllocError, Global};

// Five bytes in pieces of two, of whose reads the second fails, into a sink whose third write fails.
fn gives_and_takes(source: &mut MemSource, sink: &mut MemSink) -> bool {
    let mut buf = [0; 4];
    let mut good = true;
    for (read, write) in [
        (Ok(2), Ok(2)),
        (Err(Stop::Failed), Ok(0)),
        (Ok(2), Err(Stop::Failed)),
        (Ok(1), Ok(1)),
        (Ok(0), Ok(0)),
    ] {
        let answer = source.read(&mut buf);
        let n = answer.unwrap_or(0).min(4);
        let written = sink.write(&buf[..n]) == write;
        good = good && written && answer == read;
    }
    good
}

fn gives_and_takes_as_planned(alloc: Global) -> bool {
    let Ok(mut source) = MemSource::new(alloc, b"abcde", 2, &[2]) else {
        return false;
    };
    let Ok(mut sink) = MemSink::new(alloc, &[3]) else {
        return false;
    };
    gives_and_takes(&mut source, &mut sink) && sink.bytes() == b"abe".as_slice()
}

#[test]
fn memory_gives_and_takes_but_for_planned_calls(rt: HostRuntime) {
    assert!(rt; gives_and_takes_as_planned(rt.alloc()));
}

// A server shares its door, which is to be sent to another thread.
fn to_be_sent<T: Send>(value: T) -> T {
    value
}

// A door of two clients, of whose calls of `listen` and `accept` the third fails.
fn door_of_two(alloc: Global) -> Result<MemDoor, AllocError> {
    let mut inputs = Vec::new(alloc);
    for input in [b"ab".as_slice(), b"c"] {
        if inputs.push(input.to_vec(alloc)?).is_err() {
            return Err(AllocError);
        }
    }
    Ok(to_be_sent(MemDoor::new(alloc, inputs, &[3])?))
}

// Reads once and writes what was read; says how the accept ended.
fn answer_one(door: &mut MemDoor) -> Result<usize, Stop> {
    let (mut input, mut output) = door.accept()?;
    let mut buf = [0; 4];
    let n = input.read(&mut buf).unwrap_or(0).min(4);
    let _ = output.write(&buf[..n]);
    door.close(MemDoor::finish(input, output));
    Ok(n)
}

// Whether clients come in order, but for the planned failure, and none behind the last.
fn clients_come_in_order(alloc: Global) -> bool {
    let Ok(mut door) = door_of_two(alloc) else {
        return false;
    };
    let listened = door.listen("here") == Ok(());
    let first = answer_one(&mut door) == Ok(2);
    let planned = answer_one(&mut door) == Err(Stop::Failed);
    let second = answer_one(&mut door) == Ok(1);
    let none = answer_one(&mut door) == Err(Stop::Failed);
    let outputs = door.outputs();
    let written = outputs.len() == 2
        && outputs[0].bytes() == b"ab".as_slice()
        && outputs[1].bytes() == b"c".as_slice();
    listened && first && planned && second && none && written
}

#[test]
fn a_door_gives_its_clients_in_order(rt: HostRuntime) {
    assert!(rt; clients_come_in_order(rt.alloc()));
}

#[test]
fn an_open_gate_holds_no_one() {
    let gate = OpenGate;
    gate.before(0, 1);
    gate.after(0, 1);
}
