//! Tests of what no clause says: which bytes go between a client and the ends of its connection, and when.
ghost use Rattle.std.specs.Prelude.{◌≡◌};
ghost use Rattle.tcp_ends.specs.Doors.{source_connection, sink_connection};

use super::*;
use outside::{Door, Sink, Source, Stop};
use std::alloc::Global;
use std::io::{Read, Write};
use std::net::{Net, Shutdown, TcpListener, TcpStream};
use std::time::Duration;

// Whether the next bytes that the client reads are these; none are the end.
fn reads(client: &mut TcpStream, want: &[u8]) -> bool {
    let mut buf = [0; 16];
    match client.read(&mut buf) {
        Ok(n) => n <= 16 && &buf[..n] == want,
        Err(_) => false,
    }
}

// Whether nothing comes to the client for a while.
fn waits(client: &mut TcpStream) -> bool {
    let limit = Some(Duration::from_millis(20));
    client.set_read_timeout(limit).is_ok()
        && client.read(&mut [0; 1]).is_err()
        && client.set_read_timeout(None).is_ok()
}

// Whether replies are collected until the source has to ask the client for more, and again until the connection ends.
fn talks(client: &mut TcpStream, input: &mut TcpSource, output: &mut TcpSink) -> bool
    ensures input { source_connection input.new ≡ source_connection input.old }
    ensures output { sink_connection output.new ≡ sink_connection output.old }
{
    let mut buf = [0; 16];
    let sent = client.write_all(b"ask\nQUIT\nmore\n").is_ok();
    let asked = input.read(&mut buf) == Ok(14);
    let collected = output.write(b"reply\n") == Ok(6);
    let silent = waits(client) && client.shutdown(Shutdown::Write).is_ok();
    let ended = input.read(&mut buf) == Ok(0);
    let handed = reads(client, b"reply\n");
    let said = output.write(b"BYE\n") == Ok(4);
    let empty = output.write(&[]) == Ok(0);
    sent && asked && collected && silent && ended && handed && said && empty && waits(client)
}

// Whether a client that connects to the door is talked to.
fn serves_a_client<R: Net<Listener = TcpListener, Stream = TcpStream>>(
    rt: &R,
    alloc: Global,
) -> bool {
    let mut door = TcpDoor::new(rt, alloc);
    let unheard = door.local_addr().is_none();
    let listens = door.listen("127.0.0.1:0") == Ok(());
    let Some(address) = door.local_addr() else {
        return false;
    };
    let Ok(mut client) = TcpStream::connect(rt, address) else {
        return false;
    };
    let Ok((mut input, mut output)) = door.accept() else {
        return false;
    };
    let talked = talks(&mut client, &mut input, &mut output);
    let ended = TcpDoor::<R>::finish(input, output);
    let seen = reads(&mut client, b"BYE\n") && reads(&mut client, &[]);
    door.close(ended);
    unheard && listens && talked && seen
}

#[test]
fn a_client_is_served(rt: HostRuntime) {
    assert!(rt; serves_a_client(&rt, rt.alloc()));
}

// Whether a door that hears of no client fails, and so does one that can't listen.
fn fails_where_it_must<R: Net<Listener = TcpListener, Stream = TcpStream>>(
    rt: &R,
    alloc: Global,
) -> bool {
    let mut door = TcpDoor::new(rt, alloc);
    let unheard = door.accept().is_err();
    let nowhere = door.listen("256.0.0.1:1") == Err(Stop::Failed);
    unheard && nowhere
}

#[test]
fn a_door_without_an_address_fails(rt: HostRuntime) {
    assert!(rt; fails_where_it_must(&rt, rt.alloc()));
}
