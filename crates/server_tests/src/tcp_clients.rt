//! A server with one worker over TCP, beside a client in another thread of the same process.
use index_server::{DoorEnd, serve_alone};
use map_model::PlainMap;
use outside::Door;
use std::alloc::Global;
use std::io::{Read, Write};
use std::net::{Net, SocketAddr, TcpListener, TcpStream};
use std::sync::Wait;
use std::thread::{Threads, join};
use tcp_ends::TcpDoor;

// Whether a client reads this and then the end.
fn reads_all(alloc: Global, client: &mut TcpStream, want: &[u8]) -> bool {
    let mut all = Vec::new(alloc);
    client.read_to_end(&mut all).is_ok() && all.as_slice() == want
}

// Whether a client that sends this, and leaves its side open, reads that and then the end.
fn talks<R: Net<Stream = TcpStream>>(
    rt: &R,
    alloc: Global,
    address: SocketAddr,
    sent: &[u8],
    want: &[u8],
) -> bool {
    let Ok(mut client) = TcpStream::connect(rt, address) else {
        return false;
    };
    client.write_all(sent).is_ok() && reads_all(alloc, &mut client, want)
}

// Whether two clients, one after another, are served as they should.
fn serves_two<R: Net<Listener = TcpListener, Stream = TcpStream> + Threads + Wait + Sync>(
    rt: &R,
    alloc: Global,
) -> bool {
    let mut door = TcpDoor::new(rt, alloc);
    if door.listen("127.0.0.1:0").is_err() {
        return false;
    }
    let Some(address) = door.local_addr() else {
        return false;
    };
    let clients = move || {
        talks(rt, alloc, address, b"PUT a 1\nQUIT\nGET a\n", b"NEW\nBYE\n")
            && talks(
                rt,
                alloc,
                address,
                b"GET a\r\nDEL b\nQUIT\n",
                b"VALUE 1\nNONE\nBYE\n",
            )
    };
    let server = move || {
        let mut map = PlainMap::new(alloc);
        serve_alone(rt, alloc, &mut door, &mut map, 2) == DoorEnd::Done
    };
    let (talked, served) = join(rt, clients, server);
    talked && served
}

#[test]
fn clients_are_served_over_tcp(rt: HostRuntime) {
    assert!(rt; serves_two(&rt, rt.alloc()));
}
