//! How a connection is closed so that its client gets the last reply.
use std::io;
use std::io::Read;
use std::net::{Shutdown, TcpStream};
use std::time::Duration;

/// How many bytes of a client are dropped at once, and how often.
const REST_BYTES: usize = 16_384;

const RESTS: u32 = 64;

/// How long each of these reads waits at most.
const REST_MILLIS: u64 = 50;

/// Tells the client that no more comes, and then that nothing is taken any more.
///
/// A connection that is closed while bytes of the client lie unread is reset, and a reset can take replies from the
/// client that it hasn't read yet. So the client may send what it was about to, but neither more than 1 MiB nor for
/// more than about 3 seconds: it holds its worker up meanwhile.
pub(crate) fn end_stream(stream: &TcpStream) {
    if stream.shutdown(Shutdown::Write).is_ok() {
        let _ = drop_rest(stream);
    }
    let _ = stream.shutdown(Shutdown::Both);
}

/// Reads and drops what a client still sends.
fn drop_rest(mut stream: &TcpStream) -> io::Result<()> {
    stream.set_read_timeout(Some(Duration::from_millis(REST_MILLIS)))?;
    let mut rest = [0u8; REST_BYTES];
    for _ in 0..RESTS {
        if stream.read(&mut rest)? == 0 {
            break;
        }
    }
    Ok(())
}
