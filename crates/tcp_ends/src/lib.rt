//! A door over TCP, and the two ends of a connection. Input is read ahead in large pieces; replies are collected, and
//! handed on when the buffer is full, before a client is asked for more, and at the end of the connection.
#![tactic(auto)]

mod closing;
mod door;
mod ends;
#[cfg(test)]
mod tests;

pub use door::TcpDoor;
pub use ends::{TcpEnded, TcpSink, TcpSource};
