//! The program of Muslinscree. Over an ordered index in memory `worm run` answers the requests of standard input on
//! standard output, `worm lanes` lets several lanes answer them at once, `worm serve` answers those of TCP clients, and
//! `worm fill` answers requests that it makes and writes a summary.
#![tactic(auto)]

mod fills;
mod lanes;
mod script;
mod servers;
#[cfg(test)]
mod tests;
mod top;

use standard_ends::{Outgoing, StdSink, StdSource};
use std::alloc::Global;
use std::cell::RefCell;
use std::io::{ErrorKind, Read, Write};
use std::net::{Net, TcpListener, TcpStream};
use std::process::ExitCode;
use std::rt::Env;
use std::sync::Wait;
use std::thread::Threads;
use std::{env, io};
use tcp_ends::TcpDoor;
use top::worm;

fn main(rt: HostRuntime) -> ExitCode {
    let status = match words(&rt) {
        Ok(words) => over_ends(&rt, rt.alloc(), &words, rt.stdin(), rt.stdout()),
        Err(error) => unread_words(&error),
    };
    if let Some(fault) = fault_text(status) {
        // There is no other place to tell of it.
        let _ = eprintln!(rt; "worm: {fault}");
    }
    ExitCode::from(status)
}

/// Carries out the command over a reader, a writer and TCP, and answers its status. Replies that can't be handed on at
/// its end are a write fault as well, however it ended.
fn over_ends<
    R: Threads + Wait + Net<Listener = TcpListener, Stream = TcpStream> + Sync,
    I: Read + Drop,
    W: Write + Drop,
>(rt: &R, alloc: Global, words: &Vec<String>, reader: I, writer: W) -> u8 {
    let outgoing = RefCell::new(Outgoing::new(alloc, writer));
    let status = between_ends(rt, alloc, words, reader, &outgoing);
    match outgoing.into_inner().finish() {
        Some(_) => status,
        None => 4,
    }
}

/// Carries out the command over a reader, TCP, and what goes to a writer.
fn between_ends<
    R: Threads + Wait + Net<Listener = TcpListener, Stream = TcpStream> + Sync,
    I: Read + Drop,
    W: Write + Drop,
>(rt: &R, alloc: Global, words: &Vec<String>, reader: I, outgoing: &RefCell<Outgoing<W>>) -> u8 {
    match StdSource::new(alloc, reader, outgoing) {
        Ok(mut source) => {
            let mut sink = StdSink::new(outgoing);
            let mut door = TcpDoor::new(rt, alloc);
            worm(rt, alloc, words, &mut source, &mut sink, &mut door).status
        }
        Err(_) => 5,
    }
}

/// The words after the program's name.
fn words(rt: &(impl Env + AllocGlobal)) -> io::Result<Vec<String>> {
    Ok(env::args(rt)?.skip(1).collect(rt.alloc())?)
}

/// The status where the words can't be read: a word that isn't UTF-8 is no command's.
fn unread_words(error: &io::Error) -> u8 {
    match error.kind() {
        ErrorKind::InvalidData => 2,
        _ => 5,
    }
}

/// What is told of a status on standard error.
fn fault_text(status: u8) -> Option<&'static str> {
    match status {
        0 => None,
        2 => Some("words"),
        3 => Some("read fault"),
        4 => Some("write fault"),
        5 => Some("no memory"),
        6 => Some("door fault"),
        _ => Some("input too long"),
    }
}
