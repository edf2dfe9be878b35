//! A request.
use crate::{RequestKey, ScanEnd, Value};

/// What a line asks for. It lends its key, and the value of a put, from the line.
#[derive(Debug, Drop)]
pub enum Request<'a> {
    /// Sets the key's value.
    Put(RequestKey<'a>, Value<'a>),
    /// Asks for the key's value.
    Get(RequestKey<'a>),
    /// Takes the key away.
    Del(RequestKey<'a>),
    /// Asks for at most so many pairs from the first end, included, to the second, excluded.
    Scan(ScanEnd, ScanEnd, u32),
    /// Ends the session.
    Quit,
}
