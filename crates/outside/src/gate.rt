//! What stands round the calls of lanes.

/// What is called round each call of a lane, so that a test can hold one lane until another has gone on.
pub trait Gate: Sync {
    /// Before a lane's call of this number, from 1.
    fn before(&self, lane: u32, number: u64);

    /// After it.
    fn after(&self, lane: u32, number: u64);
}

/// A gate that does nothing.
#[derive(Clone, Copy, Debug)]
pub struct OpenGate;

impl Gate for OpenGate {
    fn before(&self, _lane: u32, _number: u64) {}

    fn after(&self, _lane: u32, _number: u64) {}
}
