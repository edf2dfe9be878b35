//! How a server ends.
use map_model::ForkFault;

/// Why a server stopped.
#[derive(Clone, Copy, Debug, PartialEq)]
pub enum DoorEnd {
    /// As many connections as were asked for are served and closed.
    Done,
    /// The door failed.
    DoorFault,
    /// A worker had no lane. No connection was accepted.
    Lanes(ForkFault),
}
