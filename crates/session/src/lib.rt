//! Sessions: lines of requests are read, served by calls of a store, and answered by lines.
#![tactic(auto)]

mod buffers;
mod lines;
mod requests;
mod scans;
mod session;
mod writes;

pub use patience::{Bounded, Endless, Patience};
pub use session::{PIECE_BYTES, SessionEnd, serve};
pub use writes::write_all;
