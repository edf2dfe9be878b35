//! Standard input and output with a buffer on each side of the program: input is read ahead; what is written is
//! collected, and handed on when the buffer is full, before more input is asked for, and at the end.
#![tactic(auto)]

mod ends;
mod outgoing;

pub use ends::{StdSink, StdSource};
pub use outgoing::{BUFFER, Outgoing};
