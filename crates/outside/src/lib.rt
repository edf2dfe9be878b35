//! Where bytes come from and where they go, by traits that count their faults; and a source and a sink
//! in memory, whose contracts tell each byte.
#![tactic(auto)]

mod door;
mod gate;
mod mem_door;
mod memory;
mod plan;
mod sink;
mod source;
mod stop;

pub use door::Door;
pub use gate::{Gate, OpenGate};
pub use mem_door::{MemDoor, MemEnded};
pub use memory::{MemSink, MemSource};
pub use sink::Sink;
pub use source::Source;
pub use stop::Stop;
