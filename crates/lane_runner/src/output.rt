//! Where a lane's replies go.
ghost use Rattle.std.specs.Prelude.{◌≡◌, [], Some};

use outside::{Sink, Stop};
use std::alloc::Global;

/// A sink in memory. It stops only for want of memory.
#[derive(Drop)]
pub(crate) struct Output {
    pub(crate) bytes: Vec<u8>,
}

impl Output {
    /// An empty sink. It takes no memory.
    pub(crate) fn new(alloc: Global) -> Output
        ensures { result.bytes.items ≡ [] }
    {
        Output {
            bytes: Vec::new(alloc),
        }
    }
}

impl Sink for Output {
    ghost written = { λ s. Some s.bytes.items };

    ghost faults = { λ s. 0 };

    ghost connection = { λ s. 0 };

    fn write(&mut self, bytes: &[u8]) -> Result<usize, Stop> {
        match self.bytes.extend_from_slice(bytes) {
            Ok(()) => Ok(bytes.len()),
            Err(_) => Err(Stop::NoMemory),
        }
    }
}
