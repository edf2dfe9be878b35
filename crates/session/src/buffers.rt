//! What a session fills again for each request.
use map_model::Page;
use std::alloc::Global;

/// The line that is written, the value that was found, the pairs of a part and their lines. They keep their room from
/// one request to the next.
#[derive(Drop)]
pub(crate) struct Buffers {
    pub(crate) reply: Vec<u8>,
    pub(crate) value: Vec<u8>,
    pub(crate) page: Page,
    pub(crate) lines: Vec<u8>,
}

impl Buffers {
    pub(crate) fn new(alloc: Global) -> Buffers {
        Buffers {
            reply: Vec::new(alloc),
            value: Vec::new(alloc),
            page: Page::new(alloc),
            lines: Vec::new(alloc),
        }
    }
}
