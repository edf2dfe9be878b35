//! A guess at where a search ends.

ghost use Rattle.std.specs.Prelude.{◌≡◌};

/// A guess at the length of the longest prefix, learnt from searches before. It changes how many
/// looks a search takes, within the same bound, and no answer. It is one number, so a caller can keep
/// it where it likes.
#[derive(Debug, Clone, Copy)]
pub struct Hint {
    len: u32,
}

impl Hint {
    /// No guess: the first search goes by halves.
    pub fn new() -> Hint
        ensures { result.len ≡ 0 }
    {
        Hint { len: 0 }
    }

    /// The guess that [`Hint::len`] told, or another number of bytes.
    pub fn at(len: u32) -> Hint
        ensures { result.len ≡ len }
    {
        Hint { len }
    }

    /// The length to look at first, in bytes.
    #[inline]
    pub fn len(&self) -> u32
        ensures { result ≡ self.now.len }
    {
        self.len
    }

    /// Learns from the length that a search reached. The guess goes down at once, and up by one where
    /// the length is more than one above it. So it stays just below the usual length: the first look
    /// nearly always finds an item, whose child bytes mostly end the search or leave one look more.
    #[inline]
    pub(crate) fn learn(&mut self, reached: u32) {
        if reached < self.len {
            self.len = reached;
        } else if reached - self.len > 1 {
            self.len += 1;
        }
    }
}
