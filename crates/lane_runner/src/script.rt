//! What a lane is to serve.
ghost use Rattle.std.specs.Prelude.{◌≡◌, ◌<◌, ◌≤◌, ◌+◌, [], false, length, Some};

use outside::{Source, Stop};

/// A source of a script's bytes. It never fails.
#[derive(Drop)]
pub(crate) struct Script {
    bytes: Vec<u8>,
    at: usize,
    ended: bool,
    ghost within: { at ≤ length bytes.items },
}

impl Script {
    ghost use Rattle.lane_runner.specs.Scripts.{told_of};

    /// A script of which nothing was read.
    pub(crate) fn new(bytes: Vec<u8>) -> Script
        ensures { told_of result ≡ record { given = []; left = bytes.items; ended = false } }
    {
        Script {
            bytes,
            at: 0,
            ended: false,
        }
    }

    /// One byte more than are left, so that a session over them comes to their end.
    pub(crate) fn budget(&self) -> u64
        ensures { result ≡ length (told_of self.now).left + 1 }
    {
        (self.bytes.len() - self.at) as u64 + 1
    }
}

impl Source for Script {
    ghost use Rattle.std.specs.Io.{ReadsAtMost};
    ghost use Rattle.outside.specs.Causes.{FaultsCounted};
    ghost use Rattle.outside.specs.Moved.{moved, is_zero};
    ghost use Rattle.outside.specs.Reading.{Took, Ended};
    ghost use Rattle.lane_runner.specs.Scripts.{told_of};

    ghost told = { λ s. Some (told_of s) };

    ghost faults = { λ s. 0 };

    ghost connection = { λ s. 0 };

    fn read(&mut self, buf: &mut [u8]) -> Result<usize, Stop> {
        let n = (self.bytes.len() - self.at).min(buf.len());
        buf[..n].copy_from_slice(&self.bytes[self.at..self.at + n]);
        self.at += n;
        if n == 0 {
            self.ended = true;
        }
        Ok(n)
    }
}
