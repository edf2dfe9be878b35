//! A list of bytes.
ghost use Rattle.std.specs.Prelude.{◌≡◌, ◌<◌, length, IfOk, IfErr, IsOk, OnOk, OnErr};

use smallvec::SmallVec;
use std::alloc::{AllocError, AllocFailed, Global};
use std::marker::Model;

/// Any number of bytes, such as a value, which contracts see as their list. Up to 32 of them lie in the
/// value itself, which takes 48 bytes, and more than that in an allocation of their own.
#[derive(Debug, Drop)]
pub struct Bytes {
    bytes: SmallVec<u8, 32>,
}

impl Model for Bytes {
    ghost use Rattle.std.specs.Prelude.{List, ℕ};

    ghost Value = { List ℕ };

    ghost view = { λ b. b.bytes.items };
}

impl Bytes {
    /// These bytes. It takes no memory: up to 32 bytes of a vector with no more room than that move into
    /// the value itself, and any other vector is kept as it is.
    pub fn of(bytes: Vec<u8>) -> Bytes
        ensures { result ≡ bytes.items }
    {
        Bytes {
            bytes: SmallVec::from_vec(bytes),
        }
    }

    /// A copy of these bytes.
    #[inline]
    pub fn copied(alloc: Global, bytes: &[u8]) -> Result<Bytes, AllocError>
        ensures copied { IfOk result (λ b. b ≡ bytes.now) }
    {
        Ok(Bytes {
            bytes: SmallVec::from_slice(alloc, bytes)?,
        })
    }

    /// The bytes.
    #[inline]
    pub fn get(&self) -> &[u8]
        ensures { result.now ≡ self.now }
    {
        self.bytes.as_slice()
    }

    /// The bytes as a vector. It takes memory only for bytes that lie in the value itself, which are no
    /// more than 32, and gives them back where there is none.
    pub fn into_vec(self) -> Result<Vec<u8>, AllocFailed<Bytes>>
        ensures ok { IfOk result (λ v. v.items ≡ self) }
        ensures succeeds { 32 < length self → IsOk result }
        ensures value_returned { IfErr result (λ failed. failed.value ≡ self) }
    {
        match self.bytes.into_vec() {
            Ok(bytes) => Ok(bytes),
            Err(AllocFailed { value }) => Err(AllocFailed {
                value: Bytes { bytes: value },
            }),
        }
    }

    /// Writes these bytes over its own. It takes memory only where they are more than 32 and more than
    /// it ever had; where they are fewer, it keeps what it has.
    pub fn set(&mut self, bytes: &[u8]) -> Result<(), AllocError>
        ensures ok { OnOk result (self.new ≡ bytes.now) }
        ensures refused { OnErr result (self.new ≡ self.old) }
    {
        // Room first: what follows is never refused, so a refusal loses no byte.
        let more = bytes.len().saturating_sub(self.bytes.len());
        self.bytes.reserve_exact(more)?;
        self.bytes.clear();
        self.bytes.extend_from_slice(bytes)
    }
}
