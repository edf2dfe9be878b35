//! A hash of bytes that goes on from the hash of those before.
ghost use Rattle.std.specs.Prelude.{◌≡◌};
ghost use Rattle.key_bytes.specs.Fnv.{fnv_start, fnv_step, hash_from, prefix_hash};

/// The steps of FNV-1a with 64 bits, by Glenn Fowler, Landon Curt Noll and Kiem-Phong Vo: one
/// exclusive or and one product a byte.
pub struct Fnv;

impl Fnv {
    /// The hash of no bytes: the basis of FNV-1a, exclusive-or the salt. With salt 0 all hashes are
    /// those of FNV-1a.
    pub fn start(salt: u64) -> u64
        ensures { result ≡ fnv_start salt }
    {
        14695981039346656037 ^ salt
    }

    /// The hash with one byte more at the end.
    pub fn step(hash: u64, byte: u8) -> u64
        ensures { result ≡ fnv_step hash byte }
    {
        (hash ^ u64::from(byte)).wrapping_mul(1099511628211)
    }

    /// The hash with these bytes more at the end.
    #[tactic(auto, unfolding(crate::specs::Fnv::hash_from))]
    pub fn extend(hash: u64, bytes: &[u8]) -> u64
        ensures { result ≡ hash_from hash bytes.now }
    {
        bytes.iter().fold(hash, |hash, byte| Fnv::step(hash, *byte))
    }
}

/// The hash of these bytes under this salt.
#[tactic(auto, unfolding(crate::specs::Fnv::prefix_hash))]
pub fn prefix_hash(salt: u64, bytes: &[u8]) -> u64
    ensures { result ≡ prefix_hash salt bytes.now }
{
    Fnv::extend(Fnv::start(salt), bytes)
}
