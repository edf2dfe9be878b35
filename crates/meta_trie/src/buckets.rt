//! The bucket of a hash.

ghost use Rattle.std.specs.Prelude.{◌≡◌, ◌<◌, ◌%◌};

/// The bucket of a hash, its remainder by the number of heads. That number is mostly a power of
/// two: the remainder by a shifted 1 is then a mask, where a division takes tens of cycles.
#[inline]
pub(crate) fn bucket_by_hash(hash: u64, heads: u32) -> u32
    requires { 0 < heads }
    ensures { result ≡ hash % heads }
{
    let power = 1_u64 << heads.trailing_zeros();
    if heads as u64 == power {
        (hash % power) as u32
    } else {
        (hash % heads as u64) as u32
    }
}
