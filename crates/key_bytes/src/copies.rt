//! Copies of few bytes.
ghost use Rattle.std.specs.Prelude.{◌≡◌, ◌*◌, ◌≤◌, length};

/// Writes bytes over as many others. Where they are 4 to 64 it takes a few moves of words, and no call of the
/// library's copy, whose cost is mostly that of finding out how many they are.
#[inline]
pub fn copy_few(into: &mut [u8], bytes: &[u8])
    requires { length into.old ≡ length bytes.now }
    ensures { into.new ≡ bytes.now }
{
    let count = bytes.len();
    if count >= 16 && count <= 32 {
        copy_ends::<16>(into, bytes);
    } else if count > 32 && count <= 64 {
        copy_ends::<32>(into, bytes);
    } else if count >= 8 && count < 16 {
        copy_ends::<8>(into, bytes);
    } else if count >= 4 && count < 8 {
        copy_ends::<4>(into, bytes);
    } else {
        into.copy_from_slice(bytes);
    }
}

// Copies the first `N` bytes and the last `N`, which meet or overlap. Both are read before either is
// written, so that they go through registers.
#[inline]
fn copy_ends<const N: usize>(into: &mut [u8], bytes: &[u8])
    requires same { length into.old ≡ length bytes.now }
    requires least { N ≤ length bytes.now }
    requires most { length bytes.now ≤ 2 * N }
    ensures { into.new ≡ bytes.now }
{
    let first = *bytes.first_chunk::<N>().unwrap();
    let last = *bytes.last_chunk::<N>().unwrap();
    *into.first_chunk_mut::<N>().unwrap() = first;
    *into.last_chunk_mut::<N>().unwrap() = last;
}
