//! The child bytes of an item, as a bitmap.

ghost use Rattle.std.specs.Prelude.{◌≡◌, ◌≤◌, ◌==◌, ◌/◌, ◌%◌, ◌^◌};
ghost use Rattle.anchor_rules.specs.Items.{greatest_below};
ghost use Rattle.meta_trie.specs.Trie.{bit_of};

/// Whether a byte is in a bitmap, by the word of it that has the byte's bit.
#[inline]
pub(crate) fn has_byte(word: u64, byte: u8) -> bool
    ensures { result ≡ (word / 2 ^ (byte % 64) % 2 == 1) }
{
    word >> (byte % 64) & 1 == 1
}

/// The lowest n bits of a word.
fn low_bits(word: u64, n: u32) -> u64
    requires { n ≤ 64 }
    ensures { result ≡ word % 2 ^ n }
{
    if n < 64 { word % (1 << n) } else { word }
}

/// The greatest bit that is set in a word, of those below a place.
fn greatest_bit(word: u64, below: u32) -> Option<u32>
    requires { below ≤ 64 }
    ensures { result ≡ greatest_below (λ j. word / 2 ^ j % 2 == 1) below }
{
    let low = low_bits(word, below);
    if low == 0 {
        None
    } else {
        Some(63 - low.leading_zeros())
    }
}

/// The greatest byte of a bitmap, of those below this one.
pub(crate) fn greatest_byte(bits: &[u64; 4], below: u8) -> Option<u8>
    ensures { result ≡ greatest_below (bit_of bits.now) below }
{
    let mut word = usize::from(below / 64);
    let mut end = u32::from(below % 64);
    loop {
        match greatest_bit(bits[word], end) {
            Some(bit) => return Some((64 * word as u32 + bit) as u8),
            None => {
                if word == 0 {
                    return None;
                }
                word -= 1;
                end = 64;
            }
        }
    }
}
