//! Lines of words without escapes, written over bytes that are there.
ghost use Rattle.std.specs.Prelude.{◌≡◌, ◌+◌, true, length};
ghost use Rattle.std.specs.List.{list_all};
ghost use Rattle.line_protocol.specs.Escape.{is_plain};
ghost use Rattle.line_protocol.specs.Texts.{pair_line, value_line};

use key_bytes::copy_few;

/// How many bytes the line of a pair has beside those of its key and its value, where each stands for itself.
pub const PAIR_FRAME: usize = 7;

/// How many bytes the line of a value has beside those of the value, where each stands for itself.
pub(crate) const VALUE_FRAME: usize = 7;

/// Writes the line of a pair, each byte of which stands for itself, over as many bytes as it has. Short ones take a
/// few moves of words, and nothing asks for room.
#[inline(always)]
pub fn put_pair(line: &mut [u8], key: &[u8], value: &[u8])
    requires room { length line.old ≡ length key.now + length value.now + PAIR_FRAME }
    requires key { list_all is_plain key.now ≡ true }
    requires value { list_all is_plain value.now ≡ true }
    ensures { line.new ≡ pair_line key.now value.now }
{
    let (front, rest) = line.split_at_mut(5);
    *front.first_chunk_mut::<5>().unwrap() = *b"PAIR ";
    let (word, rest) = rest.split_at_mut(key.len());
    copy_few(word, key);
    let (blank, rest) = rest.split_at_mut(1);
    blank[0] = b' ';
    let (word, end) = rest.split_at_mut(value.len());
    copy_few(word, value);
    end[0] = b'\n';
}

/// The same of a value's line.
#[inline(always)]
pub(crate) fn put_value(line: &mut [u8], value: &[u8])
    requires room { length line.old ≡ length value.now + VALUE_FRAME }
    requires value { list_all is_plain value.now ≡ true }
    ensures { line.new ≡ value_line value.now }
{
    let (front, rest) = line.split_at_mut(6);
    *front.first_chunk_mut::<6>().unwrap() = *b"VALUE ";
    let (word, end) = rest.split_at_mut(value.len());
    copy_few(word, value);
    end[0] = b'\n';
}
