//! One generated line, in a buffer that has room for it.
ghost use Rattle.std.specs.Prelude.{◌≡◌, ◌+◌, ◌≤◌, ◌∷◌, ◌++◌, [], decimal, length, vec_len, vec_capacity};
ghost use Rattle.generated_lines.specs.Generator.{next_number, item_key, made_line};

use crate::digits::{six_digits, two_digits};
use itoa::Buffer;

/// The number behind a number.
pub(crate) fn next_number(x: u64) -> u64
    ensures { result ≡ next_number x }
{
    x.wrapping_mul(6_364_136_223_846_793_005)
        .wrapping_add(1_442_695_040_888_963_407)
}

/// Puts the line with this place, and its LF, in place of what was there.
pub(crate) fn set_line(line: &mut Vec<u8>, at: u32, x: u64)
    requires reserved { 96 ≤ vec_capacity line.old }
    ensures items { line.new.items ≡ made_line at x ++ 10 ∷ [] }
    ensures reserved { 96 ≤ vec_capacity line.new }
{
    line.clear();
    let kind = x >> 60;
    let item = ((x >> 32) % 10000) as u32;
    if kind < 8 {
        add(line, b"PUT ");
        add_key(line, item);
        add(line, b" ");
        add_number(line, at);
    } else if kind < 13 {
        add(line, b"GET ");
        add_key(line, item);
    } else if kind < 15 {
        add(line, b"DEL ");
        add_key(line, item);
    } else {
        add(line, b"SCAN ");
        add_key(line, item);
        add(line, b" * 20");
    }
    add(line, b"\n");
}

// Appends the key of an item.
fn add_key(line: &mut Vec<u8>, item: u32)
    requires room { vec_len line.old + 33 ≤ 96 }
    requires reserved { 96 ≤ vec_capacity line.old }
    ensures items { line.new.items ≡ line.old.items ++ item_key item }
    ensures length { vec_len line.new ≡ vec_len line.old + 33 }
    ensures reserved { 96 ≤ vec_capacity line.new }
{
    add(line, b"http://host");
    add(line, &two_digits(item % 50));
    add(line, b".example/item/");
    add(line, &six_digits(item));
}

// Appends a number.
fn add_number(line: &mut Vec<u8>, n: u32)
    requires room { vec_len line.old + 40 ≤ 96 }
    requires reserved { 96 ≤ vec_capacity line.old }
    ensures items { line.new.items ≡ line.old.items ++ decimal n }
    ensures length { vec_len line.new ≤ vec_len line.old + 40 }
    ensures reserved { 96 ≤ vec_capacity line.new }
{
    let mut buffer = Buffer::new();
    add(line, buffer.format(n).as_bytes());
}

// Appends bytes that the buffer has room for.
fn add(line: &mut Vec<u8>, bytes: &[u8])
    requires room { vec_len line.old + length bytes.now ≤ 96 }
    requires reserved { 96 ≤ vec_capacity line.old }
    ensures items { line.new.items ≡ line.old.items ++ bytes.now }
    ensures length { vec_len line.new ≡ vec_len line.old + length bytes.now }
    ensures reserved { 96 ≤ vec_capacity line.new }
{
    match line.extend_from_slice(bytes) {
        Ok(()) => {}
        Err(_) => unreachable!(),
    }
}
