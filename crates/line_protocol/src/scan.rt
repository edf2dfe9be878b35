//! Searches for bytes, many at a time.
ghost use Rattle.std.specs.Prelude.{◌≡◌, ◌<◌, ◌≤◌, ◌+◌, ◌==◌, length, nat_lt, take, drop};
ghost use Rattle.std.specs.List.{list_any};
ghost use Rattle.line_protocol.specs.Escape.{is_sought};
ghost use Rattle.line_protocol.specs.declared.scan.Sought.TheVariants.{Escaped};

use std::simd::prelude::*;

/// Which bytes are sought.
#[derive(Clone, Copy)]
pub(crate) enum Sought {
    /// This byte.
    Byte(u8),
    /// Those that don't stand for themselves in a word.
    Escaped,
}

/// Whether a byte stands among these. `memchr` goes one by one where there are fewer than 32.
#[inline]
pub(crate) fn has_byte(bytes: &[u8], wanted: u8) -> bool
    ensures { result ≡ list_any (λ b. b == wanted) bytes.now }
{
    has_sought(bytes, Sought::Byte(wanted))
}

/// Whether a byte that doesn't stand for itself is among these. Of many, more are tested at once.
#[inline]
pub(crate) fn has_escaped(bytes: &[u8]) -> bool
    ensures { result ≡ list_any (is_sought Escaped) bytes.now }
{
    if bytes.len() >= 64 {
        in_parts::<64>(bytes, Sought::Escaped)
    } else {
        has_sought(bytes, Sought::Escaped)
    }
}

/// Whether a sought byte is among these. As many are tested at once as a vector has that they fill. The
/// last ones are tested in a whole vector too, which may have some of those before.
#[inline(always)]
pub(crate) fn has_sought(bytes: &[u8], sought: Sought) -> bool
    ensures { result ≡ list_any (is_sought sought) bytes.now }
{
    if bytes.len() >= 16 {
        in_parts::<16>(bytes, sought)
    } else if bytes.len() >= 8 {
        in_parts::<8>(bytes, sought)
    } else if bytes.len() >= 4 {
        in_parts::<4>(bytes, sought)
    } else {
        one_by_one(bytes, sought)
    }
}

// The same by parts of `N` bytes.
#[inline(always)]
fn in_parts<const N: usize>(bytes: &[u8], sought: Sought) -> bool
    requires some { 0 < N }
    requires few { N ≤ 64 }
    requires long { N ≤ length bytes.now }
    ensures { result ≡ list_any (is_sought sought) bytes.now }
{
    let last = bytes.len() - N;
    let mut at = 0;
    'parts: while at < last {
        if in_part::<N>(bytes, at, sought) {
            return true;
        }
        at += N;
    }
    in_part::<N>(bytes, last, sought)
}

// The same of the `N` bytes from a place on.
#[inline(always)]
fn in_part<const N: usize>(bytes: &[u8], from: usize, sought: Sought) -> bool
    requires few { N ≤ 64 }
    requires within { from + N ≤ length bytes.now }
    ensures { result ≡ list_any (is_sought sought) (take N (drop from bytes.now)) }
{
    let part = Simd::<u8, N>::from_slice(&bytes[from..]);
    match sought {
        Sought::Byte(byte) => has_lane(part, byte),
        Sought::Escaped => {
            has_lane_below(part, 0x21)
                | has_lane_above(part, 0x7e)
                | has_lane(part, b'%')
                | has_lane(part, b'*')
        }
    }
}

#[inline(always)]
fn has_lane<const N: usize>(part: Simd<u8, N>, byte: u8) -> bool
    requires { N ≤ 64 }
    ensures { result ≡ list_any (λ b. b == byte) part.entry }
{
    part.simd_eq(Simd::splat(byte)).to_bitmask() != 0
}

#[inline(always)]
fn has_lane_below<const N: usize>(part: Simd<u8, N>, byte: u8) -> bool
    requires { N ≤ 64 }
    ensures { result ≡ list_any (λ b. nat_lt b byte) part.entry }
{
    part.simd_lt(Simd::splat(byte)).to_bitmask() != 0
}

#[inline(always)]
fn has_lane_above<const N: usize>(part: Simd<u8, N>, byte: u8) -> bool
    requires { N ≤ 64 }
    ensures { result ≡ list_any (λ b. nat_lt byte b) part.entry }
{
    part.simd_gt(Simd::splat(byte)).to_bitmask() != 0
}

// The same of each byte by itself.
fn one_by_one(bytes: &[u8], sought: Sought) -> bool
    ensures { result ≡ list_any (is_sought sought) bytes.now }
{
    bytes
        .iter()
        .fold(false, |any, byte| any | is_sought(*byte, sought))
}

fn is_sought(byte: u8, sought: Sought) -> bool
    ensures { result ≡ is_sought sought byte }
{
    match sought {
        Sought::Byte(wanted) => byte == wanted,
        Sought::Escaped => { (byte.wrapping_sub(0x21) >= 0x5e) | (byte == b'%') | (byte == b'*') }
    }
}
