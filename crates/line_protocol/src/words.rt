//! The words of a line, peeled off one after another.
ghost use Rattle.std.specs.Prelude.{◌≡◌, ◌∷◌, ◌++◌, None, Some, IfSome, MatchOption, codes, option_copied};
ghost use Rattle.line_protocol.specs.Words.{words_of, words_after, one, two, three};

use crate::scan::has_byte;
use memchr::memchr;

/// The first word, and what stands behind the space after it.
#[inline(always)]
pub(crate) fn first_word(bytes: &[u8]) -> (&[u8], Option<&[u8]>)
    ensures { words_of bytes.now ≡ result.0.now ∷ words_after (option_copied result.1) }
{
    match memchr(b' ', bytes) {
        None => (bytes, None),
        Some(at) => (&bytes[..at], Some(&bytes[at + 1..])),
    }
}

/// What stands behind a first word `GET` and its space.
#[inline(always)]
pub(crate) fn behind_get(line: &[u8]) -> Option<&[u8]>
    ensures { IfSome result (λ rest. line.now ≡ codes "GET " ++ rest.now) }
{
    match line {
        [b'G', b'E', b'T', b' ', rest @ ..] => Some(rest),
        _ => None,
    }
}

/// What stands behind a first word `PUT` and its space.
#[inline(always)]
pub(crate) fn behind_put(line: &[u8]) -> Option<&[u8]>
    ensures { IfSome result (λ rest. line.now ≡ codes "PUT " ++ rest.now) }
{
    match line {
        [b'P', b'U', b'T', b' ', rest @ ..] => Some(rest),
        _ => None,
    }
}

/// What stands behind a first word `DEL` and its space.
#[inline(always)]
pub(crate) fn behind_del(line: &[u8]) -> Option<&[u8]>
    ensures { IfSome result (λ rest. line.now ≡ codes "DEL " ++ rest.now) }
{
    match line {
        [b'D', b'E', b'L', b' ', rest @ ..] => Some(rest),
        _ => None,
    }
}

/// The one word, where there is just one.
#[inline(always)]
pub(crate) fn one_word<'a>(rest: Option<&'a [u8]>) -> Option<&'a [u8]>
    ensures { option_copied result ≡ one (words_after (option_copied rest.entry)) }
{
    match rest {
        None => None,
        Some(bytes) => {
            if has_byte(bytes, b' ') {
                None
            } else {
                Some(bytes)
            }
        }
    }
}

/// The two words, where there are just two.
#[inline(always)]
pub(crate) fn two_words<'a>(rest: Option<&'a [u8]>) -> Option<(&'a [u8], &'a [u8])>
    ensures { MatchOption result (two (words_after (option_copied rest.entry)) ≡ None)
        (λ words. two (words_after (option_copied rest.entry)) ≡ Some (words.0.now, words.1.now)) }
{
    match rest {
        None => None,
        Some(bytes) => {
            let (first, rest) = first_word(bytes);
            match one_word(rest) {
                None => None,
                Some(second) => Some((first, second)),
            }
        }
    }
}

/// The three words, where there are just three.
pub(crate) fn three_words<'a>(rest: Option<&'a [u8]>) -> Option<(&'a [u8], &'a [u8], &'a [u8])>
    ensures { MatchOption result (three (words_after (option_copied rest.entry)) ≡ None)
        (λ words. three (words_after (option_copied rest.entry)) ≡ Some (words.0.now, words.1.now, words.2.now)) }
{
    match rest {
        None => None,
        Some(bytes) => {
            let (first, rest) = first_word(bytes);
            match two_words(rest) {
                None => None,
                Some((second, third)) => Some((first, second, third)),
            }
        }
    }
}
