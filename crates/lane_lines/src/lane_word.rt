//! The word that names a lane.
ghost use Rattle.std.specs.Prelude.{◌≡◌, ◌<◌, IfSome};
ghost use Rattle.std.specs.List.{before_first, after_first};
ghost use Rattle.lane_lines.specs.Deal.{is_space, lane_of_word};

use memchr::memchr;

/// How many digits a lane's number has at most.
pub const LANE_DIGITS: usize = 3;

/// What stands before the first space of a line, and what stands behind it.
pub(crate) fn first_word(line: &[u8]) -> (&[u8], &[u8])
    ensures word { result.0.now ≡ before_first is_space line.now }
    ensures rest { result.1.now ≡ after_first is_space line.now }
{
    match memchr(b' ', line) {
        None => (line, &[]),
        Some(at) => (&line[..at], &line[at + 1..]),
    }
}

/// The lane that a word names, of so many.
pub(crate) fn read_lane(word: &[u8], lanes: u32) -> Option<u32>
    ensures lane { result ≡ lane_of_word lanes word.now }
    ensures below { IfSome result (λ lane. lane < lanes) }
{
    if word.is_empty() || word.len() > LANE_DIGITS {
        return None;
    }
    let mut lane: u32 = 0;
    for digit in word {
        if !digit.is_ascii_digit() {
            return None;
        }
        lane = lane * 10 + u32::from(*digit - b'0');
    }
    if lane < lanes { Some(lane) } else { None }
}
