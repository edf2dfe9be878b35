//! Which length a search looks at next.

ghost use Rattle.std.specs.Prelude.{◌<◌, ◌≤◌, ◌+◌, ◌-◌, ◌*◌, ◌^◌, ℕ};

/// The length to look at next, of those above `low` up to `high`: the hint or the length nearest to
/// it that leaves one binary digit less to search, whatever the look finds. So it is the least of
/// these lengths where the hint is at most `low`: there an item was found, and the longest prefix
/// mostly ends soon behind it. A hint of 0 is none, and one above `high` tells no more: then it is
/// the middle.
#[inline]
pub(crate) fn middle_of(low: usize, high: usize, hint: usize) -> usize
    requires { low < high }
    ensures above { low < result }
    ensures within { result ≤ high }
    ensures narrow_above { (n : ℕ) → high - low < 2 * 2 ^ n → high - result < 2 ^ n }
    ensures narrow_below { (n : ℕ) → high - low < 2 * 2 ^ n → result - 1 - low < 2 ^ n }
{
    let width = high - low;
    if hint == 0 || high < hint {
        return high - width / 2;
    }
    let most = most_left(width);
    hint.max(high - most).min(low + 1 + most)
}

/// The greatest number that has one binary digit less than this one.
#[inline]
fn most_left(width: usize) -> usize
    requires { 0 < width }
    ensures less { result < width }
    ensures half { width ≤ 2 * result + 1 }
    ensures narrow { (n : ℕ) → width < 2 * 2 ^ n → result < 2 ^ n }
{
    (1 << (usize::BITS - 1 - width.leading_zeros())) - 1
}
