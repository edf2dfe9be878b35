//! Counts that never fall, and that stand still once they are at their type's end.
#![tactic(auto)]

ghost use Rattle.std.specs.Prelude.{◌≡◌, ◌+◌, ◌-◌, ◌^◌, ◌≤◌, min};
ghost use Rattle.counts.specs.Counts.{Rose};

/// The count with one more event, of which no more than 2^64 - 1 are told apart.
pub fn raise(count: u64) -> u64
    ensures value { result ≡ min (count + 1) (2 ^ 64 - 1) }
    ensures rose { Rose count result }
    ensures kept { count ≤ result }
{
    count.saturating_add(1)
}
