//! How often a refused request is tried again.
ghost use Rattle.std.specs.Prelude.{◌≡◌, ◌-◌, ◌<◌, ℕ, Option};
ghost use Rattle.std.specs.Bool.{OnTrue, OnFalse};
ghost use Rattle.patience.specs.Patience.{IsSpent, next_try};

/// How often a request, or a part of a scan, is tried again while another lane is in the way.
pub trait Patience {
    /// After how many refused attempts it gives up, if ever.
    ghost limit: { Self → Option ℕ };

    /// A number that falls with each further attempt, so that there is a last one.
    ghost left: { Self → ℕ → ℕ };

    /// Whether to try again after this many refused attempts. 2^32 - 1 stands for that many or more.
    fn again(&mut self, tries: u32) -> bool
        ensures limit { limit self.new ≡ limit self.old }
        ensures spent { OnFalse result (IsSpent (limit self.old) tries) }
        ensures falls { OnTrue result (left self.new (next_try tries) < left self.old tries) };
}

/// Gives up after a number of refused attempts. It can give up after one at the earliest, so 0 stands for 1.
#[derive(Clone, Copy, Debug)]
pub struct Bounded(pub u32);

impl Patience for Bounded {
    ghost use Rattle.std.specs.Prelude.{Some, max};

    ghost limit = { λ b. Some (max b.0 1) };

    ghost left = { λ b tries. max b.0 1 - tries };

    fn again(&mut self, tries: u32) -> bool {
        tries < self.0.max(1)
    }
}
