//! Two places whose values are taken out at the same time.
ghost use Rattle.std.specs.Prelude.{◌≡◌};

use core::mem;

/// Takes two values out of their places for `f`, and leaves what it gives back.
pub(crate) fn replace_both<S, T, X, R, F: FnOnce(S, T, X) -> (S, T, R)>(
    first: &mut S,
    second: &mut T,
    given: X,
    f: F,
) -> R
    requires { F.pre f first.old second.old given }
    ensures { F.post f first.old second.old given (first.new, second.new, result) }
{
    let (back, result) = mem::replace_with(
        first,
        Lent { second, given, f },
        |first, lent| lent.run(first),
    );
    take_back(back);
    result
}

// The second place, while the value of the first one is out of its own.
struct Lent<'a, T, X, F> {
    second: &'a mut T,
    given: X,
    f: F,
}

impl<'a, T, X, F> Lent<'a, T, X, F> {
    // The place comes back, so that it's known what was left in it.
    fn run<S, R>(self, first: S) -> (S, (&'a mut T, R))
    where
        F: FnOnce(S, T, X) -> (S, T, R),
        requires { F.pre self.f first self.second.now self.given }
        ensures place { result.1.0.ghost_name ≡ self.entry.second.ghost_name }
        ensures called { F.post self.entry.f first self.entry.second.now self.entry.given
            (result.0, result.1.0.now, result.1.1) }
    {
        let Lent { second, given, f } = self;
        let (first, answer) = mem::replace_with(
            second,
            (first, given, f),
            |second, (first, given, f)| -> (T, (S, R))
                requires { F.pre f first second given }
                ensures { F.post f first second given (result.1.0, result.0, result.1.1) }
            {
                let (first, second, answer) = f(first, second, given);
                (second, (first, answer))
            },
        );
        (first, (second, answer))
    }
}

// Ties a reference that comes back to the place that it was lent by.
fn take_back<T>(place: &mut T)
    ensures { place.new ≡ place.old }
{}
