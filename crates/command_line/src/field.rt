//! The numbers that options choose.
ghost use Rattle.std.specs.Prelude.{◌≡◌, ◌<◌, false, MatchOption};
ghost use Rattle.command_line.specs.Options.{is_known, name_of};
ghost use Rattle.command_line.specs.Places.{place_of};

/// A number that an option chooses: one of a shape, or one of a command.
#[derive(Clone, Copy, Debug, PartialEq, Eq)]
pub(crate) enum Field {
    Leaves,
    Items,
    Heads,
    Values,
    Lanes,
    Soft,
    Hard,
    MergeSum,
    Salt,
    Tries,
    Workers,
    Sessions,
}

impl Field {
    /// The field that an option chooses.
    pub(crate) fn named(name: &str) -> Option<Field>
        ensures { MatchOption result (is_known name.now ≡ false) (λ f. name.now ≡ name_of f) }
    {
        match name {
            "--leaves" => Some(Field::Leaves),
            "--items" => Some(Field::Items),
            "--heads" => Some(Field::Heads),
            "--values" => Some(Field::Values),
            "--lanes" => Some(Field::Lanes),
            "--soft" => Some(Field::Soft),
            "--hard" => Some(Field::Hard),
            "--merge-sum" => Some(Field::MergeSum),
            "--salt" => Some(Field::Salt),
            "--tries" => Some(Field::Tries),
            "--workers" => Some(Field::Workers),
            "--sessions" => Some(Field::Sessions),
            _ => None,
        }
    }

    /// Its place among the twelve.
    pub(crate) fn place(self) -> usize
        ensures place { result ≡ place_of self }
        ensures below { result < 12 }
    {
        match self {
            Field::Leaves => 0,
            Field::Items => 1,
            Field::Heads => 2,
            Field::Values => 3,
            Field::Lanes => 4,
            Field::Soft => 5,
            Field::Hard => 6,
            Field::MergeSum => 7,
            Field::Salt => 8,
            Field::Tries => 9,
            Field::Workers => 10,
            Field::Sessions => 11,
        }
    }
}
