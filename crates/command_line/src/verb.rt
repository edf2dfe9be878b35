//! The commands by their names, and the options of each.
ghost use Rattle.std.specs.Prelude.{◌≡◌};
ghost use Rattle.command_line.specs.Verbs.{verb_of, has};

use crate::field::Field;

/// Which command it is.
#[derive(Clone, Copy, Debug, PartialEq, Eq)]
pub(crate) enum Verb {
    Run,
    Lanes,
    Serve,
    Fill,
}

impl Verb {
    /// The command that a word names.
    pub(crate) fn named(word: &str) -> Option<Verb>
        ensures { result ≡ verb_of word.now }
    {
        if word == "run" {
            Some(Verb::Run)
        } else if word == "lanes" {
            Some(Verb::Lanes)
        } else if word == "serve" {
            Some(Verb::Serve)
        } else if word == "fill" {
            Some(Verb::Fill)
        } else {
            None
        }
    }

    /// Whether the command has this option. Those of a shape are every command's.
    pub(crate) fn has(self, option: Field) -> bool
        ensures { result ≡ has self option }
    {
        match option {
            Field::Tries => matches!(self, Verb::Lanes),
            Field::Workers | Field::Sessions => matches!(self, Verb::Serve),
            _ => true,
        }
    }
}
