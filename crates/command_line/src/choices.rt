//! What the words of a command line choose.
ghost use Rattle.std.specs.Prelude.{◌≡◌, ◌≤◌, ◌^◌, ◌++◌, ℕ, [], ◌∷◌, map, length, string_bytes, List, MatchOption, SomeIff, IfSome, IsTrue, unwrap_or};
ghost use Rattle.row_words.specs.Shape.{IsShape};
ghost use Rattle.command_line.specs.Marks.{Chosen, marks};
ghost use Rattle.command_line.specs.Options.{is_shape, shape_with};
ghost use Rattle.command_line.specs.Commands.{command_of, command_for};
ghost use Rattle.command_line.specs.Verbs.{allows, suits};
ghost use Rattle.command_line.specs.Reading.{mark_of, list_of, number_at, IsRefused, Takes, IsNoCommand};

use crate::field::Field;
use crate::mark::{Mark, first_mark};
use crate::number::read_number;
use crate::verb::Verb;
use row_words::Shape;

/// The positional words so far: no command has more than two.
#[derive(Clone, Copy)]
pub(crate) enum Words<'a> {
    Absent,
    One(&'a str),
    Two(&'a str, &'a str),
}

impl<'a> Words<'a> {
    /// These words and one more.
    fn and(self, word: &'a str) -> Option<Words<'a>>
        ensures { MatchOption result (2 ≤ length (list_of self.entry))
            (λ words. list_of words ≡ list_of self.entry ++ word.now ∷ []) }
    {
        match self {
            Words::Absent => Some(Words::One(word)),
            Words::One(first) => Some(Words::Two(first, word)),
            Words::Two(_, _) => None,
        }
    }
}

/// What the words so far choose.
#[derive(Clone, Copy)]
pub(crate) struct Choices<'a> {
    /// The chosen numbers, each at the place of its field.
    pub(crate) numbers: [Option<u64>; 12],
    pub(crate) words: Words<'a>,
}

/// What words choose, or none where they are no command's behind any first word.
pub(crate) fn read_choices<'a>(words: &'a [String]) -> Option<Choices<'a>>
    ensures { let ms = marks (map string_bytes words.now) in MatchOption result (IsNoCommand ms)
        (λ c. (word : List ℕ) → command_of word ms ≡ command_for word (list_of c.words) (number_at c)) }
{
    let mut choices = Choices {
        numbers: [None; 12],
        words: Words::Absent,
    };
    let mut rest = words;
    while let [word, after @ ..] = rest {
        let (mark, after) = first_mark(word.as_str(), after);
        choices = choices.take(mark)?;
        rest = after;
    }
    Some(choices)
}

impl<'a> Choices<'a> {
    /// What is chosen with one more mark, or none where no command may have it.
    fn take(self, mark: Mark<'a>) -> Option<Choices<'a>>
        ensures { MatchOption result (IsRefused self.entry (mark_of mark.entry))
            (λ now. Takes self.entry (mark_of mark.entry) now) }
    {
        match mark {
            Mark::Positional(word) => {
                let words = self.words.and(word)?;
                Some(Choices {
                    numbers: self.numbers,
                    words,
                })
            }
            Mark::Chosen { name, value } => self.choose(name, value),
        }
    }

    /// What is chosen with one more option, or none where no command may have it.
    fn choose(self, name: &str, value: &str) -> Option<Choices<'a>>
        ensures { MatchOption result (IsRefused self.entry (Chosen name.now value.now))
            (λ now. Takes self.entry (Chosen name.now value.now) now) }
    {
        let field = Field::named(name)?;
        let place = field.place();
        let mut numbers = self.numbers;
        if numbers[place].is_some() {
            return None;
        }
        numbers[place] = Some(read_number(value)?);
        Some(Choices {
            numbers,
            words: self.words,
        })
    }

    /// The number that is chosen for a field.
    pub(crate) fn number(&self, field: Field) -> Option<u64>
        ensures { result ≡ number_at self.now field }
    {
        self.numbers[field.place()]
    }

    /// Whether a field has no number, or the command has its option.
    fn allows(&self, verb: Verb, field: Field) -> bool
        ensures { result ≡ allows verb (number_at self.now) field }
    {
        verb.has(field) || self.number(field).is_none()
    }

    /// Whether the command has all options that were chosen.
    pub(crate) fn suits(&self, verb: Verb) -> bool
        ensures { result ≡ suits verb (number_at self.now) }
    {
        self.allows(verb, Field::Tries)
            && self.allows(verb, Field::Workers)
            && self.allows(verb, Field::Sessions)
    }

    /// The number of a field that has 32 bits, unless what is chosen for it has more.
    fn small(&self, field: Field, standard: u32) -> Option<u32>
        ensures { let number = unwrap_or (number_at self.now field) standard in
            MatchOption result (2 ^ 32 ≤ number) (λ small. small ≡ number) }
    {
        match self.numbers[field.place()] {
            None => Some(standard),
            Some(number) => u32::try_from(number).ok(),
        }
    }

    /// The shape that has the chosen numbers, unless one of them is out of its range.
    pub(crate) fn shape(&self) -> Option<Shape>
        ensures value { let k = shape_with (number_at self.now) in SomeIff result (IsTrue (is_shape k)) k }
        ensures ranges { IfSome result IsShape }
    {
        let standard = Shape::standard();
        let shape = Shape {
            leaves: self.small(Field::Leaves, standard.leaves)?,
            items: self.small(Field::Items, standard.items)?,
            heads: self.small(Field::Heads, standard.heads)?,
            values: self.small(Field::Values, standard.values)?,
            lanes: self.small(Field::Lanes, standard.lanes)?,
            soft: self.small(Field::Soft, standard.soft)?,
            hard: self.small(Field::Hard, standard.hard)?,
            merge_sum: self.small(Field::MergeSum, standard.merge_sum)?,
            salt: self.numbers[Field::Salt.place()].unwrap_or(standard.salt),
        };
        match shape.check() {
            Ok(()) => Some(shape),
            Err(_) => None,
        }
    }
}
