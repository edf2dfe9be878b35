//! Words, cut into positional words and options.
ghost use Rattle.std.specs.Prelude.{◌≡◌, ◌≤◌, ◌∷◌, map, length, string_bytes};
ghost use Rattle.command_line.specs.Marks.{mark, marks};
ghost use Rattle.command_line.specs.Reading.{mark_of};

/// A positional word, or an option.
#[derive(Clone, Copy)]
pub(crate) enum Mark<'a> {
    Positional(&'a str),
    Chosen { name: &'a str, value: &'a str },
}

/// The first mark of a word and those behind it, and the words after that mark.
pub(crate) fn first_mark<'a>(word: &'a str, rest: &'a [String]) -> (Mark<'a>, &'a [String])
    ensures first { marks (word.now ∷ map string_bytes rest.now)
        ≡ mark_of result.0 ∷ marks (map string_bytes result.1.now) }
    ensures fewer { length result.1.now ≤ length rest.now }
{
    if !word.starts_with('-') {
        return (Mark::Positional(word), rest);
    }
    if let Some((name, value)) = word.split_once('=') {
        return (Mark::Chosen { name, value }, rest);
    }
    match rest {
        [value, rest @ ..] => {
            let value = value.as_str();
            (Mark::Chosen { name: word, value }, rest)
        }
        [] => (
            Mark::Chosen {
                name: word,
                value: "",
            },
            rest,
        ),
    }
}
