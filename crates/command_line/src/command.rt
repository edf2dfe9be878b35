//! The command of a command line.
ghost use Rattle.std.specs.Prelude.{◌≡◌, ◌≤◌, map, string_bytes, IfSome, IsTrue, SomeIff};
ghost use Rattle.std.specs.Int.{is_in_range};
ghost use Rattle.row_words.specs.Shape.{IsShape};
ghost use Rattle.command_line.specs.Marks.{marks};
ghost use Rattle.command_line.specs.Commands.{command, command_of, command_for, command_with, run, lanes, serve, fill, count_of, tries_of, workers_of, told_by, InRange};
ghost use Rattle.command_line.specs.Reading.{list_of, number_at};
ghost use Rattle.command_line.specs.declared.field.Field.TheVariants.{Tries, Workers};

use crate::choices::{Choices, Words, read_choices};
use crate::field::Field;
use crate::number::read_number;
use crate::verb::Verb;
use row_words::Shape;

/// How many lines a fill has at most.
pub const MOST_LINES: u64 = 1_000_000;

/// How often a lane tries a call at most, where a number of tries is chosen.
pub const MOST_TRIES: u32 = 1_000_000;

/// How many bytes an address has at most.
pub const LONGEST_ADDRESS: usize = 255;

/// How many workers serve where no number is chosen and there are as many lanes.
pub const STANDARD_WORKERS: u32 = 4;

/// What a program is asked for.
#[derive(Clone, Copy, Debug, PartialEq, Eq)]
pub enum Command<'a> {
    /// To serve the requests of its input.
    Run {
        shape: Shape,
    },
    /// To serve the requests of its input by so many lanes at once, to which its lines are given. A call that
    /// another lane refuses is tried so often, or without end.
    Lanes {
        count: u32,
        tries: Option<u32>,
        shape: Shape,
    },
    /// To serve the connections that come to an address, by so many workers, until so many sessions have ended. 0 is
    /// no bound.
    Serve {
        address: &'a str,
        workers: u32,
        sessions: u64,
        shape: Shape,
    },
    /// To serve `count` lines that are made from `number`.
    Fill {
        number: u64,
        count: u32,
        shape: Shape,
    },
}

/// The command of the words after a program's name, or none where they aren't one.
///
/// The first word names the command. After it come positional words and options, in any order: `run` has no
/// positional word, `lanes` one, the number of lanes, `serve` one, an address, and `fill` two, NUMBER and COUNT. An
/// option is `--name value` in two words or `--name=value` in one. Beside the options of a shape `lanes` has `--tries`,
/// and `serve` has `--workers` and `--sessions`.
pub fn read_command<'a>(words: &'a Vec<String>) -> Option<Command<'a>>
    ensures command { told_by result ≡ command (map string_bytes words.now.items) }
    ensures range { IfSome result InRange }
{
    match words.as_slice() {
        [word, rest @ ..] => read_rest(word.as_str(), rest),
        [] => None,
    }
}

/// The command of a first word and those after it.
fn read_rest<'a>(word: &str, rest: &'a [String]) -> Option<Command<'a>>
    ensures command { told_by result ≡ command_of word.now (marks (map string_bytes rest.now)) }
    ensures range { IfSome result InRange }
{
    let choices = read_choices(rest)?;
    chosen_command(word, &choices)
}

/// The command of a first word and of what those after it choose.
fn chosen_command<'a>(word: &str, choices: &Choices<'a>) -> Option<Command<'a>>
    ensures command { told_by result ≡ command_for word.now (list_of choices.now.words) (number_at choices.now) }
    ensures range { IfSome result InRange }
{
    let verb = Verb::named(word)?;
    let shape = choices.shape()?;
    if choices.suits(verb) {
        verb_command(verb, choices, shape)
    } else {
        None
    }
}

/// The command that is named, of this shape, with its own words and options.
fn verb_command<'a>(verb: Verb, choices: &Choices<'a>, shape: Shape) -> Option<Command<'a>>
    requires { IsShape shape }
    ensures command { told_by result ≡ command_with verb (list_of choices.now.words) (number_at choices.now) shape }
    ensures range { IfSome result InRange }
{
    match verb {
        Verb::Run => run(choices.words, shape),
        Verb::Lanes => lanes(choices, shape),
        Verb::Serve => serve(choices, shape),
        Verb::Fill => fill(choices.words, shape),
    }
}

/// The command `run`, which has no positional word.
fn run<'a>(words: Words<'a>, shape: Shape) -> Option<Command<'a>>
    requires { IsShape shape }
    ensures command { told_by result ≡ run (list_of words.entry) shape }
    ensures range { IfSome result InRange }
{
    match words {
        Words::Absent => Some(Command::Run { shape }),
        _ => None,
    }
}

/// The command `lanes`, which has one.
fn lanes<'a>(choices: &Choices<'a>, shape: Shape) -> Option<Command<'a>>
    requires { IsShape shape }
    ensures command { told_by result ≡ lanes (list_of choices.now.words) (number_at choices.now Tries) shape }
    ensures range { IfSome result InRange }
{
    match choices.words {
        Words::One(word) => {
            let count = within(read_number(word)?, shape.lanes)?;
            let tries = tries(choices.number(Field::Tries))?;
            Some(Command::Lanes {
                count,
                tries,
                shape,
            })
        }
        _ => None,
    }
}

/// The command `serve`, which has one.
fn serve<'a>(choices: &Choices<'a>, shape: Shape) -> Option<Command<'a>>
    requires { IsShape shape }
    ensures command { told_by result ≡ serve (list_of choices.now.words) (number_at choices.now) shape }
    ensures range { IfSome result InRange }
{
    match choices.words {
        Words::One(address) => {
            if address.is_empty() || address.len() > LONGEST_ADDRESS {
                return None;
            }
            let workers = workers(choices.number(Field::Workers), shape.lanes)?;
            let sessions = choices.number(Field::Sessions).unwrap_or(0);
            Some(Command::Serve {
                address,
                workers,
                sessions,
                shape,
            })
        }
        _ => None,
    }
}

/// The command `fill`, which has two.
fn fill<'a>(words: Words<'a>, shape: Shape) -> Option<Command<'a>>
    requires { IsShape shape }
    ensures command { told_by result ≡ fill (list_of words.entry) shape }
    ensures range { IfSome result InRange }
{
    match words {
        Words::Two(number, count) => {
            let number = read_number(number)?;
            let count = read_count(count)?;
            Some(Command::Fill {
                number,
                count,
                shape,
            })
        }
        _ => None,
    }
}

/// How many lines a word asks for.
fn read_count(word: &str) -> Option<u32>
    ensures { result ≡ count_of word.now }
{
    match read_number(word) {
        Some(count) if count <= MOST_LINES => u32::try_from(count).ok(),
        _ => None,
    }
}

/// A number from 1 to a greatest one.
fn within(number: u64, most: u32) -> Option<u32>
    ensures { SomeIff result (IsTrue (is_in_range 1 most number)) number }
{
    match u32::try_from(number) {
        Ok(number) if number >= 1 && number <= most => Some(number),
        _ => None,
    }
}

/// How often a call is tried, or none where it is tried without end. None at all where the number is out of range.
fn tries(chosen: Option<u64>) -> Option<Option<u32>>
    ensures { result ≡ tries_of chosen }
{
    match chosen {
        None => Some(None),
        Some(number) => match within(number, MOST_TRIES) {
            Some(number) => Some(Some(number)),
            None => None,
        },
    }
}

/// How many workers there are: as many as was chosen, or 4 where there are as many lanes.
fn workers(chosen: Option<u64>, lanes: u32) -> Option<u32>
    requires { 1 ≤ lanes }
    ensures { SomeIff result (IsTrue (is_in_range 1 lanes (workers_of chosen lanes))) (workers_of chosen lanes) }
{
    match chosen {
        None => Some(STANDARD_WORKERS.min(lanes)),
        Some(number) => within(number, lanes),
    }
}
