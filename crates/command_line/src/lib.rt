//! The words after a program's name, read as a command.
#![tactic(auto)]

mod choices;
mod command;
mod field;
mod laws;
mod mark;
mod number;
mod verb;

pub use command::{
    Command, LONGEST_ADDRESS, MOST_LINES, MOST_TRIES, STANDARD_WORKERS, read_command,
};
pub use laws::{any_order, both_forms, same_ranges, worked_lines};
