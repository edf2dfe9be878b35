//! An input that is read whole, dealt to lanes and answered by all of them at once.
#![tactic(auto)]

mod input;
mod run;
mod texts;

pub use input::{InputFault, WHOLE_INPUT, read_input};
pub use run::{LanesEnd, answer_input};
