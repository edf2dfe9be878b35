//! A store that refuses calls by a list, for tests of what stands on ordered maps, and two runs of calls
//! over any ordered map that are proved from the trait's contracts alone.
#![tactic(auto)]

mod refusing;
mod walks;

pub use refusing::Refusing;
pub use walks::{put_then_get, walk};
