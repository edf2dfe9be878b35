//! How often a call that another lane hinders is made again, and the calls of a store made so.
#![tactic(auto)]

mod attempts;
mod endless;
mod limits;
mod scans;

pub use attempts::{del_patiently, get_patiently, part_patiently, put_patiently};
pub use endless::Endless;
pub use limits::{Bounded, Patience};
pub use scans::scan_patiently;
