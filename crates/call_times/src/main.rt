//! Times the calls of the index on one thread beside those of a lane of the shared index, with the same keys.
//!
//! `call_times ROUNDS KEYS CALLS` puts so many web addresses of 44 bytes into both, out of order, and then makes so many
//! calls of each kind in each round. It prints a line for each: its name, the nanoseconds of the one and those of the
//! other, and `same` where both found the same. Without these three numbers it does nothing.
#![tactic(auto)]

mod calls;
mod keys;
mod searches;

use std::alloc::Global;
use std::rt::Clock;
use std::{env, io};

/// How much is done.
#[derive(Drop)]
pub struct Plan {
    pub rounds: u32,
    /// How many keys are put.
    pub keys: u32,
    /// How many calls of a kind a round makes.
    pub calls: u32,
}

// The number of a word of the command line, and 0 where it is none.
fn number(words: &Vec<String>, i: usize) -> u32 {
    match words.get(i) {
        Some(word) => word.parse::<u32>().unwrap_or(0),
        None => 0,
    }
}

fn main(rt: HostRuntime) -> io::Result<()> {
    let words: Vec<String> = env::args(&rt)?.collect(rt.alloc())?;
    let plan = Plan {
        rounds: number(&words, 1),
        keys: number(&words, 2),
        calls: number(&words, 3),
    };
    time_all(&rt, rt.alloc(), &plan)
}

fn time_all<R: Clock + Print>(rt: &R, alloc: Global, plan: &Plan) -> io::Result<()> {
    if plan.keys == 0 {
        return Ok(());
    }
    calls::time_calls(rt, alloc, plan)?;
    searches::time_searches(rt, alloc, plan)
}
