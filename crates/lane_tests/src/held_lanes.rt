//! Gates that hold a lane until another has gone on.
ghost use Rattle.std.specs.Prelude.{◌<◌};

use lane_runner::run_lanes;
use lane_stores::SharedMap;
use outside::Gate;
use session::Endless;
use std::alloc::{AllocError, Global};
use std::sync::Wait;
use std::sync::atomic::{AtomicBool, Ordering};
use std::test::*;
use std::thread;
use std::thread::Threads;

// How often the gate looks before it gives up.
const TURNS: u32 = 1_000_000;

// Holds the first call of lane 0 until the second call of lane 1 is answered, and keeps whether it saw that.
#[derive(Drop)]
struct Held {
    answered: AtomicBool,
    seen: AtomicBool,
}

// Whether a flag comes to be set within so many turns.
fn comes(flag: &AtomicBool) -> bool {
    for _ in 0..TURNS {
        if flag.load(Ordering::SeqCst) {
            return true;
        }
        thread::yield_now();
    }
    false
}

impl Gate for Held {
    fn before(&self, lane: u32, number: u64) {
        if lane == 0 && number == 1 {
            self.seen.store(comes(&self.answered), Ordering::SeqCst);
        }
    }

    fn after(&self, lane: u32, number: u64) {
        if lane == 1 && number == 2 {
            self.answered.store(true, Ordering::SeqCst);
        }
    }
}

// Holds the first call of lane 1 until lane 2 has come to its own, and the other way round, and keeps whether each
// saw the other come.
#[derive(Drop)]
struct Meeting {
    one_came: AtomicBool,
    two_came: AtomicBool,
    one_saw: AtomicBool,
    two_saw: AtomicBool,
}

impl Gate for Meeting {
    fn before(&self, lane: u32, number: u64) {
        if lane == 1 && number == 1 {
            self.one_came.store(true, Ordering::SeqCst);
            self.one_saw.store(comes(&self.two_came), Ordering::SeqCst);
        }
        if lane == 2 && number == 1 {
            self.two_came.store(true, Ordering::SeqCst);
            self.two_saw.store(comes(&self.one_came), Ordering::SeqCst);
        }
    }

    fn after(&self, _lane: u32, _number: u64) {}
}

// A script of two gets for each lane.
fn scripts(alloc: Global, lanes: u32) -> Result<Vec<Vec<u8>>, AllocError> {
    let mut scripts = Vec::new(alloc);
    for _ in 0..lanes {
        scripts.push(b"GET a\nGET b\n".to_vec(alloc)?)?;
    }
    Ok(scripts)
}

// Whether so many lanes of an empty map answer their scripts of gets round this gate. A call that meets another lane
// is tried again without end.
fn finish<R: Threads + Wait + Sync, G: Gate>(rt: &R, alloc: Global, lanes: u32, gate: &G) -> bool
    requires { 0 < lanes }
{
    let Ok((map, first)) = SharedMap::make(alloc, lanes) else {
        return false;
    };
    let mut first = map.first_lane(first);
    let Ok(scripts) = scripts(alloc, lanes) else {
        return false;
    };
    if scripts.is_empty() {
        return false;
    }
    match run_lanes(rt, alloc, scripts, &mut first, gate, Endless::new(rt)) {
        Ok(ends) => ends
            .iter()
            .all(|end| end.output.get() == b"NONE\nNONE\n".as_slice()),
        Err(_) => false,
    }
}

// Whether the first lane's first call comes to see the second lane's second one answered. Lanes that run one after
// another never let it.
fn run_at_once<R: Threads + Wait + Sync>(rt: &R, alloc: Global) -> bool {
    let gate = Held {
        answered: AtomicBool::new(false),
        seen: AtomicBool::new(false),
    };
    finish(rt, alloc, 2, &gate) && gate.seen.load(Ordering::SeqCst)
}

// Whether the first calls of two forks come to see each other. Forks that run one after another never let them.
fn forks_meet<R: Threads + Wait + Sync>(rt: &R, alloc: Global) -> bool {
    let gate = Meeting {
        one_came: AtomicBool::new(false),
        two_came: AtomicBool::new(false),
        one_saw: AtomicBool::new(false),
        two_saw: AtomicBool::new(false),
    };
    finish(rt, alloc, 3, &gate)
        && gate.one_saw.load(Ordering::SeqCst)
        && gate.two_saw.load(Ordering::SeqCst)
}

#[test]
fn two_lanes_run_at_once(rt: HostRuntime) {
    assert!(rt; run_at_once(&rt, rt.alloc()));
}

#[test]
fn two_forks_run_at_once(rt: HostRuntime) {
    assert!(rt; forks_meet(&rt, rt.alloc()));
}
