//! The program as a call over any source, sink and door.
ghost use Rattle.std.specs.Prelude.{◌≡◌, ◌↔◌, map, string_bytes, None};
ghost use Rattle.command_line.specs.Commands.{command};
ghost use Rattle.counts.specs.Counts.{Rose};
ghost use Rattle.worm.specs.Commands.{Did, OpensNothing, ReadsNothing, WritesNothing, ends};
ghost use Rattle.worm.specs.Runs.{IsStatus};

use crate::fills::run_fill;
use crate::lanes::run_lanes;
use crate::script::run_script;
use crate::servers::run_server;
use board_rule::Pass;
use command_line::{Command, read_command};
use map_model::Refusal;
use outside::{Door, Sink, Source};
use std::alloc::Global;
use std::sync::Wait;
use std::thread::Threads;

/// How a command ended, and the pass of its first lane, where an index was made. What the pass has seen are the calls
/// that were answered. Beside them stand how many calls were refused for another lane or for want of room, up to
/// 2^64 - 1, and the first lane's last such refusal.
///
/// | status | the command |
/// |---|---|
/// | 0 | is done |
/// | 2 | isn't one that the program knows |
/// | 3 | couldn't read its input |
/// | 4 | couldn't write its output |
/// | 5 | had no memory |
/// | 6 | couldn't listen, or accept a connection |
/// | 7 | took the most bytes of an input without another end |
#[derive(Drop)]
pub struct Outcome {
    pub status: u8,
    pub pass: Option<Pass>,
    pub refusals: u64,
    pub last: Option<Refusal>,
}

/// Carries out the command of these words, which are those after the program's name.
pub fn worm<R: Threads + Wait + Sync, S: Source, K: Sink, D: Door + Send>(
    rt: &R,
    alloc: Global,
    words: &Vec<String>,
    source: &mut S,
    sink: &mut K,
    door: &mut D,
) -> Outcome
    ensures words { (result.status ≡ 2) ↔ (command (map string_bytes words.now.items) ≡ None) }
    ensures unread { ReadsNothing (command (map string_bytes words.now.items)) → source.new ≡ source.old }
    ensures unwritten { WritesNothing (command (map string_bytes words.now.items)) → sink.new ≡ sink.old }
    ensures unopened { OpensNothing (command (map string_bytes words.now.items)) → door.new ≡ door.old }
    ensures status { IsStatus result.status }
    ensures did { Did (command (map string_bytes words.now.items)) result.status
        (ends (S.told source.old) (S.faults source.old) (K.written sink.old) (K.faults sink.old) (D.closed door.old) (D.opened door.old) (D.closings door.old))
        (ends (S.told source.new) (S.faults source.new) (K.written sink.new) (K.faults sink.new) (D.closed door.new) (D.opened door.new) (D.closings door.new))
        result.pass result.refusals result.last }
    ensures read_fault { result.status ≡ 3 → Rose (S.faults source.old) (S.faults source.new) }
    ensures write_fault { result.status ≡ 4 → Rose (K.faults sink.old) (K.faults sink.new) }
    ensures door_fault { result.status ≡ 6 → Rose (D.faults door.old) (D.faults door.new) }
{
    match read_command(words) {
        None => Outcome {
            status: 2,
            pass: None,
            refusals: 0,
            last: None,
        },
        Some(Command::Run { shape }) => run_script(alloc, &shape, source, sink),
        Some(
            Command::Lanes {
                count,
                tries,
                shape,
            },
        ) => run_lanes(rt, alloc, &shape, count, tries, source, sink),
        Some(
            Command::Serve {
                address,
                workers,
                sessions,
                shape,
            },
        ) => run_server(rt, alloc, &shape, address, workers, sessions, door),
        Some(
            Command::Fill {
                number,
                count,
                shape,
            },
        ) => run_fill(alloc, &shape, number, count, sink),
    }
}
