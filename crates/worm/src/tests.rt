//! Commands over sources, sinks and doors in memory.
use super::fault_text;
use crate::top::{Outcome, worm};
use map_model::{Full, Refusal, TableFull};
use outside::{MemDoor, MemSink, MemSource, Source};
use std::alloc::{AllocError, Global};
use std::process::Abort;
use std::sync::Wait;
use std::thread::Threads;

// Requests, and the lines that answer them.
const SCRIPTS: [(&[u8], &[u8]); 10] = [
    (b"", b""),
    (b"PUT a 1\nGET a\n", b"NEW\nVALUE 1\n"),
    (
        b"GET a\nPUT a \nGET a\nPUT a 2\nDEL a\nDEL a\n",
        b"NONE\nNEW\nVALUE \nSET\nGONE\nNONE\n",
    ),
    (
        b"PUT Jos 1\nPUT Jo 2\nPUT J 3\nSCAN * * 10\n",
        b"NEW\nNEW\nNEW\nPAIR J 3\nPAIR Jo 2\nPAIR Jos 1\nEND 3\n",
    ),
    (
        b"PUT Jos 1\nPUT Jo 2\nPUT J 3\nSCAN Jo Jos 10\nSCAN Jos Jo 10\nSCAN * * 0\n",
        b"NEW\nNEW\nNEW\nPAIR Jo 2\nEND 1\nEND 0\nEND 0\n",
    ),
    (b"PUT %00 %FF\nSCAN * * 1\n", b"NEW\nPAIR %00 %FF\nEND 1\n"),
    (b"PUT %zz *\nGET %25zz\n", b"NEW\nVALUE %2A\n"),
    (b"PUT a 1\r\n\nGET a", b"NEW\nVALUE 1\n"),
    (
        b"get a\nGET\nGET \nSCAN a b x\nSCAN a b 1000001\nQUIT now\nQUIT\nGET a\n",
        b"ERR 1 command\nERR 2 words\nERR 3 key\nERR 5 limit\nERR 5 limit\nERR 2 words\nBYE\n",
    ),
    (b"QUIT\nPUT", b"BYE\n"),
];

// The first bytes of requests, a word that stands behind them so many times, the other bytes, and the answers.
const LONG_WORDS: [(&[u8], &[u8], usize, &[u8], &[u8]); 10] = [
    (b"PUT ", b"x", 255, b" 1\n", b"NEW\n"),
    (b"PUT ", b"x", 256, b" 1\n", b"ERR 3 key\n"),
    (b"PUT a ", b"x", 1024, b"\n", b"NEW\n"),
    (b"PUT a ", b"x", 1025, b"\n", b"ERR 4 value\n"),
    (b"PUT ", b"%78", 255, b" 1\n", b"NEW\n"),
    (b"PUT ", b"%78", 256, b" 1\n", b"ERR 3 key\n"),
    (b"PUT a ", b"%78", 1024, b"\n", b"NEW\n"),
    (b"PUT a ", b"%78", 1025, b"\n", b"ERR 4 value\n"),
    (b"GET ", b"x", 4092, b"\nGET a\n", b"ERR 3 key\nNONE\n"),
    (b"GET ", b"x", 4093, b"\nGET a\n", b"ERR 6 line\nNONE\n"),
];

fn words(alloc: Global, texts: &[&str]) -> Result<Vec<String>, AllocError> {
    let mut words = Vec::new(alloc);
    for text in texts {
        words.push(String::from_str(alloc, text)?)?;
    }
    Ok(words)
}

// The ends of a command over an input that is read in pieces, and of whose reads and writes some fail. Its door has no
// connections.
#[derive(Drop)]
struct Ends {
    source: MemSource,
    sink: MemSink,
    door: MemDoor,
}

impl Ends {
    fn new(
        alloc: Global,
        input: &[u8],
        piece: usize,
        reads: &[u64],
        writes: &[u64],
    ) -> Result<Ends, AllocError> {
        Ok(Ends {
            source: MemSource::new(alloc, input, piece.max(1), reads)?,
            sink: MemSink::new(alloc, writes)?,
            door: MemDoor::new(alloc, Vec::new(alloc), &[])?,
        })
    }
}

// Whether a command ends with this status and writes this.
fn ends_so<R: Threads + Wait + Sync>(
    rt: &R,
    alloc: Global,
    texts: &[&str],
    mut ends: Ends,
    status: u8,
    want: &[u8],
) -> bool {
    let Ok(words) = words(alloc, texts) else {
        return false;
    };
    let outcome = worm(
        rt,
        alloc,
        &words,
        &mut ends.source,
        &mut ends.sink,
        &mut ends.door,
    );
    outcome.status == status && ends.sink.bytes() == want
}

// Whether a command does all of its input, and writes this.
fn writes<R: Threads + Wait + Sync>(
    rt: &R,
    alloc: Global,
    texts: &[&str],
    input: &[u8],
    piece: usize,
    want: &[u8],
) -> bool {
    match Ends::new(alloc, input, piece, &[], &[]) {
        Ok(ends) => ends_so(rt, alloc, texts, ends, 0, want),
        Err(_) => false,
    }
}

// Whether a script has these answers, in small pieces and in large ones.
fn answers<R: Threads + Wait + Sync>(rt: &R, alloc: Global, script: &[u8], want: &[u8]) -> bool {
    writes(rt, alloc, &["run"], script, 1, want) && writes(rt, alloc, &["run"], script, 4096, want)
}

fn repeated(
    alloc: Global,
    front: &[u8],
    word: &[u8],
    count: usize,
    back: &[u8],
) -> Result<Vec<u8>, AllocError> {
    let mut bytes = front.to_vec(alloc)?;
    for _ in 0..count {
        bytes.extend_from_slice(word)?;
    }
    bytes.extend_from_slice(back)?;
    Ok(bytes)
}

fn answers_scripts<R: Threads + Wait + Sync>(rt: &R, alloc: Global) -> bool {
    SCRIPTS
        .iter()
        .all(|(script, want)| answers(rt, alloc, script, want))
}

fn answers_long_words<R: Threads + Wait + Sync>(rt: &R, alloc: Global) -> bool {
    LONG_WORDS.iter().all(|(front, word, count, back, want)| {
        match repeated(alloc, front, word, *count, back) {
            Ok(script) => answers(rt, alloc, &script, want),
            Err(_) => false,
        }
    })
}

#[test]
fn scripts_are_answered_however_they_are_read(rt: HostRuntime) {
    assert!(rt; answers_scripts(&rt, rt.alloc()));
    assert!(rt; answers_long_words(&rt, rt.alloc()));
}

// Whether a read that fails, and a write that does, ends a run with its status.
fn tells_faults<R: Threads + Wait + Sync>(rt: &R, alloc: Global) -> bool {
    let reading = Ends::new(alloc, b"PUT a 1\nGET a\nGE", 4096, &[2], &[]);
    let writing = Ends::new(alloc, b"PUT a 1\nGET a\n", 4096, &[], &[1]);
    match (reading, writing) {
        (Ok(reading), Ok(writing)) => {
            ends_so(rt, alloc, &["run"], reading, 3, b"NEW\nVALUE 1\n")
                && ends_so(rt, alloc, &["run"], writing, 4, b"")
        }
        _ => false,
    }
}

// Words that are no command.
const NO_COMMANDS: [&[&str]; 11] = [
    &[],
    &["walk"],
    &["lanes", "0"],
    &["lanes", "17"],
    &["run", "extra"],
    &["Run"],
    &["run "],
    &["run", "--soft", "3"],
    &["run", "--lanes", "65"],
    &["run", "--soft", "64", "--soft", "64"],
    &["serve", "x", "--workers", "17"],
];

// Whether words are no command, and nothing is read, written or returned.
fn is_no_command<R: Threads + Wait + Sync>(rt: &R, alloc: Global, texts: &[&str]) -> bool {
    let (Ok(words), Ok(mut ends)) = (
        words(alloc, texts),
        Ends::new(alloc, b"GET a\n", 9, &[], &[]),
    ) else {
        return false;
    };
    let outcome = worm(
        rt,
        alloc,
        &words,
        &mut ends.source,
        &mut ends.sink,
        &mut ends.door,
    );
    outcome.status == 2
        && outcome.pass.is_none()
        && ends.source.read(&mut [0; 9]) == Ok(6)
        && ends.sink.bytes().is_empty()
}

fn knows_its_commands<R: Threads + Wait + Sync>(rt: &R, alloc: Global) -> bool {
    NO_COMMANDS
        .iter()
        .all(|texts| is_no_command(rt, alloc, texts))
}

#[test]
fn faults_and_other_words_end_with_their_statuses(rt: HostRuntime) {
    assert!(rt; tells_faults(&rt, rt.alloc()));
    assert!(rt; knows_its_commands(&rt, rt.alloc()));
}

// Commands, their inputs, and what they write; of fills it is what another program's map answered to the same lines.
const COMMANDS: [(&[&str], &[u8], &[u8]); 5] = [
    (
        &["lanes", "2"],
        b"0 PUT a 1\n1 PUT b 2\n0 GET a\n1 GET b\n2 GET a\n",
        b"ERR 7 lane\nLANE 0\nNEW\nVALUE 1\nLANE 1\nNEW\nVALUE 2\n",
    ),
    (
        &[
            "run",
            "--leaves",
            "1",
            "--soft",
            "2",
            "--hard",
            "3",
            "--merge-sum",
            "1",
        ],
        b"PUT a 1\nPUT b 1\nPUT c 1\nPUT d 1\nPUT a 9\nDEL a\nPUT d 1\n",
        b"NEW\nNEW\nNEW\nFULL crowded 3 3\nSET\nGONE\nNEW\n",
    ),
    (
        &["fill", "1", "1"],
        b"",
        b"LINES 1\nNEW 1\nSET 0\nVALUE 0\nNONE 0\nGONE 0\nPAIR 0\nEND 0\nFULL 0\nNOMEM 0\n",
    ),
    (
        &["fill", "1", "0"],
        b"",
        b"LINES 0\nNEW 0\nSET 0\nVALUE 0\nNONE 0\nGONE 0\nPAIR 0\nEND 0\nFULL 0\nNOMEM 0\n",
    ),
    (
        &["fill", "7", "5000"],
        b"",
        b"LINES 5000\nNEW 2242\nSET 264\nVALUE 198\nNONE 1911\nGONE 74\nPAIR 6052\nEND 311\nFULL 0\nNOMEM 0\n",
    ),
];

// Whether each of the commands writes what it should.
fn writes_all<R: Threads + Wait + Sync>(rt: &R, alloc: Global) -> bool {
    COMMANDS.iter().all(|(texts, input, want)| writes(rt, alloc, texts, input, 4096, want))
}

// A web address.
fn address(alloc: Global, i: u32) -> Result<String, AllocError> {
    format!(in alloc; "http://host{:02}.example/path/{i:06}/index.html", i % 50)
}

// Puts of 5,000 addresses, gets of all but ten of them, and a scan of each of ten hosts; and the answers.
fn addresses(alloc: Global) -> Result<(Vec<u8>, Vec<u8>), AllocError> {
    let mut script = Vec::new(alloc);
    let mut want = Vec::new(alloc);
    for i in 0..5000u32 {
        script.extend_from_slice(format!(in alloc;
            "PUT {} {i}\n",
            address(alloc, i)?
        )?.as_bytes())?;
        want.extend_from_slice(b"NEW\n")?;
    }
    for i in 0..4990u32 {
        script.extend_from_slice(format!(in alloc; "GET {}\n", address(alloc, i)?)?.as_bytes())?;
        want.extend_from_slice(format!(in alloc; "VALUE {i}\n")?.as_bytes())?;
    }
    for host in 0..10u32 {
        let scan = format!(in alloc;
            "SCAN http://host{host:02} http://host{:02} 200\n",
            host + 1
        )?;
        script.extend_from_slice(scan.as_bytes())?;
        for turn in 0..100u32 {
            let i = turn * 50 + host;
            want.extend_from_slice(format!(in alloc;
                "PAIR {} {i}\n",
                address(alloc, i)?
            )?.as_bytes())?;
        }
        want.extend_from_slice(b"END 100\n")?;
    }
    Ok((script, want))
}

fn answers_addresses<R: Threads + Wait + Sync>(rt: &R, alloc: Global) -> bool {
    match addresses(alloc) {
        Ok((script, want)) => writes(rt, alloc, &["run"], &script, 4096, &want),
        Err(_) => false,
    }
}

#[test]
fn commands_write_what_they_should(rt: HostRuntime) {
    assert!(rt; writes_all(&rt, rt.alloc()));
    assert!(rt; answers_addresses(&rt, rt.alloc()));
}

// The outcome of a command over an input that is read whole, and what it wrote.
fn outcome_of<R: Threads + Wait + Sync>(
    rt: &R,
    alloc: Global,
    texts: &[&str],
    input: &[u8],
) -> Result<(Outcome, MemSink), AllocError> {
    let words = words(alloc, texts)?;
    let mut ends = Ends::new(alloc, input, 4096, &[], &[])?;
    let outcome = worm(
        rt,
        alloc,
        &words,
        &mut ends.source,
        &mut ends.sink,
        &mut ends.door,
    );
    Ok((outcome, ends.sink))
}

// How many lines of an output begin so.
fn lines_of(output: &[u8], front: &[u8]) -> u64 {
    let mut count = 0u64;
    for line in output.split(|&byte| byte == b'\n') {
        if line.starts_with(front) {
            count = count.saturating_add(1);
        }
    }
    count
}

// Whether a run tells how many puts had no room, and why the last one hadn't.
fn tells_refusals<R: Threads + Wait + Sync>(rt: &R, alloc: Global) -> bool {
    let texts = [
        "run",
        "--leaves",
        "1",
        "--soft",
        "2",
        "--hard",
        "3",
        "--merge-sum",
        "1",
    ];
    let full = Refusal::Full(Full::Crowded {
        count: 3,
        hard: 3,
        why: TableFull::Leaves { used: 1, cap: 1 },
    });
    match outcome_of(
        rt,
        alloc,
        &texts,
        b"PUT a 1\nPUT b 1\nPUT c 1\nPUT d 1\nGET a\nPUT e 1\nDEL a\n",
    ) {
        Ok((outcome, _)) => outcome.refusals == 2 && outcome.last == Some(full),
        Err(_) => false,
    }
}

// Lines for four lanes, which put and take out the same few keys.
fn crossing(alloc: Global) -> Result<Vec<u8>, AllocError> {
    let mut input = Vec::new(alloc);
    for i in 0..2000u32 {
        input.extend_from_slice(format!(in alloc; "{} PUT k{} {i}\n", i % 4, i % 5)?.as_bytes())?;
        input.extend_from_slice(format!(in alloc; "{} DEL k{}\n", i % 4, i % 3)?.as_bytes())?;
    }
    Ok(input)
}

// Whether lanes that try a call so often before they give it up have been refused so often for each line AGAIN.
fn tries_so_often<R: Threads + Wait + Sync>(
    rt: &R,
    alloc: Global,
    input: &[u8],
    word: &str,
    tries: u64,
) -> bool {
    match outcome_of(rt, alloc, &["lanes", "4", "--tries", word], input) {
        Ok((outcome, sink)) => {
            let given_up = lines_of(sink.bytes(), b"AGAIN ");
            outcome.status == 0 && given_up.saturating_mul(tries) <= outcome.refusals
        }
        Err(_) => false,
    }
}

fn tries_as_told<R: Threads + Wait + Sync>(rt: &R, alloc: Global) -> bool {
    match crossing(alloc) {
        Ok(input) => {
            tries_so_often(rt, alloc, &input, "1", 1)
                && tries_so_often(rt, alloc, &input, "1000", 1000)
        }
        Err(_) => false,
    }
}

#[test]
fn an_outcome_tells_of_refusals(rt: HostRuntime) {
    assert!(rt; tells_refusals(&rt, rt.alloc()));
    assert!(rt; tries_as_told(&rt, rt.alloc()));
}

// A door with two clients, of whose calls some fail.
fn door_of_two(alloc: Global, fails: &[u64]) -> Result<MemDoor, AllocError> {
    let mut inputs = Vec::new(alloc);
    inputs.push(b"PUT a 1".to_vec(alloc)?)?;
    inputs.push(b"GET a".to_vec(alloc)?)?;
    MemDoor::new(alloc, inputs, fails)
}

// Whether a server of two clients by one worker ends with this status, and returns a pass where it should.
fn serves<R: Threads + Wait + Sync>(
    rt: &R,
    alloc: Global,
    sessions: &str,
    fails: &[u64],
    status: u8,
    want: &[&[u8]],
) -> bool {
    let (Ok(words), Ok(mut ends), Ok(mut door)) = (
        words(
            alloc,
            &["serve", "x", "--workers", "1", "--sessions", sessions],
        ),
        Ends::new(alloc, b"GET a\n", 9, &[], &[]),
        door_of_two(alloc, fails),
    ) else {
        return false;
    };
    let outcome = worm(
        rt,
        alloc,
        &words,
        &mut ends.source,
        &mut ends.sink,
        &mut door,
    );
    outcome.status == status
        && outcome.pass.is_none() == fails.contains(&1)
        && ends.sink.bytes().is_empty()
        && door.outputs().len() == want.len()
        && door
            .outputs()
            .iter()
            .zip(want)
            .all(|(output, want)| output.bytes() == *want)
}

fn serves_clients<R: Threads + Wait + Sync>(rt: &R, alloc: Global) -> bool {
    let both = [b"NEW\n".as_slice(), b"VALUE 1\n"];
    serves(rt, alloc, "2", &[], 0, &both)
        && serves(rt, alloc, "3", &[], 6, &both)
        && serves(rt, alloc, "2", &[1], 6, &[])
        && serves(rt, alloc, "2", &[2], 6, &[])
        && serves(rt, alloc, "2", &[3], 6, &both[..1])
}

#[test]
fn a_server_answers_each_client(rt: HostRuntime) {
    assert!(rt; serves_clients(&rt, rt.alloc()));
}

#[test]
fn each_status_has_its_text(rt: HostRuntime) {
    assert_eq!(rt; fault_text(0), None);
    let texts = [
        (2, "words"),
        (3, "read fault"),
        (4, "write fault"),
        (5, "no memory"),
        (6, "door fault"),
        (7, "input too long"),
    ];
    for (status, text) in texts {
        assert_eq!(rt; fault_text(status), Some(text));
    }
}
