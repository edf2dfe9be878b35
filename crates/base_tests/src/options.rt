//! Command lines: worked words, whose commands were written by hand.
use command_line::{Command, read_command};
use row_words::Shape;
use std::alloc::{AllocError, Global};

const STANDARD: Shape = Shape {
    leaves: 2_048,
    items: 262_144,
    heads: 65_536,
    values: 65_536,
    lanes: 16,
    soft: 64,
    hard: 1_024,
    merge_sum: 32,
    salt: 0,
};

const LEAST: Shape = Shape {
    leaves: 1,
    items: 1,
    heads: 1,
    values: 1,
    lanes: 1,
    soft: 2,
    hard: 3,
    merge_sum: 0,
    salt: 0,
};

const MOST: Shape = Shape {
    leaves: 65_536,
    items: 4_194_304,
    heads: 1_048_576,
    values: 262_144,
    lanes: 64,
    soft: 1_024,
    hard: 4_096,
    merge_sum: 512,
    salt: 18_446_744_073_709_551_615,
};

const SMALL_LEAVES: Shape = Shape {
    leaves: 2_048,
    items: 262_144,
    heads: 65_536,
    values: 65_536,
    lanes: 16,
    soft: 2,
    hard: 3,
    merge_sum: 1,
    salt: 0,
};

const SALTED: Shape = Shape {
    leaves: 2_048,
    items: 262_144,
    heads: 65_536,
    values: 65_536,
    lanes: 16,
    soft: 64,
    hard: 1_024,
    merge_sum: 32,
    salt: 18_446_744_073_709_551_615,
};

// The words behind `run`, and the shape that they choose.
const RUNS: [(&[&str], Shape); 11] = [
    (&[], STANDARD),
    (&["--soft", "64"], STANDARD),
    (&["--soft=64"], STANDARD),
    (&["--soft", "00000000000000000064"], STANDARD),
    (
        &["--soft", "2", "--hard", "3", "--merge-sum", "1"],
        SMALL_LEAVES,
    ),
    (
        &["--merge-sum=1", "--soft", "2", "--hard", "3"],
        SMALL_LEAVES,
    ),
    (&["--hard=3", "--merge-sum=1", "--soft=2"], SMALL_LEAVES),
    (&["--salt", "18446744073709551615"], SALTED),
    (&["--salt=18446744073709551615", "--lanes", "16"], SALTED),
    (
        &[
            "--leaves",
            "1",
            "--items",
            "1",
            "--heads",
            "1",
            "--values",
            "1",
            "--lanes",
            "1",
            "--soft",
            "2",
            "--hard",
            "3",
            "--merge-sum",
            "0",
            "--salt",
            "0",
        ],
        LEAST,
    ),
    (
        &[
            "--salt=18446744073709551615",
            "--merge-sum=512",
            "--hard=4096",
            "--soft=1024",
            "--lanes=64",
            "--values=262144",
            "--heads=1048576",
            "--items=4194304",
            "--leaves=65536",
        ],
        MOST,
    ),
];

// The words behind `fill`, the number, the count and the shape.
const FILLS: [(&[&str], u64, u32, Shape); 7] = [
    (&["0", "0"], 0, 0, STANDARD),
    (&["1", "1000000"], 1, 1_000_000, STANDARD),
    (&["2", "1"], 2, 1, STANDARD),
    (
        &["18446744073709551615", "5"],
        18_446_744_073_709_551_615,
        5,
        STANDARD,
    ),
    (
        &["--soft", "2", "7", "--hard=3", "8", "--merge-sum=1"],
        7,
        8,
        SMALL_LEAVES,
    ),
    (&["7", "--salt", "18446744073709551615", "8"], 7, 8, SALTED),
    (&["7", "8", "--salt=18446744073709551615"], 7, 8, SALTED),
];

// Words that are no command: none, another first word, positional words that are missing or too many, options that
// aren't known, repeated or without a number, numbers out of form or out of range, and other words that begin with `-`.
const OTHERS: [&[&str]; 84] = [
    &[],
    &[""],
    &["help"],
    &["--help"],
    &["--version"],
    &["--"],
    &["Run"],
    &["run "],
    &["--soft", "64", "run"],
    &["run", "extra"],
    &["run", ""],
    &["run", "help"],
    &["run", "run"],
    &["run", "--lanes", "16", "extra"],
    &["fill"],
    &["fill", "1"],
    &["fill", "1", "2", "3"],
    &["fill", "1", "2", "3", "4"],
    &["fill", "1", "--soft", "64"],
    &["run", "--unknown", "1"],
    &["run", "--Soft", "64"],
    &["run", "--sof", "64"],
    &["run", "--soft64"],
    &["run", "--merge_sum", "32"],
    &["run", "--tries", "3"],
    &["run", "--=64"],
    &["run", "-soft", "64"],
    &["run", "-soft=64"],
    &["run", "-s", "64"],
    &["run", "soft=64"],
    &["run", "--soft", "64", "--soft", "64"],
    &["run", "--soft=64", "--soft", "64"],
    &["run", "--soft", "64", "--soft=64"],
    &["run", "--soft=64", "--soft=64"],
    &["run", "--soft=64", "--lanes", "16", "--soft=2"],
    &["run", "--soft"],
    &["run", "--lanes", "16", "--soft"],
    &["run", "--soft="],
    &["run", "--soft", ""],
    &["run", "--soft", "--hard", "1024"],
    &["run", "--soft", "--hard=1024"],
    &["run", "--soft", "--", "64"],
    &["run", "--"],
    &["run", "-"],
    &["run", "--help"],
    &["run", "--version"],
    &["fill", "1", "2", "--"],
    &["fill", "--", "1", "2"],
    &["run", "--values", "-1"],
    &["run", "--values=-1"],
    &["run", "--values", "+1"],
    &["run", "--values=+1"],
    &["run", "--values= 1"],
    &["run", "--values=1=2"],
    &["run", "--values=0x10"],
    &["fill", "-1", "2"],
    &["fill", "+1", "2"],
    &["fill", "", "2"],
    &["fill", "1", ""],
    &["fill", "1", "two"],
    &["fill", "18446744073709551616", "2"],
    &["fill", "000000000000000000001", "2"],
    &["fill", "1", "1000001"],
    &["fill", "1", "4294967297"],
    &["run", "--salt", "18446744073709551616"],
    &["run", "--soft", "000000000000000000064"],
    &["run", "--soft", "3"],
    &["run", "--lanes", "65"],
    &["run", "--lanes", "4294967312"],
    &["run", "--soft", "32"],
    &["lanes"],
    &["lanes", "0"],
    &["lanes", "17"],
    &["lanes", "2", "3"],
    &["lanes", "2", "--tries", "0"],
    &["lanes", "2", "--tries", "1000001"],
    &["lanes", "2", "--workers", "2"],
    &["run", "--tries", "9"],
    &["serve"],
    &["serve", ""],
    &["serve", "127.0.0.1:0", "--workers", "17"],
    &["serve", "127.0.0.1:0", "--workers=0"],
    &["serve", "127.0.0.1:0", "--tries", "9"],
    &["fill", "1", "2", "--sessions", "3"],
];

// Words behind `lanes`, and how many lanes there are and how often they try.
const LANES: [(&[&str], u32, Option<u32>); 4] = [
    (&["1"], 1, None),
    (&["16"], 16, None),
    (&["--tries", "1000000", "2"], 2, Some(1_000_000)),
    (&["64", "--lanes=64", "--tries=1"], 64, Some(1)),
];

// Words behind `serve`, and the address, the workers and the sessions.
const SERVES: [(&[&str], &str, u32, u64); 4] = [
    (&["127.0.0.1:0"], "127.0.0.1:0", 4, 0),
    (&["--lanes", "2", "x"], "x", 2, 0),
    (&["x", "--workers", "16", "--sessions", "3"], "x", 16, 3),
    (&["x", "--sessions=18446744073709551615"], "x", 4, u64::MAX),
];

fn words(alloc: Global, first: Option<&str>, texts: &[&str]) -> Result<Vec<String>, AllocError> {
    let mut words = Vec::new(alloc);
    if let Some(text) = first {
        words.push(String::from_str(alloc, text)?)?;
    }
    for text in texts {
        words.push(String::from_str(alloc, text)?)?;
    }
    Ok(words)
}

// Whether these words, behind a first one where there is one, are read as this.
fn are_read(alloc: Global, first: Option<&str>, texts: &[&str], want: Option<Command<'_>>) -> bool {
    match words(alloc, first, texts) {
        Ok(words) => read_command(&words) == want,
        Err(_) => false,
    }
}

#[test]
fn a_run_has_the_chosen_shape(rt: HostRuntime) {
    for (texts, shape) in RUNS {
        let want = Some(Command::Run { shape });
        assert!(rt;
            are_read(rt.alloc(), Some("run"), texts, want),
            "at {texts:?}"
        );
    }
}

#[test]
fn a_fill_has_a_number_and_a_count(rt: HostRuntime) {
    for (texts, number, count, shape) in FILLS {
        let want = Some(Command::Fill {
            number,
            count,
            shape,
        });
        assert!(rt;
            are_read(rt.alloc(), Some("fill"), texts, want),
            "at {texts:?}"
        );
    }
}

#[test]
fn other_words_are_no_command(rt: HostRuntime) {
    for texts in OTHERS {
        assert!(rt; are_read(rt.alloc(), None, texts, None), "at {texts:?}");
    }
}

// Whether these words behind `lanes` are a command with so many lanes, which try so often.
fn has_lanes(alloc: Global, texts: &[&str], want: u32, often: Option<u32>) -> bool {
    let Ok(words) = words(alloc, Some("lanes"), texts) else {
        return false;
    };
    match read_command(&words) {
        Some(Command::Lanes { count, tries, .. }) => count == want && tries == often,
        _ => false,
    }
}

#[test]
fn lanes_have_a_number_and_tries(rt: HostRuntime) {
    for (texts, count, tries) in LANES {
        assert!(rt; has_lanes(rt.alloc(), texts, count, tries), "at {texts:?}");
    }
}

// Whether these words behind `serve` are a command to serve this address so.
fn serves(alloc: Global, texts: &[&str], want: &str, many: u32, most: u64) -> bool {
    let Ok(words) = words(alloc, Some("serve"), texts) else {
        return false;
    };
    match read_command(&words) {
        Some(
            Command::Serve {
                address,
                workers,
                sessions,
                ..
            },
        ) => address == want && workers == many && sessions == most,
        _ => false,
    }
}

#[test]
fn a_server_has_an_address_workers_and_sessions(rt: HostRuntime) {
    for (texts, address, workers, sessions) in SERVES {
        assert!(rt;
            serves(rt.alloc(), texts, address, workers, sessions),
            "at {texts:?}"
        );
    }
}
