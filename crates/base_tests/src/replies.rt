//! Replies: worked texts, which were written by hand.
use line_protocol::{Answer, pair_text, reply_text};
use map_model::{Again, Full, TableFull};
use std::alloc::Global;

fn is_replied(alloc: Global, answer: &Answer<'_>, want: &str) -> bool {
    let mut out = Vec::new(alloc);
    reply_text(&mut out, answer).is_ok() && out.as_slice() == want.as_bytes()
}

#[test]
fn replies(rt: HostRuntime) {
    for (answer, want) in [
        (Answer::New, "NEW\n"),
        (Answer::Set, "SET\n"),
        (Answer::Value(b""), "VALUE \n"),
        (
            Answer::Value(b"a b%*\n\x00\x7f\xff~!"),
            "VALUE a%20b%25%2A%0A%00%7F%FF~!\n",
        ),
        (Answer::Absent, "NONE\n"),
        (Answer::Gone, "GONE\n"),
        (Answer::End(0), "END 0\n"),
        (Answer::Bye, "BYE\n"),
        (Answer::NoMemory, "NOMEM\n"),
    ] {
        assert!(rt; is_replied(rt.alloc(), &answer, want), "{want}");
    }
}

// Whether a pair is told behind what is there.
fn is_pair_told(alloc: Global) -> bool {
    let mut out = Vec::new(alloc);
    reply_text(&mut out, &Answer::Bye).is_ok()
        && pair_text(&mut out, b"k/\xc3", b"").is_ok()
        && out.as_slice() == b"BYE\nPAIR k/%C3 \n".as_slice()
}

#[test]
fn pairs(rt: HostRuntime) {
    assert!(rt; is_pair_told(rt.alloc()));
}

#[test]
fn replies_of_refusals_for_good(rt: HostRuntime) {
    let why = TableFull::Versions { version: 9 };
    for (full, want) in [
        (Full::Values { drawn: 4, cap: 5 }, "FULL values 4 5\n"),
        (
            Full::Crowded {
                count: 6,
                hard: 3,
                why,
            },
            "FULL crowded 6 3\n",
        ),
    ] {
        assert!(rt; is_replied(rt.alloc(), &Answer::Full(full), want), "{want}");
    }
}

#[test]
fn replies_of_refusals_for_now(rt: HostRuntime) {
    let (leaf, holder, hard) = (1, 2, 3);
    for (again, want) in [
        (Again::Locked { leaf, holder }, "AGAIN locked 1 2\n"),
        (
            Again::Changed {
                leaf,
                before: 7,
                after: u64::MAX,
            },
            "AGAIN changed 1 7 18446744073709551615\n",
        ),
        (
            Again::Stale {
                leaf,
                expected: 8,
                searched: 9,
            },
            "AGAIN stale 1 8 9\n",
        ),
        (
            Again::Moved {
                first: 10,
                second: 11,
            },
            "AGAIN moved 10 11\n",
        ),
        (Again::Turn { holder }, "AGAIN turn 2\n"),
        (Again::Pinned { table: 0, pins: 12 }, "AGAIN pinned 0 12\n"),
        (Again::Bin { holder: u32::MAX }, "AGAIN bin 4294967295\n"),
        (
            Again::Filled {
                leaf,
                count: 3,
                hard,
            },
            "AGAIN filled 1 3 3\n",
        ),
    ] {
        assert!(rt;
            is_replied(rt.alloc(), &Answer::Again(again), want),
            "{want}"
        );
    }
}
