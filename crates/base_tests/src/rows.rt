//! Rows in vectors, written word by word, and the words of an anchor.
use row_words::layout::LONGEST_ANCHOR;
use row_words::{AnchorWords, Rows, RowsMut, Shape, VecRows, Words, packed_word};
use std::alloc::Global;

const TINY: Shape = Shape {
    leaves: 2,
    items: 1,
    heads: 1,
    values: 1,
    lanes: 1,
    soft: 2,
    hard: 3,
    merge_sum: 0,
    salt: 5,
};

// Words of leaf 1: the mark of 17 bytes, and `abcdefghijklmnop`, the first sixteen.
const ANCHOR: [(u32, u64); 3] = [
    (48, 18),
    (49, 0x6867_6665_6463_6261),
    (50, 0x706f_6e6d_6c6b_6a69),
];

// Rows with these words, and 0 in place of all others.
fn rows_of(alloc: Global, words: &[(u32, u64)]) -> Option<VecRows> {
    let mut rows = VecRows::new(alloc, &TINY).ok()?;
    for (i, word) in words {
        put(&mut rows, *i, *word);
    }
    Some(rows)
}

fn put(rows: &mut VecRows, i: u32, word: u64) {
    if i < rows.layout().word_count() {
        rows.set_word(i, word);
    }
}

// The word, or a number that no word of the test has.
fn got(rows: &mut VecRows, i: u32) -> u64 {
    if i < rows.layout().word_count() {
        rows.word(i)
    } else {
        7
    }
}

fn first_head(rows: &mut VecRows) -> u32 {
    if rows.heads() > 0 { rows.head(0) } else { 7 }
}

// Whether the anchor of leaf 1 begins with a text.
fn starts_with(rows: &mut VecRows, text: &str) -> bool {
    1 < rows.layout().leaves && text.len() <= LONGEST_ANCHOR && rows.leaf_begins(1, text.as_bytes())
}

// A leaf's row by hand: the anchor `Jo`, no leaf before it, leaf 0 behind it. No word of the item is
// written.
fn reads_by_hand(alloc: Global) -> bool {
    let words = [(0, 2), (4, 1), (48, 3), (49, 0x6f4a), (82, 1)];
    let Some(mut rows) = rows_of(alloc, &words) else {
        return false;
    };
    rows.layout().word_count() == 83
        && rows.heads() == 1
        && rows.salt() == 5
        && rows.longest() == 2
        && got(&mut rows, 49) == 28_490
        && got(&mut rows, 9) == 0
}

#[test]
fn reads_a_row(rt: HostRuntime) {
    assert!(rt; reads_by_hand(rt.alloc()));
}

// Whether a head's word is read as it was written, and as this head.
fn reads_head(rows: &mut VecRows, word: u64, head: u32) -> bool {
    put(rows, 4, word);
    got(rows, 4) == word && first_head(rows) == head
}

// Heads below 65,536 and from there on, beyond 32 bits, and back.
fn reads_each_width(alloc: Global) -> bool {
    let Some(mut rows) = rows_of(alloc, &[]) else {
        return false;
    };
    for (word, head) in [
        (0, 0),
        (65_535, 65_535),
        (65_536, 65_536),
        (65_537, 65_537),
        (0x1_0000_0005, 5),
        (0xfedc_ba98_7654_3210, 0x7654_3210),
        (65_535, 65_535),
    ] {
        if !reads_head(&mut rows, word, head) {
            return false;
        }
    }
    true
}

#[test]
fn reads_heads_of_each_width(rt: HostRuntime) {
    assert!(rt; reads_each_width(rt.alloc()));
}

// Whether the anchor of leaf 1, of these words, begins with a text just where that is wanted.
fn begins(alloc: Global, words: &[(u32, u64)], text: &str, want: bool) -> bool {
    match rows_of(alloc, words) {
        Some(mut rows) => starts_with(&mut rows, text) == want,
        None => false,
    }
}

// The bytes that are compared lie in one, two and three words, all of them kept.
#[test]
fn compares_kept_words(rt: HostRuntime) {
    let [mark, first, second] = ANCHOR;
    let words = [mark, first, second, (51, 0x71)];
    for (text, want) in [
        ("", true),
        ("abcdefg", true),
        ("abcdef*", false),
        ("abcdefgh", true),
        ("abcdefg*", false),
        ("abcdefghi", true),
        ("abcdefgh*", false),
        ("abcdefghijklmnop", true),
        ("abcdefghijklmno*", false),
        ("abcdefghijklmnopq", true),
        ("abcdefghijklmnop*", false),
        ("*bcdefghijklmnopq", false),
        ("abcdefgh*jklmnopq", false),
    ] {
        assert!(rt; begins(rt.alloc(), &words, text, want), "at {text}");
    }
}

// Only the mark is kept: the anchor is of zeros.
#[test]
fn compares_words_never_written(rt: HostRuntime) {
    for (text, want) in [
        ("", true),
        ("\0\0\0\0\0\0\0", true),
        ("\0\0\0\0\0\0*", false),
        ("\0\0\0\0\0\0\0\0", true),
        ("\0\0\0\0\0\0\0*", false),
        ("\0\0\0\0\0\0\0\0\0", true),
        ("\0\0\0\0\0\0\0\0*", false),
        ("\0\0\0\0\0\0\0\0\0\0\0\0\0\0\0\0", true),
        ("\0\0\0\0\0\0\0\0\0\0\0\0\0\0\0*", false),
        ("\0\0\0\0\0\0\0\0\0\0\0\0\0\0\0\0\0", true),
        ("\0\0\0\0\0\0\0\0\0\0\0\0\0\0\0\0*", false),
    ] {
        assert!(rt; begins(rt.alloc(), &[(48, 18)], text, want), "at {text:?}");
    }
}

// The first two words of the anchor are kept, and the third is 0.
#[test]
fn compares_words_partly_kept(rt: HostRuntime) {
    for (text, want) in [
        ("abcdefghijklmno", true),
        ("abcdefghijklmnop", true),
        ("abcdefghijklmno*", false),
        ("abcdefghijklmnop\0", true),
        ("abcdefghijklmnopq", false),
    ] {
        assert!(rt; begins(rt.alloc(), &ANCHOR, text, want), "at {text:?}");
    }
}

// Whether an anchor's words are packed, and give its bytes again.
fn is_packed(alloc: Global) -> bool {
    let anchor = AnchorWords::new(b"Josephine");
    let bytes = match anchor.to_vec(alloc) {
        Ok(bytes) => bytes.as_slice() == b"Josephine".as_slice(),
        Err(_) => false,
    };
    bytes
        && !anchor.is_empty()
        && anchor.len() == 9
        && anchor.byte(8) == b'e'
        && packed_word(b"Josephine", 0) == 0x6e69_6870_6573_6f4a
        && packed_word(b"Josephine", 1) == 0x65
        && packed_word(b"Josephine", 2) == 0
}

#[test]
fn packs_bytes(rt: HostRuntime) {
    assert!(rt; is_packed(rt.alloc()));
}
