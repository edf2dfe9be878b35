//! How the words of a table are laid out: the header, the heads of the buckets, the items, and the
//! leaf rows. Code and contracts name each place, and each part of a word, as it is named here.

/// The most bytes of an anchor: as many as a key may have, of which it is a prefix.
pub const LONGEST_ANCHOR: usize = 255;
/// How many words the bytes of an anchor have room in, eight bytes in a word.
pub const ANCHOR_WORDS: usize = (LONGEST_ANCHOR + 7) / 8;
/// How many bytes those words have.
pub const ANCHOR_BYTES: usize = 8 * ANCHOR_WORDS;

/// How many words the header has.
pub const HEADER_WORDS: u32 = 4;
/// The header's word that has the length of the longest anchor.
pub const LONGEST_WORD: u32 = 0;
/// The header's word that has the number of used items.
pub const USED_WORD: u32 = 1;
/// The header's word that has the first free item, as place + 1, or 0.
pub const FREE_WORD: u32 = 2;
/// The header's word that has the number of live leaves.
pub const LIVE_WORD: u32 = 3;

/// How many words an item has. Its first one has the hash of its prefix, and the last one nothing.
pub const ITEM_WORDS: u32 = 8;
/// An item's word that has its link in the lower half, and then its length and its mark.
pub const LINK_PART: u32 = 1;
/// An item's word that has the leftmost leaf in the lower half, and the rightmost one in the upper.
pub const SIDES_PART: u32 = 2;
/// The first of the four words of an item that have the bytes which may follow.
pub const BITS_PART: u32 = 3;

/// How many words a leaf's row has.
pub const LEAF_WORDS: u32 = ANCHOR_WORDS as u32 + 3;
/// A leaf row's word that has the mark: 0, or the length of the anchor + 1.
pub const MARK_PART: u32 = 0;
/// The first of a leaf row's words that have the bytes of the anchor.
pub const BYTES_PART: u32 = 1;
/// A leaf row's word that has the leaf before it, as number + 1, or 0.
pub const PREVIOUS_PART: u32 = ANCHOR_WORDS as u32 + 1;
/// A leaf row's word that has the leaf behind it, as number + 1, or 0.
pub const NEXT_PART: u32 = ANCHOR_WORDS as u32 + 2;

/// What a 1 in the upper half of a word counts. So `word % UPPER` is its lower half.
pub const UPPER: u64 = 1 << 32;
/// The length of an item's prefix is below this.
pub const LENGTHS: u64 = 1 << 16;
/// What the mark of an anchor counts in an item's word: the bit above the length.
pub const ANCHOR_MARK: u64 = UPPER * LENGTHS;

const _: () = prove!((LONGEST_ANCHOR as u64) < LENGTHS);
