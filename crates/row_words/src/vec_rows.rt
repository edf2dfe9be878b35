//! A table in vectors.

ghost use Rattle.std.specs.Prelude.{◌≡◌, ◌<◌, ◌+◌, ◌*◌, IfOk, length, replicate};
ghost use Rattle.row_words.specs.Layout.{word_count};
ghost use Rattle.row_words.specs.Shape.{IsShape};
ghost use Rattle.row_words.specs.declared.layout.TheConstants.{HEADER_WORDS, ITEM_WORDS, LEAF_WORDS};

use crate::head_words::HeadWords;
use crate::layout::{
    BITS_PART, BYTES_PART, HEADER_WORDS, ITEM_WORDS, LEAF_WORDS, LONGEST_WORD, PREVIOUS_PART, UPPER,
};
use crate::padded_words::PaddedWords;
use crate::words::words_begin;
use crate::{
    ChildProbe, Glance, ItemRow, LeafParts, LeafRow, Probe, Rows, RowsMut, Shape, Words, begins,
    child_words, glance_words, item_words, leaf_words, previous_words, probe_words,
};
use std::alloc::{AllocError, Global};
use std::sync::ledger::Ledger;
use steps::{Steps, Tally};

/// A table in vectors. When it is made, memory for all of its words is reserved, and only the header
/// and the lower sixteen bits of the heads are written: two bytes for each bucket. A page of the items,
/// and one of the leaf rows, is touched when a word other than 0 is written in it, or behind it in the
/// same vector: up to that word the vector is filled with zeros. So an item or a leaf costs memory once
/// one at its place or at a greater one is first used, and where places are used from the least on, a
/// write fills a few words at most. The rest of the heads is kept so too, eight bytes for each bucket up
/// to the last one whose head is 65,536 or more. A head is a place + 1, so there is none while fewer
/// items were used. A word that was never written is read as 0, without a look at memory.
#[derive(Debug, Drop)]
pub struct VecRows {
    shape: Shape,
    header: [u64; HEADER_WORDS as usize],
    heads: HeadWords,
    items: PaddedWords,
    leaves: PaddedWords,
    // How many rows were read.
    reads: Tally,
    ghost ranges: { IsShape shape },
    ghost header_sized: { length header ≡ HEADER_WORDS },
    ghost heads_sized: { length heads ≡ shape.heads },
    ghost items_sized: { length items ≡ ITEM_WORDS * shape.items },
    ghost leaves_sized: { length leaves ≡ LEAF_WORDS * shape.leaves },
}

#[tactic(auto, unfolding(crate::specs::VecRows::joined))]
impl VecRows {
    ghost use Rattle.row_words.specs.VecRows.{shape_of, words_of};

    /// A table whose words are all 0. It reserves eight bytes for each word of the shape and two more
    /// for each bucket, and writes those two alone.
    pub fn new(alloc: Global, shape: &Shape) -> Result<VecRows, AllocError>
        requires { IsShape shape.now }
        ensures shape { IfOk result (λ rows. shape_of rows ≡ shape.now) }
        ensures words { IfOk result (λ rows. words_of rows ≡ replicate (word_count shape.now) 0) }
    {
        Ok(VecRows {
            shape: *shape,
            header: [0; HEADER_WORDS as usize],
            heads: HeadWords::new(alloc, shape.heads as usize)?,
            items: PaddedWords::new(alloc, (ITEM_WORDS * shape.items) as usize)?,
            leaves: PaddedWords::new(alloc, (LEAF_WORDS * shape.leaves) as usize)?,
            reads: Tally::new(),
        })
    }
}

#[tactic(auto, unfolding(crate::specs::VecRows::joined))]
impl LeafParts for VecRows {
    ghost use Rattle.row_words.specs.declared.vec_rows.VecRows.{VecRows};
    ghost use Rattle.row_words.specs.VecRows.{shape_of, words_of, reads_of};
    ghost use Rattle.std.specs.Prelude.{◌≡◌, refl};
    ghost use Rattle.std.proofs.Common.{◌∙◌};

    ghost shape = { shape_of };

    ghost words = { words_of };

    ghost rows_read = { reads_of };

    ghost stays = { λ a b. shape_of b ≡ shape_of a };

    ghost stays_refl = { λ a. refl };

    ghost stays_trans = { λ a b c p q. q ∙ p };

    fn leaf_part(&mut self, leaf: u32, word: u32) -> u64 {
        self.leaves.get((LEAF_WORDS * leaf + word) as usize)
    }

    fn leaf_before(&mut self, leaf: u32) -> u64 {
        self.reads = self.reads.and_one();
        self.leaves
            .get((LEAF_WORDS * leaf + PREVIOUS_PART) as usize)
    }
}

#[tactic(auto, unfolding(crate::specs::VecRows::joined))]
impl Words for VecRows {
    fn item_head(&mut self, at: u32) -> [u64; 3] {
        self.reads = self.reads.and_one();
        self.items.three((ITEM_WORDS * at) as usize)
    }

    fn item_part(&mut self, at: u32, word: u32) -> u64 {
        self.items.get((ITEM_WORDS * at + word) as usize)
    }

    fn item_bits(&mut self, at: u32) -> [u64; 4] {
        self.items.four((ITEM_WORDS * at + BITS_PART) as usize)
    }

    // Only kept words lie side by side. Where some aren't, each is asked for by itself.
    fn leaf_begins(&mut self, leaf: u32, bytes: &[u8]) -> bool {
        let first = (LEAF_WORDS * leaf + BYTES_PART) as usize;
        match self.leaves.kept_from(first, bytes.len() / 8 + 1) {
            Some(words) => words_begin(words, bytes),
            None => begins(self, leaf, bytes),
        }
    }
}

#[tactic(auto, unfolding(crate::specs::VecRows::joined))]
impl Rows for VecRows {
    ghost use Rattle.row_words.specs.VecRows.{shape_of, words_of, reads_of, length-words_of};
    ghost use Rattle.std.specs.Prelude.{◌≡◌, refl};
    ghost use Rattle.std.proofs.Common.{◌∙◌};

    ghost shape = { shape_of };

    ghost words = { words_of };

    ghost rows_read = { reads_of };

    ghost stays = { λ a b. shape_of b ≡ shape_of a };

    ghost ranges = { λ a. a.ranges };

    ghost sized = { length-words_of };

    ghost stays_refl = { λ a. refl };

    ghost stays_trans = { λ a b c p q. q ∙ p };

    fn heads(&self) -> u32 {
        self.shape.heads
    }

    fn salt(&self) -> u64 {
        self.shape.salt
    }

    fn longest(&mut self) -> u32 {
        (self.header[LONGEST_WORD as usize] % UPPER) as u32
    }

    fn head(&mut self, bucket: u32) -> u32 {
        self.heads.lower(bucket as usize)
    }

    fn probe<L: Ledger>(
        &mut self,
        at: u32,
        prefix: &[u8],
        hash: u64,
        steps: &mut Steps<L>,
    ) -> Probe {
        probe_words(self, at, prefix, hash, steps)
    }

    fn glance<L: Ledger>(
        &mut self,
        at: u32,
        prefix: &[u8],
        hash: u64,
        word: u32,
        steps: &mut Steps<L>,
    ) -> Glance {
        glance_words(self, at, prefix, hash, word, steps)
    }

    fn probe_child<L: Ledger>(
        &mut self,
        at: u32,
        prefix: &[u8],
        byte: u8,
        hash: u64,
        steps: &mut Steps<L>,
    ) -> ChildProbe {
        child_words(self, at, prefix, byte, hash, steps)
    }

    fn item<L: Ledger>(&mut self, at: u32, steps: &mut Steps<L>) -> ItemRow {
        item_words(self, at, steps)
    }

    fn leaf<L: Ledger>(&mut self, at: u32, steps: &mut Steps<L>) -> LeafRow {
        leaf_words(self, at, steps)
    }

    fn previous<L: Ledger>(&mut self, at: u32, steps: &mut Steps<L>) -> u32 {
        previous_words(self, at, steps)
    }
}

#[tactic(auto, unfolding(crate::specs::VecRows::joined))]
impl RowsMut for VecRows {
    fn layout(&self) -> Shape {
        self.shape
    }

    fn word(&mut self, i: u32) -> u64 {
        let front = HEADER_WORDS + self.shape.heads;
        let items = ITEM_WORDS * self.shape.items;
        if i < HEADER_WORDS {
            self.header[i as usize]
        } else if i < front {
            self.heads.get((i - HEADER_WORDS) as usize)
        } else if i - front < items {
            self.items.get((i - front) as usize)
        } else {
            self.leaves.get((i - front - items) as usize)
        }
    }

    #[tactic(auto, using(crate::proofs::Joined::set_header, crate::proofs::Joined::set_heads, crate::proofs::Joined::set_items, crate::proofs::Joined::set_leaves))]
    fn set_word(&mut self, i: u32, word: u64) {
        let front = HEADER_WORDS + self.shape.heads;
        let items = ITEM_WORDS * self.shape.items;
        if i < HEADER_WORDS {
            self.header[i as usize] = word;
        } else if i < front {
            self.heads.set((i - HEADER_WORDS) as usize, word);
        } else if i - front < items {
            self.items.set((i - front) as usize, word);
        } else {
            self.leaves.set((i - front - items) as usize, word);
        }
    }
}

// A table may go to another thread.
fn rows_are_send() {
    is_send::<VecRows>();
}

fn is_send<T: Send>() {}
