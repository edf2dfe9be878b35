//! How the rows of a pinned table are read.

ghost use Rattle.std.specs.Prelude.{◌≡◌, ◌+◌, ◌<◌, IsSome, slice_index};
ghost use Rattle.row_words.specs.Layout as layout;
ghost use Rattle.board_rule.specs.Passes.{view, IsOf};
ghost use Rattle.board_rule.specs.Steps.{pin_of};
ghost use Rattle.twin_tables.specs.Views.{OnlyPin};
ghost use Rattle.twin_tables.specs.Reads.{read_at};
ghost use Rattle.twin_tables.specs.Lent.{pinned_view, pinned_shape, pinned_words, pinned_read, PinnedStays};

use crate::pinned::Pinned;
use board_rule::{Pass, read, unpin};
use row_words::layout::{HEADER_WORDS, PREVIOUS_PART};
use row_words::{
    ChildProbe, Glance, ItemRow, LeafParts, LeafRow, Probe, Rows, Words, begins, child_words,
    glance_words, item_words, leaf_words, previous_words, probe_words,
};
use std::sync::ledger::Ledger;
use steps::Steps;

impl<'a> Pinned<'a> {
    /// The version whose table it is.
    pub fn version(&self) -> u64
        ensures { result ≡ (pin_of (pinned_view self.now)).version }
    {
        self.version
    }

    /// Takes the pin back, and gives the pass back.
    pub fn unpin(self) -> &'a mut Pass
        ensures name { result.ghost_name ≡ self.entry.pass.ghost_name }
        ensures of { IsOf self.entry.board.now result.now }
        ensures lane { result.now.lane ≡ self.entry.pass.now.lane }
        ensures bare { (view result.now).pin ≡ None }
        ensures only { OnlyPin (pinned_view self.entry) (view result.now) }
        ensures notes { (view result.now).notes ≡ (pinned_view self.entry).notes }
        ensures looks { (view result.now).looks ≡ (pinned_view self.entry).looks }
        ensures current { (view result.now).current ≡ (pinned_view self.entry).current }
    {
        let board = self.board;
        let pass = self.into_pass();
        unpin(pass, board);
        pass
    }

    // The pass that was lent, which still has the pin.
    fn into_pass(self) -> &'a mut Pass
        ensures name { result.ghost_name ≡ self.entry.pass.ghost_name }
        ensures now { result.now ≡ self.entry.pass.now }
    {
        let Pinned {
            pass,
            board: _,
            version: _,
            first: _,
        } = self;
        pass
    }

    // A word of the table.
    fn load(&mut self, i: u32) -> u64
        requires { i < layout.word_count (pinned_shape self.old) }
        ensures value { result ≡ slice_index (pinned_words self.old) i }
        ensures read { pinned_read self.new ≡ pinned_read self.old + read_at (pinned_shape self.old) i }
        ensures words { pinned_words self.new ≡ pinned_words self.old }
        ensures shape { pinned_shape self.new ≡ pinned_shape self.old }
        ensures stays { PinnedStays self.old self.new }
    {
        read(self.pass, self.board, self.first + i)
    }
}

impl<'a> LeafParts for Pinned<'a> {
    ghost use Rattle.twin_tables.specs.Lent.{pinned_shape, pinned_words, pinned_read, PinnedStays};
    ghost use Rattle.twin_tables.specs.Lending.{pinned_same, pinned_on};

    ghost shape = { pinned_shape };

    ghost words = { pinned_words };

    ghost rows_read = { pinned_read };

    ghost stays = { PinnedStays };

    ghost stays_refl = { pinned_same };

    ghost stays_trans = { pinned_on };

    fn leaf_part(&mut self, leaf: u32, word: u32) -> u64 {
        let first = self.board.shape().leaf_word(leaf);
        self.load(first + word)
    }

    fn leaf_before(&mut self, leaf: u32) -> u64 {
        let first = self.board.shape().leaf_word(leaf);
        self.load(first + PREVIOUS_PART)
    }
}

impl<'a> Words for Pinned<'a> {
    fn item_head(&mut self, at: u32) -> [u64; 3] {
        let first = self.board.shape().item_word(at);
        let hash = self.load(first);
        let link = self.load(first + 1);
        let sides = self.load(first + 2);
        [hash, link, sides]
    }

    fn item_part(&mut self, at: u32, word: u32) -> u64 {
        let first = self.board.shape().item_word(at);
        self.load(first + word)
    }

    fn item_bits(&mut self, at: u32) -> [u64; 4] {
        let first = self.board.shape().item_word(at) + 3;
        let a = self.load(first);
        let b = self.load(first + 1);
        let c = self.load(first + 2);
        let d = self.load(first + 3);
        [a, b, c, d]
    }

    fn leaf_begins(&mut self, leaf: u32, bytes: &[u8]) -> bool {
        begins(self, leaf, bytes)
    }
}

impl<'a> Rows for Pinned<'a> {
    ghost use Rattle.twin_tables.specs.Lent.{pinned_shape, pinned_words, pinned_read, PinnedStays};
    ghost use Rattle.twin_tables.specs.Lending.{pinned_same, pinned_on, pinned_ranges, pinned_sized};

    ghost shape = { pinned_shape };

    ghost words = { pinned_words };

    ghost rows_read = { pinned_read };

    ghost stays = { PinnedStays };

    ghost ranges = { pinned_ranges };

    ghost sized = { pinned_sized };

    ghost stays_refl = { pinned_same };

    ghost stays_trans = { pinned_on };

    fn heads(&self) -> u32 {
        self.board.shape().heads
    }

    fn salt(&self) -> u64 {
        self.board.shape().salt
    }

    fn longest(&mut self) -> u32 {
        (self.load(0) % 4_294_967_296) as u32
    }

    fn head(&mut self, bucket: u32) -> u32 {
        (self.load(HEADER_WORDS + bucket) % 4_294_967_296) as u32
    }

    fn probe<L: Ledger>(
        &mut self,
        at: u32,
        prefix: &[u8],
        hash: u64,
        steps: &mut Steps<L>,
    ) -> Probe {
        probe_words(self, at, prefix, hash, steps)
    }

    fn glance<L: Ledger>(
        &mut self,
        at: u32,
        prefix: &[u8],
        hash: u64,
        word: u32,
        steps: &mut Steps<L>,
    ) -> Glance {
        glance_words(self, at, prefix, hash, word, steps)
    }

    fn probe_child<L: Ledger>(
        &mut self,
        at: u32,
        prefix: &[u8],
        byte: u8,
        hash: u64,
        steps: &mut Steps<L>,
    ) -> ChildProbe {
        child_words(self, at, prefix, byte, hash, steps)
    }

    fn item<L: Ledger>(&mut self, at: u32, steps: &mut Steps<L>) -> ItemRow {
        item_words(self, at, steps)
    }

    fn leaf<L: Ledger>(&mut self, at: u32, steps: &mut Steps<L>) -> LeafRow {
        leaf_words(self, at, steps)
    }

    fn previous<L: Ledger>(&mut self, at: u32, steps: &mut Steps<L>) -> u32 {
        previous_words(self, at, steps)
    }
}
