//! What several tests are made of.
ghost use Rattle.std.specs.Prelude.{◌≡◌, ◌<◌, ◌∷◌, [], ℕ, List, IfOk};
ghost use Rattle.row_words.specs.VecRows.{shape_of, words_of};
ghost use Rattle.meta_trie.specs.Stands.{StandsFor};

use key_bytes::Key;
use meta_trie::{add_anchor, start};
use row_words::{Shape, VecRows};
use std::alloc::{AllocError, Global};
use std::test::Fail;

/// Four items in two buckets: the prefixes of `Jos` fill them.
pub const SMALL: Shape = Shape {
    leaves: 4,
    items: 4,
    heads: 2,
    values: 1,
    lanes: 1,
    soft: 2,
    hard: 3,
    merge_sum: 1,
    salt: 7,
};

/// A table of the empty anchor, `Jo` and `Jos`, with leaves 0, 1 and 2.
pub fn three_anchors(alloc: Global) -> Result<VecRows, Fail>
    ensures { IfOk result (λ rows. (jo : List ℕ) × (jos : List ℕ) × StandsFor (shape_of rows) (words_of rows) (([], 0) ∷ (jo, 1) ∷ (jos, 2) ∷ [])) }
{
    let mut rows = VecRows::new(alloc, &SMALL)?;
    start(&mut rows);
    let jo = Key::new(alloc, b"Jo")?;
    add_anchor(&mut rows, 0, &jo, 1)?;
    let jos = Key::new(alloc, b"Jos")?;
    add_anchor(&mut rows, 1, &jos, 2)?;
    Ok(rows)
}

/// A key of two bytes, whose order is that of its number.
pub fn key_of(alloc: Global, number: u16) -> Option<Key> {
    Key::new(alloc, &number.to_be_bytes()).ok()
}

/// The bytes in pieces of this size.
pub fn pieces(alloc: Global, bytes: &[u8], size: usize) -> Result<Vec<Vec<u8>>, AllocError>
    requires { 0 < size }
{
    let mut out = Vec::new(alloc);
    for piece in bytes.chunks(size) {
        out.push(piece.to_vec(alloc)?)?;
    }
    Ok(out)
}
