//! A table with its leaves.

ghost use Rattle.std.specs.Prelude.{ℕ, ◌≡◌, ◌<◌, ◌≤◌, ◌∷◌, [], length, IfOk, IfErr, vec_capacity};
ghost use Rattle.row_words.specs.VecRows.{shape_of, words_of};
ghost use Rattle.row_words.specs.Shape.{IsShape};
ghost use Rattle.meta_trie.specs.Stands.{StandsFor};
ghost use Rattle.leaf_table.specs.Leaves.{map_at, HaveSalt};
ghost use Rattle.leaf_table.specs.Facts.{IsWhole, IsMakeFault};

use key_bytes::Bytes;
use leaf_store::Leaf;
use meta_trie::start_zeroed;
use prefix_search::Hint;
use row_words::{MakeFault, RowsMut, Shape, VecRows};
use std::alloc::{AllocError, Global};
use std::marker::Model;

/// Keys with their values in leaves, and the rows of a table of anchors through which the leaf of a
/// key is found.
///
/// A call that names a leaf or a place reads no row. No call but a split, a merge and a part takes
/// memory, save for a key and a value that are stored.
#[derive(Drop)]
pub struct LeafTable {
    pub(crate) alloc: Global,
    pub(crate) rows: VecRows,
    /// The leaves by their numbers: the live ones, and an empty one for each that was merged away
    /// and isn't live again. They have room for all that the shape has.
    pub(crate) leaves: Vec<Leaf<Bytes>>,
    /// How many keys the leaves have.
    pub(crate) keys: u64,
    /// All leaves below this number are live, so a split looks for a free one from here on.
    pub(crate) full_below: u32,
    /// How long the prefixes are that searches found.
    pub(crate) hint: Hint,
}

impl Model for LeafTable {
    ghost use Rattle.std.specs.Prelude.{◌≤◌, vec_capacity};
    ghost use Rattle.row_words.specs.VecRows.{shape_of, words_of};
    ghost use Rattle.meta_trie.specs.Stands.{anchors_of};
    ghost use Rattle.leaf_table.specs.Table.{Table};
    ghost use Rattle.leaf_table.specs.Leaves.{table_of, IsLeafTable, AreLive};

    ghost Value = { Table };

    ghost view = { λ t. table_of (shape_of t.rows) (words_of t.rows) t.leaves.items };

    ghost invariant = { λ t. IsLeafTable (shape_of t.rows) (words_of t.rows) t.leaves.items t.keys × AreLive (anchors_of (shape_of t.rows) (words_of t.rows)) t.full_below × ((shape_of t.rows).leaves ≤ vec_capacity t.leaves) };
}

impl LeafTable {
    /// A table with no key, whose one leaf is leaf 0. It takes the memory of the shape's rows, eight
    /// bytes for each word, and room for each leaf that there may be, without its keys. It writes
    /// little of both.
    pub fn make(alloc: Global, shape: &Shape) -> Result<LeafTable, MakeFault>
        ensures ok { IfOk result (λ table. table ≡ record { shape = shape.now; anchors = ([], 0) ∷ []; map = [] }) }
        ensures fault { IfErr result (IsMakeFault shape.now) }
    {
        if let Err(fault) = shape.check() {
            return Err(MakeFault::Shape(fault));
        }
        match (make_rows(alloc, shape), start_leaves(alloc, shape)) {
            (Ok(rows), Ok(leaves)) => Ok(LeafTable {
                alloc,
                rows,
                leaves,
                keys: 0,
                full_below: 0,
                hint: Hint::new(),
            }),
            _ => Err(MakeFault::NoMemory),
        }
    }

    /// The numbers by which the table is laid out.
    pub fn shape(&self) -> Shape
        ensures shape { result ≡ self.now.shape }
        ensures whole { IsWhole self.now }
    {
        self.rows.layout()
    }

    /// The number of keys.
    pub fn len(&self) -> u64
        ensures { result ≡ length self.now.map }
    {
        self.keys
    }
}

// Rows of the one empty anchor.
fn make_rows(alloc: Global, shape: &Shape) -> Result<VecRows, AllocError>
    requires { IsShape shape.now }
    ensures shape { IfOk result (λ rows. shape_of rows ≡ shape.now) }
    ensures stands { IfOk result (λ rows. StandsFor shape.now (words_of rows) (([], 0) ∷ [])) }
{
    let mut rows = VecRows::new(alloc, shape)?;
    start_zeroed(&mut rows);
    Ok(rows)
}

// Leaf 0 with no key, and room for all leaves: so no split needs more once it has changed the rows,
// and what no leaf comes to is never written.
fn start_leaves(alloc: Global, shape: &Shape) -> Result<Vec<Leaf<Bytes>>, AllocError>
    requires { IsShape shape.now }
    ensures first { IfOk result (λ leaves. 0 < length leaves.items) }
    ensures reserved { IfOk result (λ leaves. shape.now.leaves ≤ vec_capacity leaves) }
    ensures empty { IfOk result (λ leaves. (leaf : ℕ) → map_at leaves.items leaf ≡ []) }
    ensures salts { IfOk result (λ leaves. HaveSalt leaves.items shape.now.salt) }
{
    let mut leaves = Vec::with_capacity(alloc, shape.leaves as usize)?;
    leaves.push_reserved(Leaf::new(alloc, shape.salt));
    Ok(leaves)
}
