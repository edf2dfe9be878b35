//! The places of rows in the order of their keys, and how rows get there.
ghost use Rattle.std.specs.Prelude.{◌≡◌, ◌≤◌, length, map, vec_capacity, IfOk, OnOk};
ghost use Rattle.std.specs.List.{All, range_with_len};
ghost use Rattle.map_model.specs.Maps.{sorted};
ghost use Rattle.leaf_store.specs.Ranks.{HasKey, IsOrder, AreRanks};
ghost use Rattle.leaf_store.specs.Rows.{AreOnce, AreTags};

use crate::order::sort_rows;
use crate::rows::retag;
use key_bytes::Key;
use leaf_tags::Tags;
use std::alloc::{AllocError, Global};

// The keys of the rows, each with its row's place. Places take 16 bits, so more rows are refused.
fn placed_keys<'a, V>(
    alloc: Global,
    rows: &'a [(Key, V)],
) -> Result<Vec<(&'a Key, u16)>, AllocError>
    ensures keys { IfOk result (λ keys. All (λ p. HasKey rows.now p.0.now p.1) keys.items) }
    ensures places { IfOk result (λ keys. map (λ p. p.1) keys.items ≡ range_with_len 0 (length rows.now)) }
    ensures small { OnOk result (length rows.now ≤ 65536) }
{
    if rows.len() > 65536 {
        return Err(AllocError);
    }
    let mut keys = Vec::with_capacity(alloc, rows.len())?;
    for place in 0..rows.len() {
        keys.push_reserved((&rows[place].0, place as u16));
    }
    Ok(keys)
}

// The keys by ascending bytes, each with its row's place.
fn sorted_keys<'a, V>(
    alloc: Global,
    rows: &'a [(Key, V)],
) -> Result<Vec<(&'a Key, u16)>, AllocError>
    requires { AreOnce rows.now }
    ensures order { IfOk result (λ keys. IsOrder rows.now (map (λ p. p.1) keys.items)) }
    ensures small { OnOk result (length rows.now ≤ 65536) }
{
    let mut keys = placed_keys(alloc, rows)?;
    // A leaf was in order when it was last cut, so half of the keys are one run, which this sort keeps.
    keys.sort_by(|a, b| a.0.order(b.0))?;
    Ok(keys)
}

// For each row its place in the order of the keys. What is sorted are references, since a row is
// large.
pub(crate) fn ranks_of<V>(alloc: Global, rows: &[(Key, V)]) -> Result<Vec<u16>, AllocError>
    requires { AreOnce rows.now }
    ensures { IfOk result (λ ranks. AreRanks rows.now ranks.items (sorted rows.now)) }
{
    let keys = sorted_keys(alloc, rows)?;
    let mut ranks = vec![in alloc; 0_u16; keys.len()]?;
    for rank in 0..keys.len() {
        ranks[keys[rank].1 as usize] = rank as u16;
    }
    Ok(ranks)
}

// Moves each row to the place that is its rank. Each exchange puts one row there for good.
pub(crate) fn arrange<V>(rows: &mut Vec<(Key, V)>, mut ranks: Vec<u16>)
    requires { AreRanks rows.old.items ranks.items (sorted rows.old.items) }
    ensures rows { rows.new.items ≡ sorted rows.old.items }
    ensures capacity { vec_capacity rows.new ≡ vec_capacity rows.old }
{
    let mut place = 0;
    'settled: while place < rows.len() {
        let rank = ranks[place] as usize;
        if rank == place {
            place += 1;
        } else {
            rows.swap(place, rank);
            ranks.swap(place, rank);
        }
    }
}

// Puts rows in the order of their keys, and leaves each tag with its row. No key is hashed, and a row
// moves at most twice, unless there is no memory for the ranks.
pub(crate) fn settle<V>(rows: &mut Vec<(Key, V)>, tags: &mut Tags, salt: u64)
    requires keys { AreOnce rows.old.items }
    requires tags { AreTags salt rows.old.items tags.old.pairs }
    ensures rows { rows.new.items ≡ sorted rows.old.items }
    ensures tags { AreTags salt (sorted rows.old.items) tags.new.pairs }
    ensures capacity { vec_capacity rows.new ≡ vec_capacity rows.old }
    ensures spare { tags.old.spare ≤ tags.new.spare }
{
    match ranks_of(*rows.allocator(), rows) {
        Ok(ranks) => {
            tags.renumber(&ranks);
            arrange(rows, ranks);
        }
        Err(_) => {
            sort_rows(rows);
            retag(tags, rows, salt);
        }
    }
}
