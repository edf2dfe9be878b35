//! Where the part ends.

ghost use Rattle.std.specs.Prelude.{◌≡◌, IfOk, Option};
ghost use Rattle.leaf_spans.specs.Ends.{lesser, end_bound};

use key_bytes::{Bound, Key};
use row_words::AnchorWords;
use row_words::layout::ANCHOR_BYTES;
use std::alloc::{AllocError, Global};
use std::cmp::Ordering;

// The key at an anchor that isn't empty.
fn anchor_key(alloc: Global, anchor: &AnchorWords) -> Result<Key, AllocError>
    ensures { IfOk result (λ key. key ≡ anchor.now) }
{
    let mut bytes = [0; ANCHOR_BYTES];
    anchor.unpack(&mut bytes);
    // Only memory can be wanting, since these are 1 to 255 bytes.
    match Key::new(alloc, &bytes[..anchor.len()]) {
        Ok(key) => Ok(key),
        Err(_) => Err(AllocError),
    }
}

/// The lower one of an end and of an anchor, if there is one. It takes memory only where the key at that end
/// has more than 48 bytes.
pub fn lower_end(alloc: Global, next: Option<AnchorWords>, to: &Bound) -> Result<Bound, AllocError>
    ensures { IfOk result (λ end. end ≡ lesser (end_bound next) to.now) }
{
    let end = match next {
        Some(anchor) => Bound::At(anchor_key(alloc, &anchor)?),
        None => Bound::High,
    };
    match end.order(to) {
        Ordering::Less => Ok(end),
        _ => to.copy(),
    }
}
