//! Keys, which are lists of 1 to `LONGEST_KEY` bytes, with their order, the ends of ranges of keys, and
//! the hash of the bytes that a key begins with; and copies of few bytes.
#![tactic(auto)]

mod bound;
mod bytes;
mod common;
mod copies;
mod few;
mod fnv;
mod key;
mod limits;

pub use bound::Bound;
pub use bytes::Bytes;
pub use common::{lcp, separator};
pub use copies::copy_few;
pub use fnv::{Fnv, prefix_hash};
pub use key::{Key, KeyFault};
pub use limits::{LONGEST_KEY, LONGEST_VALUE};

// Keys, ends of ranges and bytes may go to other threads.
fn parts_are_send() {
    is_send::<Key>();
    is_send::<Bound>();
    is_send::<Bytes>();
}

fn is_send<T: Send>() {}
