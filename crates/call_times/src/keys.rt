//! The keys and the shape that both indexes have.
use crate::Plan;
use key_bytes::Key;
use row_words::Shape;
use std::alloc::Global;

/// The shape by default, with room for twice as many values.
pub(crate) fn shape() -> Shape {
    let mut shape = Shape::standard();
    shape.values = 131_072;
    shape
}

/// Each key once, in an order that isn't theirs.
pub(crate) fn all_keys(alloc: Global, plan: &Plan) -> Vec<Key> {
    keys(alloc, plan.keys, plan.keys, 40_507)
}

/// The keys that a round asks for, in another order.
pub(crate) fn asked_keys(alloc: Global, plan: &Plan) -> Vec<Key> {
    keys(alloc, plan.calls, plan.keys, 7_919)
}

// So many web addresses of 44 bytes out of some, each so far behind the one before.
fn keys(alloc: Global, count: u32, of: u32, stride: u32) -> Vec<Key> {
    let mut made = Vec::new(alloc);
    for i in 0..count {
        let Some(at) = (u64::from(i) * u64::from(stride)).checked_rem(u64::from(of)) else {
            return made;
        };
        if let Some(key) = address(alloc, at) {
            // Without memory for them there are fewer keys.
            let _ = made.push(key);
        }
    }
    made
}

fn address(alloc: Global, i: u64) -> Option<Key> {
    match format!(in alloc; "http://host{:02}.example/path/{:06}/index.html", i % 50, i) {
        Ok(text) => Key::new(alloc, text.as_bytes()).ok(),
        Err(_) => None,
    }
}
