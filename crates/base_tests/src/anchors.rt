//! Anchors: worked targets, by the list.
use anchor_rules::Anchors;
use key_bytes::Key;
use std::alloc::Global;

// Splits a leaf at the anchor.
fn is_split(alloc: Global, anchors: &mut Anchors, leaf: u32, text: &str, new_leaf: u32) -> bool {
    match Key::new(alloc, text.as_bytes()) {
        Ok(key) if anchors.splits(leaf, &key, new_leaf) => {
            anchors.with_split(leaf, key, new_leaf).is_ok()
        }
        _ => false,
    }
}

fn is_target(alloc: Global, anchors: &Anchors, text: &str, leaf: u32) -> bool {
    match Key::new(alloc, text.as_bytes()) {
        Ok(key) => anchors.target(&key) == leaf,
        Err(_) => false,
    }
}

// Whether each text has its leaf, among the anchors `Jo` and `Jos` behind the empty one.
fn are_targets(alloc: Global, rows: &[(&str, u32)]) -> bool {
    let Ok(mut anchors) = Anchors::first(alloc, 0) else {
        return false;
    };
    let both = is_split(alloc, &mut anchors, 0, "Jo", 1)
        && is_split(alloc, &mut anchors, 1, "Jos", 2);
    for (text, leaf) in rows {
        if !is_target(alloc, &anchors, text, *leaf) {
            return false;
        }
    }
    both
}

#[test]
fn keys_find_their_leaves(rt: HostRuntime) {
    let rows = [
        ("J", 0),
        ("Jn", 0),
        ("Jo", 1),
        ("Jor", 1),
        ("Jos", 2),
        ("Josephine", 2),
        ("Jp", 2),
    ];
    assert!(rt; are_targets(rt.alloc(), &rows));
}
