//! Tags, each with a place.
use leaf_tags::Tags;
use std::alloc::Global;

// Adds four pairs of one tag.
fn add_four(tags: &mut Tags, tag: u16) -> bool {
    if tags.reserve_many(3).is_err() {
        return false;
    }
    tags.add(tag, 10);
    tags.add(tag, 11);
    tags.add(tag, 12);
    if tags.reserve().is_err() {
        return false;
    }
    tags.add(tag, 13);
    tags.len() == 4
}

// Whether each of the four pairs is found by its place, the first one asked for by any, and none by another tag. The
// tag is that of the key `a` under salt 0.
fn are_four_found(alloc: Global) -> bool {
    let mut tags = Tags::new(alloc);
    if !add_four(&mut tags, 44_899) {
        return false;
    }
    for wanted in 10..14 {
        if tags.find(44_899, |place| place == wanted) != Some(wanted) {
            return false;
        }
    }
    tags.find(44_899, |_| true).is_some() && tags.find(44_898, |_| true).is_none()
}

#[test]
fn places_of_one_tag_are_found(rt: HostRuntime) {
    assert!(rt; are_four_found(rt.alloc()));
}

#[test]
fn each_pair_gets_the_place_at_its_own(rt: HostRuntime) {
    assert!(rt; is_renumbered(rt.alloc()));
}

fn is_renumbered(alloc: Global) -> bool {
    let mut tags = Tags::new(alloc);
    if tags.reserve_many(2).is_err() {
        return false;
    }
    tags.add(7, 0);
    tags.add(40_000, 1);
    tags.renumber(&[5, 3]);
    tags.find(7, |_| true) == Some(5) && tags.find(40_000, |_| true) == Some(3)
}
