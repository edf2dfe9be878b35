//! Generated calls of the index beside a plain map, with ample memory.
use key_bytes::{Bound, Key};
use map_model::{Ordered, Page, PlainMap, Refusal};
use row_words::Shape;
use solo_index::Solo;
use std::alloc::Global;

// Leaves of two keys, three for a while, with room for 100 keys.
const ROOMY: Shape = Shape {
    leaves: 60,
    items: 200,
    heads: 16,
    values: 100,
    lanes: 1,
    soft: 2,
    hard: 3,
    merge_sum: 1,
    salt: 0,
};

// Two stores, and where the values are left that they find.
#[derive(Drop)]
struct Pair {
    store: Solo,
    plain: PlainMap,
    found: Vec<u8>,
    want: Vec<u8>,
}

impl Pair {
    fn put(&mut self, key: &Key, value: [u8; 4]) -> bool {
        self.store.put(key, &value) == self.plain.put(key, &value)
    }

    fn del(&mut self, key: &Key) -> bool {
        self.store.del(key) == self.plain.del(key)
    }

    fn get(&mut self, key: &Key) -> bool {
        self.store.get(key, &mut self.found) == self.plain.get(key, &mut self.want)
            && self.found.as_slice() == self.want.as_slice()
    }

    // Whether the pairs from the key up to the end of a part are those of the plain map.
    fn part(&mut self, key: Key, page: &mut Page, want: &mut Page) -> Result<bool, Refusal> {
        let from = Bound::At(key);
        let upto = self.store.part(&from, &Bound::High, page)?;
        let end = self.plain.part(&from, &upto, want)?;
        Ok(end.order(&upto).is_eq() && same_pairs(page, want))
    }
}

fn same_pairs(page: &Page, want: &Page) -> bool {
    if page.len() != want.len() {
        return false;
    }
    for i in 0..page.len() {
        if page.key(i) != want.key(i) || page.value(i) != want.value(i) {
            return false;
        }
    }
    true
}

// One of 80 keys of one or two letters.
fn some_key(alloc: Global, draw: u32) -> Option<Key> {
    let bytes = [b'a' + (draw >> 28) as u8, b'a' + (draw >> 24) as u8 % 4];
    let length = 1 + (draw >> 20) as usize % 2;
    Key::new(alloc, &bytes[..length]).ok()
}

// Makes one call of both stores, and says whether they answer the same.
fn same_call(alloc: Global, pair: &mut Pair, pages: &mut (Page, Page), draw: u32) -> bool {
    match (some_key(alloc, draw), (draw >> 16) % 4) {
        (Some(key), 0) => pair.del(&key),
        (Some(key), 1) => pair.get(&key),
        (Some(key), 2) => pair.part(key, &mut pages.0, &mut pages.1) == Ok(true),
        (Some(key), _) => pair.put(&key, draw.to_be_bytes()),
        (None, _) => false,
    }
}

// Whether 2,000 calls are answered alike.
fn answers_as_the_plain_map(alloc: Global) -> bool {
    let Ok(store) = Solo::make(alloc, &ROOMY) else {
        return false;
    };
    let mut pages = (Page::new(alloc), Page::new(alloc));
    let mut pair = Pair {
        store,
        plain: PlainMap::new(alloc),
        found: Vec::new(alloc),
        want: Vec::new(alloc),
    };
    let mut draw = 7_u32;
    for _ in 0..2_000_u32 {
        draw = draw.wrapping_mul(1_664_525).wrapping_add(1_013_904_223);
        if !same_call(alloc, &mut pair, &mut pages, draw) {
            return false;
        }
    }
    true
}

#[test]
fn calls_are_answered_as_by_the_plain_map(rt: HostRuntime) {
    assert!(rt; answers_as_the_plain_map(rt.alloc()));
}
