//! A cache of ranges, which keeps so many and lets go the oldest.
ghost use Rattle.std.specs.Prelude.{◌≤◌, length};

use muslinscree::{
    Bound, Bounded, Error, Key, LONGEST_VALUE, Ordered, Page, Refusal, Shape, Solo, scan,
};
use std::alloc::Global;
use std::collections::VecDeque;

// Ranges of keys that don't overlap. Each lies at its last key, with its first one as the value.
#[derive(Drop)]
struct Ranges {
    map: Solo,
    // The last keys, the oldest first.
    ages: VecDeque<Key>,
    page: Page,
}

impl Ranges {
    fn make(alloc: Global, most: u32) -> Result<Ranges, Error> {
        let shape = Shape {
            values: most,
            ..Shape::standard()
        };
        Ok(Ranges {
            map: Solo::make(alloc, &shape)?,
            ages: VecDeque::new(alloc),
            page: Page::new(alloc),
        })
    }

    // Adds a range. Where there is no room for it, the oldest goes first.
    fn add(&mut self, first: &[u8], last: Key) -> Result<(), Error>
        requires { length first.now ≤ LONGEST_VALUE }
    {
        let age = last.copy()?;
        let mut put = self.map.put(&last, first);
        if let Err(Refusal::Full(_)) = put {
            if let Some(oldest) = self.ages.pop_front() {
                self.map.del(&oldest)?;
            }
            put = self.map.put(&last, first);
        }
        if put? {
            self.ages.push_back(age)?;
        }
        Ok(())
    }

    // Whether a range has the key: the first one that ends at it or above it is the only one that can.
    fn has(&mut self, key: Key) -> Result<bool, Error> {
        let from = Bound::At(key.copy()?);
        let mut has = false;
        self.page.want(1);
        scan(
            &mut self.map,
            &mut Bounded(1),
            &from,
            &Bound::High,
            &mut self.page,
            |_last: &[u8], first: &[u8]| {
                has = first <= key.bytes();
                false
            },
        )?;
        Ok(has)
    }
}

fn adds(ranges: &mut Ranges, alloc: Global, first: u8, last: u8) -> bool {
    match Key::new(alloc, &[last]) {
        Ok(last) => ranges.add(&[first], last).is_ok(),
        Err(_) => false,
    }
}

fn has(ranges: &mut Ranges, alloc: Global, key: u8, wanted: bool) -> bool {
    match Key::new(alloc, &[key]) {
        Ok(key) => matches!(ranges.has(key), Ok(has) if has == wanted),
        Err(_) => false,
    }
}

fn keeps_the_newest(alloc: Global) -> bool {
    let Ok(mut ranges) = Ranges::make(alloc, 2) else {
        return false;
    };
    adds(&mut ranges, alloc, 10, 19)
        && adds(&mut ranges, alloc, 30, 39)
        && has(&mut ranges, alloc, 15, true)
        && has(&mut ranges, alloc, 25, false)
        && adds(&mut ranges, alloc, 50, 59)
        && has(&mut ranges, alloc, 15, false)
        && has(&mut ranges, alloc, 59, true)
}

#[test]
fn the_oldest_range_goes(rt: HostRuntime) {
    assert!(rt; keeps_the_newest(rt.alloc()));
}
