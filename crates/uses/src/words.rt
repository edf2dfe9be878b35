//! Counts the words of a text, and lists them in order.
use muslinscree::{Bound, Bounded, Error, Key, Ordered, Page, Shape, Solo, scan};
use std::alloc::Global;

// Adds the words of a text to their counts.
fn count_words(alloc: Global, counts: &mut Solo, text: &str) -> Result<(), Error> {
    let mut count = Vec::new(alloc);
    for word in text.split_whitespace() {
        let key = Key::new(alloc, word.as_bytes())?;
        counts.get(&key, &mut count)?;
        counts.put(&key, &number(&count).saturating_add(1).to_le_bytes())?;
    }
    Ok(())
}

// The number of a value, which is 0 where there is none.
fn number(value: &[u8]) -> u32 {
    match value {
        [a, b, c, d] => u32::from_le_bytes([*a, *b, *c, *d]),
        _ => 0,
    }
}

// The words in order, each once, and how many there are of all together.
fn listed(alloc: Global, counts: &mut Solo) -> Result<(Vec<u8>, u32), Error> {
    let mut words = Vec::new(alloc);
    let mut all = 0u32;
    let mut page = Page::new(alloc);
    let whole = scan(
        counts,
        &mut Bounded(1),
        &Bound::Low,
        &Bound::High,
        &mut page,
        |word: &[u8], count: &[u8]| {
            all = all.saturating_add(number(count));
            words.extend_from_slice(word).is_ok() && words.push(b' ').is_ok()
        },
    )?;
    if whole {
        Ok((words, all))
    } else {
        Err(Error::NoMemory)
    }
}

fn counts_words(alloc: Global) -> bool {
    let Ok(mut counts) = Solo::make(alloc, &Shape::standard()) else {
        return false;
    };
    if count_words(alloc, &mut counts, "to be or not to be").is_err() {
        return false;
    }
    match listed(alloc, &mut counts) {
        Ok((words, all)) => words.as_slice() == b"be not or to ".as_slice() && all == 6,
        Err(_) => false,
    }
}

#[test]
fn words_are_counted_in_order(rt: HostRuntime) {
    assert!(rt; counts_words(rt.alloc()));
}
