//! The least free number is given first: no clause says which. Words that were sorted once, worked out by hand.

use lis_dict::{Dict, Unsorted};
use lis_words::{Word, read_word};
use std::process::Abort;
use std::test::Fail;

#[test]
fn the_least_free_number_is_given(rt: HostRuntime) -> Result<(), Fail> {
    let mut dict = Dict::new(rt.alloc(), 64)?;
    let rock = read_word(b"rock").expect(&rt, "a word");
    let jazz = read_word(b"jazz").expect(&rt, "a word");
    assert!(rt; dict.add(&rock) == Ok(0) && dict.add(&jazz) == Ok(1));
    assert!(rt; dict.remove(&rock) == Some(0));
    assert!(rt; dict.add(&rock) == Ok(0));
    Ok(())
}

fn word(rt: &impl Abort, bytes: &[u8]) -> Word {
    read_word(bytes).expect(rt, "a word")
}

type Row = (
    &'static [u8],
    &'static [u8],
    &'static [u8],
    &'static [u8],
    &'static [u32],
);

/// The words of the numbers 0 to 3, then what a sort of them answers: the numbers in the order of the words, or one number if its word
/// stands twice.
fn sorts() -> &'static [Row] {
    &[
        (b"soul", b"rock", b"jazz", b"folk", &[3, 2, 1, 0]),
        (b"a:", b"a", b"a:b", b"a-", &[1, 3, 0, 2]),
        (b"jazz", b"jazz", b"rock", b"soul", &[1]),
        (b"rock", b"jazz", b"folk", b"rock", &[3]),
        (b"rock", b"jazz", b"rock", b"jazz", &[2]),
        (b"jazz", b"jazz", b"jazz", b"jazz", &[1]),
    ]
}

#[test]
fn words_are_sorted_once(rt: HostRuntime) -> Result<(), Fail> {
    for (zero, one, two, three, numbers) in sorts() {
        let mut unsorted = Unsorted::new(rt.alloc(), 64)?;
        unsorted.put(2, &word(&rt, two));
        unsorted.put(0, &word(&rt, zero));
        unsorted.put(3, &word(&rt, three));
        unsorted.put(1, &word(&rt, one));
        let mut found: Vec<u32> = Vec::new(rt.alloc());
        match unsorted.sort() {
            Ok(dict) => {
                for k in 0..dict.len() {
                    let (_, number) = dict.word_at(k).expect(&rt, "a word");
                    found.push(number)?;
                }
            }
            Err(again) => found.push(again)?,
        }
        assert!(rt; found.as_slice() == *numbers, "{numbers:?}");
    }
    Ok(())
}
