//! The least free slot is taken first: no clause says which. Names that were sorted once, worked out by hand.

use arrayvec::ArrayVec;
use lis_catalog::{Catalog, Unsorted};
use lis_fields::FileRec;
use lis_words::read_name;
use std::process::Abort;
use std::test::Fail;

fn file(rt: &impl Abort, name: &[u8]) -> FileRec {
    FileRec {
        name: read_name(name).expect(rt, "a name"),
        size: 0,
        tags: ArrayVec::new(),
        blocks: ArrayVec::new(),
    }
}

#[test]
fn the_least_free_slot_is_taken(rt: HostRuntime) -> Result<(), Fail> {
    let mut catalog = Catalog::new(rt.alloc(), 64)?;
    catalog.place(1, file(&rt, b"c"));
    for (name, slot) in [("b", 0), ("d", 2), ("a", 3)] {
        let added = catalog.add(file(&rt, name.as_bytes()));
        assert!(rt; matches!(added, Ok(n) if n == slot), "at {name}");
    }
    assert!(rt; catalog.remove(1).is_some());
    assert!(rt; matches!(catalog.add(file(&rt, b"e")), Ok(1)));
    Ok(())
}

type Row = (
    &'static [u8],
    &'static [u8],
    &'static [u8],
    &'static [u8],
    &'static [u32],
);

/// The names of the files in slots 0 to 3, then what a sort of them answers: the slots in the order of the names, or one slot if its name
/// occurs twice.
fn sorts() -> &'static [Row] {
    &[
        (b"song", b"rock.txt", b"b", b"a", &[3, 2, 1, 0]),
        (b"a.c", b"a", b"a.c.o", b"a-", &[1, 3, 0, 2]),
        (b"b", b"b", b"a", b"c", &[1]),
        (b"c", b"b", b"a", b"c", &[3]),
        (b"c", b"b", b"c", b"b", &[2]),
        (b"b", b"b", b"b", b"b", &[1]),
    ]
}

#[test]
fn names_are_sorted_once(rt: HostRuntime) -> Result<(), Fail> {
    for (zero, one, two, three, slots) in sorts() {
        let mut unsorted = Unsorted::new(rt.alloc(), 64)?;
        unsorted.put(2, file(&rt, two));
        unsorted.put(0, file(&rt, zero));
        unsorted.put(3, file(&rt, three));
        unsorted.put(1, file(&rt, one));
        let mut found: Vec<u32> = Vec::new(rt.alloc());
        match unsorted.sort() {
            Ok(catalog) => {
                for k in 0..catalog.len() {
                    let (_, slot) = catalog.file_at(k).expect(&rt, "a file");
                    found.push(slot)?;
                }
            }
            Err(again) => found.push(again)?,
        }
        assert!(rt; found.as_slice() == *slots, "{slots:?}");
    }
    Ok(())
}
