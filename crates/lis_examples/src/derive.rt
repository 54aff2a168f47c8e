//! Files and the words that are derived from them, worked out by hand.

use lis_derive::derive_words;
use lis_words::{Word, read_name};
use std::alloc::{AllocError, Global};
use std::test::Fail;

/// Words, separated by blanks.
pub fn spaced(alloc: Global, words: &[Word]) -> Result<Vec<u8>, AllocError> {
    let mut text = Vec::new(alloc);
    for word in words {
        if !text.is_empty() {
            text.push(b' ')?;
        }
        text.extend_from_slice(word.bytes())?;
    }
    Ok(text)
}

/// The parts of a table's row before and after its `$`.
pub fn fields(row: &[u8]) -> Result<(&[u8], &[u8]), Fail> {
    let mut fields = row.splitn(2, |byte| *byte == b'$');
    match (fields.next(), fields.next()) {
        (Some(before), Some(behind)) => Ok((before, behind)),
        _ => Err("a row has no `$`".into()),
    }
}

fn words_of(alloc: Global, name: &[u8], bytes: &[u8]) -> Result<Vec<u8>, AllocError> {
    match read_name(name) {
        None => Ok(Vec::new(alloc)),
        Some(name) => spaced(alloc, derive_words(&name, bytes).as_slice()),
    }
}

/// A file's name, its bytes, and its words.
fn files() -> &'static [(&'static [u8], &'static [u8], &'static [u8])] {
    &[
        (b"notes", b"", b"size:empty"),
        (b"a.b.txt", b"x", b"ext:txt size:small"),
        (b".txt", b"", b"size:empty"),
        (b"a.", b"", b"size:empty"),
        (b"..a", b"", b"ext:a size:empty"),
        (b"Q.C", b"int f() {}", b"ext:C size:small"),
        (b"q.h", b"int f() {}", b"ext:h size:small defines:f"),
        (
            b"a.456789012345678901234567890123456789012345678901234567890",
            b"",
            b"size:empty",
        ),
        (
            b"m.eml",
            b"From: Alice <alice@example.org>\nTo: bob@example.org,\n Carol <carol@example.org>\nSubject: Re: Lunch plan\n\nSee you.\n",
            b"ext:eml size:small from:alice@example.org to:bob@example.org to:carol@example.org subject:re subject:lunch subject:plan",
        ),
        (
            b"x.c",
            b"/* #include \"no.h\" */\n#include <stdio.h>\n#include \"sub/list.h\"\nstatic const char *s = \"{\";\nint main(void) {\n  puts(s);\n}\n",
            b"ext:c size:small includes:stdio.h includes:list.h defines:main",
        ),
    ]
}

#[test]
fn files_give_their_words(rt: HostRuntime) -> Result<(), Fail> {
    for (name, bytes, wanted) in files() {
        let words = words_of(rt.alloc(), name, bytes)?;
        assert!(rt; words.as_slice() == *wanted, "{name:?}");
    }
    Ok(())
}
