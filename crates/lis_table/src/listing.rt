//! What a listing shows of a table.

ghost use Rattle.std.specs.Prelude.{◌≡◌, List, ◌++◌, not, filter, IfOk, OnOk};
ghost use Rattle.std.specs.List.{list_any, flat_map};
ghost use Rattle.lis_words.specs.Words.{same_word, has_word};
ghost use Rattle.lis_model.specs.Table.{Entry, entails};
ghost use Rattle.lis_model.specs.Listing.{is_candidate, is_above, is_increment, is_local};
ghost use Rattle.lis_model.specs.Replies.{body_line, ok_line, listing_lines, word_letter, file_letter};

use crate::entry::Entry;
use crate::table::Table;
use crate::words::has_word;
use lis_words::{Name, Word};
use std::alloc::{AllocError, Global};

/// Whether one of the files has the word.
pub fn has_somewhere(files: &[Entry], word: &Word) -> bool
    ensures { result ≡ list_any (λ (file : Entry). has_word file.words word.now) files.now }
{
    files.iter().any(|file| has_word(&file.words, word))
}

/// Whether one of the files lacks the word.
pub fn lacks_somewhere(files: &[Entry], word: &Word) -> bool
    ensures { result ≡ list_any (λ (file : Entry). not (has_word file.words word.now)) files.now }
{
    files.iter().any(|file| !has_word(&file.words, word))
}

/// Whether one of the files has the name.
pub fn has_entry(files: &[Entry], name: &Name) -> bool
    ensures { result ≡ list_any (λ (file : Entry). same_word file.name name.now) files.now }
{
    files.iter().any(|file| file.name == *name)
}

/// Whether some file has the word and some file lacks it.
pub fn is_candidate(files: &[Entry], word: &Word) -> bool
    ensures { result ≡ is_candidate files.now word.now }
{
    has_somewhere(files, word) && lacks_somewhere(files, word)
}

/// Whether p entails q.
pub fn entails(table: &Table, p: &Word, q: &Word) -> bool
    ensures { result ≡ entails table.now p.now q.now }
{
    table
        .entailed
        .iter()
        .any(|pair| pair.word == *p && has_word(&pair.above, q))
}

/// Whether p entails another word q that is a candidate.
pub fn is_above(table: &Table, files: &[Entry], p: &Word, q: &Word) -> bool
    ensures { result ≡ is_above table.now files.now p.now q.now }
{
    if !entails(table, p, q) {
        return false;
    }
    if q == p {
        return false;
    }
    is_candidate(files, q)
}

/// Whether the word entails another candidate.
pub fn has_above(table: &Table, files: &[Entry], p: &Word) -> bool
    ensures { result ≡ list_any (is_above table.now files.now p.now) table.now.known }
{
    table.known.iter().any(|q| is_above(table, files, p, q))
}

/// Whether the word is a candidate that entails no other.
pub fn is_increment(table: &Table, files: &[Entry], p: &Word) -> bool
    ensures { result ≡ is_increment table.now files.now p.now }
{
    if !is_candidate(files, p) {
        return false;
    }
    !has_above(table, files, p)
}

/// Whether one of the words is a candidate.
pub fn has_candidate(files: &[Entry], words: &[Word]) -> bool
    ensures { result ≡ list_any (is_candidate files.now) words.now }
{
    words.iter().any(|word| is_candidate(files, word))
}

/// Whether none of the file's words is a candidate.
pub fn is_local(files: &[Entry], file: &Entry) -> bool
    ensures { result ≡ is_local files.now file.now }
{
    !has_candidate(files, &file.words)
}

/// Appends a line of a letter and a text to the reply.
pub fn push_line(reply: &mut Vec<u8>, letter: u8, text: &[u8]) -> Result<(), AllocError>
    ensures { OnOk result (reply.new.items ≡ reply.old.items ++ body_line letter text.now) }
{
    reply.push(letter)?;
    reply.push(b' ')?;
    reply.extend_from_slice(text)?;
    reply.push(b'\n')?;
    Ok(())
}

/// Appends to the reply a line with the letter for each of the words.
pub fn push_words(reply: &mut Vec<u8>, letter: u8, words: &[Word]) -> Result<(), AllocError>
    ensures { OnOk result (reply.new.items ≡ reply.old.items ++ flat_map (body_line letter) words.now) }
{
    for word in words {
        push_line(reply, letter, word.bytes())?;
    }
    Ok(())
}

/// Appends a line for each increment to the reply.
pub fn push_increments(
    reply: &mut Vec<u8>,
    table: &Table,
    files: &[Entry],
) -> Result<(), AllocError>
    ensures { OnOk result (reply.new.items ≡ reply.old.items
        ++ flat_map (body_line word_letter) (filter (is_increment table.now files.now) table.now.known)) }
{
    for word in &table.known {
        if is_increment(table, files, word) {
            push_line(reply, b'd', word.bytes())?;
        }
    }
    Ok(())
}

/// Appends a line for each local file to the reply.
pub fn push_locals(reply: &mut Vec<u8>, files: &[Entry]) -> Result<(), AllocError>
    ensures { OnOk result (reply.new.items ≡ reply.old.items
        ++ flat_map (λ (file : Entry). body_line file_letter file.name) (filter (is_local files.now) files.now)) }
{
    for file in files {
        if is_local(files, file) {
            push_line(reply, b'f', file.name.bytes())?;
        }
    }
    Ok(())
}

/// The reply of a listing over the files of an extension.
pub fn listing(alloc: Global, table: &Table, files: &[Entry]) -> Result<Vec<u8>, AllocError>
    ensures { IfOk result (λ reply. reply.items ≡ listing_lines (filter (is_increment table.now files.now) table.now.known)
        (filter (is_local files.now) files.now) ++ ok_line) }
{
    let mut reply = Vec::new(alloc);
    push_increments(&mut reply, table, files)?;
    push_locals(&mut reply, files)?;
    reply.extend_from_slice(b"ok\n")?;
    Ok(reply)
}
