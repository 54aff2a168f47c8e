//! The changes of a store.

use crate::admitting::NewFile;
use lis_place::Text;
use lis_words::{Name, Word};

/// One change of a store, with its arguments. A number beside bytes says how many bytes there are. If it is more than a file may have, only
/// the number counts.
#[derive(Clone, Copy)]
pub enum Write<'a> {
    /// Declares a word, under the words of the place.
    Declare(&'a Word),
    /// Removes the declaration of a word.
    Undeclare(&'a Word),
    /// Adds an axiom: from now on each file that has the left word has all that the right one entails.
    Axiom(&'a Word, &'a Word),
    /// Removes an axiom.
    Unaxiom(&'a Word, &'a Word),
    /// Makes a file.
    Add(NewFile<'a>),
    /// Gives a file other bytes.
    Write(&'a Name, &'a [u8], u64),
    /// Removes a file.
    Remove(&'a Name),
    /// Moves a file to the place to which a text leads. The file's bytes are not read, since the words derived from them stay.
    Retag(&'a Name, &'a Text),
    /// Gives a file another name. Its bytes are read, since words are derived from them.
    Rename(&'a Name, &'a Name),
}
