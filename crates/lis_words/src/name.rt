//! File names.

ghost use Rattle.std.specs.Prelude.{◌≡◌, ℕ, ◌≤◌, ◌↔◌, List, length, IsTrue, IsSome, IfSome};
ghost use Rattle.lis_words.specs.Words.{is_file_name};

use crate::forms::is_file_name;
use arrayvec::ArrayVec;
use lis_limits::MAX_WORD;
use std::marker::Model;

/// A file name: 1 to 60 plain bytes, other than `.` and `..`. Names are ordered by their bytes.
#[derive(Drop, Debug, Clone, PartialEq, Eq, PartialOrd, Ord)]
pub struct Name {
    held: ArrayVec<u8, 60>,
}

impl Model for Name {
    ghost use Rattle.std.specs.Prelude.{ℕ, List, IsTrue};
    ghost use Rattle.lis_words.specs.Words.{is_file_name};

    ghost Value = { List ℕ };

    ghost view = { λ n. n.held.items };

    ghost invariant = { λ n. IsTrue (is_file_name n.held.items) };

    ghost inverse = { λ bytes. record { held = record { items = bytes } } };
}

/// Reads a file name. None exactly if the bytes are no file name.
pub fn read_name(bytes: &[u8]) -> Option<Name>
    ensures name { IsSome result ↔ IsTrue (is_file_name bytes.now) }
    ensures same { IfSome result (λ name. name ≡ bytes.now) }
{
    if !is_file_name(bytes) {
        return None;
    }
    let mut held = ArrayVec::new();
    held.try_extend_from_slice(bytes).ok()?;
    Some(Name { held })
}

impl Name {
    /// The name's bytes.
    pub fn bytes(&self) -> &[u8]
        ensures bytes { result.now ≡ self.now }
        ensures name { IsTrue (is_file_name self.now) }
        ensures short { length result.now ≤ MAX_WORD }
    {
        self.held.as_slice()
    }

    /// How many bytes the name has; a name is never empty.
    pub fn len(&self) -> usize
        ensures value { result ≡ length self.now }
        ensures short { result ≤ MAX_WORD }
    {
        self.held.len()
    }

    /// The same name, without an allocation: unlike `clone`, it can't fail.
    pub fn copied(&self) -> Name
        ensures { result ≡ self.now }
    {
        let mut held = ArrayVec::new();
        held.try_extend_from_slice(self.held.as_slice()).unwrap();
        Name { held }
    }
}
