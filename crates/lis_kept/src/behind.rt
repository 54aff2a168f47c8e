//! The axioms of a word, in order.

ghost use Rattle.std.specs.Prelude.{◌≡◌};
ghost use Rattle.std.specs.List.{find, flat_map};
ghost use Rattle.std.specs.Option.{option_map};
ghost use Rattle.lis_dict.specs.Dict.{word_of};
ghost use Rattle.lis_model.specs.Sets.{set_of};
ghost use Rattle.lis_kept.specs.Behind.{rights_of, is_behind, is_before, plain_by, plain_right};
ghost use Rattle.lis_kept.specs.Telling.{axioms_of};

use crate::metadata::Metadata;
use lis_dict::Dict;
use lis_words::{Word, is_plain_word};

// Whether a word comes after the last one, if there is one.
fn is_behind(last: Option<&Word>, word: &Word) -> bool
    ensures { result ≡ is_behind (option_map (λ w. w.now) last.entry) word.now }
{
    match last {
        None => true,
        Some(last) => last.bytes().cmp(word.bytes()).is_lt(),
    }
}

// Whether a word comes before the next one, if there is one.
fn is_before(word: &Word, next: &Option<Word>) -> bool
    ensures { result ≡ is_before word.now next.now }
{
    match next {
        None => true,
        Some(next) => word.bytes().cmp(next.bytes()).is_lt(),
    }
}

// The word that has a number, if it is a plain one. To such a word only axioms lead.
fn plain_word(dict: &Dict, number: u32) -> Option<Word>
    ensures { result ≡ plain_by (word_of dict.now number) }
{
    let word = dict.word_of(number)?;
    if is_plain_word(word.bytes()) {
        Some(word)
    } else {
        None
    }
}

// Of the plain words to which edges lead, the first after the last one.
fn first_right(dict: &Dict, edges: &[(u32, u32)], last: Option<&Word>) -> Option<Word>
    ensures { result ≡ find (is_behind (option_map (λ w. w.now) last.entry)) (set_of (flat_map (plain_right dict.now) edges.now)) }
{
    let mut first = None;
    for edge in edges {
        if let Some(word) = plain_word(dict, edge.1) {
            if is_behind(last, &word) && is_before(&word, &first) {
                first = Some(word);
            }
        }
    }
    first
}

impl Metadata {
    /// Of the words to which axioms lead from a word, the first in byte order that comes after the last one, if one is given.
    pub fn axiom_behind(&self, left: &Word, last: Option<&Word>) -> Option<Word>
        ensures { result ≡ find (is_behind (option_map (λ w. w.now) last.entry)) (rights_of (axioms_of self.now) left.now) }
    {
        let number = self.dict.id_of(left)?;
        first_right(&self.dict, self.taxonomy().edges_from(number), last)
    }
}
