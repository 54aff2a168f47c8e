//! What the description of a file would be: how many words it would have, and how many words would be known with it.

ghost use Rattle.std.specs.Prelude.{◌≡◌, ◌+◌, ◌*◌, ◌<◌, ◌≤◌, not, ◌&&◌, [], ◌∷◌, length, IsSome, IfSome};
ghost use Rattle.lis_dict.specs.Dict.{word_of};
ghost use Rattle.lis_catalog.specs.Catalog.{rec_at};
ghost use Rattle.lis_words.specs.Words.{has_word};
ghost use Rattle.lis_model.specs.State.{heads};
ghost use Rattle.lis_kept.specs.Sound.{AreSound};
ghost use Rattle.lis_kept.specs.Forgetting.{emptied};
ghost use Rattle.lis_kept.specs.Telling.{AreUsed, is_used};
ghost use Rattle.lis_taxonomy.specs.Search.{is_found};
ghost use Rattle.lis_store.specs.Drafts.{drafted};
ghost use Rattle.lis_store.specs.Admitting.{described_by};
ghost use Rattle.lis_store.specs.Beside.{known_beside, leaving};
ghost use Rattle.lis_store.specs.Describing.{with_heads, Notes, IsFound};

use crate::finding::find_description;
use arrayvec::ArrayVec;
use lis_kept::Metadata;
use lis_limits::{MAX_ASSIGNED, MAX_DESCRIPTION};
use lis_model::derived::Derived;
use lis_taxonomy::Search;
use lis_words::{Name, Word, head_of};

/// A file as a change describes it: how many bytes it has, and which words are derived from them and its name, but not the bytes.
#[derive(Clone, Copy)]
pub(crate) struct Draft<'a> {
    pub(crate) name: &'a Name,
    pub(crate) size: u64,
    pub(crate) assigned: &'a [Word],
    pub(crate) own: &'a [Word],
}

/// The words of a file: those that it is given, and those that are derived from its name and its bytes.
#[derive(Drop)]
pub(crate) struct FileWords {
    pub(crate) assigned: ArrayVec<Word, MAX_ASSIGNED>,
    pub(crate) derived: Derived,
}

/// How many words a file may be given and have derived from it, with their heads.
const MAX_FRESH: usize = 2 * (MAX_ASSIGNED + MAX_DESCRIPTION);

/// The words that are new.
type Fresh = ArrayVec<Word, MAX_FRESH>;

/// How many words a description has, and how many words would be known with them.
#[derive(Clone, Copy, Debug, PartialEq, Eq)]
pub(crate) struct Extent {
    pub(crate) words: u32,
    pub(crate) known: u32,
}

// Whether the word is one of the words.
fn has(words: &[Word], word: &Word) -> bool
    ensures { result ≡ has_word words.now word.now }
{
    words.iter().any(|held| held == word)
}

// Notes a word that has no number, once.
fn note(metadata: &Metadata, fresh: &mut Fresh, word: &Word)
    requires { length fresh.old.items < 2 * (MAX_ASSIGNED + MAX_DESCRIPTION) }
    ensures { Notes metadata.now (word.now ∷ []) fresh.old.items fresh.new.items }
{
    if metadata.number_of(word).is_none() && !has(fresh.as_slice(), word) {
        fresh.push(word.copied());
    }
}

// Notes a word and its head.
fn note_with_head(metadata: &Metadata, fresh: &mut Fresh, word: &Word)
    requires { length fresh.old.items + 1 < 2 * (MAX_ASSIGNED + MAX_DESCRIPTION) }
    ensures { Notes metadata.now (word.now ∷ heads word.now) fresh.old.items fresh.new.items }
{
    note(metadata, fresh, word);
    if let Some(head) = head_of(word) {
        note(metadata, fresh, &head);
    }
}

// Notes the words and their heads.
fn note_all(metadata: &Metadata, fresh: &mut Fresh, words: &[Word])
    requires { length fresh.old.items + 2 * length words.now ≤ 2 * (MAX_ASSIGNED + MAX_DESCRIPTION) }
    ensures { Notes metadata.now (with_heads words.now) fresh.old.items fresh.new.items }
{
    for word in words {
        note_with_head(metadata, fresh, word);
    }
}

// Finds the numbers of the description of a file. The result is those of its words that have none.
fn find_draft(metadata: &Metadata, search: &mut Search, draft: Draft) -> Fresh
    requires sound { AreSound metadata.now }
    requires few { length draft.assigned.now ≤ MAX_ASSIGNED }
    requires few_own { length draft.own.now ≤ MAX_DESCRIPTION }
    ensures { IsFound metadata.now (drafted draft.entry.name.now draft.entry.size draft.entry.assigned.now draft.entry.own.now) search.new result.items }
{
    find_description(metadata, draft.assigned, draft.own, draft.size, search);
    let mut fresh = ArrayVec::new();
    note_all(metadata, &mut fresh, draft.assigned);
    note_all(metadata, &mut fresh, draft.own);
    fresh
}

// Whether a number of the description in a slot is not found, and nothing else uses it.
fn is_leaving(metadata: &Metadata, found: &Search, slot: u32, number: u32) -> bool
    requires sound { AreSound metadata.now }
    requires there { IsSome (rec_at metadata.now.catalog slot) }
    requires named { IsSome (word_of metadata.now.dict number) }
    ensures { result ≡ (not (is_found found.now number) && not (is_used (emptied metadata.now slot) number)) }
{
    !found.has(number) && !metadata.is_used_without(slot, number)
}

// How many numbers of the description in a slot are not found, and nothing else uses them. If no slot is given, none leave.
fn leaving(metadata: &Metadata, found: &Search, beside: Option<u32>) -> u32
    requires sound { AreSound metadata.now }
    requires there { IfSome beside (λ slot. IsSome (rec_at metadata.now.catalog slot)) }
    ensures { result ≡ length (leaving metadata.now found.now beside) }
{
    let Some(slot) = beside else {
        return 0;
    };
    let mut count = 0;
    for number in metadata.numbers(slot) {
        if is_leaving(metadata, found, slot, *number) {
            count += 1;
        }
    }
    count
}

/// Measures what there would be with a file, instead of the one in a slot if a slot is given.
pub(crate) fn measure(
    metadata: &Metadata,
    search: &mut Search,
    beside: Option<u32>,
    draft: Draft,
) -> Extent
    requires sound { AreSound metadata.now }
    requires there { IfSome beside (λ slot. IsSome (rec_at metadata.now.catalog slot)) }
    requires used { IfSome beside (λ slot. AreUsed metadata.now) }
    requires few { length draft.assigned.now ≤ MAX_ASSIGNED }
    requires few_own { length draft.own.now ≤ MAX_DESCRIPTION }
    ensures words { result.words
        ≡ length (described_by metadata.now (drafted draft.entry.name.now draft.entry.size draft.entry.assigned.now draft.entry.own.now)) }
    ensures known { result.known
        ≡ length (known_beside metadata.now beside (drafted draft.entry.name.now draft.entry.size draft.entry.assigned.now draft.entry.own.now)) }
{
    let fresh = find_draft(metadata, search, draft).len() as u32;
    Extent {
        words: search.count() + fresh,
        known: metadata.word_count() + fresh - leaving(metadata, search, beside),
    }
}
