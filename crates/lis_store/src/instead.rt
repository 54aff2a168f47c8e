//! What a file is refused for that would replace another.

ghost use Rattle.std.specs.Prelude.{◌≡◌, ◌≤◌, Some, None, length, IsSome, IfOk};
ghost use Rattle.std.specs.List.{flat_map};
ghost use Rattle.std.specs.Option.{option_to_list};
ghost use Rattle.lis_catalog.specs.Catalog.{slot_of, rec_at};
ghost use Rattle.lis_dict.specs.Dict.{word_of};
ghost use Rattle.lis_fields.specs.Records.{FileRecord};
ghost use Rattle.lis_model.specs.Changes.{new_file};
ghost use Rattle.lis_model.specs.Derived.{derived_words};
ghost use Rattle.lis_kept.specs.Telling.{words_told, AreUsed};
ghost use Rattle.lis_store.specs.Assigning.{Takes};
ghost use Rattle.lis_store.specs.Drafts.{drafted, draft_of, own_word, own_kept};
ghost use Rattle.lis_store.specs.Changes.{Judges};
ghost use Rattle.lis_store.specs.Stored.{DescriptionsAreShort};
ghost use Rattle.lis_store.specs.Instead.{given_before, free_instead, instead_checks, overwriting_checks, renaming_checks};

use crate::assigning::{all_assignable, put_word};
use crate::describing::{Draft, FileWords, measure};
use arrayvec::ArrayVec;
use lis_derive::derive_words;
use lis_kept::Metadata;
use lis_limits::{MAX_ASSIGNED, MAX_DESCRIPTION};
use lis_model::derived::Derived;
use lis_model::limits::blocks_taken;
use lis_model::refusal::Refusal;
use lis_taxonomy::Search;
use lis_words::{Name, Word, is_builtin};

// Puts the word of a number into a set of words, if there is one.
fn put_number(metadata: &Metadata, words: &mut ArrayVec<Word, 16>, number: u32) -> bool
    requires { length words.old.items ≤ MAX_ASSIGNED }
    ensures { Takes (option_to_list (word_of metadata.now.dict number)) words.old.items words.new.items result }
{
    let Some(word) = metadata.word_of(number) else {
        return true;
    };
    put_word(words, &word)
}

// The words that have these numbers.
fn words_of(metadata: &Metadata, numbers: &[u32]) -> ArrayVec<Word, 16>
    requires { length numbers.now ≤ MAX_ASSIGNED }
    ensures words { result.items ≡ words_told metadata.now.dict numbers.now }
    ensures few { length result.items ≤ MAX_ASSIGNED }
{
    let mut words = ArrayVec::new();
    for number in numbers {
        put_number(metadata, &mut words, *number);
    }
    words
}

/// The words that are assigned to the file in a slot.
pub(crate) fn assigned_in(metadata: &Metadata, slot: u32) -> ArrayVec<Word, 16>
    requires { IsSome (rec_at metadata.now.catalog slot) }
    ensures words { (rec : FileRecord) → rec_at metadata.now.catalog slot ≡ Some rec → result.items ≡ words_told metadata.now.dict rec.tags }
    ensures few { length result.items ≤ MAX_ASSIGNED }
{
    let Some(rec) = metadata.rec(slot) else {
        unreachable!()
    };
    words_of(metadata, rec.tags.as_slice())
}

/// How many bytes the file in a slot has.
pub(crate) fn size_in(metadata: &Metadata, slot: u32) -> u64
    requires { IsSome (rec_at metadata.now.catalog slot) }
    ensures { (rec : FileRecord) → rec_at metadata.now.catalog slot ≡ Some rec → result ≡ rec.size }
{
    let Some(rec) = metadata.rec(slot) else {
        unreachable!()
    };
    u64::from(rec.size)
}

// The word of a number, if it is built in.
fn own_word(metadata: &Metadata, number: u32) -> Option<Word>
    ensures { option_to_list result ≡ own_word metadata.now number }
{
    let Some(word) = metadata.word_of(number) else {
        return None;
    };
    if is_builtin(&word) {
        return Some(word);
    }
    None
}

// The built-in words that have these numbers.
fn own_among(metadata: &Metadata, numbers: &[u32]) -> ArrayVec<Word, MAX_DESCRIPTION>
    requires { length numbers.now ≤ MAX_DESCRIPTION }
    ensures words { result.items ≡ flat_map (own_word metadata.now) numbers.now }
    ensures few { length result.items ≤ MAX_DESCRIPTION }
{
    let mut words = ArrayVec::new();
    for number in numbers {
        if let Some(word) = own_word(metadata, *number) {
            words.push(word);
        }
    }
    words
}

/// The derived words of the file in a slot and their heads, taken from its description.
pub(crate) fn own_in(metadata: &Metadata, slot: u32) -> ArrayVec<Word, MAX_DESCRIPTION>
    requires there { IsSome (rec_at metadata.now.catalog slot) }
    requires short { DescriptionsAreShort metadata.now }
    ensures own { result.items ≡ own_kept metadata.now slot }
    ensures few { length result.items ≤ MAX_DESCRIPTION }
{
    own_among(metadata, metadata.numbers(slot))
}

// How many blocks are free for new bytes of the file in a slot.
fn free_instead(metadata: &Metadata, slot: u32) -> u64
    requires { IsSome (rec_at metadata.now.catalog slot) }
    ensures { (rec : FileRecord) → rec_at metadata.now.catalog slot ≡ Some rec → result ≡ free_instead metadata.now rec }
{
    let free = u64::from(metadata.free_blocks());
    if metadata.limits().version != 1 {
        return free;
    }
    free + metadata.taken_blocks(slot) as u64
}

/// Whether the words of a file may replace those of the file in a slot.
pub(crate) fn may_stand_instead(
    metadata: &Metadata,
    search: &mut Search,
    slot: u32,
    draft: Draft,
) -> Result<(), Refusal>
    requires there { IsSome (rec_at metadata.now.catalog slot) }
    requires used { AreUsed metadata.now }
    requires few { length draft.assigned.now ≤ MAX_ASSIGNED }
    requires few_own { length draft.own.now ≤ MAX_DESCRIPTION }
    ensures row { Judges (instead_checks metadata.now slot
        (drafted draft.entry.name.now draft.entry.size draft.entry.assigned.now draft.entry.own.now)) result }
{
    let limits = metadata.limits();
    // The words of a file of a state can be assigned. The contents of memory alone do not imply this, so it is checked.
    if !all_assignable(metadata, draft.assigned) {
        return Err(Refusal::UnknownProperty);
    }
    let measure = measure(metadata, search, Some(slot), draft);
    if measure.words > MAX_DESCRIPTION as u32 {
        return Err(Refusal::LargeDescription);
    }
    if measure.known > limits.props {
        return Err(Refusal::NoPropertyRoom);
    }
    Ok(())
}

// As `may_stand_instead`, with the words that are derived from these bytes. It returns these words.
fn has_room_instead(
    metadata: &Metadata,
    search: &mut Search,
    slot: u32,
    name: &Name,
    words: &[Word],
    payload: &[u8],
) -> Result<Derived, Refusal>
    requires there { IsSome (rec_at metadata.now.catalog slot) }
    requires used { AreUsed metadata.now }
    requires few { length words.now ≤ MAX_ASSIGNED }
    ensures row { Judges (instead_checks metadata.now slot (draft_of (new_file name.now words.now payload.now))) result }
    ensures derived { IfOk result (λ derived. derived ≡ derived_words name.now payload.now) }
{
    let derived = derive_words(name, payload);
    let draft = Draft {
        name,
        size: payload.len() as u64,
        assigned: words,
        own: derived.as_slice(),
    };
    may_stand_instead(metadata, search, slot, draft)?;
    Ok(derived)
}

/// The words that the file in a slot would have with these bytes instead of its own, or what it is refused for with them. `name` is its
/// name. If there are more bytes than a file may have, only their number counts.
pub(crate) fn may_write(
    metadata: &Metadata,
    search: &mut Search,
    slot: u32,
    name: &Name,
    payload: &[u8],
    size: u64,
) -> Result<FileWords, Refusal>
    requires there { IsSome (rec_at metadata.now.catalog slot) }
    requires used { AreUsed metadata.now }
    ensures row { (rec : FileRecord) → rec_at metadata.now.catalog slot ≡ Some rec
        → Judges (overwriting_checks metadata.now slot rec (given_before metadata.now rec name.now payload.now) size) result }
    ensures words { IfOk result (λ words. (rec : FileRecord) → rec_at metadata.now.catalog slot ≡ Some rec
        → words.assigned.items ≡ words_told metadata.now.dict rec.tags) }
    ensures derived { IfOk result (λ words. words.derived ≡ derived_words name.now payload.now) }
{
    let assigned = assigned_in(metadata, slot);
    let derived = has_room_instead(metadata, search, slot, name, assigned.as_slice(), payload)?;
    if blocks_taken(metadata.limits().version, size) > free_instead(metadata, slot) {
        return Err(Refusal::NoSpace);
    }
    Ok(FileWords { assigned, derived })
}

/// The words that the file in a slot would have under another name, which no file has, or what it is refused for under that name. `payload`
/// has its bytes.
pub(crate) fn may_rename(
    metadata: &Metadata,
    search: &mut Search,
    slot: u32,
    other: &Name,
    payload: &[u8],
) -> Result<FileWords, Refusal>
    requires there { IsSome (rec_at metadata.now.catalog slot) }
    requires used { AreUsed metadata.now }
    requires new { slot_of metadata.now.catalog other.now ≡ None }
    ensures row { (rec : FileRecord) → rec_at metadata.now.catalog slot ≡ Some rec
        → Judges (renaming_checks metadata.now slot (given_before metadata.now rec other.now payload.now)) result }
    ensures words { IfOk result (λ words. (rec : FileRecord) → rec_at metadata.now.catalog slot ≡ Some rec
        → words.assigned.items ≡ words_told metadata.now.dict rec.tags) }
    ensures derived { IfOk result (λ words. words.derived ≡ derived_words other.now payload.now) }
{
    let assigned = assigned_in(metadata, slot);
    let derived = has_room_instead(metadata, search, slot, other, assigned.as_slice(), payload)?;
    Ok(FileWords { assigned, derived })
}
