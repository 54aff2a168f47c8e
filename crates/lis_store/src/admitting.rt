//! What a new file is refused for.

ghost use Rattle.std.specs.Prelude.{◌≡◌, ◌≤◌, ◌∷◌, nat_lt, length, IfOk, IsTrue};
ghost use Rattle.std.specs.List.{list_any};
ghost use Rattle.lis_words.specs.Words.{is_built_in, is_file_name};
ghost use Rattle.lis_model.specs.declared.refusal.Refusal.TheVariants.{LargeFile};
ghost use Rattle.lis_model.specs.Changes.{new_file};
ghost use Rattle.lis_model.specs.Derived.{derived_words};
ghost use Rattle.lis_model.specs.State.{file_limit};
ghost use Rattle.lis_model.specs.Step.{is_head_or_test, assigned_at};
ghost use Rattle.lis_store.specs.Drafts.{drafted, draft_of};
ghost use Rattle.lis_store.specs.Admitting.{named_checks, room_checks, add_checks_of};
ghost use Rattle.lis_store.specs.Changes.{Judges};

use crate::assigning::{are_assignable, assigned, has_words};
use crate::describing::{Draft, FileWords, measure};
use arrayvec::ArrayVec;
use lis_derive::derive_words;
use lis_kept::Metadata;
use lis_limits::{MAX_ASSIGNED, MAX_DESCRIPTION};
use lis_model::command::Tags;
use lis_model::derived::Derived;
use lis_model::limits::{blocks_taken, file_limit};
use lis_model::refusal::Refusal;
use lis_place::Place;
use lis_taxonomy::Search;
use lis_words::{Name, Word, is_builtin, is_head, test_of};

/// A file to be made: its name, the named words that are assigned to it, and its bytes. `size` says how many bytes it has.
#[derive(Clone, Copy)]
pub struct NewFile<'a> {
    pub name: &'a Name,
    pub tags: &'a Tags,
    pub bytes: &'a [u8],
    pub size: u64,
}

// Whether one of the words is built in.
fn has_built_in(words: &[Word]) -> bool
    ensures { result ≡ list_any is_built_in words.now }
{
    words.iter().any(|word| is_builtin(word))
}

// Whether the word is a head or a test, and so can't be assigned to a file.
fn is_head_or_test(word: &Word) -> bool
    ensures { result ≡ is_head_or_test word.now }
{
    if is_head(word.bytes()) {
        return true;
    }
    test_of(word).is_some()
}

// Whether one of the words is a head or a test.
fn has_head_or_test(words: &[Word]) -> bool
    ensures { result ≡ list_any is_head_or_test words.now }
{
    words.iter().any(|word| is_head_or_test(word))
}

// The words that would be assigned to a new file, or what its size, its name, its place and the named words are refused for.
fn may_name(
    metadata: &Metadata,
    place: &Place,
    file: NewFile,
) -> Result<ArrayVec<Word, 16>, Refusal>
    ensures row { Judges ((nat_lt (file_limit metadata.now.limits) file.entry.size, LargeFile) ∷ named_checks metadata.now place.now file.entry.tags.now
        (new_file file.entry.name.now (assigned_at place.now file.entry.tags.now) file.entry.bytes.now)) result }
    ensures words { IfOk result (λ words. words.items ≡ assigned_at place.now file.entry.tags.now) }
    ensures few { IfOk result (λ words. length words.items ≤ MAX_ASSIGNED) }
    ensures name { IfOk result (λ words. IsTrue (is_file_name file.entry.name.now)) }
{
    let tags = file.tags;
    if file.size > file_limit(metadata.limits()) {
        return Err(Refusal::LargeFile);
    }
    if metadata.slot_of(file.name).is_some() {
        return Err(Refusal::NameTaken);
    }
    if !has_words(place) {
        return Err(Refusal::NotAPlace);
    }
    if has_built_in(tags.as_slice()) {
        return Err(Refusal::BuiltIn);
    }
    if has_head_or_test(tags.as_slice()) {
        return Err(Refusal::NotAssignable);
    }
    if !are_assignable(metadata, place, tags) {
        return Err(Refusal::UnknownProperty);
    }
    match assigned(place, tags) {
        None => Err(Refusal::TooManyAssigned),
        Some(words) => Ok(words),
    }
}

// Whether there is room for a new file of this many bytes.
fn has_room_for(
    metadata: &Metadata,
    search: &mut Search,
    draft: Draft,
    size: u64,
) -> Result<(), Refusal>
    requires few { length draft.assigned.now ≤ MAX_ASSIGNED }
    requires few_own { length draft.own.now ≤ MAX_DESCRIPTION }
    ensures row { Judges (room_checks metadata.now
        (drafted draft.entry.name.now draft.entry.size draft.entry.assigned.now draft.entry.own.now) size) result }
{
    let limits = metadata.limits();
    if metadata.file_count() >= limits.files {
        return Err(Refusal::NoFileRoom);
    }
    let measure = measure(metadata, search, None, draft);
    if measure.words > MAX_DESCRIPTION as u32 {
        return Err(Refusal::LargeDescription);
    }
    if measure.known > limits.props {
        return Err(Refusal::NoPropertyRoom);
    }
    if blocks_taken(limits.version, size) > u64::from(metadata.free_blocks()) {
        return Err(Refusal::NoSpace);
    }
    Ok(())
}

// As `has_room_for`, with the words that are derived from these bytes. It returns these words.
fn has_room(
    metadata: &Metadata,
    search: &mut Search,
    file: NewFile,
    words: &[Word],
) -> Result<Derived, Refusal>
    requires few { length words.now ≤ MAX_ASSIGNED }
    ensures row { Judges (room_checks metadata.now (draft_of (new_file file.entry.name.now words.now file.entry.bytes.now)) file.entry.size) result }
    ensures derived { IfOk result (λ derived. derived ≡ derived_words file.entry.name.now file.entry.bytes.now) }
{
    let derived = derive_words(file.name, file.bytes);
    let draft = Draft {
        name: file.name,
        size: file.bytes.len() as u64,
        assigned: words,
        own: derived.as_slice(),
    };
    has_room_for(metadata, search, draft, file.size)?;
    Ok(derived)
}

/// The words of a new file, or what the file is refused for. If there are more bytes than a file may have, only their number counts.
pub(crate) fn may_add(
    metadata: &Metadata,
    search: &mut Search,
    place: &Place,
    file: NewFile,
) -> Result<FileWords, Refusal>
    ensures row { Judges (add_checks_of metadata.now place.now file.entry.name.now file.entry.tags.now file.entry.bytes.now file.entry.size) result }
    ensures words { IfOk result (λ words. words.assigned.items ≡ assigned_at place.now file.entry.tags.now) }
    ensures derived { IfOk result (λ words. words.derived ≡ derived_words file.entry.name.now file.entry.bytes.now) }
    ensures name { IfOk result (λ words. IsTrue (is_file_name file.entry.name.now)) }
{
    let assigned = may_name(metadata, place, file)?;
    let derived = has_room(metadata, search, file, assigned.as_slice())?;
    Ok(FileWords { assigned, derived })
}
