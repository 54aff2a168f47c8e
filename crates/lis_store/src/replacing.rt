//! Files that are put into memory, into free slots or instead of others.

ghost use Rattle.std.specs.Prelude.{◌≡◌, ◌<◌, nat_lt, None, length, IsSome, IfSome, IsTrue};
ghost use Rattle.std.specs.List.{list_all};
ghost use Rattle.lis_catalog.specs.Catalog.{rec_at};
ghost use Rattle.lis_fields.specs.Layouts.{are_blocks};
ghost use Rattle.lis_model.specs.Changes.{new_file};
ghost use Rattle.lis_model.specs.Derived.{derived_words};
ghost use Rattle.lis_kept.specs.Sound.{AreSound};
ghost use Rattle.lis_store.specs.Drafts.{drafted, draft_of};
ghost use Rattle.lis_store.specs.ReplacingIn.{AreInForm, record_in, MayPut, MayComeIn, IsVacant, MakesRoom, LearnsOwn, SettlesIn, RefilesIn};

use crate::adding::{learn_words, numbers_entailed, numbers_of};
use crate::describing::{Draft, FileWords};
use crate::removing::unfile;
use arrayvec::ArrayVec;
use lis_fields::FileRec;
use lis_kept::Metadata;
use lis_limits::MAX_DESCRIPTION;
use lis_taxonomy::Search;
use lis_words::Name;

// The numbers of the words that are assigned to a file, and those of its description.
#[derive(Drop)]
struct Numbers {
    tags: ArrayVec<u32, 16>,
    all: ArrayVec<u32, MAX_DESCRIPTION>,
}

// A slot without a file, and the numbers of its description.
#[derive(Drop)]
struct NewSlot {
    slot: u32,
    numbers: ArrayVec<u32, MAX_DESCRIPTION>,
}

// Gives numbers to those words of a file that have none, and answers the numbers of its words.
fn learn_own(metadata: &mut Metadata, search: &mut Search, draft: Draft) -> Numbers
    requires sound { AreSound metadata.old }
    requires may { MayComeIn metadata.old (drafted draft.name.now draft.size draft.assigned.now draft.own.now) }
    ensures learnt { LearnsOwn (drafted draft.entry.name.now draft.entry.size draft.entry.assigned.now draft.entry.own.now)
        result.tags.items result.all.items metadata.old metadata.new }
{
    learn_words(metadata, draft.assigned);
    learn_words(metadata, draft.own);
    let tags = numbers_of(metadata, draft.assigned, search);
    let all = numbers_entailed(metadata, draft.assigned, draft.own, draft.size, search);
    Numbers { tags, all }
}

// A slot without a file.
fn free_slot(metadata: &Metadata) -> u32
    requires sound { AreSound metadata.now }
    requires room { length metadata.now.catalog.entries < metadata.now.limits.files }
    ensures below { result < metadata.now.limits.files }
    ensures free { rec_at metadata.now.catalog result ≡ None }
{
    let files = metadata.limits().files;
    for slot in 0..files {
        if metadata.rec(slot).is_none() {
            return slot;
        }
    }
    unreachable!()
}

// Makes room for a file: in the slot if one is given, whose file is removed, or in a free slot.
fn make_room(metadata: &mut Metadata, slot: Option<u32>) -> NewSlot
    requires form { AreInForm metadata.old }
    requires free { slot ≡ None → length metadata.old.catalog.entries < metadata.old.limits.files }
    requires there { IfSome slot (λ slot. IsSome (rec_at metadata.old.catalog slot)) }
    ensures room { MakesRoom result.slot (record_in metadata.old slot) metadata.old metadata.new }
    ensures asked { IfSome slot (λ slot. result.slot ≡ slot) }
    ensures vacant { IsVacant result.slot result.numbers.items metadata.new }
{
    match slot {
        None => NewSlot {
            slot: free_slot(metadata),
            numbers: ArrayVec::new(),
        },
        Some(slot) => NewSlot {
            slot,
            numbers: unfile(metadata, slot),
        },
    }
}

// Puts a file into a slot without one. First its words get numbers, then the numbers of its description replace the old ones, and last
// comes the record.
fn settle_in(
    metadata: &mut Metadata,
    search: &mut Search,
    new_slot: &NewSlot,
    draft: Draft,
    blocks: ArrayVec<u32, 16>,
)
    requires vacant { IsVacant new_slot.now.slot new_slot.now.numbers.items metadata.old }
    requires may { MayComeIn metadata.old (drafted draft.name.now draft.size draft.assigned.now draft.own.now) }
    requires in_form { IsTrue (are_blocks metadata.old.limits.version draft.size blocks.items) }
    requires below { IsTrue (list_all (λ n. nat_lt n metadata.old.limits.blocks) blocks.items) }
    ensures settles { SettlesIn new_slot.now.slot
        (drafted draft.entry.name.now draft.entry.size draft.entry.assigned.now draft.entry.own.now) blocks.items metadata.old metadata.new }
{
    let numbers = learn_own(metadata, search, draft);
    metadata.describe(new_slot.slot, numbers.all.as_slice());
    metadata.place_record(
        new_slot.slot,
        FileRec {
            name: draft.name.copied(),
            size: draft.size as u32,
            tags: numbers.tags,
            blocks,
        },
    );
}

/// Puts a file into memory, instead of the one in the slot if a slot is given. Its bytes are in these blocks, which are taken already.
pub(crate) fn replace_draft(
    metadata: &mut Metadata,
    search: &mut Search,
    slot: Option<u32>,
    draft: Draft,
    blocks: ArrayVec<u32, 16>,
)
    requires form { AreInForm metadata.old }
    requires may { MayPut metadata.old slot (drafted draft.name.now draft.size draft.assigned.now draft.own.now) }
    requires in_form { IsTrue (are_blocks metadata.old.limits.version draft.size blocks.items) }
    requires below { IsTrue (list_all (λ n. nat_lt n metadata.old.limits.blocks) blocks.items) }
    ensures refiles { RefilesIn (record_in metadata.old slot)
        (drafted draft.entry.name.now draft.entry.size draft.entry.assigned.now draft.entry.own.now) blocks.items metadata.old metadata.new }
{
    let new_slot = make_room(metadata, slot);
    settle_in(metadata, search, &new_slot, draft, blocks);
}

/// As `replace_draft`, for the words of a file and its bytes.
pub(crate) fn replace_record(
    metadata: &mut Metadata,
    search: &mut Search,
    slot: Option<u32>,
    name: &Name,
    words: &FileWords,
    payload: &[u8],
    blocks: ArrayVec<u32, 16>,
)
    requires form { AreInForm metadata.old }
    requires derived { words.now.derived ≡ derived_words name.now payload.now }
    requires may { MayPut metadata.old slot (draft_of (new_file name.now words.now.assigned.items payload.now)) }
    requires in_form { IsTrue (are_blocks metadata.old.limits.version (length payload.now) blocks.items) }
    requires below { IsTrue (list_all (λ n. nat_lt n metadata.old.limits.blocks) blocks.items) }
    ensures refiles { RefilesIn (record_in metadata.old slot) (draft_of (new_file name.now words.now.assigned.items payload.now)) blocks.items metadata.old metadata.new }
{
    let draft = Draft {
        name,
        size: payload.len() as u64,
        assigned: words.assigned.as_slice(),
        own: words.derived.as_slice(),
    };
    replace_draft(metadata, search, slot, draft, blocks);
}
