//! The commands that make and change files.

ghost use Rattle.std.specs.Prelude.{◌≡◌, ◌++◌, ◌&&◌, is_some, IfOk};
ghost use Rattle.lis_model.specs.State.{File as Told, blocks_taken};
ghost use Rattle.lis_model.specs.Places.{place_words};
ghost use Rattle.lis_model.specs.Changes.{new_file, file_of};
ghost use Rattle.lis_model.specs.Step.{is_here, free_blocks, exceeds_file, blocks_for, here_checks, create_checks, create_with, create, add_checks, add_with, add, write_checks, write_with, write, mv_checks, mv_with, mv, rename_checks, rename_with, rename, rm, assigned_at, retagged, tags_at};
ghost use Rattle.lis_plain.specs.Carries.{IsAnswered, Judges};

use crate::content::free_blocks;
use crate::file::{File, file_of, new_file};
use crate::made::{file_added, file_removed, file_replaced};
use crate::plain::{Answer, Plain};
use crate::room::{file_room, has_built_in, has_head_or_test, has_head_word};
use crate::sets::has_name;
use crate::state::State;
use crate::table::all_entries;
use lis_formula::{FormulaFault, resolve};
use lis_line::reader::Payload;
use lis_model::command::Tags;
use lis_model::limits::{blocks_taken, file_limit};
use lis_model::refusal::Refusal;
use lis_place::{Place, Text};
use lis_table::listing::has_entry;
use lis_table::moving::text_words;
use lis_table::tags::{assigned_at, place_words, retagged, tags_at};
use lis_table::truth::extension;
use lis_table::words::{are_assignable, copies};
use lis_words::{Name, Word};
use std::alloc::AllocError;

/// The most words that are assigned to a file.
const MAX_TAGS: usize = 16;

// ---- what rows check

impl Plain {
    pub(crate) fn is_here(&self, name: &Name) -> Result<bool, AllocError>
        ensures { IfOk result (λ here. here ≡ is_here self.now name.now) }
    {
        let all = all_entries(self.alloc, self.state())?;
        let here = extension(self.alloc, &all, self.place())?;
        Ok(has_entry(&here, name))
    }

    pub(crate) fn free_blocks(&self) -> u64
        ensures { result ≡ free_blocks self.now.state }
    {
        let state = self.state();
        free_blocks(state.limits.version, state.limits.blocks, &state.files)
    }

    fn is_large(&self, size: u64) -> bool
        ensures { result ≡ exceeds_file self.now.state size }
    {
        size > file_limit(&self.state().limits)
    }

    fn blocks_taken(&self, size: u64) -> u64
        ensures { result ≡ blocks_taken self.now.state.limits.version size }
    {
        blocks_taken(self.state().limits.version, size)
    }

    // How many blocks there are for new bytes of the file.
    fn blocks_for(&self, old: &File) -> u128
        ensures { result ≡ blocks_for self.now.state old.now }
    {
        let free = u128::from(self.free_blocks());
        if self.state().limits.version != 1 {
            return free;
        }
        free + u128::from(self.blocks_taken(old.bytes.len() as u64))
    }
}

// ---- new files

impl Plain {
    fn create_row(&self, words: &[Word], file: &File, made: &State) -> Result<Answer, AllocError>
        ensures { Judges (create_checks self.now words.now file.now made.now) result }
    {
        if has_name(&self.state().files, &file.name) {
            return Ok(Err(Refusal::NameTaken));
        }
        if place_words(self.alloc, self.place())?.is_none() {
            return Ok(Err(Refusal::NotAPlace));
        }
        if has_built_in(words) {
            return Ok(Err(Refusal::BuiltIn));
        }
        if has_head_or_test(words) {
            return Ok(Err(Refusal::NotAssignable));
        }
        if !are_assignable(&self.state().declared, &file.assigned) {
            return Ok(Err(Refusal::UnknownProperty));
        }
        if file.assigned.len() > MAX_TAGS {
            return Ok(Err(Refusal::TooManyAssigned));
        }
        if self.state().files.len() >= self.state().limits.files as usize {
            return Ok(Err(Refusal::NoFileRoom));
        }
        file_room(self.alloc, made)
    }

    // A file of these bytes, with the tags of the place and the words.
    fn new_here(&self, name: &Name, words: &[Word], bytes: &[u8]) -> Result<File, AllocError>
        ensures { IfOk result (λ file. file ≡ new_file name.now (assigned_at self.now.place words.now) bytes.now) }
    {
        let assigned = assigned_at(self.alloc, self.place(), words)?;
        let file = new_file(self.alloc, name, assigned, bytes)?;
        Ok(file)
    }

    fn create_with(&mut self, words: &[Word], file: &File) -> Result<Answer, AllocError>
        ensures { IsAnswered (create_with self.old words.now file.now) self.old self.new result }
    {
        let made = file_added(self.alloc, self.state(), file)?;
        let answer = self.create_row(words, file, &made)?;
        self.settle(made, answer)
    }

    pub(crate) fn create(&mut self, name: &Name, tags: &Tags) -> Result<Answer, AllocError>
        ensures { IsAnswered (create self.old name.now tags.now) self.old self.new result }
    {
        let file = self.new_here(name, tags.as_slice(), &[])?;
        self.create_with(tags.as_slice(), &file)
    }

    fn add_row(
        &self,
        words: &[Word],
        file: &File,
        made: &State,
        size: u64,
    ) -> Result<Answer, AllocError>
        ensures { Judges (add_checks self.now words.now file.now made.now size) result }
    {
        if self.is_large(size) {
            return Ok(Err(Refusal::LargeFile));
        }
        if let Err(refusal) = self.create_row(words, file, made)? {
            return Ok(Err(refusal));
        }
        if self.free_blocks() < self.blocks_taken(size) {
            return Ok(Err(Refusal::NoSpace));
        }
        Ok(Ok(()))
    }

    fn add_with(&mut self, words: &[Word], file: &File, size: u64) -> Result<Answer, AllocError>
        ensures { IsAnswered (add_with self.old words.now file.now size) self.old self.new result }
    {
        let made = file_added(self.alloc, self.state(), file)?;
        let answer = self.add_row(words, file, &made, size)?;
        self.settle(made, answer)
    }

    pub(crate) fn add(
        &mut self,
        name: &Name,
        tags: &Tags,
        payload: &Payload,
    ) -> Result<Answer, AllocError>
        ensures { IsAnswered (add self.old name.now tags.now payload.now) self.old self.new result }
    {
        let file = self.new_here(name, tags.as_slice(), payload.bytes())?;
        self.add_with(tags.as_slice(), &file, payload.size())
    }
}

// ---- changed files

impl Plain {
    fn file(&self, name: &Name) -> Result<File, AllocError>
        ensures { IfOk result (λ file. file ≡ file_of self.now.state.files name.now) }
    {
        file_of(self.alloc, &self.state().files, name)
    }

    fn write_row(&self, old: &File, made: &State, size: u64) -> Result<Answer, AllocError>
        ensures { Judges (write_checks self.now old.now made.now size) result }
    {
        if self.is_large(size) {
            return Ok(Err(Refusal::LargeFile));
        }
        if !self.is_here(&old.name)? {
            return Ok(Err(Refusal::NoFileHere));
        }
        if let Err(refusal) = file_room(self.alloc, made)? {
            return Ok(Err(refusal));
        }
        if self.blocks_for(old) < u128::from(self.blocks_taken(size)) {
            return Ok(Err(Refusal::NoSpace));
        }
        Ok(Ok(()))
    }

    fn write_over(&mut self, old: &File, new: &File, size: u64) -> Result<Answer, AllocError>
        ensures { IsAnswered (write_with self.old old.now new.now size) self.old self.new result }
    {
        let made = file_replaced(self.alloc, self.state(), &old.name, new)?;
        let answer = self.write_row(old, &made, size)?;
        self.settle(made, answer)
    }

    pub(crate) fn write(&mut self, name: &Name, payload: &Payload) -> Result<Answer, AllocError>
        ensures { IsAnswered (write self.old name.now payload.now) self.old self.new result }
    {
        let old = self.file(name)?;
        let assigned = copies(self.alloc, &old.assigned)?;
        let new = new_file(self.alloc, &old.name, assigned, payload.bytes())?;
        self.write_over(&old, &new, payload.size())
    }

    fn rename_row(&self, name: &Name, new: &File, made: &State) -> Result<Answer, AllocError>
        ensures { Judges (rename_checks self.now name.now new.now made.now) result }
    {
        if !self.is_here(name)? {
            return Ok(Err(Refusal::NoFileHere));
        }
        if has_name(&self.state().files, &new.name) {
            return Ok(Err(Refusal::NameTaken));
        }
        file_room(self.alloc, made)
    }

    fn rename_with(&mut self, old: &File, new: &File) -> Result<Answer, AllocError>
        ensures { IsAnswered (rename_with self.old old.now new.now) self.old self.new result }
    {
        let made = file_replaced(self.alloc, self.state(), &old.name, new)?;
        let answer = self.rename_row(&old.name, new, &made)?;
        self.settle(made, answer)
    }

    // The file under another name.
    fn renamed(&self, old: &File, other: &Name) -> Result<File, AllocError>
        ensures { IfOk result (λ file. file ≡ new_file other.now old.now.assigned old.now.bytes) }
    {
        let assigned = copies(self.alloc, &old.assigned)?;
        new_file(self.alloc, other, assigned, &old.bytes)
    }

    pub(crate) fn rename(&mut self, name: &Name, other: &Name) -> Result<Answer, AllocError>
        ensures { IsAnswered (rename self.old name.now other.now) self.old self.new result }
    {
        let old = self.file(name)?;
        let new = self.renamed(&old, other)?;
        self.rename_with(&old, &new)
    }

    fn rm_row(&self, name: &Name) -> Result<Answer, AllocError>
        ensures { Judges (here_checks self.now name.now) result }
    {
        if !self.is_here(name)? {
            return Ok(Err(Refusal::NoFileHere));
        }
        Ok(Ok(()))
    }

    pub(crate) fn rm(&mut self, name: &Name) -> Result<Answer, AllocError>
        ensures { IsAnswered (rm self.old name.now) self.old self.new result }
    {
        let made = file_removed(self.alloc, self.state(), name)?;
        let answer = self.rm_row(name)?;
        self.settle(made, answer)
    }
}

// ---- moved files

impl Plain {
    // Whether both places are places of words.
    fn are_places(&self, place: &Place) -> Result<bool, AllocError>
        ensures { IfOk result (λ both. both ≡ (is_some (place_words self.now.place) && is_some (place_words place.now))) }
    {
        if place_words(self.alloc, self.place())?.is_none() {
            return Ok(false);
        }
        Ok(place_words(self.alloc, place)?.is_some())
    }

    fn mv_row(
        &self,
        place: &Place,
        words: &[Word],
        old: &File,
        new: &File,
        made: &State,
    ) -> Result<Answer, AllocError>
        ensures { Judges (here_checks self.now old.now.name ++ mv_checks self.now place.now words.now new.now made.now) result }
    {
        if !self.is_here(&old.name)? {
            return Ok(Err(Refusal::NoFileHere));
        }
        if !self.are_places(place)? {
            return Ok(Err(Refusal::NotAPlace));
        }
        if has_built_in(words) {
            return Ok(Err(Refusal::BuiltIn));
        }
        if has_head_word(words) {
            return Ok(Err(Refusal::NotAssignable));
        }
        let tags = tags_at(self.alloc, place)?;
        if !are_assignable(&self.state().declared, &tags) {
            return Ok(Err(Refusal::UnknownProperty));
        }
        if new.assigned.len() > MAX_TAGS {
            return Ok(Err(Refusal::TooManyAssigned));
        }
        file_room(self.alloc, made)
    }

    // The file without the tags of the place, and with those of another.
    fn moved(&self, old: &File, place: &Place) -> Result<File, AllocError>
        ensures { IfOk result (λ file. file ≡ new_file old.now.name (retagged old.now.assigned (tags_at self.now.place) (tags_at place.now)) old.now.bytes) }
    {
        let here = tags_at(self.alloc, self.place())?;
        let there = tags_at(self.alloc, place)?;
        let assigned = retagged(self.alloc, &old.assigned, &here, &there)?;
        let file = new_file(self.alloc, &old.name, assigned, &old.bytes)?;
        Ok(file)
    }

    fn mv_with(
        &mut self,
        place: &Place,
        words: &[Word],
        old: &File,
        new: &File,
    ) -> Result<Answer, AllocError>
        ensures { IsAnswered (mv_with self.old place.now words.now old.now new.now) self.old self.new result }
    {
        let made = file_replaced(self.alloc, self.state(), &old.name, new)?;
        let answer = self.mv_row(place, words, old, new, &made)?;
        self.settle(made, answer)
    }

    // The file with the tags of another place, given the words of the text that led there.
    fn mv_there(&mut self, place: &Place, words: &[Word], name: &Name) -> Result<Answer, AllocError>
        ensures { let old : Told = file_of self.old.state.files name.now in
            IsAnswered (mv_with self.old place.now words.now old (new_file old.name (retagged old.assigned (tags_at self.old.place) (tags_at place.now)) old.bytes)) self.old self.new result }
    {
        let old = self.file(name)?;
        let new = self.moved(&old, place)?;
        self.mv_with(place, words, &old, &new)
    }

    pub(crate) fn mv(&mut self, name: &Name, text: &Text) -> Result<Answer, AllocError>
        ensures { IsAnswered (mv self.old name.now text.now) self.old self.new result }
    {
        let place = match resolve(self.place(), text.bytes()) {
            Ok(place) => place,
            Err(FormulaFault::Syntax(_)) => return Ok(Err(Refusal::BadFormula)),
            Err(FormulaFault::TooLarge) => return Ok(Err(Refusal::LargeFormula)),
        };
        let words = text_words(self.alloc, text.bytes())?;
        self.mv_there(&place, &words, name)
    }
}
