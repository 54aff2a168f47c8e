//! The commands that show something, and those that go to another place.

ghost use Rattle.std.specs.Prelude.{◌≡◌, ◌++◌, List, IfOk, OnOk, MatchOption};
ghost use Rattle.std.specs.List.{flat_map};
ghost use Rattle.lis_model.specs.declared.refusal.Refusal.TheVariants.{NoFileHere};
ghost use Rattle.lis_model.specs.Changes.{file_of};
ghost use Rattle.lis_model.specs.State.{description};
ghost use Rattle.lis_model.specs.Table.{table};
ghost use Rattle.lis_model.specs.Route.{route};
ghost use Rattle.lis_model.specs.Replies.{body_line, ok_line};
ghost use Rattle.lis_model.specs.Step.{refused, entry_at, cat, props, way, stat, cd, pwd, ls, count_lines};
ghost use Rattle.lis_plain.specs.Carries.{IsAnswered};

use crate::content::{bytes_of, content_reply, push_number};
use crate::file::file_of;
use crate::plain::{Answer, Plain};
use crate::table::{description, entry_of, known, make_table};
use lis_formula::{FormulaFault, print, resolve};
use lis_model::refusal::Refusal;
use lis_place::Text;
use lis_table::entry::Entry;
use lis_table::listing::{listing, push_line, push_words};
use lis_table::moving::knows_text;
use lis_table::route::route;
use lis_table::truth::extension;
use lis_words::{Name, Word};
use std::alloc::{AllocError, Global};

/// The reply that shows the words, each with the letter.
fn words_reply(alloc: Global, letter: u8, words: &[Word]) -> Result<Vec<u8>, AllocError>
    ensures { IfOk result (λ reply. reply.items ≡ flat_map (body_line letter) words.now ++ ok_line) }
{
    let mut reply = Vec::new(alloc);
    push_words(&mut reply, letter, words)?;
    reply.extend_from_slice(b"ok\n")?;
    Ok(reply)
}

// ---- files

impl Plain {
    // What `cat` shows; `None` if no file of that name is here.
    pub(crate) fn content(&self, name: &Name) -> Result<Option<Vec<u8>>, AllocError>
        ensures { IfOk result (λ found. MatchOption found (cat self.now name.now ≡ refused self.now NoFileHere)
            (λ reply. cat self.now name.now ≡ record { next = self.now; reply = reply.items })) }
    {
        if !self.is_here(name)? {
            return Ok(None);
        }
        let reply = content_reply(self.alloc, bytes_of(&self.state().files, name))?;
        Ok(Some(reply))
    }

    fn description(&self, name: &Name) -> Result<Vec<Word>, AllocError>
        ensures { IfOk result (λ words. words.items ≡ description self.now.state (file_of self.now.state.files name.now)) }
    {
        let file = file_of(self.alloc, &self.state().files, name)?;
        let words = description(self.alloc, self.state(), &file)?;
        Ok(words)
    }

    // What `props` shows; `None` if no file of that name is here.
    pub(crate) fn described(&self, name: &Name) -> Result<Option<Vec<u8>>, AllocError>
        ensures { IfOk result (λ found. MatchOption found (props self.now name.now ≡ refused self.now NoFileHere)
            (λ reply. props self.now name.now ≡ record { next = self.now; reply = reply.items })) }
    {
        if !self.is_here(name)? {
            return Ok(None);
        }
        let words = self.description(name)?;
        let reply = words_reply(self.alloc, b'p', &words)?;
        Ok(Some(reply))
    }

    fn entry_at(&self, name: &Name) -> Result<Entry, AllocError>
        ensures { IfOk result (λ entry. entry ≡ entry_at self.now.state name.now) }
    {
        let file = file_of(self.alloc, &self.state().files, name)?;
        let entry = entry_of(self.alloc, self.state(), &file)?;
        Ok(entry)
    }

    fn route(&self, name: &Name) -> Result<Vec<Word>, AllocError>
        ensures { IfOk result (λ words. words.items ≡ route (table self.now.state) self.now.place (entry_at self.now.state name.now)) }
    {
        let table = make_table(self.alloc, self.state())?;
        let files = extension(self.alloc, &table.files, self.place())?;
        let file = self.entry_at(name)?;
        route(self.alloc, &table, files, &file)
    }

    // What `way` shows; `None` if no file of that name is here.
    pub(crate) fn led(&self, name: &Name) -> Result<Option<Vec<u8>>, AllocError>
        ensures { IfOk result (λ found. MatchOption found (way self.now name.now ≡ refused self.now NoFileHere)
            (λ reply. way self.now name.now ≡ record { next = self.now; reply = reply.items })) }
    {
        if !self.is_here(name)? {
            return Ok(None);
        }
        let words = self.route(name)?;
        let reply = words_reply(self.alloc, b'd', &words)?;
        Ok(Some(reply))
    }
}

// ---- places and counts

impl Plain {
    pub(crate) fn cd(&mut self, text: &Text) -> Result<Answer, AllocError>
        ensures { IsAnswered (cd self.old text.now) self.old self.new result }
    {
        let place = match resolve(self.place(), text.bytes()) {
            Ok(place) => place,
            Err(FormulaFault::Syntax(_)) => return Ok(Err(Refusal::BadFormula)),
            Err(FormulaFault::TooLarge) => return Ok(Err(Refusal::LargeFormula)),
        };
        let known = known(self.alloc, self.state())?;
        if !knows_text(&known, text.bytes()) {
            return Ok(Err(Refusal::UnknownProperty));
        }
        self.go(place);
        Ok(Ok(()))
    }

    pub(crate) fn placed(&self) -> Result<Vec<u8>, AllocError>
        ensures { IfOk result (λ reply. reply.items ≡ (pwd self.now).reply) }
    {
        let mut reply = Vec::new(self.alloc);
        push_line(&mut reply, b'w', print(self.place()).bytes())?;
        reply.extend_from_slice(b"ok\n")?;
        Ok(reply)
    }

    pub(crate) fn listing(&self) -> Result<Vec<u8>, AllocError>
        ensures { IfOk result (λ reply. reply.items ≡ (ls self.now).reply) }
    {
        let table = make_table(self.alloc, self.state())?;
        let files = extension(self.alloc, &table.files, self.place())?;
        listing(self.alloc, &table, &files)
    }

    fn push_counts(&self, reply: &mut Vec<u8>) -> Result<(), AllocError>
        ensures { OnOk result (reply.new.items ≡ reply.old.items ++ count_lines self.now.state) }
    {
        let known = known(self.alloc, self.state())?;
        push_number(reply, b"s files", self.state().files.len() as u64)?;
        push_number(reply, b"s known", known.len() as u64)?;
        push_number(reply, b"s axioms", self.state().axioms.len() as u64)?;
        push_number(reply, b"s free", self.free_blocks())?;
        Ok(())
    }

    // What `stat` shows.
    pub(crate) fn counts(&self) -> Result<Vec<u8>, AllocError>
        ensures { IfOk result (λ reply. reply.items ≡ (stat self.now).reply) }
    {
        let mut reply = Vec::new(self.alloc);
        self.push_counts(&mut reply)?;
        reply.extend_from_slice(b"ok\n")?;
        Ok(reply)
    }
}
