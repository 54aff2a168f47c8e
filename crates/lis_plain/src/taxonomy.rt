//! The commands on words and axioms.

ghost use Rattle.std.specs.Prelude.{◌≡◌, ◌&&◌, IfOk};
ghost use Rattle.lis_words.specs.Words.{has_word};
ghost use Rattle.lis_model.specs.State.{up, is_nameable};
ghost use Rattle.lis_model.specs.Places.{place_words};
ghost use Rattle.lis_model.specs.Step.{is_plain_place, mkdir_checks, mkdir, rmdir_checks, rmdir, axiom_checks, add_axiom, unaxiom_checks, unaxiom};
ghost use Rattle.lis_plain.specs.Carries.{IsAnswered, Judges, Says};

use crate::axioms::has_axiom;
use crate::made::{axiom_added, axiom_removed, declared_under, undeclared};
use crate::plain::{Answer, Plain};
use crate::room::{are_declared, are_plain, is_in_use, is_nameable, word_room};
use crate::state::State;
use lis_model::refusal::Refusal;
use lis_table::closure::{Axiom, up};
use lis_table::tags::{place_words, words_at};
use lis_table::words::has_word;
use lis_words::{Word, is_builtin, is_plain_word, is_valued};
use std::alloc::AllocError;

impl Plain {
    // Whether the place is one of words, all of them plain.
    fn is_plain_place(&self) -> Result<bool, AllocError>
        ensures { IfOk result (λ plain. plain ≡ is_plain_place (place_words self.now.place)) }
    {
        match place_words(self.alloc, self.place())? {
            None => Ok(false),
            Some(words) => Ok(are_plain(&words)),
        }
    }

    fn mkdir_row(&self, word: &Word, made: &State) -> Result<Answer, AllocError>
        ensures { Judges (mkdir_checks self.now word.now made.now) result }
    {
        if is_builtin(word) {
            return Ok(Err(Refusal::BuiltIn));
        }
        if is_valued(word.bytes()) {
            return Ok(Err(Refusal::NotAssignable));
        }
        if has_word(&self.state().declared, word) {
            return Ok(Err(Refusal::AlreadyDeclared));
        }
        if !self.is_plain_place()? {
            return Ok(Err(Refusal::NotAPlace));
        }
        let words = words_at(self.alloc, self.place())?;
        if !are_declared(&self.state().declared, &words) {
            return Ok(Err(Refusal::UnknownProperty));
        }
        word_room(self.alloc, made)
    }

    pub(crate) fn mkdir(&mut self, word: &Word) -> Result<Answer, AllocError>
        ensures { IsAnswered (mkdir self.old word.now) self.old self.new result }
    {
        let words = words_at(self.alloc, self.place())?;
        let made = declared_under(self.alloc, self.state(), word, &words)?;
        let answer = self.mkdir_row(word, &made)?;
        self.settle(made, answer)
    }

    fn rmdir_row(&self, word: &Word) -> Result<Answer, AllocError>
        ensures { Judges (rmdir_checks self.now.state word.now) result }
    {
        if is_builtin(word) {
            return Ok(Err(Refusal::BuiltIn));
        }
        if is_valued(word.bytes()) {
            return Ok(Err(Refusal::NotAssignable));
        }
        if !has_word(&self.state().declared, word) {
            return Ok(Err(Refusal::NotDeclared));
        }
        if is_in_use(self.alloc, self.state(), word)? {
            return Ok(Err(Refusal::InUse));
        }
        Ok(Ok(()))
    }

    pub(crate) fn rmdir(&mut self, word: &Word) -> Result<Answer, AllocError>
        ensures { IsAnswered (rmdir self.old word.now) self.old self.new result }
    {
        let made = undeclared(self.alloc, self.state(), word)?;
        let answer = self.rmdir_row(word)?;
        self.settle(made, answer)
    }

    // Whether both sides may be sides of an axiom.
    fn names_sides(&self, pair: &Axiom) -> bool
        ensures { result ≡ (has_word self.now.state.declared pair.now.1 && is_nameable self.now.state.declared pair.now.0) }
    {
        if !has_word(&self.state().declared, &pair.right) {
            return false;
        }
        is_nameable(&self.state().declared, &pair.left)
    }

    // Whether the right side entails the left one.
    fn leads_back(&self, pair: &Axiom) -> Result<bool, AllocError>
        ensures { IfOk result (λ leads. leads ≡ has_word (up self.now.state.declared self.now.state.axioms pair.now.1) pair.now.0) }
    {
        let above = up(
            self.alloc,
            &self.state().declared,
            &self.state().axioms,
            &pair.right,
        )?;
        Ok(has_word(&above, &pair.left))
    }

    fn axiom_row(&self, pair: &Axiom, made: &State) -> Result<Answer, AllocError>
        ensures { Judges (axiom_checks self.now.state pair.now made.now) result }
    {
        if !is_plain_word(pair.right.bytes()) {
            return Ok(Err(Refusal::NotAssignable));
        }
        if !self.names_sides(pair) {
            return Ok(Err(Refusal::UnknownProperty));
        }
        if has_axiom(&self.state().axioms, pair) {
            return Ok(Err(Refusal::AxiomThere));
        }
        if self.leads_back(pair)? {
            return Ok(Err(Refusal::Cycle));
        }
        word_room(self.alloc, made)
    }

    pub(crate) fn add_axiom(&mut self, pair: &Axiom) -> Result<Answer, AllocError>
        ensures { IsAnswered (add_axiom self.old pair.now) self.old self.new result }
    {
        let made = axiom_added(self.alloc, self.state(), pair)?;
        let answer = self.axiom_row(pair, &made)?;
        self.settle(made, answer)
    }

    fn unaxiom_row(&self, pair: &Axiom) -> Answer
        ensures { Says (unaxiom_checks self.now.state pair.now) result }
    {
        if !has_axiom(&self.state().axioms, pair) {
            return Err(Refusal::NoAxiom);
        }
        Ok(())
    }

    pub(crate) fn unaxiom(&mut self, pair: &Axiom) -> Result<Answer, AllocError>
        ensures { IsAnswered (unaxiom self.old pair.now) self.old self.new result }
    {
        let made = axiom_removed(self.alloc, self.state(), pair)?;
        let answer = self.unaxiom_row(pair);
        self.settle(made, answer)
    }
}
