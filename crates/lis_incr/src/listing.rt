//! The listing of a place.

ghost use Rattle.std.specs.Prelude.{◌≡◌, ◌<◌, ◌≤◌, [], ◌∷◌, List, MatchOption};
ghost use Rattle.lis_bits.specs.Rows.{HasShape};
ghost use Rattle.lis_eval.specs.View.{IsView, table_of};
ghost use Rattle.lis_eval.specs.Room.{HasRoom};
ghost use Rattle.lis_incr.specs.Lines.{listing, words_from, names_from, lines_from};

use crate::increments::mark_increments;
use crate::marks::{count_words, leave_locals, mark_candidates};
use lis_bits::Rows;
use lis_eval::{Scratch, View, evaluate};
use lis_place::Place;
use lis_words::{Name, Word};
use std::marker::Model;

/// A line of a listing.
#[derive(Drop, Debug, PartialEq, Eq)]
pub enum Line {
    /// A word that refines the place.
    Prop(Word),
    /// A file that no such word covers.
    File(Name),
}

/// The lines of a listing that are left.
#[derive(Drop)]
pub struct Listing<'a, V: View> {
    view: &'a V,
    scratch: &'a Scratch,
    // The indexes, in the order of words and of names, from which on lines are left.
    word: u32,
    file: u32,
}

impl<'a, V: View> Model for Listing<'a, V> {
    ghost use Rattle.std.specs.Prelude.{List, ◌≤◌};
    ghost use Rattle.lis_eval.specs.View.{IsView};
    ghost use Rattle.lis_eval.specs.Room.{HasRoom};
    ghost use Rattle.lis_incr.specs.Lines.{lines_from};
    ghost use Rattle.lis_incr.specs.declared.listing.Line.{Line as Shown};

    ghost Value = { List Shown };

    ghost view = { λ l. lines_from (V.seen l.view.now) l.scratch.now.increments l.scratch.now.locals l.word l.file };

    ghost invariant = { λ l. IsView (V.seen l.view.now) × HasRoom l.scratch.now (V.seen l.view.now).limits
        × (l.word ≤ (V.seen l.view.now).limits.props) × (l.file ≤ (V.seen l.view.now).limits.files) };
}

// The next word from index `start` on whose number is marked, and the index after it.
fn next_word<V: View>(view: &V, marks: &Rows, start: u32, props: u32) -> Option<(Word, u32)>
    requires kept { IsView (V.seen view.now) }
    requires marks { HasShape marks.now 1 (V.seen view.now).limits.props }
    requires props { props ≡ (V.seen view.now).limits.props }
    requires start { start ≤ props }
    ensures { MatchOption result (words_from (V.seen view.now) marks.now start ≡ [])
        (λ r. (words_from (V.seen view.now) marks.now start ≡ r.0 ∷ words_from (V.seen view.now) marks.now r.1) × (r.1 ≤ props)) }
{
    for k in start..props {
        match view.word_at(k) {
            None => return None,
            Some((word, number)) => {
                if marks.get(0, number) {
                    return Some((word, k + 1));
                }
            }
        }
    }
    None
}

// The next file from index `start` on whose slot is marked, and the index after it.
fn next_file<V: View>(view: &V, marks: &Rows, start: u32, files: u32) -> Option<(Name, u32)>
    requires kept { IsView (V.seen view.now) }
    requires marks { HasShape marks.now 1 (V.seen view.now).limits.files }
    requires files { files ≡ (V.seen view.now).limits.files }
    requires start { start ≤ files }
    ensures { MatchOption result (names_from (V.seen view.now) marks.now start ≡ [])
        (λ r. (names_from (V.seen view.now) marks.now start ≡ r.0 ∷ names_from (V.seen view.now) marks.now r.1) × (r.1 ≤ files)) }
{
    for k in start..files {
        match view.file_at(k) {
            None => return None,
            Some((name, slot)) => {
                if marks.get(0, slot) {
                    return Some((name, k + 1));
                }
            }
        }
    }
    None
}

impl<'a, V: View> Listing<'a, V> {
    /// The next line.
    pub fn next(&mut self) -> Option<Line>
        ensures { MatchOption result ((self.old ≡ []) × (self.new ≡ [])) (λ line. self.old ≡ line ∷ self.new) }
    {
        let limits = self.scratch.limits;
        if let Some((word, next)) = next_word(
            self.view,
            &self.scratch.increments,
            self.word,
            limits.props,
        ) {
            self.word = next;
            return Some(Line::Prop(word));
        }
        // No word is searched again.
        self.word = limits.props;
        let (name, next) = next_file(self.view, &self.scratch.locals, self.file, limits.files)?;
        self.file = next;
        Some(Line::File(name))
    }
}

/// Makes the listing of a place in the scratch. `lines` returns it.
pub fn make_listing<V: View>(view: &V, scratch: &mut Scratch, place: &Place)
    requires { HasRoom scratch.old (V.seen view.now).limits }
    ensures room { HasRoom scratch.new (V.seen view.now).limits }
    ensures kept { IsView (V.seen view.now) }
    ensures lines { lines_from (V.seen view.now) scratch.new.increments scratch.new.locals 0 0
        ≡ listing (table_of (V.seen view.now)) place.now }
{
    evaluate(view, scratch, place);
    let props = scratch.limits.props;
    let many = count_words(view, &scratch.files, &mut scratch.counts);
    mark_candidates(view, &scratch.counts, many, &mut scratch.candidates, props);
    leave_locals(
        view,
        &scratch.files,
        &scratch.candidates,
        &mut scratch.locals,
        scratch.limits.files,
    );
    mark_increments(
        view,
        &scratch.candidates,
        &mut scratch.increments,
        &mut scratch.search,
        props,
    );
}

/// The lines of the listing that was made last in the scratch.
pub fn lines<'a, V: View>(view: &'a V, scratch: &'a Scratch) -> Listing<'a, V>
    requires room { HasRoom scratch.now (V.seen view.now).limits }
    requires kept { IsView (V.seen view.now) }
    ensures { result ≡ lines_from (V.seen view.now) scratch.now.increments scratch.now.locals 0 0 }
{
    Listing {
        view,
        scratch,
        word: 0,
        file: 0,
    }
}

/// The listing of a place: the words that refine it, in byte order, and then the files that none of them covers, in the
/// order of their names.
pub fn list<'a, V: View>(view: &'a V, scratch: &'a mut Scratch, place: &Place) -> Listing<'a, V>
    requires { HasRoom scratch.old (V.seen view.now).limits }
    ensures { result ≡ listing (table_of (V.seen view.now)) place.now }
{
    make_listing(view, scratch, place);
    lines(view, scratch)
}
