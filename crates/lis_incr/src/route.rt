//! The route to a file.

ghost use Rattle.std.specs.Prelude.{◌≡◌, ℕ, ◌<◌, [], ◌∷◌, List, None, IfNone, IfSome, MatchOption, true, false};
ghost use Rattle.lis_eval.specs.View.{table_of};
ghost use Rattle.lis_eval.specs.Room.{HasRoom};
ghost use Rattle.lis_incr.specs.Ways.{IsWay, file_here};
ghost use Rattle.lis_incr.specs.Left.{words_left, HasRoute};

use crate::walk::{count_found, walk};
use lis_eval::{Scratch, View, evaluate};
use lis_place::Place;
use lis_words::{Name, Word};
use std::marker::Model;

/// The words of a route that are left.
#[derive(Drop)]
pub struct Steps<'a, V: View> {
    view: &'a V,
    scratch: &'a Scratch,
    step: u32,
}

impl<'a, V: View> Model for Steps<'a, V> {
    ghost use Rattle.std.specs.Prelude.{ℕ, List};
    ghost use Rattle.lis_incr.specs.Left.{words_left, HasRoute};

    ghost Value = { List (List ℕ) };

    ghost view = { λ s. words_left (V.seen s.view.now) s.scratch.now s.step };

    ghost invariant = { λ s. HasRoute (V.seen s.view.now) s.scratch.now };
}

impl<'a, V: View> Steps<'a, V> {
    /// The next word.
    pub fn next(&mut self) -> Option<Word>
        ensures { MatchOption result ((self.old ≡ []) × (self.new ≡ [])) (λ word. self.old ≡ word ∷ self.new) }
    {
        if self.step >= self.scratch.steps {
            return None;
        }
        let place = self.scratch.route[self.step as usize];
        let Some((word, _)) = self.view.word_at(place) else {
            unreachable!()
        };
        self.step += 1;
        Some(word)
    }
}

/// Makes the route to a file of a place in the scratch, and returns whether the place has a file of that name. `left_steps` returns the
/// route.
pub fn make_route<V: View>(view: &V, scratch: &mut Scratch, place: &Place, name: &Name) -> bool
    requires { HasRoom scratch.old (V.seen view.now).limits }
    ensures room { HasRoom scratch.new (V.seen view.now).limits }
    ensures none { result ≡ false → file_here (table_of (V.seen view.now)) place.now name.now ≡ None }
    ensures way { result ≡ true → IsWay (table_of (V.seen view.now)) place.now name.now (words_left (V.seen view.now) scratch.new 0) }
    ensures route { result ≡ true → HasRoute (V.seen view.now) scratch.new }
{
    evaluate(view, scratch, place);
    let Some(slot) = view.slot_of(name) else {
        return false;
    };
    if !scratch.files.get(0, slot) {
        return false;
    }
    let most = count_found(view, &scratch.files, scratch.limits.files);
    scratch.steps = walk(view, scratch, slot, most);
    true
}

/// The words of the route that was made last in the scratch.
pub fn left_steps<'a, V: View>(view: &'a V, scratch: &'a Scratch) -> Steps<'a, V>
    requires { HasRoute (V.seen view.now) scratch.now }
    ensures { result ≡ words_left (V.seen view.now) scratch.now 0 }
{
    Steps {
        view,
        scratch,
        step: 0,
    }
}

/// The increments that lead from a place to its file of that name. They are fewer than the files of the place.
pub fn way<'a, V: View>(
    view: &'a V,
    scratch: &'a mut Scratch,
    place: &Place,
    name: &Name,
) -> Option<Steps<'a, V>>
    requires { HasRoom scratch.old (V.seen view.now).limits }
    ensures none { IfNone result (file_here (table_of (V.seen view.now)) place.now name.now ≡ None) }
    ensures way { IfSome result (IsWay (table_of (V.seen view.now)) place.now name.now) }
{
    if !make_route(view, scratch, place, name) {
        return None;
    }
    Some(left_steps(view, scratch))
}
