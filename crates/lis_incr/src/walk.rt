//! The way to a file, step by step.

ghost use Rattle.std.specs.Prelude.{◌≡◌, ℕ, ◌<◌, ◌≤◌, Bool, true, Some, None, All, List, length, take, filter};
ghost use Rattle.std.specs.List.{Contains};
ghost use Rattle.lis_grammar.specs.Formula.{Formula};
ghost use Rattle.lis_bits.specs.Rows.{HasShape, get};
ghost use Rattle.lis_model.specs.Listing.{holds_all};
ghost use Rattle.lis_model.specs.Route.{route_within};
ghost use Rattle.lis_eval.specs.View.{Placed, IsView, TellsTest, table_of};
ghost use Rattle.lis_eval.specs.Room.{HasRoom};
ghost use Rattle.lis_ext.specs.Ext.{set_of};
ghost use Rattle.lis_incr.specs.Marked.{Finds, AreMarked, MarksOnly, is_top};
ghost use Rattle.lis_incr.specs.Ways.{AreKnown, words_of};
ghost use Rattle.lis_incr.specs.Walking.{IsFirst, IsStepBy, IsFirstBy, earlier};

use crate::increments::is_top;
use crate::marks::mark_own;
use lis_bits::Rows;
use lis_eval::{Scratch, View};
use lis_taxonomy::Search;

// How many files are found.
pub(crate) fn count_found<V: View>(view: &V, found: &Rows, files: u32) -> u32
    requires kept { IsView (V.seen view.now) }
    requires found { HasShape found.now 65 files }
    requires files { files ≡ (V.seen view.now).limits.files }
    ensures count { result ≡ length (filter (λ (f : Placed). get found.now 0 f.slot) (V.seen view.now).files) }
    ensures few { result ≤ files }
{
    let mut count = 0;
    for k in 0..files {
        match view.file_at(k) {
            None => return count,
            Some((_, slot)) => {
                if found.get(0, slot) {
                    count += 1;
                }
            }
        }
    }
    count
}

// The step by the word of a number, if the word is marked and entails no other marked word: the index of the word, and the number.
fn step_by<V: View>(view: &V, marks: &Rows, search: &mut Search, number: u32) -> Option<(u32, u32)>
    requires kept { IsView (V.seen view.now) }
    requires marks { HasShape marks.now 1 (V.seen view.now).limits.props }
    requires number { number < (V.seen view.now).limits.props }
    ensures { (test : List ℕ → Bool) → AreMarked (V.seen view.now) test marks.now
        → IsStepBy (V.seen view.now) (is_top (table_of (V.seen view.now)) test) number result }
{
    if !is_top(view, marks, search, number) {
        return None;
    }
    let place = view.place_of(number)?;
    Some((place, number))
}

// That one of two steps whose word comes first.
fn earlier(first: Option<(u32, u32)>, step: Option<(u32, u32)>) -> Option<(u32, u32)>
    ensures { result ≡ earlier first step }
{
    let Some(one) = first else {
        return step;
    };
    let Some(other) = step else {
        return first;
    };
    if other.0 < one.0 { step } else { first }
}

// The first step by one of the numbers.
fn first_by<V: View>(
    view: &V,
    marks: &Rows,
    search: &mut Search,
    numbers: &[u32],
) -> Option<(u32, u32)>
    requires kept { IsView (V.seen view.now) }
    requires marks { HasShape marks.now 1 (V.seen view.now).limits.props }
    requires numbers { All (λ number. number < (V.seen view.now).limits.props) numbers.now }
    ensures { (test : List ℕ → Bool) → AreMarked (V.seen view.now) test marks.now
        → IsFirstBy (V.seen view.now) (is_top (table_of (V.seen view.now)) test) numbers.now result }
{
    let mut first = None;
    for number in numbers {
        first = earlier(first, step_by(view, marks, search, *number));
    }
    first
}

// The first increment that the file in the slot has: its index in the order of words, and its number.
fn first_step<V: View>(view: &V, scratch: &mut Scratch, slot: u32) -> Option<(u32, u32)>
    requires found { Finds (V.seen view.now) scratch.old.files }
    requires kept { IsView (V.seen view.now) }
    requires room { HasRoom scratch.old (V.seen view.now).limits }
    requires slot { (f : Placed) × Contains (V.seen view.now).files f × (f.slot ≡ slot) }
    requires here { get scratch.old.files 0 slot ≡ true }
    requires own { MarksOnly (V.seen view.now) (set_of (V.rows view.now) slot) scratch.old.candidates }
    ensures room { HasRoom scratch.new (V.seen view.now).limits }
    ensures files { scratch.new.files ≡ scratch.old.files }
    ensures route { scratch.new.route ≡ scratch.old.route }
    ensures own { MarksOnly (V.seen view.now) (set_of (V.rows view.now) slot) scratch.new.candidates }
    ensures first { (f : Placed) → Contains (V.seen view.now).files f → f.slot ≡ slot → IsFirst (V.seen view.now) scratch.old.files f.entry result }
{
    mark_own(view, &scratch.files, &mut scratch.candidates, slot);
    first_by(
        view,
        &scratch.candidates,
        &mut scratch.search,
        view.ext().numbers(slot),
    )
}

// Writes the route to the file in a slot, at most `most` words, and returns how many they are. The files found are those of each place on
// the route in turn.
pub(crate) fn walk<V: View>(view: &V, scratch: &mut Scratch, slot: u32, most: u32) -> u32
    requires found { Finds (V.seen view.now) scratch.old.files }
    requires kept { IsView (V.seen view.now) }
    requires room { HasRoom scratch.old (V.seen view.now).limits }
    requires slot { (f : Placed) × Contains (V.seen view.now).files f × (f.slot ≡ slot) }
    requires here { get scratch.old.files 0 slot ≡ true }
    requires most { most ≤ (V.seen view.now).limits.files }
    ensures room { HasRoom scratch.new (V.seen view.now).limits }
    ensures few { result ≤ most }
    ensures known { AreKnown (V.seen view.now) (take result scratch.new.route.items) }
    ensures steps { (f : Placed) (place : List Formula) → Contains (V.seen view.now).files f → f.slot ≡ slot
        → TellsTest (V.seen view.now) (get scratch.old.files 0) (holds_all place)
        → words_of (V.seen view.now) (take result scratch.new.route.items) ≡ route_within most (table_of (V.seen view.now)) place f.entry }
{
    scratch.candidates.fill(0, false);
    for step in 0..most {
        match first_step(view, scratch, slot) {
            None => return step,
            Some((place, number)) => {
                view.ext().and_row(number, &mut scratch.files, 0);
                scratch.route[step as usize] = place;
            }
        }
    }
    most
}
