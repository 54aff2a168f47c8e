//! Which words split the files found, and which files no such word covers.

ghost use Rattle.std.specs.Prelude.{◌≡◌, ◌≢◌, ℕ, ◌<◌, ◌==◌, ◌&&◌, ◌||◌, true, not, All, List, length};
ghost use Rattle.std.specs.List.{Contains, list_any};
ghost use Rattle.lis_bits.specs.Rows.{HasShape, get, SetsBits};
ghost use Rattle.lis_words.specs.Words.{has_word};
ghost use Rattle.lis_model.specs.Table.{Entry};
ghost use Rattle.lis_model.specs.Listing.{is_candidate};
ghost use Rattle.lis_eval.specs.View.{Placed, IsView};
ghost use Rattle.lis_ext.specs.Ext.{set_of};
ghost use Rattle.lis_incr.specs.Marked.{found_files, Finds, AreMarked, MarksOnly, SplitBy, LeavesLocals, splits_by, is_covered};

use lis_bits::{Rows, copy_row};
use lis_eval::View;

// Counts for each number how many of the files found have it, and returns how many are found.
pub(crate) fn count_words<V: View>(view: &V, found: &Rows, counts: &mut [u32]) -> u32
    requires found { Finds (V.seen view.now) found.now }
    requires room { length counts.old ≡ (V.seen view.now).limits.props }
    ensures { SplitBy (V.seen view.now) (found_files (V.seen view.now) found.now) counts.new result }
{
    view.ext().count_among(found, counts)
}

// Whether some of the files has a number, and some lacks it.
fn splits(counts: &[u32], many: u32, number: u32) -> bool
    requires { number < length counts.now }
    ensures { result ≡ splits_by counts.now many number }
{
    let count = counts[number as usize];
    count > 0 && count < many
}

// Marks a number that splits the files.
fn mark_number(counts: &[u32], many: u32, candidates: &mut Rows, number: u32)
    requires number { number < length counts.now }
    requires candidates { HasShape candidates.old 1 (length counts.now) }
    ensures { SetsBits candidates.old candidates.new 1 (length counts.now) 0
        (λ n. get candidates.old 0 n || ((number == n) && splits_by counts.now many number)) }
{
    if splits(counts, many, number) {
        candidates.put(0, number, true);
    }
}

// Marks the words that split the files.
pub(crate) fn mark_candidates<V: View>(
    view: &V,
    counts: &[u32],
    many: u32,
    candidates: &mut Rows,
    props: u32,
)
    requires kept { IsView (V.seen view.now) }
    requires props { props ≡ (V.seen view.now).limits.props }
    requires room { length counts.now ≡ (V.seen view.now).limits.props }
    requires candidates { HasShape candidates.old 1 (V.seen view.now).limits.props }
    ensures shape { HasShape candidates.new 1 (V.seen view.now).limits.props }
    ensures marked { (files : List Entry) → SplitBy (V.seen view.now) files counts.now many
        → AreMarked (V.seen view.now) (is_candidate files) candidates.new }
{
    candidates.fill(0, false);
    for k in 0..props {
        match view.word_at(k) {
            None => return,
            Some((_, number)) => mark_number(counts, many, candidates, number),
        }
    }
}

// Whether one of the numbers is marked.
fn has_marked(numbers: &[u32], marks: &Rows) -> bool
    requires row { 0 < length marks.now.rows }
    requires in_range { All (λ number. number < marks.now.bits) numbers.now }
    ensures { result ≡ list_any (get marks.now 0) numbers.now }
{
    for number in numbers {
        if marks.get(0, *number) {
            return true;
        }
    }
    false
}

// Removes the file in a slot from the locals if one of its words is marked.
fn take_covered<V: View>(view: &V, candidates: &Rows, locals: &mut Rows, slot: u32)
    requires kept { IsView (V.seen view.now) }
    requires candidates { HasShape candidates.now 1 (V.seen view.now).limits.props }
    requires locals { HasShape locals.old 1 (V.seen view.now).limits.files }
    requires slot { slot < (V.seen view.now).limits.files }
    ensures shape { HasShape locals.new 1 (V.seen view.now).limits.files }
    ensures others { (k : ℕ) → k < (V.seen view.now).limits.files → k ≢ slot → get locals.new 0 k ≡ get locals.old 0 k }
    ensures own { (files : List Entry) (f : Placed) → AreMarked (V.seen view.now) (is_candidate files) candidates.now → Contains (V.seen view.now).files f → f.slot ≡ slot
        → get locals.new 0 slot ≡ (get locals.old 0 slot && not (is_covered files (V.seen view.now).words f.entry)) }
{
    if !locals.get(0, slot) {
        return;
    }
    if has_marked(view.ext().numbers(slot), candidates) {
        locals.put(0, slot, false);
    }
}

// Keeps as locals the files found that have none of the words that are marked.
pub(crate) fn leave_locals<V: View>(
    view: &V,
    found: &Rows,
    candidates: &Rows,
    locals: &mut Rows,
    files: u32,
)
    requires found { Finds (V.seen view.now) found.now }
    requires kept { IsView (V.seen view.now) }
    requires files { files ≡ (V.seen view.now).limits.files }
    requires candidates { AreMarked (V.seen view.now) (is_candidate (found_files (V.seen view.now) found.now)) candidates.now }
    requires locals { HasShape locals.old 1 (V.seen view.now).limits.files }
    ensures { LeavesLocals (V.seen view.now) (found_files (V.seen view.now) found.now) found.now locals.new }
{
    copy_row(found, 0, locals, 0);
    for slot in 0..files {
        take_covered(view, candidates, locals, slot);
    }
}

// Whether some of the files found lacks the word of a number.
fn is_lacked<V: View>(view: &V, found: &Rows, number: u32) -> bool
    requires found { Finds (V.seen view.now) found.now }
    requires number { number < (V.seen view.now).limits.props }
    ensures { (w : List ℕ × ℕ) → Contains (V.seen view.now).words w → w.1 ≡ number
        → result ≡ list_any (λ (e : Entry). not (has_word e.words w.0)) (found_files (V.seen view.now) found.now) }
{
    !view.ext().all_have(number, found)
}

// Marks those words of the file in the slot that split the files found, of which it is one. Before, only words of the file were marked.
pub(crate) fn mark_own<V: View>(view: &V, found: &Rows, candidates: &mut Rows, slot: u32)
    requires found { Finds (V.seen view.now) found.now }
    requires kept { IsView (V.seen view.now) }
    requires slot { (f : Placed) × Contains (V.seen view.now).files f × (f.slot ≡ slot) }
    requires here { get found.now 0 slot ≡ true }
    requires candidates { HasShape candidates.old 1 (V.seen view.now).limits.props }
    requires own { MarksOnly (V.seen view.now) (set_of (V.rows view.now) slot) candidates.old }
    ensures shape { HasShape candidates.new 1 (V.seen view.now).limits.props }
    ensures own { MarksOnly (V.seen view.now) (set_of (V.rows view.now) slot) candidates.new }
    ensures marked { (f : Placed) → Contains (V.seen view.now).files f → f.slot ≡ slot
        → AreMarked (V.seen view.now) (λ word. has_word f.entry.words word && is_candidate (found_files (V.seen view.now) found.now) word) candidates.new }
{
    let numbers = view.ext().numbers(slot);
    for number in numbers {
        candidates.put(0, *number, is_lacked(view, found, *number));
    }
}
