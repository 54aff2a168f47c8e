//! Which of the marked words entail no other marked word.

ghost use Rattle.std.specs.Prelude.{◌≡◌, ℕ, ◌<◌, ◌==◌, ◌&&◌, ◌||◌, Bool, List};
ghost use Rattle.std.specs.List.{Contains};
ghost use Rattle.lis_bits.specs.Rows.{HasShape, get, SetsBits};
ghost use Rattle.lis_eval.specs.View.{table_of, IsView};
ghost use Rattle.lis_incr.specs.Marked.{AreMarked, is_top};

use lis_bits::Rows;
use lis_eval::View;
use lis_taxonomy::Search;

// Whether the word of a number is marked and entails no other marked word.
pub(crate) fn is_top<V: View>(view: &V, marks: &Rows, search: &mut Search, number: u32) -> bool
    requires kept { IsView (V.seen view.now) }
    requires marks { HasShape marks.now 1 (V.seen view.now).limits.props }
    requires number { number < (V.seen view.now).limits.props }
    ensures { (test : List ℕ → Bool) (w : List ℕ × ℕ) → AreMarked (V.seen view.now) test marks.now → Contains (V.seen view.now).words w → w.1 ≡ number
        → result ≡ is_top (table_of (V.seen view.now)) test w.0 }
{
    marks.get(0, number) && !view.taxonomy().leads_to_marked(number, marks, search)
}

// Marks the word of a number as an increment if it is one.
fn mark_increment<V: View>(
    view: &V,
    candidates: &Rows,
    increments: &mut Rows,
    search: &mut Search,
    number: u32,
)
    requires kept { IsView (V.seen view.now) }
    requires candidates { HasShape candidates.now 1 (V.seen view.now).limits.props }
    requires increments { HasShape increments.old 1 (V.seen view.now).limits.props }
    requires number { number < (V.seen view.now).limits.props }
    ensures shape { HasShape increments.new 1 (V.seen view.now).limits.props }
    ensures marked { (test : List ℕ → Bool) (w : List ℕ × ℕ) → AreMarked (V.seen view.now) test candidates.now → Contains (V.seen view.now).words w → w.1 ≡ number
        → SetsBits increments.old increments.new 1 (V.seen view.now).limits.props 0
        (λ n. get increments.old 0 n || ((w.1 == n) && is_top (table_of (V.seen view.now)) test w.0)) }
{
    if is_top(view, candidates, search, number) {
        increments.put(0, number, true);
    }
}

// Marks the increments among the candidates.
pub(crate) fn mark_increments<V: View>(
    view: &V,
    candidates: &Rows,
    increments: &mut Rows,
    search: &mut Search,
    props: u32,
)
    requires kept { IsView (V.seen view.now) }
    requires props { props ≡ (V.seen view.now).limits.props }
    requires candidates { HasShape candidates.now 1 (V.seen view.now).limits.props }
    requires increments { HasShape increments.old 1 (V.seen view.now).limits.props }
    ensures shape { HasShape increments.new 1 (V.seen view.now).limits.props }
    ensures marked { (test : List ℕ → Bool) → AreMarked (V.seen view.now) test candidates.now
        → AreMarked (V.seen view.now) (is_top (table_of (V.seen view.now)) test) increments.new }
{
    increments.fill(0, false);
    for k in 0..props {
        match view.word_at(k) {
            None => return,
            Some((_, number)) => {
                mark_increment(view, candidates, increments, search, number);
            }
        }
    }
}
