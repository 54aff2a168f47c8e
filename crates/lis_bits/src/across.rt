ghost use Rattle.std.specs.Prelude.{◌≡◌, ℕ, ◌<◌, ◌↔◌, ◌&&◌, length, IsTrue};
ghost use Rattle.lis_bits.specs.Rows.{get, with_row};

use crate::{Rows, words};

/// Sets a row to a row of other rows. Each join across rows is one edit of the rows that it changes.
pub fn copy_row(from: &Rows, row: u32, to: &mut Rows, at: u32)
    requires row { row < length from.now.rows }
    requires at { at < length to.old.rows }
    requires bits { from.now.bits ≡ to.old.bits }
    ensures { to.new ≡ with_row to.old at (get from.now row) }
{
    to.join_with(at, from, row, |_, b| b);
}

/// Keeps those bits of a row that are true in a row of other rows too.
pub fn and_row(from: &Rows, row: u32, to: &mut Rows, at: u32)
    requires row { row < length from.now.rows }
    requires at { at < length to.old.rows }
    requires bits { from.now.bits ≡ to.old.bits }
    ensures { to.new ≡ with_row to.old at (λ bit. get to.old at bit && get from.now row bit) }
{
    to.join_with(at, from, row, |a, b| a & b);
}

/// Whether each bit that is true in the first row is true in the second one.
pub fn within(a: &Rows, row: u32, b: &Rows, at: u32) -> bool
    requires row { row < length a.now.rows }
    requires at { at < length b.now.rows }
    requires bits { a.now.bits ≡ b.now.bits }
    ensures { IsTrue result
        ↔ ((bit : ℕ) → bit < a.now.bits → IsTrue (get a.now row bit) → IsTrue (get b.now at bit)) }
{
    words::is_subset(a.words(row), b.words(at))
}
