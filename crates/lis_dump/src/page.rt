//! The page of a dump that is under way: lines that are shown together.

ghost use Rattle.std.specs.Prelude.{◌≡◌, ◌+◌, ◌≤◌, [], length, IfOk};
ghost use Rattle.lis_store.specs.Stored.{Stored};
ghost use Rattle.lis_session.specs.Parts.{Answers};
ghost use Rattle.lis_dump.specs.Showing.{Pages};

use crate::lines::Line;
use arrayvec::ArrayVec;
use lis_ports::Station;
use lis_reply::show_all;
use lis_session::end::End;

// How many bytes of lines are shown in one call, at most. Any line fits.
const PAGE_LEN: usize = 4_096;

/// Lines that are not shown yet.
pub type Page = ArrayVec<u8, PAGE_LEN>;

/// Shows what is on the page, by one call if the station takes all of it.
pub fn show_page<T: Station>(page: &mut Page, station: &mut T) -> Result<(), End>
    ensures answers { Answers (T.meaning station.old) (T.meaning station.new) page.old.items result }
    ensures empty { IfOk result (λ done. page.new.items ≡ []) }
{
    show_all(station, page.as_slice())?;
    page.clear();
    Ok(())
}

// Shows what is on the page, unless there is room for the line.
fn make_room<T: Station>(page: &mut Page, line: &Line, station: &mut T) -> Result<(), End>
    ensures pages { (k : Stored) → Pages k (λ state. []) page.old.items page.new.items (T.meaning station.old) (T.meaning station.new) result }
    ensures room { IfOk result (λ done. length page.new.items + length line.now.items ≤ PAGE_LEN) }
{
    if page.len() + line.len() <= PAGE_LEN {
        return Ok(());
    }
    show_page(page, station)
}

/// Puts a line on the page. A full page is shown first.
pub fn push_line<T: Station>(page: &mut Page, line: &Line, station: &mut T) -> Result<(), End>
    ensures { (k : Stored) → Pages k (λ state. line.now.items) page.old.items page.new.items (T.meaning station.old) (T.meaning station.new) result }
{
    make_room(page, line, station)?;
    page.try_extend_from_slice(line.as_slice()).unwrap();
    Ok(())
}
