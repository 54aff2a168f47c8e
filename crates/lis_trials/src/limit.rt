//! Sessions over an opened store: with a small limit, and how they edit its extension rows.

ghost use Rattle.std.specs.Prelude.{◌≤◌, ◌^◌, IfOk};
ghost use Rattle.lis_memdisk.specs.MemStation.{meaning_of};
ghost use Rattle.lis_store.specs.Stored.{IsSound, IsUsable};

use crate::images::{fresh, run, shown_behind};
use crate::tests::tables::{LIMITED, edit_counts};
use crate::tests::{SOUND, row_of, source};
use lis_line::reader::Payload;
use lis_memdisk::MemStation;
use lis_open::mount;
use lis_ports::{Source, Station};
use lis_session::session::Session;
use lis_shell::serving::serve;
use lis_shell::status::Status;
use std::alloc::{AllocError, Global};
use std::test::Fail;

// How a session ends, over any input and any station: otherwise each step of its check holds what is known of those in memory.
fn served<S: Source, T: Station>(
    session: &mut Session,
    payload: &mut Payload,
    input: &mut S,
    station: &mut T,
    limit: u64,
) -> Status
    requires limit { limit ≤ 2 ^ 40 }
    requires sound { IsSound session.old.store }
    requires usable { IsUsable session.old.store (T.meaning station.old) }
{
    Status::Ended(serve(session, payload, input, station, limit))
}

// How a session of such a row ends.
fn serve_row(
    alloc: Global,
    session: &mut Session,
    row: &str,
    station: &mut MemStation,
    limit: u64,
) -> Result<Status, AllocError>
    requires limit { limit ≤ 2 ^ 40 }
    requires sound { IsSound session.old.store }
    requires usable { IsUsable session.old.store (meaning_of station.old) }
{
    let mut payload = Payload::new(alloc)?;
    let mut input = source(alloc, row, &SOUND)?;
    Ok(served(session, &mut payload, &mut input, station, limit))
}

fn opened<T: Station>(alloc: Global, station: &mut T) -> Result<Session, Fail>
    ensures sound { IfOk result (λ session. IsSound session.store) }
    ensures usable { IfOk result (λ session. IsUsable session.store (T.meaning station.new)) }
{
    match mount(alloc, station) {
        Ok(store) => Ok(Session::new(alloc, store)?),
        Err(_) => Err("the image was not opened".into()),
    }
}

// The same, with the opening.
fn serve_image(
    alloc: Global,
    row: &str,
    station: &mut MemStation,
    limit: u64,
) -> Result<Status, Fail>
    requires limit { limit ≤ 2 ^ 40 }
{
    let mut session = opened(alloc, station)?;
    let status = serve_row(alloc, &mut session, row, station, limit);
    session.close();
    Ok(status?)
}

// How the session ends at a small limit, its replies, and those of a session after it without the limit.
fn cut_and_again(
    alloc: Global,
    row: &str,
    station: &mut MemStation,
) -> Result<(Status, String, String), Fail> {
    let status = serve_image(alloc, row, station, 10)?;
    let replies = row_of(alloc, station.shown())?;
    run(alloc, row, station)?;
    let left = shown_behind(alloc, station, replies.len())?;
    Ok((status, replies, left))
}

// The same over such an image.
fn limited(alloc: Global, image: &[u8], row: &str) -> Result<(Status, String, String), Fail> {
    let mut station = MemStation::new(alloc, image, 0)?;
    cut_and_again(alloc, row, &mut station)
}

#[test]
fn a_session_ends_at_its_limit(rt: HostRuntime) -> Result<(), Fail> {
    let alloc = rt.alloc();
    let image = fresh(alloc)?;
    for (row, wanted, wanted_replies, wanted_left) in &LIMITED {
        let (status, replies, left) = limited(alloc, &image, row)?;
        assert!(rt; status == *wanted, "{row}");
        assert!(rt; replies.as_str() == *wanted_replies, "{row}");
        assert!(rt; left.as_str() == *wanted_left, "{row}");
    }
    Ok(())
}

// How often a session over an empty image changed bits of extension rows.
fn edits_by(alloc: Global, row: &str, station: &mut MemStation) -> Result<u64, Fail> {
    let mut session = opened(alloc, station)?;
    let status = serve_row(alloc, &mut session, row, station, 1_000);
    let edits = session.store().descriptions().edits();
    session.close();
    status?;
    Ok(edits)
}

// The same over such an image.
fn edits_on(alloc: Global, image: &[u8], row: &str) -> Result<u64, Fail> {
    let mut station = MemStation::new(alloc, image, 0)?;
    edits_by(alloc, row, &mut station)
}

#[test]
fn rows_are_edited_where_descriptions_differ(rt: HostRuntime) -> Result<(), Fail> {
    let alloc = rt.alloc();
    let image = fresh(alloc)?;
    for (row, wanted) in edit_counts() {
        let edits = edits_on(alloc, &image, row)?;
        assert!(rt; edits == *wanted, "{row}");
    }
    Ok(())
}
