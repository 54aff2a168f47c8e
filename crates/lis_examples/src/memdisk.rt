//! A real file reads back what was written, and one that can't be synced fails.

ghost use Rattle.std.specs.Prelude.{◌≡◌, ◌≤◌};

use lis_memdisk::FileStation;
use lis_ports::{Disk, Failed, Station};
use std::alloc::Global;
use std::fs::{self, File, OpenOptions};
use std::test::Fail;

// A station over a file, whose length it reports as nine bytes. Nothing was shown.
fn station_over(alloc: Global, file: File) -> FileStation<Vec<u8>>
    ensures { result.len ≡ 9 }
{
    FileStation {
        file: Some(file),
        len: 9,
        out: Vec::new(alloc),
        disk_faults: 0,
        show_faults: 0,
        behind: 0,
        cause: None,
    }
}

// Writes two bytes, and reads them with the bytes next to them.
fn write_and_read<D: Disk>(disk: &mut D, buf: &mut [u8; 4]) -> Result<(), Failed>
    requires { 9 ≤ (D.meaning disk.old).len }
    ensures { (D.meaning disk.new).len ≡ (D.meaning disk.old).len }
{
    disk.write_at(2, b"XY")?;
    disk.sync()?;
    disk.read_at(1, buf)
}

// Writes two bytes that can't be kept.
fn is_write_lost<D: Disk>(disk: &mut D) -> bool
    requires { 9 ≤ (D.meaning disk.old).len }
    ensures { (D.meaning disk.new).len ≡ (D.meaning disk.old).len }
{
    disk.write_at(0, b"ab").is_ok() && disk.sync().is_err()
}

fn is_read<D: Disk>(disk: &mut D, place: u64, buf: &mut [u8; 4]) -> bool
    requires place { place ≤ 5 }
    requires long { 9 ≤ (D.meaning disk.old).len }
    ensures { (D.meaning disk.new).len ≡ (D.meaning disk.old).len }
{
    disk.read_at(place, buf).is_ok()
}

fn is_shown<T: Station>(station: &mut T) -> bool {
    matches!(station.show(b"ok"), Ok(2))
}

#[test]
fn a_file_reads_back_what_was_written(rt: HostRuntime) -> Result<(), Fail> {
    fs::write(&rt, "disk", b"abcdefgh".as_slice())?;
    let file = OpenOptions::new().read(true).write(true).open(&rt, "disk")?;
    let mut station = station_over(rt.alloc(), file);
    let mut buf = [0; 4];
    assert!(rt; write_and_read(&mut station, &mut buf).is_ok());
    assert!(rt; buf == *b"bXYe");
    assert!(rt; !is_read(&mut station, 5, &mut buf), "past its end");
    assert!(rt; station.disk_faults == 1);
    assert!(rt; is_shown(&mut station) && station.out.as_slice() == b"ok".as_slice());
    assert!(rt; fs::read(&rt, "disk")?.as_slice() == b"abXYefgh".as_slice());
    fs::remove_file(&rt, "disk")?;
    Ok(())
}

#[test]
fn a_file_that_cannot_be_synced_fails(rt: HostRuntime) -> Result<(), Fail> {
    let file = OpenOptions::new().write(true).open(&rt, "/dev/null")?;
    let mut station = station_over(rt.alloc(), file);
    let mut buf = [0; 4];
    assert!(rt; is_write_lost(&mut station));
    assert!(rt; station.disk_faults == 1);
    assert!(rt; matches!(&station.cause, Some(cause) if cause.raw_os_error() == Some(22)));
    assert!(rt;
        !is_read(&mut station, 0, &mut buf),
        "it was opened to write alone"
    );
    assert!(rt; station.disk_faults == 2 && station.show_faults == 0);
    Ok(())
}
