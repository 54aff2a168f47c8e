//! A station over a file and a writer.

ghost use Rattle.std.specs.Prelude.{◌≡◌, ◌+◌, ◌≤◌, ◌<◌, length, IfOk, OnErr};
ghost use Rattle.std.specs.Io.KnownBytes.{WriteAppends};
ghost use Rattle.std.proofs.lemmas.Bool.{false≢true};
ghost use Rattle.lis_ports.specs.Calls.{HasCause, IsDiskCall, IsShowCall};
ghost use Rattle.lis_memdisk.specs.Seen.{next_of};
ghost use Rattle.lis_memdisk.specs.Untold.{untold};

use crate::counting::failed;
use lis_ports::{Disk, Failed, Station};
use std::fs::File;
use std::io::{Error, ErrorKind, Write};
use std::os::unix::fs::FileExt;

/// A file as the disk, and a writer for what is shown. The station reports no content and retries nothing. A disk call that reads or writes
/// less than was requested is a fault, and so is a call that shows nothing; each fault is counted. If no file could be opened, every disk
/// call fails; `len` must then be the largest number.
#[derive(Drop)]
pub struct FileStation<W: Write> {
    pub file: Option<File>,
    pub len: u64,
    pub out: W,
    pub disk_faults: u64,
    pub show_faults: u64,
    /// How many calls of both kinds had failed when the last one began.
    pub behind: u128,
    /// Why the disk failed last. Without a file it stays as it is.
    pub cause: Option<Error>,
}

impl<W: Write> Disk for FileStation<W> {
    ghost meaning = { λ s. untold s.len s.disk_faults s.show_faults s.behind };

    ghost counts_now = { λ s t image bytes recorded le now. absurd (false≢true recorded) };

    ghost only_now = { λ s image bytes moment. absurd moment };

    ghost since_earlier = { λ s t u image bytes le moment. moment };

    ghost reads_image = { λ s recorded. absurd (false≢true recorded) };

    ghost reads_len = { λ s honest. absurd (false≢true honest) };

    ghost image_len = { λ s image honest is. absurd (false≢true honest) };

    fn len(&self) -> u64 {
        self.len
    }

    fn read_at(&mut self, at: u64, buf: &mut [u8]) -> Result<(), Failed>
        requires { at + length buf.old ≤ self.old.len }
        ensures call { IsDiskCall (untold self.old.len self.old.disk_faults self.old.show_faults self.old.behind) (untold self.new.len self.new.disk_faults self.new.show_faults self.new.behind) result }
        ensures one { OnErr result (self.new.disk_faults ≡ next_of self.old.disk_faults) }
        ensures out { self.new.out ≡ self.old.out }
    {
        self.behind = failed(self.disk_faults, self.show_faults);
        let cause = match &self.file {
            None => self.cause,
            Some(file) => match file.read_at(buf, at) {
                Ok(count) if count == buf.len() => return Ok(()),
                Ok(_) => Some(Error::from(ErrorKind::UnexpectedEof)),
                Err(error) => Some(error),
            },
        };
        self.cause = cause;
        self.disk_faults = self.disk_faults.saturating_add(1);
        Err(Failed)
    }

    fn write_at(&mut self, at: u64, bytes: &[u8]) -> Result<(), Failed>
        requires { at + length bytes.now ≤ self.old.len }
        ensures call { IsDiskCall (untold self.old.len self.old.disk_faults self.old.show_faults self.old.behind) (untold self.new.len self.new.disk_faults self.new.show_faults self.new.behind) result }
        ensures one { OnErr result (self.new.disk_faults ≡ next_of self.old.disk_faults) }
        ensures out { self.new.out ≡ self.old.out }
    {
        self.behind = failed(self.disk_faults, self.show_faults);
        let cause = match &self.file {
            None => self.cause,
            Some(file) => match file.write_at(bytes, at) {
                Ok(count) if count == bytes.len() => return Ok(()),
                Ok(_) => Some(Error::from(ErrorKind::WriteZero)),
                Err(error) => Some(error),
            },
        };
        self.cause = cause;
        self.disk_faults = self.disk_faults.saturating_add(1);
        Err(Failed)
    }

    fn sync(&mut self) -> Result<(), Failed>
        ensures call { IsDiskCall (untold self.old.len self.old.disk_faults self.old.show_faults self.old.behind) (untold self.new.len self.new.disk_faults self.new.show_faults self.new.behind) result }
        ensures one { OnErr result (self.new.disk_faults ≡ next_of self.old.disk_faults) }
        ensures out { self.new.out ≡ self.old.out }
    {
        self.behind = failed(self.disk_faults, self.show_faults);
        let cause = match &self.file {
            None => self.cause,
            Some(file) => match file.sync_data() {
                Ok(()) => return Ok(()),
                Err(error) => Some(error),
            },
        };
        self.cause = cause;
        self.disk_faults = self.disk_faults.saturating_add(1);
        Err(Failed)
    }
}

impl<W: Write> Station for FileStation<W> {
    fn show(&mut self, piece: &[u8]) -> Result<usize, Failed>
        requires { 0 < length piece.now }
        ensures count { IfOk result (λ n. (0 < n) × (n ≤ length piece.now)) }
        ensures call { IsShowCall (untold self.old.len self.old.disk_faults self.old.show_faults self.old.behind) (untold self.new.len self.new.disk_faults self.new.show_faults self.new.behind) }
        ensures cause { HasCause self.old.show_faults self.new.show_faults result }
        ensures began { self.new.behind ≡ self.old.disk_faults + self.old.show_faults }
        ensures one { OnErr result (self.new.show_faults ≡ next_of self.old.show_faults) }

        // A writer that reports its bytes has exactly those that were shown.
        ensures written { WriteAppends (W.contents self.old.out) (W.contents self.new.out) result piece.now }
    {
        self.behind = failed(self.disk_faults, self.show_faults);
        match self.out.write(piece) {
            Ok(count) if count > 0 => Ok(count),
            _ => {
                self.show_faults = self.show_faults.saturating_add(1);
                Err(Failed)
            }
        }
    }
}
