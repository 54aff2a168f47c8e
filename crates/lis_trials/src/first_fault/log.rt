//! A source and a station in memory whose calls are recorded in one log. The log lets one call fail; the calls after it would succeed.

ghost use Rattle.std.specs.Prelude.{◌≡◌, refl};
ghost use Rattle.lis_memdisk.specs.MemStation.{held, faults_of, meaning_of};
ghost use Rattle.lis_memdisk.specs.Laws.{now_counts, now_only, earlier, image_reads, image_length};

use lis_memdisk::MemStation;
use lis_ports::{Disk, Failed, MemSource, Source, Station};
use std::cell::Cell;

/// The object of a call: the source, the disk, or the station that shows.
#[derive(Clone, Copy, Debug, PartialEq, Eq)]
pub enum Kind {
    Take,
    Disk,
    Show,
}

impl Kind {
    /// Its name in tables.
    pub fn name(self) -> &'static str {
        match self {
            Kind::Take => "take",
            Kind::Disk => "disk",
            Kind::Show => "show",
        }
    }
}

/// How many calls there were, how many of the kind of which one must fail, and the number of the last failed call, 0 for none.
#[derive(Drop)]
pub struct Log {
    kind: Kind,
    fails: u64,
    of_kind: Cell<u64>,
    calls: Cell<u64>,
    failed: Cell<u64>,
}

impl Log {
    /// A log that lets one call of a kind fail: the one with this number, counted from 1.
    pub fn new(kind: Kind, fails: u64) -> Log {
        Log {
            kind,
            fails,
            of_kind: Cell::new(0),
            calls: Cell::new(0),
            failed: Cell::new(0),
        }
    }

    pub fn calls(&self) -> u64 {
        self.calls.get()
    }

    pub fn failed(&self) -> u64 {
        self.failed.get()
    }

    // A call begins. Returns whether it must fail.
    fn begins(&self, kind: Kind) -> bool {
        self.calls.set(self.calls.get().saturating_add(1));
        if kind != self.kind {
            return false;
        }
        self.of_kind.set(self.of_kind.get().saturating_add(1));
        self.of_kind.get() == self.fails
    }

    fn ends(&self, has_failed: bool) {
        if has_failed {
            self.failed.set(self.calls.get());
        }
    }
}

/// A source whose calls are recorded in the log.
#[derive(Drop)]
pub struct LoggedSource<'a> {
    pub source: MemSource,
    pub log: &'a Log,
}

impl Source for LoggedSource<'_> {
    ghost left = { λ s. ⟦<MemSource as Source>⟧.left s.source };

    ghost faults = { λ s. ⟦<MemSource as Source>⟧.faults s.source };

    ghost behind = { λ s. ⟦<MemSource as Source>⟧.behind s.source };

    fn take(&mut self, buf: &mut [u8]) -> Result<usize, Failed> {
        self.source.fail_at = if self.log.begins(Kind::Take) {
            Some(self.source.place)
        } else {
            None
        };
        let result = self.source.take(buf);
        self.log.ends(result.is_err());
        result
    }
}

/// A station whose calls are recorded in the log.
#[derive(Drop)]
pub struct LoggedStation<'a> {
    pub station: MemStation,
    pub log: &'a Log,
}

impl LoggedStation<'_> {
    // If no fuse is left, the call that begins fails.
    fn begin(&mut self, kind: Kind)
        ensures held { held self.new.station ≡ held self.old.station }
        ensures faults { faults_of self.new.station ≡ faults_of self.old.station }
    {
        self.station.fuse = if self.log.begins(kind) { 0 } else { u64::MAX };
    }
}

impl Disk for LoggedStation<'_> {
    ghost meaning = { λ s. meaning_of s.station };

    ghost counts_now = { λ s t image bytes recorded le now. now_counts (held s.station) (faults_of s.station) s.station.history.sound t image bytes recorded now };

    ghost only_now = { λ s image bytes moment. now_only (held s.station) (faults_of s.station) s.station.history.sound image bytes moment };

    ghost since_earlier = { λ s t u image bytes le moment. earlier (held s.station) (faults_of s.station) t u image bytes le moment };

    ghost reads_image = { λ s recorded. image_reads (held s.station) (faults_of s.station) s.station.history.sound recorded };

    ghost reads_len = { λ s honest. refl };

    ghost image_len = { λ s image honest is. image_length (held s.station) (faults_of s.station) s.station.history.sound image is };

    fn len(&self) -> u64 {
        self.station.len()
    }

    fn read_at(&mut self, at: u64, buf: &mut [u8]) -> Result<(), Failed> {
        self.begin(Kind::Disk);
        let result = self.station.read_at(at, buf);
        self.log.ends(result.is_err());
        result
    }

    fn write_at(&mut self, at: u64, bytes: &[u8]) -> Result<(), Failed> {
        self.begin(Kind::Disk);
        let result = self.station.write_at(at, bytes);
        self.log.ends(result.is_err());
        result
    }

    fn sync(&mut self) -> Result<(), Failed> {
        self.begin(Kind::Disk);
        let result = self.station.sync();
        self.log.ends(result.is_err());
        result
    }
}

impl Station for LoggedStation<'_> {
    fn show(&mut self, piece: &[u8]) -> Result<usize, Failed> {
        self.begin(Kind::Show);
        let result = self.station.show(piece);
        self.log.ends(result.is_err());
        result
    }
}
