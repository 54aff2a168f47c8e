//! A station in memory, which a test can make fail, stop and crash.

ghost use Rattle.std.specs.Prelude.{◌≡◌, ◌+◌, ◌*◌, ◌^◌, ◌<◌, ◌≤◌, ◌↔◌, ◌||◌, ◌==◌, min, length, take, List, IsTrue, IsErr, IfOk, OnOk, OnErr, MatchResult};
ghost use Rattle.std.specs.List.{list_any};
ghost use Rattle.std.specs.Io.KnownBytes.{append_known};
ghost use Rattle.lis_ports.specs.Bytes.{part};
ghost use Rattle.lis_ports.specs.Meaning.{failed};
ghost use Rattle.lis_ports.specs.Calls.{HasCause, IsDiskCall, Elapses, IsUnchanged, IsTorn, IsWritten, IsSynced, IsUnsynced, IsShowCall};
ghost use Rattle.lis_memdisk.specs.Seen.{IsNext, IsNextShow};
ghost use Rattle.lis_memdisk.specs.Changes.{crashed};

use crate::counting::failed;
use crate::history::{History, PLAIN_ROOM};
use lis_ports::{Disk, Failed, Station};
use std::alloc::{AllocError, Global};

/// A disk in memory, and what was shown. A call fails if it was set to fail, or if the record or the shown bytes have no room, and for no
/// other cause. A call that fails changes nothing except the counts of calls and faults.
#[derive(Drop)]
pub struct MemStation {
    /// The numbers of the disk calls that fail. The first has the number 1.
    pub fails: Vec<u64>,
    /// The same for calls that show.
    pub show_fails: Vec<u64>,
    /// After this many disk calls every call fails.
    pub fuse: u64,
    /// The most bytes that one call shows.
    pub step: usize,
    history: History,
    disk_faults: u64,
    show_faults: u64,
    behind: u128,
    pub ghost takes_some: { 0 < step },
}

fn is_listed(numbers: &[u64], number: u64) -> bool
    ensures { result ≡ list_any (λ n. n == number) numbers.now }
{
    numbers.iter().any(|n| *n == number)
}

impl MemStation {
    ghost use Rattle.lis_memdisk.specs.MemStation.{held, meaning_of, is_spent, is_told, is_told_to_show, state_of, IsNew};

    /// A station that reads as these bytes. Each write, sync and show that succeeds takes 48 bytes of the room for its event in the record,
    /// and as many more as it wrote or showed. With room 0 it keeps no record, and 65,536 bytes can be shown.
    pub fn new(alloc: Global, bytes: &[u8], room: u64) -> Result<Self, AllocError>
        ensures { IfOk result (λ m. IsNew m bytes.now room) }
    {
        Ok(MemStation {
            fails: Vec::new(alloc),
            show_fails: Vec::new(alloc),
            fuse: u64::MAX,
            step: PLAIN_ROOM,
            history: History::new(alloc, bytes, room)?,
            disk_faults: 0,
            show_faults: 0,
            behind: 0,
        })
    }

    /// How many disk calls there were. The count stays at its largest value.
    pub fn calls(&self) -> u64
        ensures { result ≡ (held self.now).calls }
    {
        self.history.calls()
    }

    /// The bytes shown so far.
    pub fn shown(&self) -> &[u8]
        ensures { result.now ≡ (held self.now).shown }
    {
        self.history.shown()
    }

    /// The image that a crash just after a disk call leaves; call 0 is the start. Of the bytes that were written and not synced, pick 0
    /// takes those before, 1 the new ones, and 2 the new ones at even indexes and those before at odd ones. Any other pick puts its own
    /// number there.
    pub fn crash(&self, alloc: Global, call: u64, pick: u8) -> Result<Vec<u8>, AllocError>
        requires kept { IsTrue (held self.now).is_kept }
        requires past { call ≤ (held self.now).calls }
        ensures image { IfOk result (λ v. v.items ≡ crashed pick (state_of self.now call).unsynced (state_of self.now call).synced) }

        // The image is a moment since that call, with the bytes that had been shown.
        ensures moment { IfOk result (λ v. (meaning_of self.now).moments (call * 2 ^ 64) v.items (state_of self.now call).shown) }
    {
        let image = self.history.crash(alloc, call, pick)?;
        Ok(image)
    }

    /// How many bytes had been shown when a disk call returned.
    pub fn shown_at(&self, call: u64) -> u64
        requires kept { IsTrue (held self.now).is_kept }
        requires past { call ≤ (held self.now).calls }
        ensures { result ≡ length (state_of self.now call).shown }
    {
        self.history.shown_at(call)
    }

    fn is_spent(&self) -> bool
        ensures { result ≡ is_spent self.now }
    {
        self.fuse < self.history.calls().saturating_add(1)
    }

    fn is_told(&self) -> bool
        ensures { result ≡ is_told self.now }
    {
        is_listed(&self.fails, self.history.calls().saturating_add(1)) || self.is_spent()
    }

    fn is_told_to_show(&self) -> bool
        ensures { result ≡ is_told_to_show self.now }
    {
        is_listed(&self.show_fails, self.history.shows().saturating_add(1)) || self.is_spent()
    }
}

impl Disk for MemStation {
    ghost use Rattle.lis_memdisk.specs.MemStation.{held, faults_of, meaning_of, is_told, lacks_room, CountsOne, KeepsOrders};
    ghost use Rattle.lis_memdisk.specs.Laws.{now_counts, now_only, earlier, image_reads, image_length};
    ghost use Rattle.std.specs.Prelude.{refl};

    ghost meaning = { meaning_of };

    ghost counts_now = { λ m t image bytes recorded le now. now_counts (held m) (faults_of m) m.history.sound t image bytes recorded now };

    ghost only_now = { λ m image bytes moment. now_only (held m) (faults_of m) m.history.sound image bytes moment };

    ghost since_earlier = { λ m t u image bytes le moment. earlier (held m) (faults_of m) t u image bytes le moment };

    ghost reads_image = { λ m recorded. image_reads (held m) (faults_of m) m.history.sound recorded };

    ghost reads_len = { λ m honest. refl };

    ghost image_len = { λ m image honest is. image_length (held m) (faults_of m) m.history.sound image is };

    fn len(&self) -> u64 {
        self.history.len()
    }

    fn read_at(&mut self, at: u64, buf: &mut [u8]) -> Result<(), Failed>
        requires { at + length buf.old ≤ (meaning_of self.old).len }
        ensures call { IsDiskCall (meaning_of self.old) (meaning_of self.new) result }
        ensures same { IsTrue (meaning_of self.old).is_honest → IsUnchanged (meaning_of self.old) (meaning_of self.new) }
        ensures read { OnOk result (IsTrue (meaning_of self.old).is_honest
            → buf.new ≡ part at (length buf.old) (meaning_of self.old).bytes) }
        ensures counted { IsNext (held self.old) (held self.new) }
        ensures fails { IsErr result ↔ IsTrue (is_told self.old) }
        ensures kept { OnErr result (buf.new ≡ buf.old) }
        ensures failed { OnErr result (CountsOne self.old self.new self.old.disk_faults self.new.disk_faults) }
        ensures orders { KeepsOrders self.old self.new }
    {
        self.behind = failed(self.disk_faults, self.show_faults);
        if self.is_told() {
            self.history.pass();
            self.disk_faults = self.disk_faults.saturating_add(1);
            return Err(Failed);
        }
        self.history.read(at as usize, buf);
        Ok(())
    }

    fn write_at(&mut self, at: u64, bytes: &[u8]) -> Result<(), Failed>
        requires { at + length bytes.now ≤ (meaning_of self.old).len }
        ensures call { IsDiskCall (meaning_of self.old) (meaning_of self.new) result }
        ensures torn { IsTrue (meaning_of self.old).is_honest
            → IsTorn at (length bytes.now) (meaning_of self.old) (meaning_of self.new) }
        ensures written { OnOk result (IsTrue (meaning_of self.old).is_honest
            → IsWritten at bytes.now (meaning_of self.old) (meaning_of self.new)) }
        ensures counted { IsNext (held self.old) (held self.new) }
        ensures fails { IsErr result ↔ IsTrue (is_told self.old || lacks_room self.old (length bytes.now)) }
        ensures failed { OnErr result (CountsOne self.old self.new self.old.disk_faults self.new.disk_faults) }
        ensures orders { KeepsOrders self.old self.new }
    {
        self.behind = failed(self.disk_faults, self.show_faults);
        if self.is_told() {
            self.history.pass();
            self.disk_faults = self.disk_faults.saturating_add(1);
            return Err(Failed);
        }
        match self.history.write(at as usize, bytes) {
            Ok(()) => Ok(()),
            Err(Failed) => {
                self.disk_faults = self.disk_faults.saturating_add(1);
                Err(Failed)
            }
        }
    }

    fn sync(&mut self) -> Result<(), Failed>
        ensures call { IsDiskCall (meaning_of self.old) (meaning_of self.new) result }
        ensures synced { OnOk result (IsTrue (meaning_of self.old).is_honest → IsSynced (meaning_of self.old) (meaning_of self.new)) }
        ensures unsynced { OnErr result (IsTrue (meaning_of self.old).is_honest → IsUnsynced (meaning_of self.old) (meaning_of self.new)) }
        ensures counted { IsNext (held self.old) (held self.new) }
        ensures fails { IsErr result ↔ IsTrue (is_told self.old || lacks_room self.old 0) }
        ensures failed { OnErr result (CountsOne self.old self.new self.old.disk_faults self.new.disk_faults) }
        ensures orders { KeepsOrders self.old self.new }
    {
        self.behind = failed(self.disk_faults, self.show_faults);
        if self.is_told() {
            self.history.pass();
            self.disk_faults = self.disk_faults.saturating_add(1);
            return Err(Failed);
        }
        match self.history.sync() {
            Ok(()) => Ok(()),
            Err(Failed) => {
                self.disk_faults = self.disk_faults.saturating_add(1);
                Err(Failed)
            }
        }
    }
}

impl Station for MemStation {
    ghost use Rattle.lis_memdisk.specs.MemStation.{held, meaning_of, is_told_to_show, lacks_room_to_show, CountsOne, KeepsOrders};

    fn show(&mut self, piece: &[u8]) -> Result<usize, Failed>
        requires { 0 < length piece.now }
        ensures count { IfOk result (λ n. (0 < n) × (n ≤ length piece.now)) }
        ensures call { IsShowCall (meaning_of self.old) (meaning_of self.new) }
        ensures time { Elapses (meaning_of self.old) (meaning_of self.new) }
        ensures cause { HasCause (meaning_of self.old).show_faults (meaning_of self.new).show_faults result }
        ensures began { (meaning_of self.new).behind ≡ failed (meaning_of self.old) }
        ensures shown { MatchResult result
            (λ n. (meaning_of self.new).shown ≡ append_known (meaning_of self.old).shown (take n piece.now))
            (λ _. (meaning_of self.new).shown ≡ (meaning_of self.old).shown) }
        ensures counted { IsNextShow (held self.old) (held self.new) }
        ensures fails { IsErr result ↔ IsTrue (is_told_to_show self.old || lacks_room_to_show self.old (min self.old.step (length piece.now))) }
        ensures gives { IfOk result (λ n. n ≡ min self.old.step (length piece.now)) }
        ensures failed { OnErr result (CountsOne self.old self.new self.old.show_faults self.new.show_faults) }
        ensures orders { KeepsOrders self.old self.new }
    {
        self.behind = failed(self.disk_faults, self.show_faults);
        if self.is_told_to_show() {
            self.history.pass_show();
            self.show_faults = self.show_faults.saturating_add(1);
            return Err(Failed);
        }
        let count = self.step.min(piece.len());
        match self.history.show(&piece[..count]) {
            Ok(()) => Ok(count),
            Err(Failed) => {
                self.show_faults = self.show_faults.saturating_add(1);
                Err(Failed)
            }
        }
    }
}
