//! The bytes of a disk in memory, what was shown, and, if it is wanted, a record of all that changed them.

ghost use Rattle.std.specs.Prelude.{false, [], ◌∷◌, ◌≡◌, ◌+◌, ◌-◌, ◌^◌, ◌<◌, ◌≤◌, ◌↔◌, ◌++◌, ℕ, List, length, IsTrue, IsErr, IfOk, OnOk, OnErr, vec_len, vec_capacity};
ghost use Rattle.lis_ports.specs.Bytes.{part};
ghost use Rattle.lis_memdisk.specs.Event.{changes_of, all_stored, deed_of, has_given};
ghost use Rattle.lis_memdisk.specs.Seen.{IsSoundSeen, is_within};
ghost use Rattle.lis_memdisk.specs.Changes.{Medium, after, crashed, IsAt};
ghost use Rattle.lis_memdisk.specs.Room.{HasSpace};

use crate::bytes::{overwrite, overwrite_vec, tear};
use crate::event::{EVENT_LEN, Event, Kind, Span};
use lis_ports::Failed;
use std::alloc::{AllocError, Global};

/// How many bytes may be shown if no record is kept.
pub const PLAIN_ROOM: usize = 65_536;

#[derive(Drop)]
pub struct History {
    start: Vec<u8>,
    bytes: Vec<u8>,
    shown: Vec<u8>,
    given: Vec<u8>,
    events: Vec<Event>,
    is_kept: bool,
    left: usize,
    calls: u64,
    shows: u64,
    ghost stored: { IsTrue (all_stored (length given.items) (length shown.items) events.items) },
    ghost sound: { IsTrue is_kept → IsSoundSeen (record { is_kept = is_kept; start = start.items; changes = changes_of given.items shown.items events.items; bytes = bytes.items; shown = shown.items; left = left; calls = calls; shows = shows }) },
    ghost room: { HasSpace is_kept left (vec_len shown) (vec_capacity shown) (vec_len given) (vec_capacity given) (vec_len events) (vec_capacity events) },
}

// Adds an event, for which there is room.
fn note(events: &mut Vec<Event>, event: Event)
    requires { vec_len events.old < vec_capacity events.old }
    ensures items { events.new.items ≡ events.old.items ++ event ∷ [] }
    ensures len { vec_len events.new ≡ vec_len events.old + 1 }
    ensures capacity { vec_capacity events.old ≤ vec_capacity events.new }
{
    let Ok(()) = events.push(event) else {
        unreachable!()
    };
}

// Adds bytes, for which there is room.
fn keep(kept: &mut Vec<u8>, bytes: &[u8])
    requires { vec_len kept.old + length bytes.now ≤ vec_capacity kept.old }
    ensures items { kept.new.items ≡ kept.old.items ++ bytes.now }
    ensures len { vec_len kept.new ≡ vec_len kept.old + length bytes.now }
    ensures capacity { vec_capacity kept.old ≤ vec_capacity kept.new }
{
    let Ok(()) = kept.extend_from_slice(bytes) else {
        unreachable!()
    };
}

// Does to the bytes what an event did to them, and to an image what a crash leaves of the event.
fn redo(given: &[u8], kind: Kind, pick: u8, image: &mut [u8], bytes: &mut [u8])
    requires stored { IsTrue (has_given (length given.now) kind) }
    requires within { IsTrue (is_within (length image.old) (deed_of given.now [] kind)) }
    requires same_len { length bytes.old ≡ length image.old }
    ensures { (s : Medium) (shown : List ℕ) → IsAt pick s image.old bytes.old
        → IsAt pick (after s (deed_of given.now shown kind)) image.new bytes.new }
{
    match kind {
        Kind::Write(place, span) => {
            let data = &given[span.from..span.from + span.len];
            tear(image, place, data, pick);
            overwrite(bytes, place, data);
        }
        Kind::Sync => image.copy_from_slice(bytes),
        Kind::Show(_) => {}
    }
}

// The same for vectors.
fn redo_vec(given: &[u8], kind: Kind, pick: u8, image: &mut Vec<u8>, bytes: &mut Vec<u8>)
    requires stored { IsTrue (has_given (length given.now) kind) }
    requires within { IsTrue (is_within (length image.old.items) (deed_of given.now [] kind)) }
    requires same_len { length bytes.old.items ≡ length image.old.items }
    ensures at { (s : Medium) (shown : List ℕ) → IsAt pick s image.old.items bytes.old.items
        → IsAt pick (after s (deed_of given.now shown kind)) image.new.items bytes.new.items }
    ensures image_len { length image.new.items ≡ length image.old.items }
    ensures bytes_len { length bytes.new.items ≡ length bytes.old.items }
{
    redo(given, kind, pick, image, bytes);
}

impl History {
    ghost use Rattle.lis_memdisk.specs.Seen.{Seen, Passed, Did, IsNext, IsNextShow, cost_of, show_cost_of, is_full, now_of, first_seen};
    ghost use Rattle.lis_memdisk.specs.Changes.{state_at, fresh, clock_at};
    ghost use Rattle.lis_memdisk.specs.Changes.Deed.{Writes, Syncs, Shows};
    ghost use Rattle.lis_memdisk.specs.History.{seen_of};

    /// With room 0 no record is kept, and `PLAIN_ROOM` bytes may be shown.
    pub fn new(alloc: Global, bytes: &[u8], room: u64) -> Result<Self, AllocError>
        ensures { IfOk result (λ h. seen_of h ≡ first_seen bytes.now room) }
    {
        let is_kept = room > 0;
        let left = if is_kept { room as usize } else { PLAIN_ROOM };
        let record = if is_kept { left } else { 0 };
        Ok(History {
            start: bytes.to_vec(alloc)?,
            bytes: bytes.to_vec(alloc)?,
            shown: Vec::with_capacity(alloc, left)?,
            given: Vec::with_capacity(alloc, record)?,
            events: Vec::with_capacity(alloc, record / EVENT_LEN)?,
            is_kept,
            left,
            calls: 0,
            shows: 0,
        })
    }

    /// A disk call that changes only the counts of calls.
    pub fn pass(&mut self)
        ensures passed { Passed (seen_of self.old) (seen_of self.new) }
        ensures counted { IsNext (seen_of self.old) (seen_of self.new) }
    {
        self.calls = self.calls.saturating_add(1);
    }

    /// A call that shows, and that changes only the counts of calls.
    pub fn pass_show(&mut self)
        ensures passed { Passed (seen_of self.old) (seen_of self.new) }
        ensures counted { IsNextShow (seen_of self.old) (seen_of self.new) }
    {
        self.shows = self.shows.saturating_add(1);
    }

    // The room that an event with `len` bytes takes.
    fn cost(&self, len: usize) -> usize
        requires { 48 + len < 2 ^ 64 }
        ensures { result ≡ cost_of self.now.is_kept len }
    {
        if self.is_kept { EVENT_LEN + len } else { 0 }
    }

    fn is_full(&self, count: u64, cost: usize) -> bool
        ensures { result ≡ is_full self.now.is_kept self.now.left count cost }
    {
        self.left < cost || (self.is_kept && count == u64::MAX)
    }

    pub fn write(&mut self, place: usize, bytes: &[u8]) -> Result<(), Failed>
        requires { place + length bytes.now ≤ length (seen_of self.old).bytes }
        ensures did { OnOk result (Did (seen_of self.old) (seen_of self.new) (Writes place bytes.now) (cost_of self.old.is_kept (length bytes.now))) }
        ensures passed { OnErr result (Passed (seen_of self.old) (seen_of self.new)) }
        ensures counted { IsNext (seen_of self.old) (seen_of self.new) }
        ensures full { IsErr result ↔ IsTrue (is_full self.old.is_kept self.old.left self.old.calls (cost_of self.old.is_kept (length bytes.now))) }
    {
        let cost = self.cost(bytes.len());
        if self.is_full(self.calls, cost) {
            self.pass();
            return Err(Failed);
        }
        if self.is_kept {
            self.note_write(place, bytes);
        } else {
            self.pass();
            overwrite_vec(&mut self.bytes, place, bytes);
        }
        Ok(())
    }

    fn note_write(&mut self, place: usize, bytes: &[u8])
        requires kept { IsTrue self.old.is_kept }
        requires within { place + length bytes.now ≤ length (seen_of self.old).bytes }
        requires room { 48 + length bytes.now ≤ self.old.left }
        requires counts { self.old.calls < 2 ^ 64 - 1 }
        ensures did { Did (seen_of self.old) (seen_of self.new) (Writes place bytes.now) (48 + length bytes.now) }
        ensures counted { IsNext (seen_of self.old) (seen_of self.new) }
    {
        let span = Span {
            from: self.given.len(),
            len: bytes.len(),
        };
        self.calls += 1;
        let event = Event {
            calls: self.calls,
            shows: self.shows,
            kind: Kind::Write(place, span),
        };
        note(&mut self.events, event);
        keep(&mut self.given, bytes);
        overwrite_vec(&mut self.bytes, place, bytes);
        self.left -= EVENT_LEN + bytes.len();
    }

    /// Shows a whole piece. It fails exactly if there is no room for the piece.
    pub fn show(&mut self, piece: &[u8]) -> Result<(), Failed>
        requires { length piece.now < 2 ^ 63 }
        ensures did { OnOk result (Did (seen_of self.old) (seen_of self.new) (Shows piece.now) (show_cost_of self.old.is_kept (length piece.now))) }
        ensures passed { OnErr result (Passed (seen_of self.old) (seen_of self.new)) }
        ensures counted { IsNextShow (seen_of self.old) (seen_of self.new) }
        ensures full { IsErr result ↔ IsTrue (is_full self.old.is_kept self.old.left self.old.shows (show_cost_of self.old.is_kept (length piece.now))) }
    {
        let cost = if self.is_kept {
            EVENT_LEN + piece.len()
        } else {
            piece.len()
        };
        if self.is_full(self.shows, cost) {
            self.pass_show();
            return Err(Failed);
        }
        if self.is_kept {
            self.note_show(piece);
        } else {
            self.show_plain(piece);
        }
        Ok(())
    }

    fn note_show(&mut self, piece: &[u8])
        requires kept { IsTrue self.old.is_kept }
        requires room { 48 + length piece.now ≤ self.old.left }
        requires counts { self.old.shows < 2 ^ 64 - 1 }
        ensures did { Did (seen_of self.old) (seen_of self.new) (Shows piece.now) (48 + length piece.now) }
        ensures counted { IsNextShow (seen_of self.old) (seen_of self.new) }
    {
        let span = Span {
            from: self.shown.len(),
            len: piece.len(),
        };
        self.shows += 1;
        let event = Event {
            calls: self.calls,
            shows: self.shows,
            kind: Kind::Show(span),
        };
        note(&mut self.events, event);
        keep(&mut self.shown, piece);
        self.left -= EVENT_LEN + piece.len();
    }

    fn show_plain(&mut self, piece: &[u8])
        requires plain { self.old.is_kept ≡ false }
        requires room { length piece.now ≤ self.old.left }
        ensures did { Did (seen_of self.old) (seen_of self.new) (Shows piece.now) (length piece.now) }
        ensures counted { IsNextShow (seen_of self.old) (seen_of self.new) }
    {
        self.shows = self.shows.saturating_add(1);
        keep(&mut self.shown, piece);
        self.left -= piece.len();
    }

    pub fn sync(&mut self) -> Result<(), Failed>
        ensures did { OnOk result (Did (seen_of self.old) (seen_of self.new) Syncs (cost_of self.old.is_kept 0)) }
        ensures passed { OnErr result (Passed (seen_of self.old) (seen_of self.new)) }
        ensures counted { IsNext (seen_of self.old) (seen_of self.new) }
        ensures full { IsErr result ↔ IsTrue (is_full self.old.is_kept self.old.left self.old.calls (cost_of self.old.is_kept 0)) }
    {
        let cost = self.cost(0);
        if self.is_full(self.calls, cost) {
            self.pass();
            return Err(Failed);
        }
        if self.is_kept {
            self.note_sync();
        } else {
            self.pass();
        }
        Ok(())
    }

    fn note_sync(&mut self)
        requires kept { IsTrue self.old.is_kept }
        requires room { 48 ≤ self.old.left }
        requires counts { self.old.calls < 2 ^ 64 - 1 }
        ensures did { Did (seen_of self.old) (seen_of self.new) Syncs 48 }
        ensures counted { IsNext (seen_of self.old) (seen_of self.new) }
    {
        self.calls += 1;
        let event = Event {
            calls: self.calls,
            shows: self.shows,
            kind: Kind::Sync,
        };
        note(&mut self.events, event);
        self.left -= EVENT_LEN;
    }

    /// The image that a pick gives of the moment just after a disk call.
    pub fn crash(&self, alloc: Global, call: u64, pick: u8) -> Result<Vec<u8>, AllocError>
        requires { IsTrue self.now.is_kept }
        ensures { IfOk result (λ v. let s = state_at (fresh (seen_of self.now).start) call (seen_of self.now).changes in
            v.items ≡ crashed pick s.unsynced s.synced) }
    {
        let mut image = self.start.to_vec(alloc)?;
        let mut bytes = self.start.to_vec(alloc)?;
        for event in &self.events {
            if !event.had_happened(call) {
                return Ok(image);
            }
            redo_vec(&self.given, event.kind, pick, &mut image, &mut bytes);
        }
        Ok(image)
    }

    /// How many bytes had been shown when a disk call returned.
    pub fn shown_at(&self, call: u64) -> u64
        requires { IsTrue self.now.is_kept }
        ensures { result ≡ length (state_at (fresh (seen_of self.now).start) call (seen_of self.now).changes).shown }
    {
        let mut count = 0;
        for event in &self.events {
            if !event.had_happened(call) {
                return count;
            }
            count += event.kind.shown_len() as u64;
        }
        count
    }

    pub fn len(&self) -> u64
        ensures { result ≡ length (seen_of self.now).bytes }
    {
        self.bytes.len() as u64
    }

    /// Reads, which counts as a call.
    pub fn read(&mut self, place: usize, buf: &mut [u8])
        requires { place + length buf.old ≤ length (seen_of self.old).bytes }
        ensures passed { Passed (seen_of self.old) (seen_of self.new) }
        ensures counted { IsNext (seen_of self.old) (seen_of self.new) }
        ensures read { buf.new ≡ part place (length buf.old) (seen_of self.old).bytes }
    {
        self.pass();
        let (_, behind) = self.bytes.split_at(place);
        let (range, _) = behind.split_at(buf.len());
        buf.copy_from_slice(range);
    }

    pub fn calls(&self) -> u64
        ensures { result ≡ (seen_of self.now).calls }
    {
        self.calls
    }

    pub fn shows(&self) -> u64
        ensures { result ≡ (seen_of self.now).shows }
    {
        self.shows
    }

    pub fn shown(&self) -> &[u8]
        ensures { result.now ≡ (seen_of self.now).shown }
    {
        &self.shown
    }
}
