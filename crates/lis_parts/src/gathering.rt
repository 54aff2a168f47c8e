//! An edited view, read to its end from a source before anything is judged.

ghost use Rattle.std.specs.Prelude.{◌≡◌, ◌+◌, ◌<◌, ◌≤◌, ◌↔◌, ℕ, List, [], Some, length, IfOk, IsTrue, true};
ghost use Rattle.lis_ports.specs.Calls.{HasCause};
ghost use Rattle.lis_parts.specs.Inside.{frame_bytes};
ghost use Rattle.lis_line.specs.Taking.{TakesFew, UsesSource};
ghost use Rattle.lis_parts.specs.Inside.{IsKept, TakesBehind, TakesMore};
ghost use Rattle.lis_parts.specs.Putting.{view_limit, Gathers};

use lis_limits::MAX_VIEW;
use lis_ports::{Failed, Source};
use lis_region::{Frame, Region};
use std::alloc::{AllocError, Global};
use std::marker::Model;

/// One byte more than an edited view may have, so that a longer one is noticed.
const ROOM: u32 = MAX_VIEW + 1;

/// The bytes of an edited view.
#[derive(Drop)]
pub struct Edited {
    region: Region<u8>,
    frame: Frame,
    len: usize,
}

impl Model for Edited {
    ghost use Rattle.std.specs.Prelude.{◌+◌, ◌≤◌, ℕ, List, take};
    ghost use Rattle.lis_parts.specs.Inside.{frame_bytes};
    ghost use Rattle.lis_parts.specs.Inside.{IsKept};
    ghost use Rattle.lis_parts.specs.Putting.{view_limit};

    ghost Value = { List ℕ };

    ghost view = { λ e. take e.len (frame_bytes e.region e.frame) };

    ghost invariant = { λ e. IsKept e.region e.frame × (e.len ≤ view_limit + 1) };
}

// Takes the next bytes of the source into the room after the first `len`, and returns how many.
fn take_behind<S: Source>(
    region: &mut Region<u8>,
    frame: &Frame,
    len: usize,
    source: &mut S,
) -> Result<usize, Failed>
    requires kept { IsKept region.old frame.now }
    requires room { len ≤ view_limit + 1 }
    ensures kept { IsKept region.new frame.now }
    ensures behind { TakesBehind (S.left source.old) (S.left source.new) (S.faults source.old) (S.faults source.new) (S.behind source.new) len
        (frame_bytes region.old frame.now) (frame_bytes region.new frame.now) result }
{
    source.take(&mut region.items_mut(frame)[len..])
}

impl Edited {
    /// No bytes. All memory that it will use is allocated here.
    pub fn new(alloc: Global) -> Result<Edited, AllocError>
        ensures { IfOk result (λ edited. edited ≡ []) }
    {
        let mut region = Region::new(alloc, 1, ROOM, 0)?;
        let Some(frame) = region.take() else {
            unreachable!()
        };
        Ok(Edited {
            region,
            frame,
            len: 0,
        })
    }

    /// The bytes.
    pub fn bytes(&self) -> &[u8]
        ensures { result.now ≡ self.now }
    {
        &self.region.items(&self.frame)[..self.len]
    }

    fn clear(&mut self)
        ensures { self.new ≡ [] }
    {
        self.len = 0;
    }

    fn has_room(&self) -> bool
        ensures room { IsTrue result ↔ (length self.now < view_limit + 1) }
        ensures few { length self.now ≤ view_limit + 1 }
    {
        self.len < ROOM as usize
    }

    // Takes the next bytes of the source and appends them, and returns how many.
    fn take_more<S: Source>(&mut self, source: &mut S) -> Result<usize, Failed>
        requires room { length self.old < view_limit + 1 }
        ensures more { TakesMore (S.left source.old) (S.left source.new) self.old self.new result }
        ensures few { length self.new ≤ view_limit + 1 }
        ensures cause { HasCause (S.faults source.old) (S.faults source.new) result }
        ensures began { S.behind source.new ≡ S.faults source.old }
    {
        let count = take_behind(&mut self.region, &self.frame, self.len, source)?;
        self.len += count;
        Ok(count)
    }

    /// Replaces its bytes by all bytes of the source, and returns whether these are all. If there are more than an edited view may have, it
    /// takes only one byte more than that.
    pub fn gather<S: Source>(&mut self, source: &mut S) -> Result<bool, Failed>
        ensures gathers { IfOk result (λ whole. (input : List ℕ) → S.left source.old ≡ Some input → Gathers input (S.left source.new) self.new whole) }
        ensures short { IfOk result (λ whole. whole ≡ true → length self.new ≤ view_limit) }
        ensures few { TakesFew view_limit (S.left source.old) (S.left source.new) }
        ensures source { UsesSource (S.faults source.old) (S.faults source.new) (S.behind source.old) (S.behind source.new) result }
    {
        self.clear();
        while self.has_room() {
            if self.take_more(source)? == 0 {
                return Ok(true);
            }
        }
        Ok(false)
    }
}
