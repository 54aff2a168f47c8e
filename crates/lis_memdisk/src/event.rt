//! What a record keeps of a call that changed something.

/// Some bytes of a longer list.
#[derive(Clone, Copy)]
pub struct Span {
    pub from: usize,
    pub len: usize,
}

#[derive(Clone, Copy)]
pub enum Kind {
    Write(usize, Span),
    Sync,
    Show(Span),
}

impl Kind {
    ghost use Rattle.std.specs.Prelude.{◌≡◌};
    ghost use Rattle.lis_memdisk.specs.Event.{shown_len};

    /// How many bytes the event showed.
    pub fn shown_len(self) -> usize
        ensures { result ≡ shown_len self }
    {
        match self {
            Kind::Show(span) => span.len,
            _ => 0,
        }
    }
}

/// A change, and how many disk calls and how many calls that show there were by then, its own call included.
#[derive(Clone, Copy)]
pub struct Event {
    pub calls: u64,
    pub shows: u64,
    pub kind: Kind,
}

/// How many bytes one event takes.
pub const EVENT_LEN: usize = 48;

const _: () = prove!(size_of::<Event>() == EVENT_LEN);

impl Event {
    ghost use Rattle.std.specs.Prelude.{◌≡◌, ℕ, List};
    ghost use Rattle.lis_memdisk.specs.Changes.{had_happened};
    ghost use Rattle.lis_memdisk.specs.Event.{change_of};

    /// Whether the event had happened when a disk call returned.
    pub fn had_happened(self, call: u64) -> bool
        ensures { (given shown : List ℕ) → result ≡ had_happened call (change_of given shown self) }
    {
        match self.kind {
            Kind::Write(_, _) => self.calls <= call,
            Kind::Sync => self.calls <= call,
            Kind::Show(_) => self.calls < call,
        }
    }
}
