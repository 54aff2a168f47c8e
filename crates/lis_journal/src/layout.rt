//! How an image is divided: the gates, the records, and the home blocks after them.

ghost use Rattle.std.specs.Prelude.{◌≡◌, ◌+◌, ◌^◌, ◌<◌};
ghost use Rattle.lis_journal.specs.Record.{homes_start};

/// How many blocks an image has for records, from block 2 on, and how many in all. The blocks after the records are home blocks.
#[derive(Clone, Copy)]
pub struct Layout {
    pub records: u32,
    pub blocks: u32,
}

/// How many blocks can be staged, and how many placed, before a commit.
#[derive(Clone, Copy)]
pub struct Capacity {
    pub staged: u32,
    pub placed: u32,
}

impl Layout {
    /// The first home block.
    pub fn homes_start(self) -> u32
        requires { self.records + 2 < 2 ^ 32 }
        ensures { result ≡ homes_start self }
    {
        self.records + 2
    }
}
