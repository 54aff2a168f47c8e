//! Bytes from a source, one by one or in runs, whatever pieces the source gives; and lines from bytes.

ghost use Rattle.std.specs.Prelude.{◌≡◌, ◌+◌, ◌-◌, ◌<◌, ◌≤◌, [], ◌∷◌, ◌↔◌, length, take, drop, IsTrue};
ghost use Rattle.lis_line.specs.Stock.{Stocked, GivesByte, Refills, Meets, ReadsLine};
ghost use Rattle.lis_line.specs.Taking.{UsesSource};
ghost use Rattle.lis_words.specs.Bytes.{is_feed};

use arrayvec::ArrayVec;
use lis_limits::MAX_LINE;
use lis_ports::{Failed, Source};
use std::marker::Model;

/// How many bytes are taken from a source in one call.
const PIECE: usize = 65_536;

/// How many bytes of a line are kept: one more than a line may have.
pub const KEPT: usize = MAX_LINE + 1;

/// Bytes taken from a source and not yet given, and how many may still be given.
#[derive(Drop)]
pub struct Stock {
    buf: [u8; PIECE],
    start: usize,
    end: usize,
    rest: u64,
}

impl Model for Stock {
    ghost use Rattle.std.specs.Prelude.{◌-◌, ◌≤◌, take, drop};
    ghost use Rattle.lis_line.specs.Stock.{Stocked};

    ghost Value = { Stocked };

    ghost view = { λ s. record { ahead = take (s.end - s.start) (drop s.start s.buf); rest = s.rest } };

    ghost use Rattle.lis_line.specs.declared.stock.TheConstants.{PIECE};

    ghost invariant = { λ s. (s.start ≤ s.end) × (s.end ≤ PIECE) × (s.end - s.start ≤ s.rest) };
}

/// What ended a line.
pub enum LineEnd {
    /// Its line feed.
    Feed,
    /// The end of the input.
    Last,
    /// The byte past the limit.
    Spent,
}

impl Stock {
    /// Nothing taken yet; `rest` bytes may be given.
    pub fn new(rest: u64) -> Stock
        ensures ahead { result.ahead ≡ [] }
        ensures rest { result.rest ≡ rest }
    {
        Stock {
            buf: [0; PIECE],
            start: 0,
            end: 0,
            rest,
        }
    }

    /// How many bytes may still be given.
    pub fn rest(&self) -> u64
        ensures rest { result ≡ self.now.rest }
        ensures few { length self.now.ahead ≤ self.now.rest }
    {
        self.rest
    }

    fn is_empty(&self) -> bool
        ensures { IsTrue result ↔ (self.now.ahead ≡ []) }
    {
        self.start == self.end
    }

    /// Takes no more from the source than may be given.
    fn refill<S: Source>(&mut self, source: &mut S) -> Result<(), Failed>
        requires { 0 < self.old.rest }
        ensures refills { Refills self.old self.new (S.left source.old) (S.left source.new) result }
        ensures source { UsesSource (S.faults source.old) (S.faults source.new) (S.behind source.old) (S.behind source.new) result }
    {
        let room = self.rest.min(PIECE as u64) as usize;
        self.start = 0;
        self.end = 0;
        self.end = source.take(&mut self.buf[..room])?;
        Ok(())
    }

    fn give(&mut self) -> u8
        requires { 0 < length self.old.ahead }
        ensures byte { self.old.ahead ≡ result ∷ self.new.ahead }
        ensures rest { self.new.rest + 1 ≡ self.old.rest }
    {
        let byte = self.buf[self.start];
        self.start += 1;
        self.rest -= 1;
        byte
    }

    /// Takes bytes from the source if none are ahead. The result is false at the end.
    pub fn meet<S: Source>(&mut self, source: &mut S) -> Result<bool, Failed>
        requires { 0 < self.old.rest }
        ensures meets { Meets self.old self.new (S.left source.old) (S.left source.new) result }
        ensures source { UsesSource (S.faults source.old) (S.faults source.new) (S.behind source.old) (S.behind source.new) result }
    {
        if !self.is_empty() {
            return Ok(true);
        }
        self.refill(source)?;
        if self.is_empty() {
            return Ok(false);
        }
        Ok(true)
    }

    /// The bytes that were taken and not given.
    pub fn ahead(&self) -> &[u8]
        ensures ahead { result.now ≡ self.now.ahead }
        ensures few { length result.now ≤ self.now.rest }
    {
        &self.buf[self.start..self.end]
    }

    /// Gives this many of the bytes that are ahead.
    pub fn skip(&mut self, count: usize)
        requires { count ≤ length self.old.ahead }
        ensures ahead { self.new.ahead ≡ drop count self.old.ahead }
        ensures rest { count + self.new.rest ≡ self.old.rest }
    {
        self.start += count;
        self.rest -= count as u64;
    }

    /// Gives the next byte; `None` at the end.
    pub fn next_byte<S: Source>(&mut self, source: &mut S) -> Result<Option<u8>, Failed>
        requires { 0 < self.old.rest }
        ensures gives { GivesByte self.old self.new (S.left source.old) (S.left source.new) result }
        ensures source { UsesSource (S.faults source.old) (S.faults source.new) (S.behind source.old) (S.behind source.new) result }
    {
        if !self.meet(source)? {
            return Ok(None);
        }
        let byte = self.give();
        Ok(Some(byte))
    }
}

pub fn is_feed(byte: u8) -> bool
    ensures { result ≡ is_feed byte }
{
    byte == b'\n'
}

/// Reads up to the next line feed, and keeps the first bytes of the line.
pub fn read_line<S: Source>(
    stock: &mut Stock,
    line: &mut ArrayVec<u8, KEPT>,
    source: &mut S,
) -> Result<LineEnd, Failed>
    requires some { 0 < stock.old.rest }
    requires empty { line.old.items ≡ [] }
    ensures few { length stock.new.ahead ≤ stock.new.rest }
    ensures reads { ReadsLine stock.old stock.new (S.left source.old) (S.left source.new) line.new.items result }
    ensures source { UsesSource (S.faults source.old) (S.faults source.new) (S.behind source.old) (S.behind source.new) result }
{
    loop {
        let Some(byte) = stock.next_byte(source)? else {
            return Ok(LineEnd::Last);
        };
        if stock.rest() == 0 {
            return Ok(LineEnd::Spent);
        }
        if is_feed(byte) {
            return Ok(LineEnd::Feed);
        }
        if line.len() < KEPT {
            line.push(byte);
        }
    }
}
