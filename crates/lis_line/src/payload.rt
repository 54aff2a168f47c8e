//! The payload after a command's line.

ghost use Rattle.std.specs.Prelude.{◌≡◌, ◌+◌, ◌<◌, ◌≤◌, ◌^◌, [], length, IfOk};
ghost use Rattle.lis_model.specs.Step.{no_payload};
ghost use Rattle.lis_model.specs.Script.{payload_limit};
ghost use Rattle.lis_line.specs.Taking.{UsesSource};
ghost use Rattle.lis_line.specs.Segments.{with_bytes, TakesRun, Fills};

use crate::stock::Stock;
use lis_limits::MAX_PAYLOAD;
use lis_ports::{Failed, Source};
use std::alloc::{AllocError, Global};
use std::marker::Model;

/// The payload after a line: how many bytes it has, and the bytes themselves, if this many are kept.
#[derive(Drop)]
pub struct Payload {
    // All bytes, as long as this many are kept. The room for them is reserved, and touched only as far as there have been bytes.
    bytes: Vec<u8>,
    size: u64,
}

impl Model for Payload {
    ghost use Rattle.std.specs.Prelude.{vec_capacity};
    ghost use Rattle.lis_model.specs.Step.{Payload as Told};
    ghost use Rattle.lis_model.specs.Script.{payload_of};
    ghost use Rattle.lis_line.specs.Inside.{IsKept};

    ghost Value = { Told };

    ghost view = { λ p. payload_of p.size p.bytes.items };

    ghost invariant = { λ p. IsKept p.bytes.items (vec_capacity p.bytes) p.size };
}

impl Payload {
    /// An empty payload. All memory that it will use is allocated here.
    pub fn new(alloc: Global) -> Result<Payload, AllocError>
        ensures { IfOk result (λ payload. payload ≡ no_payload) }
    {
        Ok(Payload {
            bytes: Vec::with_capacity(alloc, MAX_PAYLOAD as usize)?,
            size: 0,
        })
    }

    /// How many bytes it has.
    pub fn size(&self) -> u64
        ensures { result ≡ self.now.size }
    {
        self.size
    }

    /// The bytes themselves; no bytes if there are more than are kept.
    pub fn bytes(&self) -> &[u8]
        ensures bytes { result.now ≡ self.now.bytes }
        ensures few { length result.now ≤ payload_limit }
        ensures all { self.now.size ≤ payload_limit → length result.now ≡ self.now.size }
        ensures none { payload_limit < self.now.size → result.now ≡ [] }
    {
        if self.size > MAX_PAYLOAD as u64 {
            return &[];
        }
        &self.bytes
    }

    /// Empties it.
    pub fn clear(&mut self)
        ensures { self.new ≡ no_payload }
    {
        self.bytes.clear();
        self.size = 0;
    }

    /// Appends the bytes.
    pub fn append(&mut self, bytes: &[u8])
        requires { self.old.size + length bytes.now < 2 ^ 64 }
        ensures { self.new ≡ with_bytes self.old bytes.now }
    {
        let size = self.size + bytes.len() as u64;
        if size <= MAX_PAYLOAD as u64 {
            let Ok(()) = self.bytes.extend_from_slice(bytes) else {
                unreachable!()
            };
        }
        self.size = size;
    }
}

/// How taking a number of bytes ended.
pub enum Filled {
    /// All of them were taken.
    All,
    /// The input ended.
    Cut,
    /// The byte past the limit was taken.
    Spent,
}

// Takes a run of at most `most` bytes and appends it to the payload. The result is false at the end of the input.
fn take_run<S: Source>(
    stock: &mut Stock,
    payload: &mut Payload,
    most: u64,
    source: &mut S,
) -> Result<bool, Failed>
    requires some { 0 < stock.old.rest }
    requires any { 0 < most }
    requires room { payload.old.size + most < 2 ^ 64 }
    ensures few { length stock.new.ahead ≤ stock.new.rest }
    ensures takes { TakesRun stock.old stock.new (S.left source.old) (S.left source.new) most payload.old payload.new result }
    ensures source { UsesSource (S.faults source.old) (S.faults source.new) (S.behind source.old) (S.behind source.new) result }
{
    if !stock.meet(source)? {
        return Ok(false);
    }
    let ahead = stock.ahead();
    let count = (ahead.len() as u64).min(most) as usize;
    payload.append(&ahead[..count]);
    stock.skip(count);
    Ok(true)
}

/// Takes this many bytes as the payload.
pub fn fill<S: Source>(
    stock: &mut Stock,
    payload: &mut Payload,
    size: u64,
    source: &mut S,
) -> Result<Filled, Failed>
    requires some { 0 < stock.old.rest }
    requires few { length stock.old.ahead ≤ stock.old.rest }
    ensures few { length stock.new.ahead ≤ stock.new.rest }
    ensures fills { Fills stock.old stock.new (S.left source.old) (S.left source.new) size payload.new result }
    ensures source { UsesSource (S.faults source.old) (S.faults source.new) (S.behind source.old) (S.behind source.new) result }
{
    payload.clear();
    while payload.size() < size {
        if !take_run(stock, payload, size - payload.size(), source)? {
            return Ok(Filled::Cut);
        }
        if stock.rest() == 0 {
            return Ok(Filled::Spent);
        }
    }
    Ok(Filled::All)
}
