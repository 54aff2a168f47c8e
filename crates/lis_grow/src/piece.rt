//! The bytes of a line or two, put together in one buffer.

ghost use Rattle.std.specs.Prelude.{◌≡◌, ℕ, ◌+◌, ◌<◌, ◌≤◌, List, [], ◌++◌, length, ◌^◌};
ghost use Rattle.lis_model.specs.Replies.{two_digits};
ghost use Rattle.lis_grow.specs.Grow.{four_digits};

use arrayvec::ArrayVec;
use std::marker::Model;

/// At most 80 bytes.
#[derive(Drop)]
pub struct Piece {
    held: ArrayVec<u8, 80>,
}

impl Model for Piece {
    ghost use Rattle.std.specs.Prelude.{ℕ, List};

    ghost Value = { List ℕ };

    ghost view = { λ p. p.held.items };

    ghost inverse = { λ bytes. record { held = record { items = bytes } } };
}

impl Piece {
    pub fn new() -> Piece
        ensures { result ≡ [] }
    {
        Piece {
            held: ArrayVec::new(),
        }
    }

    pub fn put(&mut self, text: &[u8])
        requires { length self.old + length text.now ≤ 80 }
        ensures bytes { self.new ≡ self.old ++ text.now }
        ensures longer { length self.new ≡ length self.old + length text.now }
    {
        self.held.try_extend_from_slice(text).unwrap();
    }

    /// Appends a number of two digits.
    pub fn put_two(&mut self, n: u32)
        requires below { n < 10 ^ 2 }
        requires room { length self.old + 2 ≤ 80 }
        ensures bytes { self.new ≡ self.old ++ two_digits n }
        ensures longer { length self.new ≡ length self.old + 2 }
    {
        let tens = b'0' + (n / 10) as u8;
        let ones = b'0' + (n % 10) as u8;
        self.put(&[tens, ones]);
    }

    /// Appends a number of four digits.
    pub fn put_four(&mut self, n: u32)
        requires below { n < 10 ^ 4 }
        requires room { length self.old + 4 ≤ 80 }
        ensures bytes { self.new ≡ self.old ++ four_digits n }
        ensures longer { length self.new ≡ length self.old + 4 }
    {
        self.put_two(n / 100);
        self.put_two(n % 100);
    }

    pub fn bytes(&self) -> &[u8]
        ensures bytes { result.now ≡ self.now }
        ensures few { length result.now ≤ 80 }
    {
        self.held.as_slice()
    }
}
