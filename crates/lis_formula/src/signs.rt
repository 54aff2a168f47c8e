//! The signs of a formula text that wait for an operand.

ghost use Rattle.std.specs.Prelude.{◌≡◌, ◌<◌, if◌then◌else◌, [], ◌∷◌, length};
ghost use Rattle.lis_formula.specs.Signs.{same_sign, is_top, without_top, is_none_left};

use arrayvec::ArrayVec;
use lis_limits::MAX_FORMULA;
use std::marker::Model;

/// A sign that waits for an operand after it.
#[derive(Clone, Copy, Debug)]
pub enum Sign {
    Mark,
    Paren,
    Bar,
    Slash,
}

impl Default for Sign {
    ghost use Rattle.lis_formula.specs.declared.signs.Sign.TheVariants.{Mark};

    ghost is_default = { λ sign. sign ≡ Mark };

    fn default() -> Self {
        Sign::Mark
    }
}

fn same_sign(first: Sign, second: Sign) -> bool
    ensures { result ≡ same_sign first second }
{
    match first {
        Sign::Mark => matches!(second, Sign::Mark),
        Sign::Paren => matches!(second, Sign::Paren),
        Sign::Bar => matches!(second, Sign::Bar),
        Sign::Slash => matches!(second, Sign::Slash),
    }
}

/// A stack of signs, seen as the list of them, the last first.
#[derive(Drop)]
pub struct Signs {
    held: ArrayVec<Sign, MAX_FORMULA>,
}

impl Model for Signs {
    ghost use Rattle.std.specs.Prelude.{List, reverse};
    ghost use Rattle.lis_formula.specs.declared.signs.Sign.{Sign};

    ghost Value = { List Sign };

    ghost view = { λ s. reverse s.held.items };
}

impl Signs {
    pub fn new() -> Signs
        ensures { result ≡ [] }
    {
        Signs {
            held: ArrayVec::new(),
        }
    }

    pub fn is_empty(&self) -> bool
        ensures { result ≡ is_none_left self.now }
    {
        self.held.is_empty()
    }

    pub fn push(&mut self, sign: Sign)
        requires { length self.old < MAX_FORMULA }
        ensures { self.new ≡ sign ∷ self.old }
    {
        self.held.push(sign);
    }

    /// Removes the last sign if it is this one.
    pub fn pop_if(&mut self, sign: Sign) -> bool
        ensures top { result ≡ is_top sign self.old }
        ensures rest { self.new ≡ (if result then without_top self.old else self.old) }
    {
        match self.held.as_slice() {
            [.., last] if same_sign(*last, sign) => {}
            _ => return false,
        }
        self.held.pop();
        true
    }
}
