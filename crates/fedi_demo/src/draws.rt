//! The numbers that determine a demonstration.

ghost use Rattle.std.specs.Prelude.{◌≡◌, ◌<◌};
ghost use Rattle.fedi_demo.specs.Draws.{after_four, drawn, four_drawn, next_state};

use std::marker::Model;

/// A linear congruential generator, which gives the upper bits of its state. Two with the same
/// start give the same numbers.
#[derive(Drop)]
pub struct Draws {
    state: u64,
}

impl Model for Draws {
    ghost use Rattle.std.specs.Prelude.{ℕ, ◌<◌, ◌^◌};

    ghost Value = { ℕ };

    ghost view = { λ draws. draws.state };

    ghost invariant = { λ draws. draws.state < 2 ^ 31 };
}

/// Four numbers, each below 32,768.
#[derive(Clone, Copy)]
pub struct Four {
    pub a: u64,
    pub b: u64,
    pub c: u64,
    pub d: u64,
}

impl Draws {
    /// A generator that starts from this number.
    pub fn new(start: u16) -> Draws
        ensures { result ≡ start }
    {
        Draws {
            state: u64::from(start),
        }
    }

    /// The next number.
    pub fn next(&mut self) -> u64
        ensures drawn { result ≡ drawn self.old }
        ensures state { self.new ≡ next_state self.old }
        ensures small { result < 32_768 }
    {
        self.state = (1_103_515_245 * self.state + 12_345) % (1 << 31);
        self.state / 65_536
    }

    /// The next four numbers.
    pub fn next_four(&mut self) -> Four
        ensures drawn { result ≡ four_drawn self.old }
        ensures state { self.new ≡ after_four self.old }
    {
        let a = self.next();
        let b = self.next();
        let c = self.next();
        let d = self.next();
        Four { a, b, c, d }
    }
}
