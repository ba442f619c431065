//! What time it is.
ghost use Rattle.std.specs.Prelude.{ℕ, ◌≡◌, Option, Some, IfSome};

use std::marker::Model;

/// A clock.
pub trait Clock {
    /// The moment that the clock shows, if it reports it.
    ghost told: { Self → Option ℕ };

    /// The moment, in seconds since 1970-01-01T00:00:00Z.
    fn now(&self) -> u64
        ensures { IfSome (told self.now) (λ moment. result ≡ moment) };
}

/// A clock that does not advance, and reports its moment.
#[derive(Clone, Copy, Debug)]
pub struct FixedClock {
    seconds: u64,
}

impl Model for FixedClock {
    ghost Value = { ℕ };

    ghost view = { λ clock. clock.seconds };

    ghost inverse = { λ seconds. record { seconds = seconds } };
}

impl FixedClock {
    /// A clock that always shows this many seconds since 1970-01-01T00:00:00Z.
    pub fn new(seconds: u64) -> Self
        ensures { result ≡ seconds }
    {
        FixedClock { seconds }
    }
}

impl Clock for FixedClock {
    ghost told = { λ clock. Some clock };

    fn now(&self) -> u64 {
        self.seconds
    }
}
