//! When an object in memory is to fail.
ghost use Rattle.std.specs.Prelude.{◌≡◌};
ghost use Rattle.fedi_outside.specs.Plans.{after_call, is_to_fail, no_faults};

use std::alloc::Global;
use std::marker::Model;

/// Which calls of an object in memory fail, how many calls there were, and how many of them failed.
#[derive(Drop)]
pub(crate) struct FaultPlan {
    failing: Vec<u64>,
    calls: u64,
    faults: u64,
}

impl Model for FaultPlan {
    ghost use Rattle.fedi_outside.specs.Plans.{Plan};

    ghost Value = { Plan };

    ghost view = { λ p. record { failing = p.failing.items; calls = p.calls; faults = p.faults } };
}

impl FaultPlan {
    /// A plan in which no call fails.
    pub fn new(alloc: Global) -> Self
        ensures { result ≡ no_faults }
    {
        FaultPlan {
            failing: Vec::new(alloc),
            calls: 0,
            faults: 0,
        }
    }

    /// Makes the calls with these numbers fail, counted from 0, and no others.
    pub fn set_failing(&mut self, calls: Vec<u64>)
        ensures { self.new ≡ record self.old { failing = calls.items } }
    {
        self.failing = calls;
    }

    /// Counts a call, and returns whether it is to fail. If it is, its fault is counted too.
    pub fn next_fails(&mut self) -> bool
        ensures answer { result ≡ is_to_fail self.old }
        ensures after { self.new ≡ after_call self.old }
    {
        let fails = self.failing.contains(&self.calls);
        self.calls = self.calls.saturating_add(1);
        if fails {
            self.faults = self.faults.saturating_add(1);
        }
        fails
    }
}
