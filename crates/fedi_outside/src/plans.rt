//! When an object in memory is to fail, and how many bytes one of its calls moves.
ghost use Rattle.std.specs.Prelude.{◌≡◌, ◌<◌, ◌≤◌, [], if◌then◌else◌, max, IsTrue};
ghost use Rattle.fedi_outside.specs.Causes.{next_count};
ghost use Rattle.fedi_outside.specs.Plans.{after_call, is_to_fail, moved, no_faults};

use std::alloc::Global;
use std::marker::Model;

/// Which calls of an object in memory fail, how many calls there were, and how many of them failed.
#[derive(Drop)]
pub(crate) struct FaultPlan {
    failing: Vec<u64>,
    calls: u64,
    faults: u64,
}

impl Model for FaultPlan {
    ghost use Rattle.fedi_outside.specs.Plans.{Plan};

    ghost Value = { Plan };

    ghost view = { λ p. record { failing = p.failing.items; calls = p.calls; faults = p.faults } };
}

impl FaultPlan {
    /// A plan in which no call fails.
    pub fn new(alloc: Global) -> Self
        ensures { result ≡ no_faults }
    {
        FaultPlan {
            failing: Vec::new(alloc),
            calls: 0,
            faults: 0,
        }
    }

    /// Makes the calls with these numbers fail, counted from 0, and no others.
    pub fn set_failing(&mut self, calls: Vec<u64>)
        ensures { self.new ≡ record self.old { failing = calls.items } }
    {
        self.failing = calls;
    }

    /// How many calls there were.
    pub fn calls(&self) -> u64
        ensures { result ≡ self.now.calls }
    {
        self.calls
    }

    /// Counts a call, and returns whether it is to fail. If it is, its fault is counted too.
    pub fn next_fails(&mut self) -> bool
        ensures answer { result ≡ is_to_fail self.old }
        ensures after { self.new ≡ after_call self.old }
    {
        let fails = self.failing.contains(&self.calls);
        self.calls = self.calls.saturating_add(1);
        if fails {
            self.count_fault();
        }
        fails
    }

    /// How many calls failed.
    pub fn faults(&self) -> u64
        ensures { result ≡ self.now.faults }
    {
        self.faults
    }

    /// Raises the count of faults to this one, if it is lower.
    pub fn raise_faults(&mut self, faults: u64)
        ensures { self.new ≡ record self.old { faults = max self.old.faults faults } }
    {
        self.faults = self.faults.max(faults);
    }

    /// Counts a fault.
    pub fn count_fault(&mut self)
        ensures { self.new ≡ record self.old { faults = next_count self.old.faults } }
    {
        self.faults = self.faults.saturating_add(1);
    }
}

/// How many bytes one call moves if there is room for this many. A limit of 0 counts as 1.
pub(crate) fn allowed(limit: Option<usize>, room: usize) -> usize
    ensures value { result ≡ moved limit room }
    ensures within { result ≤ room }
    ensures some { 0 < room → 0 < result }
{
    match limit {
        Some(limit) => limit.max(1).min(room),
        None => room,
    }
}
