//! Where random bytes come from.
ghost use Rattle.std.specs.Prelude.{ℕ, ◌≡◌, ◌↔◌, ◌+◌, ◌≤◌, false, List, Option, Some, None, length};
ghost use Rattle.std.specs.Prelude.{is_some, IsOk, OnOk, OnErr};
ghost use Rattle.fedi_outside.specs.Causes.{HasCause, next_count};
ghost use Rattle.fedi_outside.specs.Entropies.{FillConsumes};
ghost use Rattle.fedi_outside.specs.Plans.{is_to_fail, no_faults};

use crate::Failed;
use crate::plans::FaultPlan;
use std::alloc::Global;
use std::marker::Model;

/// Something that gives random bytes, from which keys are made.
pub trait Entropy {
    /// The bytes to come, if it reports them.
    ghost next: { Self → Option (List ℕ) };

    /// How many calls failed. The count saturates at 2^64 - 1.
    ghost faults: { Self → ℕ };

    /// Fills `into` with the next 32 bytes. After an error the bytes to come are as before, and
    /// `into` may hold any bytes.
    fn fill(&mut self, into: &mut [u8; 32]) -> Result<(), Failed>
        ensures bytes { FillConsumes (next self.old) (next self.new) result into.new }
        ensures told { is_some (next self.new) ≡ is_some (next self.old) }
        ensures cause { HasCause (faults self.old) (faults self.new) result };
}

/// An entropy that never fails, and gives the same 32 bytes in each call. What it gives has no end,
/// so it reports no bytes to come. Its count of faults is 0.
#[derive(Clone, Copy, Debug)]
pub struct CalmEntropy {
    bytes: [u8; 32],
}

impl Model for CalmEntropy {
    ghost use Rattle.std.specs.Prelude.{ℕ, List};

    ghost Value = { List ℕ };

    ghost view = { λ e. e.bytes };

    ghost inverse = { λ bytes. record { bytes = bytes } };
}

impl CalmEntropy {
    /// An entropy that gives these bytes.
    pub fn new(bytes: [u8; 32]) -> Self
        ensures { result ≡ bytes }
    {
        CalmEntropy { bytes }
    }
}

impl Entropy for CalmEntropy {
    ghost next = { λ _. None };

    ghost faults = { λ _. 0 };

    fn fill(&mut self, into: &mut [u8; 32]) -> Result<(), Failed>
        ensures ok { IsOk result }
        ensures bytes { into.new ≡ self.old }
        ensures same { self.new ≡ self.old }
    {
        *into = self.bytes;
        Ok(())
    }
}

/// An entropy over bytes in memory that can be made to fail. It reports its bytes and counts its
/// faults. If fewer than 32 bytes are left, a fill fails too.
#[derive(Drop)]
pub struct MemoryEntropy {
    bytes: Vec<u8>,
    // How many of the bytes were given.
    position: usize,
    plan: FaultPlan,
}

impl Model for MemoryEntropy {
    ghost use Rattle.std.specs.Prelude.{◌≤◌, drop, length};
    ghost use Rattle.fedi_outside.specs.Entropies.{MemoryEntropyState};

    ghost Value = { MemoryEntropyState };

    ghost view = { λ e. record { next = drop e.position e.bytes.items; plan = e.plan } };

    ghost invariant = { λ e. e.position ≤ length e.bytes.items };
}

impl MemoryEntropy {
    /// An entropy that gives these bytes, and fails only once fewer than 32 are left.
    pub fn new(alloc: Global, bytes: Vec<u8>) -> Self
        ensures next { result.next ≡ bytes.items }
        ensures plan { result.plan ≡ no_faults }
    {
        MemoryEntropy {
            bytes,
            position: 0,
            plan: FaultPlan::new(alloc),
        }
    }

    /// The same entropy, except that the calls with these numbers, counted from 0, fail.
    pub fn failing(self, calls: Vec<u64>) -> Self
        ensures { result ≡ record self { plan = record self.plan { failing = calls.items } } }
    {
        let mut entropy = self;
        entropy.plan.set_failing(calls);
        entropy
    }
}

impl Entropy for MemoryEntropy {
    ghost next = { λ e. Some e.next };

    ghost faults = { λ e. e.plan.faults };

    fn fill(&mut self, into: &mut [u8; 32]) -> Result<(), Failed>
        ensures answer { IsOk result
            ↔ ((is_to_fail self.old.plan ≡ false) × (32 ≤ length self.old.next)) }
        ensures bytes { FillConsumes (Some self.old.next) (Some self.new.next) result into.new }
        ensures plan { self.new.plan ≡ record self.old.plan {
          calls = next_count self.old.plan.calls;
          faults = self.new.plan.faults;
        } }
        ensures cause { HasCause self.old.plan.faults self.new.plan.faults result }
    {
        if self.plan.next_fails() {
            return Err(Failed);
        }
        let Some((next, _)) = self.bytes[self.position..].split_first_chunk::<32>() else {
            self.plan.count_fault();
            return Err(Failed);
        };
        *into = *next;
        self.position += 32;
        Ok(())
    }
}
