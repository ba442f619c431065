//! A keeper in memory that may be made to fail.
ghost use Rattle.std.specs.Prelude.{◌≡◌, ◌↔◌, ◌+◌, ◌^◌, ◌<◌, ◌≤◌, max, not, [], ◌∷◌, ◌++◌, length};
ghost use Rattle.std.specs.Prelude.{is_ok, Some, None, IsTrue, IfOk, IfSome, OnOk, OnErr, IsErrOf};
ghost use Rattle.fedi_outside.specs.Keepers.{Finds, after_load};
ghost use Rattle.fedi_outside.specs.MemoryKeepers.{no_crashes, no_records, shown_with};
ghost use Rattle.fedi_outside.specs.Plans.{after_call, is_to_fail, no_faults};
ghost use Rattle.std.proofs.Common.{refl, ◌∙◌};

use crate::Failed;
use crate::calm_keepers::{CalmKeeper, Record};
use crate::keepers::{Keeper, LoadFault, ReserveFault};
use crate::plans::FaultPlan;
use std::alloc::Global;
use std::marker::Model;

/// A keeper in memory that can be made to fail. It reports its records and counts its faults. Only
/// `reserve` and `load` allocate memory. A failed append leaves its record in doubt.
#[derive(Drop)]
pub struct MemoryKeeper {
    keeper: CalmKeeper,
    plan: FaultPlan,
}

impl Model for MemoryKeeper {
    ghost use Rattle.fedi_outside.specs.MemoryKeepers.{MemoryKeeperState};

    ghost Value = { MemoryKeeperState };

    ghost view = { λ k. record { keeper = k.keeper; plan = k.plan } };
}

impl MemoryKeeper {
    /// A keeper with no records, whose end is 0. It does not fail.
    pub fn new(alloc: Global) -> Self
        ensures keeper { result.keeper ≡ no_records 0 }
        ensures plan { result.plan ≡ no_faults }
    {
        MemoryKeeper::at(alloc, 0)
    }

    /// A keeper with no records and this end. It does not fail.
    pub fn at(alloc: Global, end: u64) -> Self
        ensures keeper { result.keeper ≡ no_records end }
        ensures plan { result.plan ≡ no_faults }
    {
        MemoryKeeper {
            keeper: CalmKeeper::at(alloc, end),
            plan: FaultPlan::new(alloc),
        }
    }

    /// The same keeper, except that the calls with these numbers fail. All calls of `load`,
    /// `settle` and `append` are counted, from 0.
    pub fn failing(self, calls: Vec<u64>) -> Self
        ensures { result ≡ record self { plan = record self.plan { failing = calls.items } } }
    {
        let mut keeper = self;
        keeper.plan.set_failing(calls);
        keeper
    }

    /// The records.
    pub fn records(&self) -> &[Record]
        ensures { result.now ≡ self.now.keeper.records }
    {
        self.keeper.records()
    }

    /// Counts a call, and returns whether it is to fail. If it is, its fault is counted too.
    pub(crate) fn next_fails(&mut self) -> bool
        ensures answer { result ≡ is_to_fail self.old.plan }
        ensures after { self.new ≡ record self.old { plan = after_call self.old.plan } }
    {
        self.plan.next_fails()
    }

    /// How many calls failed.
    pub(crate) fn faults(&self) -> u64
        ensures { result ≡ self.now.plan.faults }
    {
        self.plan.faults()
    }

    /// Raises the count of faults to this one, if it is lower.
    pub(crate) fn raise_faults(&mut self, faults: u64)
        ensures { self.new ≡ record self.old {
          plan = record self.old.plan { faults = max self.old.plan.faults faults };
        } }
    {
        self.plan.raise_faults(faults);
    }

    /// Drops the record in doubt. It is no call, and does not fail.
    pub(crate) fn forget_doubt(&mut self)
        ensures { self.new ≡ record self.old {
          keeper = record self.old.keeper { doubt = None };
        } }
    {
        let _ = self.keeper.settle();
    }

    /// Takes a copy of each record of another keeper in place of its own. `Failed` if the other
    /// failed, and `Memory`. The other is only read. After an error all is as before.
    pub(crate) fn copy_records<P: Keeper>(
        &mut self,
        alloc: Global,
        from: &mut P,
    ) -> Result<(), LoadFault>
        ensures records { OnOk result (IfSome (P.shown from.old).records
            (λ records. self.new.keeper.records ≡ records)) }
        ensures settled { OnOk result (self.new.keeper.doubt ≡ None) }
        ensures plan { self.new.plan ≡ self.old.plan }
        ensures err { OnErr result (self.new ≡ self.old) }
        ensures source { P.shown from.new ≡ after_load result (P.shown from.old) }
        ensures outside { P.only_read from.old from.new }
    {
        self.keeper = CalmKeeper::copy_of(alloc, from)?;
        Ok(())
    }
}

impl Keeper for MemoryKeeper {
    ghost shown = { λ k. shown_with k.plan.faults k.keeper };

    ghost crashes = { λ _. no_crashes };

    ghost growth = { λ length. 9 + length };

    ghost room = { λ length. 10 + length };

    ghost only_read = { λ before after. after.keeper.records ≡ before.keeper.records };

    ghost crash_now = { λ _. tt };

    ghost read_none = { λ _. refl };

    ghost read_both = { λ _ _ _ one two. two ∙ one };

    ghost told_held = { λ _. refl };

    fn count(&self) -> u64
        ensures { result ≡ length self.now.keeper.records }
    {
        self.keeper.count()
    }

    fn load(&mut self, alloc: Global, place: u64) -> Result<Option<Vec<u8>>, LoadFault>
        ensures failed { IsErrOf result LoadFault.Failed ↔ IsTrue (is_to_fail self.old.plan) }
        ensures held { IsErrOf result LoadFault.Memory → place < length self.old.keeper.records }
        ensures found { IfOk result (Finds self.old.keeper.records place) }
        ensures after { self.new ≡ record self.old { plan = after_call self.old.plan } }
    {
        if self.plan.next_fails() {
            return Err(LoadFault::Failed);
        }
        self.keeper.load(alloc, place)
    }

    fn reserve(&mut self, length: usize) -> Result<(), ReserveFault>
        ensures full { IsErrOf result ReserveFault.Full
            ↔ (2 ^ 62 < self.old.keeper.end + (10 + length)) }
        ensures spared { IsErrOf result ReserveFault.Memory → self.old.keeper.spare ≤ length }
        ensures plan { self.new.plan ≡ self.old.plan }
        ensures ok { OnOk result (self.new.keeper
            ≡ record self.old.keeper { spare = max self.old.keeper.spare (length + 1) }) }
        ensures err { OnErr result (self.new.keeper ≡ self.old.keeper) }
    {
        self.keeper.reserve(length)
    }

    fn settle(&mut self) -> Result<(), Failed>
        ensures answer { is_ok result ≡ not (is_to_fail self.old.plan) }
        ensures plan { self.new.plan ≡ after_call self.old.plan }
        ensures ok { OnOk result (self.new.keeper ≡ record self.old.keeper { doubt = None }) }
        ensures err { OnErr result (self.new.keeper ≡ self.old.keeper) }
    {
        if self.plan.next_fails() {
            return Err(Failed);
        }
        self.keeper.settle()
    }

    fn append(&mut self, payload: &[u8]) -> Result<(), Failed>
        requires settled { self.old.keeper.doubt ≡ None }
        requires spare { length payload.now < self.old.keeper.spare }
        requires room { self.old.keeper.end + (10 + length payload.now) ≤ 2 ^ 62 }
        ensures answer { is_ok result ≡ not (is_to_fail self.old.plan) }
        ensures plan { self.new.plan ≡ after_call self.old.plan }
        ensures ok { OnOk result (self.new.keeper ≡ record {
          records = self.old.keeper.records ++ payload.now ∷ [];
          doubt = None;
          spare = 0;
          end = self.old.keeper.end + (9 + length payload.now);
        }) }
        ensures err { OnErr result (self.new.keeper
            ≡ record self.old.keeper { doubt = Some payload.now }) }
    {
        if self.plan.next_fails() {
            self.keeper.leave_in_doubt(payload);
            return Err(Failed);
        }
        self.keeper.append(payload)
    }
}
