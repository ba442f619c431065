//! A vault in memory that may be made to fail.
ghost use Rattle.std.specs.Prelude.{◌≡◌, None, false, true};
ghost use Rattle.fedi_outside.specs.MemoryKeepers.{no_records};
ghost use Rattle.fedi_outside.specs.MemoryVaults.{vault_shown};
ghost use Rattle.fedi_outside.specs.Plans.{no_faults};

use crate::keepers::Keeper;
use crate::memory_keepers::MemoryKeeper;
use crate::vaults::{FillFault, Vault, VaultFault};
use std::alloc::Global;
use std::marker::Model;
use std::mem;

/// A vault in memory that can be made to fail. It always reports its records. The calls of `make`,
/// `open` and `fill`, and those of the keeper while it is out, are counted together.
#[derive(Drop)]
pub struct MemoryVault {
    alloc: Global,
    // While the keeper is out, one without records, which counts on.
    keeper: MemoryKeeper,
    out: bool,
}

impl Model for MemoryVault {
    ghost use Rattle.std.specs.Prelude.{◌≡◌, None};
    ghost use Rattle.fedi_outside.specs.MemoryVaults.{MemoryVaultState};

    ghost Value = { MemoryVaultState };

    ghost view = { λ v. record { keeper = v.keeper; out = v.out } };

    ghost invariant = { λ v. v.keeper.keeper.doubt ≡ None };
}

impl MemoryVault {
    /// A vault in which nothing was made. It does not fail.
    pub fn new(alloc: Global) -> Self
        ensures { result ≡ record {
          keeper = record { keeper = no_records 0; plan = no_faults };
          out = false;
        } }
    {
        MemoryVault {
            alloc,
            keeper: MemoryKeeper::new(alloc),
            out: false,
        }
    }

    /// A vault that keeps the records of this keeper, and fails as it does. A record in doubt is
    /// not kept.
    pub fn holding(alloc: Global, keeper: MemoryKeeper) -> Self
        ensures { result ≡ record {
          keeper = record keeper { keeper = record keeper.keeper { doubt = None } };
          out = false;
        } }
    {
        let mut keeper = keeper;
        keeper.forget_doubt();
        MemoryVault {
            alloc,
            keeper,
            out: false,
        }
    }

    /// The same vault, except that the calls with these numbers fail, counted from 0.
    pub fn failing(self, calls: Vec<u64>) -> Self
        ensures { result ≡ record self {
          keeper = record self.keeper {
            plan = record self.keeper.plan { failing = calls.items };
          };
        } }
    {
        let MemoryVault { alloc, keeper, out } = self;
        MemoryVault {
            alloc,
            keeper: keeper.failing(calls),
            out,
        }
    }

    /// The records that are kept, as a keeper.
    pub fn kept(&self) -> &MemoryKeeper
        ensures { result.now ≡ self.now.keeper }
    {
        &self.keeper
    }

    // Hands out the keeper, and counts on.
    fn hand_out(&mut self) -> MemoryKeeper
        ensures keeper { result ≡ self.old.keeper }
        ensures out { self.new.out ≡ true }
        ensures faults { self.new.keeper.plan.faults ≡ self.old.keeper.plan.faults }
    {
        let mut counting = MemoryKeeper::new(self.alloc);
        counting.raise_faults(self.keeper.faults());
        self.out = true;
        mem::replace(&mut self.keeper, counting)
    }
}

impl Vault for MemoryVault {
    type K = MemoryKeeper;

    ghost shown = { vault_shown };

    fn make(&mut self, _: Global) -> Result<MemoryKeeper, VaultFault> {
        if self.keeper.next_fails() {
            return Err(VaultFault::Failed);
        }
        if self.keeper.count() > 0 {
            return Err(VaultFault::Exists);
        }
        Ok(self.hand_out())
    }

    fn open(&mut self, _: Global) -> Result<MemoryKeeper, VaultFault> {
        if self.keeper.next_fails() {
            return Err(VaultFault::Failed);
        }
        Ok(self.hand_out())
    }

    fn close(&mut self, keeper: MemoryKeeper) {
        let mut keeper = keeper;
        keeper.forget_doubt();
        keeper.raise_faults(self.keeper.faults());
        self.keeper = keeper;
        self.out = false;
    }

    fn fill<P: Keeper>(&mut self, alloc: Global, from: &mut P) -> Result<(), FillFault> {
        if self.keeper.next_fails() {
            return Err(FillFault::Failed);
        }
        if self.keeper.count() > 0 {
            return Err(FillFault::Exists);
        }
        self.keeper.copy_records(alloc, from)?;
        Ok(())
    }
}
