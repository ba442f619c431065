//! Where the records of a keeper are between two runs.
ghost use Rattle.std.specs.Prelude.{◌≡◌, IfOk, false, max, true};
ghost use Rattle.fedi_outside.specs.Vaults.{IsAsked, IsFilled, IsHanded, MayRefuseToMake};
ghost use Rattle.fedi_outside.specs.Vaults.{MayRefuseToOpen, VaultState, after_fill, none_of};

use crate::keepers::{Keeper, LoadFault};
use std::alloc::{AllocError, Global};
use thiserror::Error;

/// Why a vault handed out no keeper.
#[derive(Clone, Copy, Debug, PartialEq, Eq, Error)]
pub enum VaultFault {
    /// It keeps at least one record.
    #[error("it exists")]
    Exists,
    /// The records are not at the places 0, 1, 2 and so on.
    #[error("no record at place {place}")]
    Gap {
        /// The first place that is missing.
        place: u64,
    },
    /// The vault failed, and has counted it.
    #[error("the vault failed")]
    Failed,
    /// Out of memory.
    #[error("out of memory")]
    Memory,
}

impl From<AllocError> for VaultFault {
    ghost use Rattle.std.specs.Prelude.{◌≡◌};
    ghost use Rattle.fedi_outside.specs.declared.vaults.VaultFault.TheVariants.{Memory};

    ghost from_gives = { λ _ fault. fault ≡ Memory };

    fn from(_: AllocError) -> Self {
        VaultFault::Memory
    }
}

/// Why a vault was not filled.
#[derive(Clone, Copy, Debug, PartialEq, Eq, Error)]
pub enum FillFault {
    /// It keeps at least one record.
    #[error("it exists")]
    Exists,
    /// The keeper that the records come from failed, and has counted it.
    #[error("the source failed")]
    Source,
    /// The vault failed, and has counted it.
    #[error("the vault failed")]
    Failed,
    /// Out of memory.
    #[error("out of memory")]
    Memory,
}

impl From<AllocError> for FillFault {
    ghost use Rattle.std.specs.Prelude.{◌≡◌};
    ghost use Rattle.fedi_outside.specs.declared.vaults.FillFault.TheVariants.{Memory};

    ghost from_gives = { λ _ fault. fault ≡ Memory };

    fn from(_: AllocError) -> Self {
        FillFault::Memory
    }
}

impl From<LoadFault> for FillFault {
    ghost use Rattle.std.specs.Prelude.{◌≡◌};
    ghost use Rattle.fedi_outside.specs.Vaults.{unfilled};

    ghost from_gives = { λ fault filled. filled ≡ unfilled fault };

    fn from(fault: LoadFault) -> Self {
        match fault {
            LoadFault::Failed => FillFault::Source,
            LoadFault::Memory => FillFault::Memory,
        }
    }
}

/// A place where the records of a keeper are between two runs. It hands out one keeper at a time,
/// and takes it back.
pub trait Vault {
    type K: Keeper;

    /// The vault, as its callers see it.
    ghost shown: { Self → VaultState };

    /// A keeper without records. `Exists` if and only if at least one record is kept, `Failed` if
    /// the vault failed, which it counts, and `Memory`. After an error all is as before, except for
    /// the count.
    fn make(&mut self, alloc: Global) -> Result<Self::K, VaultFault>
        requires home { (shown self.old).out ≡ false }
        ensures made { IfOk result (λ keeper. IsHanded (none_of (shown self.old).kept)
            (shown self.new).faults (Self.K.shown keeper)) }
        ensures none { IfOk result (λ keeper. (Self.K.shown keeper).held ≡ 0) }
        ensures refused { MayRefuseToMake (shown self.old).kept result }
        ensures after { IsAsked (shown self.old) (shown self.new) result };

    /// The keeper of the records that are kept, which are none if nothing was made. `Gap` if and
    /// only if the records are not at the places from 0 on, `Failed` if the vault failed, which it
    /// counts, and `Memory`. After an error all is as before, except for the count.
    fn open(&mut self, alloc: Global) -> Result<Self::K, VaultFault>
        requires home { (shown self.old).out ≡ false }
        ensures opened { IfOk result (λ keeper. IsHanded (shown self.old).kept
            (shown self.new).faults (Self.K.shown keeper)) }
        ensures refused { MayRefuseToOpen (shown self.old).kept result }
        ensures after { IsAsked (shown self.old) (shown self.new) result };

    /// Takes a keeper back, with its records and its count of faults. It allocates no memory.
    fn close(&mut self, keeper: Self::K)
        requires out { (shown self.old).out ≡ true }
        ensures { shown self.new ≡ record {
          kept = (Self.K.shown keeper).records;
          out = false;
          faults = max (shown self.old).faults (Self.K.shown keeper).faults;
        } };

    /// Copies all records of a keeper into the vault at once, if it keeps none. `Exists` if and
    /// only if at least one record is kept, `Source` if the keeper failed, `Failed` if the vault
    /// did, which each counts, and `Memory`. The keeper is only read. After an error what is kept
    /// is as before. A vault that reported its records may do so no longer.
    fn fill<P: Keeper>(&mut self, alloc: Global, from: &mut P) -> Result<(), FillFault>
        requires home { (shown self.old).out ≡ false }
        ensures filled { IsFilled (P.shown from.old).records (shown self.old) (shown self.new)
            result }
        ensures source { P.shown from.new ≡ after_fill result (P.shown from.old) }
        ensures outside { P.only_read from.old from.new };
}
