//! Where records are kept.
ghost use Rattle.std.specs.Prelude.{ℕ, ◌≡◌, ◌↔◌, ◌<◌, ◌≤◌, length, is_some, nat_lt, Some, None};
ghost use Rattle.std.specs.Prelude.{IfSome, IfOk, OnOk, OnErr, IsErrOf};
ghost use Rattle.fedi_outside.specs.Keepers.{Crashes, KeeperState, LeavesRecords, PassesTime};
ghost use Rattle.fedi_outside.specs.Keepers.{Finds, HasAdded, HasFailed, HasRoom, IsFull};
ghost use Rattle.fedi_outside.specs.Keepers.{OnlyRoomChanged, after_fault, after_load};

use crate::Failed;
use std::alloc::{AllocError, Global};
use thiserror::Error;

/// Why a record was not loaded.
#[derive(Clone, Copy, Debug, PartialEq, Eq, Error)]
pub enum LoadFault {
    /// The keeper failed, and has counted it.
    #[error("the keeper failed")]
    Failed,
    /// Out of memory.
    #[error("out of memory")]
    Memory,
}

impl From<AllocError> for LoadFault {
    ghost use Rattle.fedi_outside.specs.declared.keepers.LoadFault.TheVariants.{Memory};

    ghost from_gives = { λ _ fault. fault ≡ Memory };

    fn from(_: AllocError) -> Self {
        LoadFault::Memory
    }
}

/// Why no room was made for a record.
#[derive(Clone, Copy, Debug, PartialEq, Eq, Error)]
pub enum ReserveFault {
    /// The keeper would grow past its limit.
    #[error("the keeper is full")]
    Full,
    /// Out of memory.
    #[error("out of memory")]
    Memory,
}

impl From<AllocError> for ReserveFault {
    ghost use Rattle.fedi_outside.specs.declared.keepers.ReserveFault.TheVariants.{Memory};

    ghost from_gives = { λ _ fault. fault ≡ Memory };

    fn from(_: AllocError) -> Self {
        ReserveFault::Memory
    }
}

/// A list of records, each of them bytes, that only grows. A record goes in by three calls:
/// `reserve` makes room, `settle` removes the doubt that a failed append left, and `append` adds
/// it. The keeper ends at 2^62. The last two are given no allocator. A keeper may have one of its
/// own for them, and then lack of memory counts as its fault.
pub trait Keeper {
    /// The keeper, as its callers see it.
    ghost shown: { Self → KeeperState };

    /// What a crash may leave of the records.
    ghost crashes: { Self → Crashes };

    /// How far a record of this length moves the end.
    ghost growth: { ℕ → ℕ };

    /// How far from the limit the end has to be before a record of this length is added.
    ghost room: { ℕ → ℕ };

    /// Between the first state and the second, the outside was only read, so it is unchanged.
    ghost only_read: { Self → Self → Type 0 };

    /// How many records there are.
    fn count(&self) -> u64
        ensures { result ≡ (shown self.now).held };

    /// The record at this index, counted from 0, or `None` if and only if the index is at least the
    /// count. Everything is as before, even after an error: `Failed` if the keeper failed, `Memory`
    /// if there is such a record but no memory for it. The outside is read, but not written.
    fn load(&mut self, alloc: Global, place: u64) -> Result<Option<Vec<u8>>, LoadFault>
        ensures found { IfSome (shown self.old).records
            (λ records. IfOk result (Finds records place)) }
        ensures some { IfOk result (λ found. is_some found ≡ nat_lt place (shown self.old).held) }
        ensures held { IsErrOf result LoadFault.Memory → place < (shown self.old).held }
        ensures shown { shown self.new ≡ after_load result (shown self.old) }
        ensures outside { only_read self.old self.new }
        ensures time { PassesTime (shown self.old).records (shown self.old).doubt
            (crashes self.old) (crashes self.new) };

    /// Makes room for a record of this length. `Full` if and only if the end and the room for it
    /// add up to more than 2^62; `Memory` if there was no such room yet and there is no memory for
    /// it. Everything else is as before, and after an error so is the room. The outside is not
    /// written.
    fn reserve(&mut self, length: usize) -> Result<(), ReserveFault>
        ensures full { IsErrOf result ReserveFault.Full ↔ IsFull room (shown self.old).end length }
        ensures spare { OnOk result (length < (shown self.new).spare) }
        ensures spared { IsErrOf result ReserveFault.Memory → (shown self.old).spare ≤ length }
        ensures shown { OnlyRoomChanged (shown self.old) (shown self.new) }
        ensures refused { OnErr result ((shown self.new).spare ≡ (shown self.old).spare) }
        ensures outside { only_read self.old self.new }
        ensures time { PassesTime (shown self.old).records (shown self.old).doubt
            (crashes self.old) (crashes self.new) };

    /// Removes what a failed append may have left, so that nothing is in doubt. After an error the
    /// doubt is as before.
    fn settle(&mut self) -> Result<(), Failed>
        ensures settled { OnOk result (shown self.new ≡ record (shown self.old) { doubt = None }) }
        ensures refused { OnErr result (shown self.new ≡ after_fault (shown self.old)) }
        ensures time { PassesTime (shown self.old).records (shown self.old).doubt
            (crashes self.old) (crashes self.new) };

    /// Adds the payload as the last record. Nothing is in doubt, and room was made. After an error
    /// the records and the room are as before, and this record may be in doubt.
    fn append(&mut self, payload: &[u8]) -> Result<(), Failed>
        requires settled { (shown self.old).doubt ≡ None }
        requires spare { length payload.now < (shown self.old).spare }
        requires room { HasRoom room (shown self.old).end (length payload.now) }
        ensures added { OnOk result
            (HasAdded growth payload.now (shown self.old) (shown self.new)) }
        ensures refused { OnErr result (HasFailed payload.now (shown self.old) (shown self.new)) }
        ensures time { PassesTime (shown self.old).records (Some payload.now)
            (crashes self.old) (crashes self.new) };

    /// A crash now leaves the records, or the records and the one in doubt. After a call that
    /// settled, it leaves the records alone.
    ghost crash_now: { (keeper : Self) → LeavesRecords (shown keeper) (crashes keeper) };

    /// Making no call counts as only reading.
    ghost read_none: { (keeper : Self) → only_read keeper keeper };

    /// Two calls in a row that only read count as only reading.
    ghost read_both: { (first middle last : Self)
        → only_read first middle → only_read middle last → only_read first last };

    /// The count is the number of records.
    ghost told_held: { (keeper : Self) → IfSome (shown keeper).records
        (λ records. (shown keeper).held ≡ length records) };
}
