//! Keeping an entry.

ghost use Rattle.std.specs.Prelude.{◌≡◌, IsTrue, IsErrOf, OnOk, OnErr, length};
ghost use Rattle.fedi_entry.specs.Codes.{code_of};
ghost use Rattle.fedi_entry.specs.Fields.{IsFormed};
ghost use Rattle.fedi_entry.specs.Limits.{KeepsLimits};
ghost use Rattle.fedi_town.specs.Legal.{IsLegal, is_admissible};
ghost use Rattle.fedi_outside.specs.Keepers.{HasRoom};
ghost use Rattle.fedi_core.specs.Keeping.{Stores};
ghost use Rattle.fedi_core.specs.Machines.{IsGrown, IsQueueGrown, IsQueueSame, IsSame};
ghost use Rattle.fedi_core.specs.declared.keeping.KeepFault.TheVariants.{Memory};

use fedi_entry::encode;
use fedi_objects::Entry;
use fedi_outside::{Failed, Keeper, ReserveFault};
use fedi_queue::Queue;
use fedi_visible::Shelf;
use std::alloc::{AllocError, Global};
use thiserror::Error;

/// Why an entry was not kept.
#[derive(Clone, Copy, Debug, PartialEq, Eq, Error)]
pub enum KeepFault {
    /// The keeper has no room for it.
    #[error("the keeper has no room")]
    Full,
    /// The keeper failed, and the entry may be in doubt.
    #[error("the keeper failed")]
    Failed,
    /// Out of memory. The keeper counts no fault.
    #[error("out of memory")]
    Memory,
}

impl From<AllocError> for KeepFault {
    ghost from_gives = { λ _ fault. fault ≡ Memory };

    fn from(_: AllocError) -> Self {
        KeepFault::Memory
    }
}

/// An entry that was not kept, and why.
#[derive(Drop)]
pub struct KeepError {
    /// Why it was not kept.
    pub fault: KeepFault,
    /// The entry.
    pub entry: Entry,
}

// Keeps one more record. Room is made first, so that nothing takes memory after the doubt is
// settled.
//
// The errors are `Full`, if the keeper has no room for the record; `Failed`, if the keeper failed,
// which it counts once, and then the record may be in doubt; and `Memory`, out of memory. After an
// error the records are unchanged.
fn store<P: Keeper>(keeper: &mut P, code: &[u8]) -> Result<(), KeepFault>
    ensures stores { Stores P.Keeper keeper.old keeper.new code.now result }
    // The keeper was asked for room, and there was room.
    ensures memory { IsErrOf result KeepFault.Memory
        → HasRoom P.room (P.shown keeper.old).end (length code.now) }
{
    match keeper.reserve(code.len()) {
        Ok(()) => {}
        Err(ReserveFault::Full) => return Err(KeepFault::Full),
        Err(ReserveFault::Memory) => return Err(KeepFault::Memory),
    }
    let Ok(()) = keeper.settle() else {
        return Err(KeepFault::Failed);
    };
    match keeper.append(code) {
        Ok(()) => Ok(()),
        Err(Failed) => Err(KeepFault::Failed),
    }
}

/// Keeps the bytes of an entry, after everything that takes memory is done. Then the shelf has the
/// effects of the entry, and the queue its effects on the deliveries. After an error both are
/// unchanged.
pub fn store_entry<S: Shelf, P: Keeper>(
    alloc: Global,
    shelf: &mut S,
    queue: &mut Queue,
    keeper: &mut P,
    entry: &Entry,
) -> Result<(), KeepFault>
    requires legal { IsLegal (S.holding shelf.old).history }
    requires admissible { IsTrue (is_admissible (S.holding shelf.old).town entry.now) }
    requires limits { KeepsLimits entry.now }
    requires queued { queue.old.history ≡ (S.holding shelf.old).history }
    ensures formed { OnOk result (IsFormed entry.now) }
    ensures formed_failed { IsErrOf result KeepFault.Failed → IsFormed entry.now }
    ensures grown { OnOk result (IsGrown (S.holding shelf.old) entry.now (S.holding shelf.new)) }
    ensures same { OnErr result (IsSame (S.holding shelf.old) (S.holding shelf.new)) }
    ensures queue_grown { OnOk result (IsQueueGrown queue.old entry.now queue.new) }
    ensures queue_same { OnErr result (IsQueueSame queue.old queue.new) }
    ensures stores { Stores P.Keeper keeper.old keeper.new (code_of entry.now) result }
{
    let code = encode(alloc, entry)?;
    shelf.reserve(alloc, entry)?;
    queue.reserve(alloc, shelf.facts(), entry)?;
    store(keeper, &code)?;
    queue.push(entry);
    shelf.push(entry);
    Ok(())
}
