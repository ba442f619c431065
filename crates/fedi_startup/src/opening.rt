//! Opening a store.
ghost use Rattle.std.specs.Prelude.{◌≡◌, ◌≢◌, List, IfErr, IfOk, IfSome, None, OnOk};
ghost use Rattle.fedi_core.specs.Opening.{keeper_after, outcome_of};
ghost use Rattle.fedi_journal.specs.Opening.{disk_of};
ghost use Rattle.fedi_log.specs.Keeping.{state_of};
ghost use Rattle.fedi_objects.specs.declared.entry.Entry.{Entry};
ghost use Rattle.fedi_opening.specs.Opening.{IsRead, IsStopped, after_open};
ghost use Rattle.fedi_outside.specs.Disks.{IsUntouched};
ghost use Rattle.fedi_outside.specs.Keepers.{PassesTime};
ghost use Rattle.fedi_queue.specs.Rows.{rows_of};
ghost use Rattle.fedi_startup.specs.Stores.{ComesBack, IsOpened, LeavesFiles, disk_left};
ghost use Rattle.fedi_startup.specs.Stores.{records_of};
ghost use Rattle.fedi_town.specs.Histories.{town};

use crate::faults::StoreFault;
use fedi_core::Core;
use fedi_effects::Seed;
use fedi_index::IndexedShelf;
use fedi_journal::{Chain, Journal, SealedJournal};
use fedi_opening::OpenFault;
use fedi_outside::{Disk, Keeper};
use std::alloc::{AllocError, Global};

/// The machine over the store of a disk.
pub type StoreCore<D> = Core<IndexedShelf, Journal<D>>;

// Opens the machine over the records of a keeper.
pub(crate) fn open_core<P: Keeper>(
    alloc: Global,
    seed: Seed,
    keeper: P,
) -> Result<Core<IndexedShelf, P>, (OpenFault, P)>
    requires settled { (P.shown keeper).doubt ≡ None }
    ensures opened { IfOk result (λ core.
        IsRead (P.shown keeper).records (P.shown keeper).held core.history) }
    ensures unclaimed { IfOk result (λ core. core.rows ≡ rows_of (town core.history)) }
    ensures some { OnOk result ((P.shown keeper).held ≢ 0) }
    ensures stopped { IfErr result (λ back.
        (history : List Entry) × IsStopped back.0 (P.shown keeper) history) }
    ensures shown { P.shown (keeper_after result)
        ≡ after_open (outcome_of result) (P.shown keeper) }
    ensures outside { P.only_read keeper (keeper_after result) }
    ensures time { PassesTime (P.shown keeper).records (P.shown keeper).doubt
        (P.crashes keeper) (P.crashes (keeper_after result)) }
{
    match IndexedShelf::empty(alloc, seed) {
        Ok(shelf) => Core::open(alloc, shelf, keeper),
        Err(AllocError) => Err((OpenFault::Memory, keeper)),
    }
}

/// Opens the machine over the store of a disk: finds the records of its file, and the history that
/// they encode. No delivery is claimed. The disk is synced, and the gates that are found are
/// written again, so that a crash leaves what is found. The seed is used to look up strings.
/// Whatever the answer, reads give the same bytes, and a crash leaves nothing new.
///
/// Each error returns the disk. It is `NotAStore` if the disk has fewer than 9 bytes, does not
/// begin with a magic, or has no record; `OldFormat` if it begins with the magic of the format
/// before this one; `DamagedByte`, with the offset of the first gate that is invalid or whose
/// record is not followed by its chain; `DamagedRecord`, with the index of the first record that is
/// not the code of an entry that may occur there; `Failed` if the disk failed, which the disk counts
/// once; and `Memory` if memory runs out, which is reported only if the disk begins with the magic.
pub fn open_store<D: Disk>(
    alloc: Global,
    seed: Seed,
    disk: D,
) -> Result<StoreCore<D>, (StoreFault, D)>
    ensures opened { IfOk result (λ core. IsOpened (D.shown disk)
        (state_of core.history (⟦<SealedJournal<D, Chain> as Keeper>⟧.shown core.keeper))) }
    ensures unclaimed { IfOk result (λ core. core.rows ≡ rows_of (town core.history)) }
    ensures leaves { IfOk result (λ core. IfSome (D.shown disk).reads (λ _.
        LeavesFiles (D.crashes (disk_of core.keeper)) (records_of core.history) None)) }
    ensures refused { IfErr result (λ back. ComesBack back.0 (D.shown disk) (D.shown back.1)) }
    ensures untouched { IsUntouched (D.shown disk) (D.shown (disk_left result))
        (D.crashes disk) (D.crashes (disk_left result)) }
{
    let journal = match Journal::open(alloc, disk) {
        Ok(journal) => journal,
        Err((fault, disk)) => return Err((fault.into(), disk)),
    };
    match open_core(alloc, seed, journal) {
        Ok(core) => Ok(core),
        Err((fault, journal)) => Err((fault.into(), journal.into_disk())),
    }
}
