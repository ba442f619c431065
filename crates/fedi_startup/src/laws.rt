//! The answers that an opening may give exclude each other, and what was opened stays.
ghost use Rattle.std.specs.Prelude.{◌≡◌, [], ℕ, List, None, Some};
ghost use Rattle.fedi_journal.specs.Chains.{chained};
ghost use Rattle.fedi_outside.specs.Opening.{IsDamagedAt, IsOlder};
ghost use Rattle.fedi_journal.specs.Making.{IsOther};
ghost use Rattle.fedi_journal.specs.Opening.{disk_of};
ghost use Rattle.fedi_log.specs.Keeping.{HoldsFrom, since, state_of};
ghost use Rattle.fedi_log.specs.Leaving.{CrashesAlong};
ghost use Rattle.fedi_log.specs.Log.{Log, given};
ghost use Rattle.fedi_objects.specs.declared.entry.Entry.{Entry};
ghost use Rattle.fedi_outside.specs.Disks.{DiskState};
ghost use Rattle.fedi_logged.specs.Marks.{MarksMayCome};
ghost use Rattle.fedi_startup.specs.Stores.{HasBadRecord, HasNoRecord, IsOpened, IsSound};
ghost use Rattle.fedi_startup.specs.Stores.{IsStoreOf, LeavesFiles, records_of};
ghost use Rattle.fedi_startup.specs.Surviving.{LeavesStoresFrom, opened_base};

use crate::opening::StoreCore;
use fedi_journal::{Chain, SealedJournal};
use fedi_outside::{Disk, Keeper};

/// The bytes of a disk have at most one answer: they are the store of one history, they have no
/// record, they are of the older format, they are damaged at one byte, or they are damaged at one
/// record.
pub fn stores_have_one_answer()
    ensures history { (a b : List Entry) (bytes : List ℕ)
        → IsStoreOf a bytes → IsStoreOf b bytes → a ≡ b }
    ensures byte { (here there : ℕ) (bytes : List ℕ)
        → IsDamagedAt chained here bytes → IsDamagedAt chained there bytes → here ≡ there }
    ensures bad { (here there : ℕ) (bytes : List ℕ)
        → HasBadRecord here bytes → HasBadRecord there bytes → here ≡ there }
    ensures store_none { (history : List Entry) (bytes : List ℕ)
        → IsStoreOf history bytes → HasNoRecord bytes → ⊥ }
    ensures store_byte { (history : List Entry) (place : ℕ) (bytes : List ℕ)
        → IsStoreOf history bytes → IsDamagedAt chained place bytes → ⊥ }
    ensures store_record { (history : List Entry) (place : ℕ) (bytes : List ℕ)
        → IsStoreOf history bytes → HasBadRecord place bytes → ⊥ }
    ensures none_byte { (place : ℕ) (bytes : List ℕ)
        → HasNoRecord bytes → IsDamagedAt chained place bytes → ⊥ }
    ensures none_record { (place : ℕ) (bytes : List ℕ)
        → HasNoRecord bytes → HasBadRecord place bytes → ⊥ }
    ensures byte_record { (here there : ℕ) (bytes : List ℕ)
        → IsDamagedAt chained here bytes → HasBadRecord there bytes → ⊥ }
    ensures store_older { (history : List Entry) (bytes : List ℕ)
        → IsStoreOf history bytes → IsOlder chained bytes → ⊥ }
    ensures none_older { (bytes : List ℕ) → HasNoRecord bytes → IsOlder chained bytes → ⊥ }
    ensures byte_older { (place : ℕ) (bytes : List ℕ)
        → IsDamagedAt chained place bytes → IsOlder chained bytes → ⊥ }
    ensures record_older { (place : ℕ) (bytes : List ℕ)
        → HasBadRecord place bytes → IsOlder chained bytes → ⊥ }
{}

/// The bytes of a store differ from those of a journal without records, so making a store on the
/// same disk leaves them as they are.
pub fn stores_are_not_made_anew()
    ensures { (history : List Entry) (bytes : List ℕ)
        → IsStoreOf history bytes → IsOther chained bytes }
{}

/// What was opened stays. Suppose that `open_store` returned a machine over a disk whose bytes are
/// known. From that moment on, whatever an earlier crash may have left, a crash leaves a store of
/// the history that was opened, followed by the first of the entries that were kept since, none or
/// more, and at most the one that was in doubt then. The premises on the first machine are what
/// `open_store` ensures, and those on the last are what is ensured where its session ended, or by
/// all workers.
pub fn what_was_opened_stays<D: Disk>(opened: &StoreCore<D>, closed: &StoreCore<D>)
    ensures { (start : DiskState) (bytes : List ℕ) (log : Log)
        → let first = state_of opened.now.history
        (⟦<SealedJournal<D, Chain> as Keeper>⟧.shown opened.now.keeper) in
        let last = state_of closed.now.history
        (⟦<SealedJournal<D, Chain> as Keeper>⟧.shown closed.now.keeper) in
        start.reads ≡ Some bytes → IsOpened start first
        → LeavesFiles (D.crashes (disk_of opened.now.keeper)) (records_of first.history) None
        → HoldsFrom (opened_base first) (given first.history) last log
        → CrashesAlong (opened_base first) log
        (⟦<SealedJournal<D, Chain> as Keeper>⟧.crashes opened.now.keeper)
        (⟦<SealedJournal<D, Chain> as Keeper>⟧.crashes closed.now.keeper)
        → MarksMayCome [] log → IsSound last.history
        → LeavesStoresFrom (D.crashes (disk_of opened.now.keeper)).clock
        (D.crashes (disk_of closed.now.keeper)) first.history
        (since (opened_base first) log) }
{}
