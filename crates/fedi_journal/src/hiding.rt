//! A journal that is filled from another keeper before it counts as one.
ghost use Rattle.std.specs.Prelude.{◌≡◌, ◌<◌, ◌≤◌, ℕ, ◌∷◌, ◌++◌, [], List, true, false, slice_get};
ghost use Rattle.std.specs.Prelude.{None, Some, length, option_map, IfSome, IfOk, IfErr, IsErrOf};
ghost use Rattle.std.specs.Prelude.{OnOk};
ghost use Rattle.fedi_outside.specs.Causes.{next_count};
ghost use Rattle.fedi_outside.specs.Disks.{Elapses, LeavesOnly, MayTear, after_reading, spliced};
ghost use Rattle.fedi_journal.specs.Chains.{IsHidden, hidden};
ghost use Rattle.fedi_journal.specs.Hiding.{IsCopied, IsHiddenOr, IsNotFilled, IsNotHidden};
ghost use Rattle.fedi_journal.specs.Hiding.{IsTooLong, IsVisible, KeepsVisible, disk_in, room};
ghost use Rattle.fedi_journal.specs.Making.{blank};
ghost use Rattle.fedi_journal.specs.Opening.{disk_after, disk_of};
ghost use Rattle.fedi_outside.specs.Keepers.{IsFull};

use crate::chains::{Chain, HiddenChain};
use crate::faults::{CopyFault, InitFault};
use crate::hidden::Hidden;
use crate::journal::{Journal, SealedJournal};
use crate::seals::Seal;
use fedi_outside::{Disk, Failed, Keeper, LoadFault, ReserveFault, write_synced};
use std::alloc::Global;

/// The bytes of a hidden file without records.
const HIDDEN: [u8; 9] = *b"FEDIJRN0\0";

/// The last byte of the magic of a journal, which is at offset 7.
const DIGIT: [u8; 1] = *b"2";

// Whether a disk of this size is hidden, and has a gate.
fn is_hidden<D: Disk>(disk: &mut D, size: u64) -> Result<bool, Failed>
    requires size { size ≡ (D.shown disk.old).size }
    ensures yes { IfOk result (λ yes. (bytes : List ℕ) → (D.shown disk.old).reads ≡ Some bytes
        → yes ≡ true → IsHidden bytes) }
    ensures no { IfOk result (λ yes. (bytes : List ℕ) → (D.shown disk.old).reads ≡ Some bytes
        → 8 < size → IsHidden bytes → yes ≡ true) }
    ensures long { IfOk result (λ yes. yes ≡ true → 8 < size) }
    ensures shown { D.shown disk.new ≡ after_reading result (D.shown disk.old) }
    ensures time { Elapses (D.crashes disk.old) (D.crashes disk.new)
        (D.crashes disk.old).may_leave }
{
    if size < 9 {
        return Ok(false);
    }
    let mut first = [0; 8];
    disk.read_at(0, &mut first)?;
    Ok(first == HiddenChain::magic())
}

// Makes a disk a hidden file without records. `Exists` if it has more than 9 bytes and is not
// hidden; its bytes are as before.
fn make_hidden<D: Disk>(disk: &mut D) -> Result<(), InitFault>
    ensures written { OnOk result
        ((D.shown disk.new).reads
        ≡ option_map (spliced 0 (blank hidden)) (D.shown disk.old).reads) }
    ensures fresh { OnOk result ((bytes : List ℕ) → (D.shown disk.old).reads ≡ Some bytes
        → IsVisible bytes → ⊥) }
    ensures faults { OnOk result ((D.shown disk.new).faults ≡ (D.shown disk.old).faults) }
    ensures long { OnOk result (8 < (D.shown disk.new).size) }
    ensures durable { OnOk result
        (IfSome (D.shown disk.new).reads (LeavesOnly (D.crashes disk.new))) }
    ensures unhidden { IfErr result
        (λ fault. IsNotHidden fault (D.shown disk.old) (D.shown disk.new)) }
    ensures stays { KeepsVisible (D.shown disk.old) (D.shown disk.new)
        (D.crashes disk.old) (D.crashes disk.new) }
    ensures time { Elapses (D.crashes disk.old) (D.crashes disk.new)
        (MayTear 0 (blank hidden) (D.crashes disk.old)) }
{
    let size = disk.len()?;
    if is_hidden(disk, size)? {
        write_synced(disk, 8, &[0])?;
        return Ok(());
    }
    if size > 9 {
        return Err(InitFault::Exists);
    }
    write_synced(disk, 0, &HIDDEN)?;
    Ok(())
}

impl<D: Disk> SealedJournal<D, Chain> {
    /// Makes a disk a hidden file without records: one that is no journal yet, to be filled. It
    /// writes `FEDIJRN0` and a closed gate and syncs, or only a closed gate if the disk is hidden
    /// already. Each error hands the disk back. `Exists` if it has more than 9 bytes and is not
    /// hidden; its bytes are as before. `Failed` if the disk failed; its first nine bytes may then
    /// be torn. But such other bytes stay, whatever the result: reads give the same, and a crash
    /// leaves nothing new.
    pub fn hide(alloc: Global, disk: D) -> Result<Hidden<D>, (InitFault, D)>
        ensures written { IfOk result (λ file. (D.shown (disk_in file)).reads
            ≡ option_map (spliced 0 (blank hidden)) (D.shown disk).reads) }
        ensures fresh { IfOk result (λ _. (bytes : List ℕ) → (D.shown disk).reads ≡ Some bytes
            → IsVisible bytes → ⊥) }
        ensures faults { IfOk result (λ file. (D.shown (disk_in file)).faults
            ≡ (D.shown disk).faults) }
        ensures images { IfOk result (λ file. IfSome (D.shown (disk_in file)).reads
            (λ _. (image : List ℕ) → (D.crashes (disk_in file)).may_leave image → IsHidden image)) }
        ensures unhidden { IfErr result
            (λ back. IsNotHidden back.0 (D.shown disk) (D.shown back.1)) }
        ensures stays { IfErr result (λ back. KeepsVisible (D.shown disk) (D.shown back.1)
            (D.crashes disk) (D.crashes back.1)) }
        ensures time { IfOk result (λ file. Elapses (D.crashes disk) (D.crashes (disk_in file))
            (MayTear 0 (blank hidden) (D.crashes disk))) }
        ensures torn { IfErr result (λ back. Elapses (D.crashes disk) (D.crashes back.1)
            (MayTear 0 (blank hidden) (D.crashes disk))) }
    {
        let mut disk = disk;
        match make_hidden(&mut disk) {
            Ok(()) => Ok(Hidden {
                journal: SealedJournal {
                    disk,
                    gates: Vec::new(alloc),
                    end: 8,
                    block: Vec::new(alloc),
                    in_doubt: false,
                    spare: 0,
                    seal: HiddenChain::start(),
                },
            }),
            Err(fault) => Err((fault, disk)),
        }
    }
}

// Writes the last byte of the magic of a hidden file, and syncs: it becomes a journal.
fn reveal<D: Disk>(journal: SealedJournal<D, HiddenChain>) -> Result<Journal<D>, (CopyFault, D)>
    requires settled { (⟦<SealedJournal<D, HiddenChain> as Keeper>⟧.shown journal).doubt ≡ None }
    requires begun { 8 ≤ (⟦<SealedJournal<D, HiddenChain> as Keeper>⟧.shown journal).end }
    ensures records { IfOk result (λ made.
        (⟦<SealedJournal<D, Chain> as Keeper>⟧.shown made).records
        ≡ (⟦<SealedJournal<D, HiddenChain> as Keeper>⟧.shown journal).records) }
    ensures settled { IfOk result (λ made.
        (⟦<SealedJournal<D, Chain> as Keeper>⟧.shown made).doubt ≡ None) }
    ensures faults { IfOk result (λ made. (D.shown (disk_of made)).faults
        ≡ (D.shown (disk_of journal)).faults) }
    ensures failed { IfErr result (λ back. (back.0 ≡ CopyFault.Failed)
        × ((D.shown back.1).faults ≡ next_count (D.shown (disk_of journal)).faults)) }
    ensures images { (kept : List (List ℕ))
        → (⟦<SealedJournal<D, HiddenChain> as Keeper>⟧.shown journal).records ≡ Some kept
        → Elapses (D.crashes (disk_of journal)) (D.crashes (disk_after result)) (IsHiddenOr kept) }
{
    let mut disk = journal.disk;
    match write_synced(&mut disk, 7, &DIGIT) {
        Ok(()) => Ok(SealedJournal {
            disk,
            gates: journal.gates,
            end: journal.end,
            block: journal.block,
            in_doubt: false,
            spare: 0,
            seal: journal.seal.reveal(),
        }),
        Err(Failed) => Err((CopyFault::Failed, disk)),
    }
}

// Appends a record of a keeper to a hidden file.
fn copy_record<P: Keeper, D: Disk>(
    alloc: Global,
    from: &mut P,
    journal: &mut SealedJournal<D, HiddenChain>,
    place: u64,
) -> Result<(), CopyFault>
    requires inside { place < (P.shown from.old).held }
    requires settled { (⟦<SealedJournal<D, HiddenChain> as Keeper>⟧.shown journal.old).doubt ≡ None }
    ensures same { OnOk result (P.shown from.new ≡ P.shown from.old) }
    ensures source { (P.shown from.new).records ≡ (P.shown from.old).records }
    ensures settled { OnOk result
        ((⟦<SealedJournal<D, HiddenChain> as Keeper>⟧.shown journal.new).doubt ≡ None) }
    ensures copied { OnOk result ((kept : List (List ℕ)) → (P.shown from.old).records ≡ Some kept
        → (r : List ℕ) × (slice_get kept place ≡ Some r)
        × ((⟦<SealedJournal<D, HiddenChain> as Keeper>⟧.shown journal.new).records
        ≡ option_map (λ rs. rs ++ r ∷ [])
        (⟦<SealedJournal<D, HiddenChain> as Keeper>⟧.shown journal.old).records)) }
    ensures end { (⟦<SealedJournal<D, HiddenChain> as Keeper>⟧.shown journal.old).end
        ≤ (⟦<SealedJournal<D, HiddenChain> as Keeper>⟧.shown journal.new).end }
    ensures faults { IsCopied result (P.shown from.old) (P.shown from.new)
        (⟦<SealedJournal<D, HiddenChain> as Keeper>⟧.shown journal.old)
        (⟦<SealedJournal<D, HiddenChain> as Keeper>⟧.shown journal.new) }
    ensures full { IsErrOf result CopyFault.Full → (kept : List (List ℕ))
        → (P.shown from.old).records ≡ Some kept
        → (r : List ℕ) × (slice_get kept place ≡ Some r)
        × IsFull room (⟦<SealedJournal<D, HiddenChain> as Keeper>⟧.shown journal.old).end
        (length r) }
    ensures outside { P.only_read from.old from.new }
    ensures images { (rs : List (List ℕ))
        → (⟦<SealedJournal<D, HiddenChain> as Keeper>⟧.shown journal.old).records ≡ Some rs
        → Elapses (D.crashes (disk_of journal.old)) (D.crashes (disk_of journal.new)) IsHidden }
{
    let bytes = match from.load(alloc, place) {
        Ok(Some(bytes)) => bytes,
        Ok(None) => unreachable!(),
        Err(LoadFault::Failed) => return Err(CopyFault::Source),
        Err(LoadFault::Memory) => return Err(CopyFault::Memory),
    };
    match journal.reserve(bytes.len()) {
        Ok(()) => {}
        Err(ReserveFault::Full) => return Err(CopyFault::Full),
        Err(ReserveFault::Memory) => return Err(CopyFault::Memory),
    }
    match journal.append(&bytes) {
        Ok(()) => Ok(()),
        Err(Failed) => Err(CopyFault::Failed),
    }
}

impl<D: Disk> Hidden<D> {
    /// Appends each record of a keeper to a hidden file, and then makes it a journal by one byte.
    /// Each error hands the disk back: `Source` if the keeper failed, `Failed` if the disk did,
    /// `Full` if a record has no room, and `Memory` if memory runs out. Whatever the result, the
    /// keeper is only read and has the records that it had, and each image that a crash leaves
    /// since the call began is hidden, or a file of exactly these records.
    pub fn fill<P: Keeper>(self, alloc: Global, from: &mut P) -> Result<Journal<D>, (CopyFault, D)>
        ensures records { IfOk result (λ made. (kept : List (List ℕ))
            → (P.shown from.old).records ≡ Some kept → IfSome (D.shown (disk_of made)).reads
            (λ _. (⟦<SealedJournal<D, Chain> as Keeper>⟧.shown made).records ≡ Some kept)) }
        ensures settled { IfOk result (λ made.
            (⟦<SealedJournal<D, Chain> as Keeper>⟧.shown made).doubt ≡ None) }
        ensures calm { IfOk result (λ made. (P.shown from.new ≡ P.shown from.old)
            × ((D.shown (disk_of made)).faults ≡ (D.shown (disk_in self)).faults)) }
        ensures unfilled { IfErr result (λ back. IsNotFilled back.0
            (P.shown from.old).faults (P.shown from.new).faults
            (D.shown (disk_in self)).faults (D.shown back.1).faults) }
        ensures full { IfErr result (λ back. back.0 ≡ CopyFault.Full → (kept : List (List ℕ))
            → (P.shown from.old).records ≡ Some kept
            → IfSome (D.shown (disk_in self)).reads (λ _. IsTooLong kept)) }
        ensures source { (P.shown from.new).records ≡ (P.shown from.old).records }
        ensures outside { P.only_read from.old from.new }
        ensures images { (kept : List (List ℕ)) → (P.shown from.old).records ≡ Some kept
            → IfSome (D.shown (disk_in self)).reads (λ _. Elapses (D.crashes (disk_in self))
            (D.crashes (disk_after result)) (IsHiddenOr kept)) }
    {
        let mut journal = self.journal;
        let count = from.count();
        let mut place = 0;
        'records: while place < count {
            match copy_record(alloc, from, &mut journal, place) {
                Ok(()) => place += 1,
                Err(fault) => return Err((fault, journal.into_disk())),
            }
        }
        reveal(journal)
    }
}
