//! Moving the records of a store to a second disk.

ghost use Rattle.std.specs.Prelude.{◌≡◌, ◌≢◌, List, IfErr, None, OnOk};
ghost use Rattle.fedi_core.specs.Opening.{outcome_of};
ghost use Rattle.fedi_objects.specs.declared.entry.Entry.{Entry};
ghost use Rattle.fedi_opening.specs.Opening.{IsRead, IsStopped, after_open};
ghost use Rattle.fedi_program.specs.Migrating.{Migrates, MovesFrom, ReportsFilling, keeper_left};
ghost use Rattle.fedi_program.specs.Migrating.{moved_line};
ghost use Rattle.fedi_program.specs.Seen.{medium, output};

use crate::printing::{print, report};
use crate::statuses::{DISK_FAULT, FULL, OUT_OF_MEMORY};
use crate::stores::{report_making, report_store};
use arrayvec::ArrayString;
use fedi_core::Core;
use fedi_effects::Seed;
use fedi_index::IndexedShelf;
use fedi_journal::{CopyFault, FirstJournal, Journal, JournalFault};
use fedi_opening::OpenFault;
use fedi_outside::{Disk, Keeper, Sink};
use fedi_startup::StoreFault;
use std::alloc::{AllocError, Global};

/// The line that says how many entries were moved.
#[tactic(auto, unfolding(crate::specs::Migrating::moved_line))]
pub(crate) fn moved_line(count: u64) -> ArrayString<64>
    ensures { result.bytes ≡ moved_line count }
{
    let mut digits = itoa::Buffer::new();
    let mut line = ArrayString::new();
    line.push_str("moved ");
    line.push_str(digits.format(count));
    line.push_str(" entries\n");
    line
}

/// Reports why records were not moved. Returns the exit status.
fn report_filling<O: Sink>(out: &mut O, fault: CopyFault) -> u8
    ensures { ReportsFilling fault (output O.Sink out.old) (output O.Sink out.new) result }
{
    match fault {
        CopyFault::Source => report(out, DISK_FAULT, b"disk fault\n"),
        CopyFault::Failed => report(out, DISK_FAULT, b"disk fault\n"),
        CopyFault::Full => report(out, FULL, b"full\n"),
        CopyFault::Memory => OUT_OF_MEMORY,
    }
}

/// Judges the records of a keeper: they have to be the codes of a legal history, which is not empty.
/// The town that they make is dropped again. Each error returns the keeper.
pub(crate) fn judge<P: Keeper>(alloc: Global, seed: Seed, keeper: P) -> Result<P, (OpenFault, P)>
    requires settled { (P.shown keeper).doubt ≡ None }
    ensures read { OnOk result ((history : List Entry)
        × IsRead (P.shown keeper).records (P.shown keeper).held history) }
    ensures some { OnOk result ((P.shown keeper).held ≢ 0) }
    ensures stopped { IfErr result (λ back.
        (history : List Entry) × IsStopped back.0 (P.shown keeper) history) }
    ensures shown { P.shown (keeper_left result)
        ≡ after_open (outcome_of result) (P.shown keeper) }
    ensures outside { P.only_read keeper (keeper_left result) }
{
    let shelf = match IndexedShelf::empty(alloc, seed) {
        Ok(shelf) => shelf,
        Err(AllocError) => return Err((OpenFault::Memory, keeper)),
    };
    match Core::open(alloc, shelf, keeper) {
        Ok(core) => Ok(core.close()),
        Err(back) => Err(back),
    }
}

/// Moves the records of a keeper to the second disk, if they are those of a legal history. Returns
/// the exit status, the keeper, which was only read, and the disk.
pub(crate) fn move_records<O: Sink, P: Keeper, D: Disk>(
    alloc: Global,
    seed: Seed,
    out: &mut O,
    from: P,
    second: D,
) -> (u8, P, D)
    requires settled { (P.shown from).doubt ≡ None }
    ensures moved { MovesFrom D.Disk (P.shown from) (P.shown result.1) second result.2
        (output O.Sink out.old) (output O.Sink out.new) result.0 }
    ensures outside { P.only_read from result.1 }
    ensures kept { (P.shown result.1).records ≡ (P.shown from).records }
{
    let mut from = match judge(alloc, seed, from) {
        Ok(from) => from,
        Err((fault, from)) => return (report_store(out, fault.into()), from, second),
    };
    let hidden = match Journal::hide(alloc, second) {
        Ok(hidden) => hidden,
        Err((fault, second)) => return (report_making(out, fault.into()), from, second),
    };
    match hidden.fill(alloc, &mut from) {
        Ok(journal) => {
            let line = moved_line(from.count());
            (print(out, line.as_bytes()), from, journal.into_disk())
        }
        Err((fault, second)) => (report_filling(out, fault), from, second),
    }
}

/// Moves the records of the store of a disk to the second disk, and prints how many entries these
/// are. The store may be of this format or of the one before it, and its disk is only read. The
/// second disk becomes a store by one last byte, when it has all records; until then it is hidden,
/// so that no opening takes it for a store, and the records can be moved to it again. It is refused
/// if it has other bytes. Returns the exit status, and the two disks.
pub(crate) fn migrate<O: Sink, D: Disk>(
    alloc: Global,
    seed: Seed,
    out: &mut O,
    disk: D,
    second: D,
) -> (u8, D, D)
    ensures { Migrates D.Disk (medium D.Disk disk) (medium D.Disk result.1) second result.2
        (output O.Sink out.old) (output O.Sink out.new) result.0 }
{
    let disk = match Journal::read(alloc, disk) {
        Ok(journal) => {
            let (status, journal, second) = move_records(alloc, seed, out, journal, second);
            return (status, journal.into_disk(), second);
        }
        Err((fault, disk)) => match fault {
            JournalFault::OldFormat => disk,
            _ => return (report_store(out, fault.into()), disk, second),
        },
    };
    match FirstJournal::read(alloc, disk) {
        Ok(journal) => {
            let (status, journal, second) = move_records(alloc, seed, out, journal, second);
            (status, journal.into_disk(), second)
        }
        Err((fault, disk)) => match fault {
            // No format is older than the first.
            JournalFault::OldFormat => (report_store(out, StoreFault::NotAStore), disk, second),
            _ => (report_store(out, fault.into()), disk, second),
        },
    }
}
