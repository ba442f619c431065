//! Moving the records of a store between a disk and a vault.

ghost use Rattle.std.specs.Prelude.{◌≡◌, IfErr, IfOk, None, OnOk, false, true};
ghost use Rattle.fedi_outside.specs.Vaults.{IsHanded};
ghost use Rattle.fedi_program.specs.Filling.{FillsFrom, MigratesIn, MigratesOut, MovesOut};
ghost use Rattle.fedi_program.specs.Filling.{ReportsUnfilled};
ghost use Rattle.fedi_program.specs.Migrating.{Migrates};
ghost use Rattle.fedi_program.specs.Seen.{medium, output};
ghost use Rattle.fedi_startup.specs.Vaults.{IsRefusedIn};

use crate::migrating::{judge, migrate, move_records, moved_line};
use crate::printing::{print, report};
use crate::statuses::{DISK_FAULT, EXISTS, OUT_OF_MEMORY};
use crate::stores::report_store;
use fedi_effects::Seed;
use fedi_journal::{FirstJournal, Journal, JournalFault};
use fedi_outside::{Disk, FillFault, Keeper, Sink, Vault, VaultFault};
use fedi_startup::StoreFault;
use std::alloc::Global;

// ---- from a disk to a vault

/// Reports why a vault was not filled. Returns the exit status.
fn report_unfilled<O: Sink>(out: &mut O, fault: FillFault) -> u8
    ensures { ReportsUnfilled fault (output O.Sink out.old) (output O.Sink out.new) result }
{
    match fault {
        FillFault::Exists => report(out, EXISTS, b"exists\n"),
        FillFault::Source => report(out, DISK_FAULT, b"disk fault\n"),
        FillFault::Failed => report(out, DISK_FAULT, b"disk fault\n"),
        FillFault::Memory => OUT_OF_MEMORY,
    }
}

/// Copies the records of a keeper to the vault at once, if they are those of a legal history.
/// Returns the exit status, and the keeper, which was only read.
fn fill_from<O: Sink, P: Keeper, V: Vault>(
    alloc: Global,
    seed: Seed,
    out: &mut O,
    from: P,
    vault: &mut V,
) -> (u8, P)
    requires settled { (P.shown from).doubt ≡ None }
    requires home { (V.shown vault.old).out ≡ false }
    ensures moved { FillsFrom (P.shown from) (P.shown result.1)
        (V.shown vault.old) (V.shown vault.new)
        (output O.Sink out.old) (output O.Sink out.new) result.0 }
    ensures outside { P.only_read from result.1 }
    ensures home { (V.shown vault.new).out ≡ false }
{
    let mut from = match judge(alloc, seed, from) {
        Ok(from) => from,
        Err((fault, from)) => return (report_store(out, fault.into()), from),
    };
    match vault.fill(alloc, &mut from) {
        Ok(()) => {
            let line = moved_line(from.count());
            (print(out, line.as_bytes()), from)
        }
        Err(fault) => (report_unfilled(out, fault), from),
    }
}

/// Moves the records of the store of a disk to the vault, and prints how many entries these are.
/// The store may be of this format or of the one before it, and its disk is only read. The vault
/// gets all records at once, or none. It is refused if it has records. Returns the exit status, and
/// the disk.
pub(crate) fn migrate_in<O: Sink, D: Disk, V: Vault>(
    alloc: Global,
    seed: Seed,
    out: &mut O,
    disk: D,
    vault: &mut V,
) -> (u8, D)
    requires home { (V.shown vault.old).out ≡ false }
    ensures moved { MigratesIn (medium D.Disk disk) (medium D.Disk result.1)
        (V.shown vault.old) (V.shown vault.new)
        (output O.Sink out.old) (output O.Sink out.new) result.0 }
    ensures home { (V.shown vault.new).out ≡ false }
{
    let disk = match Journal::read(alloc, disk) {
        Ok(journal) => {
            let (status, journal) = fill_from(alloc, seed, out, journal, vault);
            return (status, journal.into_disk());
        }
        Err((fault, disk)) => match fault {
            JournalFault::OldFormat => disk,
            _ => return (report_store(out, fault.into()), disk),
        },
    };
    match FirstJournal::read(alloc, disk) {
        Ok(journal) => {
            let (status, journal) = fill_from(alloc, seed, out, journal, vault);
            (status, journal.into_disk())
        }
        Err((fault, disk)) => match fault {
            // No format is older than the first.
            JournalFault::OldFormat => (report_store(out, StoreFault::NotAStore), disk),
            _ => (report_store(out, fault.into()), disk),
        },
    }
}

// ---- from a vault to a disk

/// Moves the records of a keeper that a vault handed out to the second disk, if they are those of a
/// legal history. Returns the exit status, the keeper, which was only read, and the disk.
fn move_out<O: Sink, P: Keeper, D: Disk>(
    alloc: Global,
    seed: Seed,
    out: &mut O,
    from: P,
    second: D,
) -> (u8, P, D)
    requires settled { (P.shown from).doubt ≡ None }
    ensures { MovesOut D.Disk (P.shown from).records (P.shown from).faults (P.shown result.1)
        second result.2 (output O.Sink out.old) (output O.Sink out.new) result.0 }
{
    move_records(alloc, seed, out, from, second)
}

/// The keeper of a vault that is to be a store. After an error the vault keeps what it kept. It is
/// `DamagedRecord`, with the index of the first record that is missing, `Failed` if the vault
/// failed, which it counts, and `Memory`.
fn handed_out<V: Vault>(alloc: Global, vault: &mut V) -> Result<V::K, StoreFault>
    requires home { (V.shown vault.old).out ≡ false }
    ensures handed { IfOk result (λ keeper. IsHanded (V.shown vault.old).kept
        (V.shown vault.old).faults (V.K.shown keeper)) }
    ensures out { OnOk result ((V.shown vault.new).out ≡ true) }
    ensures faults { OnOk result ((V.shown vault.new).faults ≡ (V.shown vault.old).faults) }
    ensures refused { IfErr result (λ fault.
        IsRefusedIn fault (V.shown vault.old) (V.shown vault.new)) }
{
    match vault.open(alloc) {
        Ok(keeper) => Ok(keeper),
        Err(VaultFault::Exists) => unreachable!(),
        Err(VaultFault::Gap { place }) => Err(StoreFault::DamagedRecord { place }),
        Err(VaultFault::Failed) => Err(StoreFault::Failed),
        Err(VaultFault::Memory) => Err(StoreFault::Memory),
    }
}

/// Moves the records of the store of the vault to the second disk, and prints how many entries
/// these are. The vault keeps what it kept. The second disk becomes a store by one last byte, as in
/// `migrate`. Returns the exit status, and the second disk.
fn migrate_out<O: Sink, V: Vault, D: Disk>(
    alloc: Global,
    seed: Seed,
    out: &mut O,
    vault: &mut V,
    second: D,
) -> (u8, D)
    requires home { (V.shown vault.old).out ≡ false }
    ensures moved { MigratesOut D.Disk (V.shown vault.old) (V.shown vault.new) second result.1
        (output O.Sink out.old) (output O.Sink out.new) result.0 }
    ensures home { (V.shown vault.new).out ≡ false }
{
    match handed_out(alloc, vault) {
        Ok(keeper) => {
            let (status, keeper, second) = move_out(alloc, seed, out, keeper, second);
            vault.close(keeper);
            (status, second)
        }
        Err(fault) => (report_store(out, fault), second),
    }
}

/// Moves the records of a store to the second disk: those of the vault if the store is a table, and
/// those of the disk otherwise. Returns the exit status, and the two disks.
pub(crate) fn migrate_at<O: Sink, D: Disk, V: Vault>(
    alloc: Global,
    seed: Seed,
    is_table: bool,
    out: &mut O,
    disk: D,
    second: D,
    vault: &mut V,
) -> (u8, D, D)
    requires home { (V.shown vault.old).out ≡ false }
    ensures in_vault { is_table ≡ true → MigratesOut D.Disk (V.shown vault.old)
        (V.shown vault.new) second result.2 (output O.Sink out.old) (output O.Sink out.new)
        result.0 }
    ensures on_disk { is_table ≡ false → Migrates D.Disk (medium D.Disk disk)
        (medium D.Disk result.1) second result.2 (output O.Sink out.old) (output O.Sink out.new)
        result.0 }
    ensures disk { is_table ≡ true → result.1 ≡ disk }
    ensures vault { is_table ≡ false → vault.new ≡ vault.old }
    ensures home { (V.shown vault.new).out ≡ false }
{
    if is_table {
        let (status, second) = migrate_out(alloc, seed, out, vault, second);
        (status, disk, second)
    } else {
        migrate(alloc, seed, out, disk, second)
    }
}
