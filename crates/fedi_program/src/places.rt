//! What a command does with a store, on a disk or in a vault.

ghost use Rattle.std.specs.Prelude.{◌≡◌, ◌<◌, Some, false, true, vec_len};
ghost use Rattle.fedi_program.specs.Commands.{Deliver, task_of};
ghost use Rattle.fedi_program.specs.Vaults.{DoesIn, WorksIn};
ghost use Rattle.fedi_program.specs.Working.{DoesOnDisk, LeavesRest, asks_store, may_add, sight};
ghost use Rattle.fedi_program.specs.Working.{works_over};

use crate::checking::check;
use crate::commands::Command;
use crate::exporting::export;
use crate::stores::{begin_store, begin_vault};
use crate::working::{report_unopened, work};
use fedi_effects::Seed;
use fedi_logged::Connection;
use fedi_outside::{Bench, Clock, Disk, Entropy, Link, Sink, Source, Vault};
use fedi_startup::{close_store, close_vault, open_store, open_vault};
use std::alloc::Global;

/// Does what the command asks over the store of the disk, to which it may add. The store is opened
/// first, so that a disk without a store is reported even if memory is short. Returns the exit
/// status, and the disk.
fn work_on_disk<S: Source, O: Sink, D: Disk, W, K: Link, C: Clock, E: Entropy>(
    alloc: Global,
    seed: Seed,
    command: Command<'_>,
    connection: &mut Connection<S, O, C>,
    disk: D,
    benches: &mut Vec<Bench<W, K>>,
    entropy: &mut E,
) -> (u8, D)
    requires adds { may_add (task_of command) ≡ true }
    requires linked { task_of command ≡ Deliver → 0 < vec_len benches.old }
    ensures does { DoesOnDisk D.Disk K.Link (task_of command.entry) disk result.1
        (sight S.Source O.Sink C.Clock E.Entropy connection.old entropy.old benches.old)
        (sight S.Source O.Sink C.Clock E.Entropy connection.new entropy.new benches.new) result.0 }
    ensures rest { LeavesRest (Some (task_of command.entry)) connection.old connection.new
        entropy.old entropy.new benches.old benches.new }
{
    match open_store(alloc, seed, disk) {
        Ok(core) => {
            let (status, core) = work(alloc, core, command, connection, benches, entropy);
            (status, close_store(core))
        }
        Err((fault, disk)) => (report_unopened(&mut connection.out, command, fault), disk),
    }
}

/// Does what the command asks with the store of the disk. Returns the exit status, and the disk.
pub(crate) fn on_disk<S: Source, O: Sink, D: Disk, W, K: Link, C: Clock, E: Entropy>(
    alloc: Global,
    seed: Seed,
    command: Command<'_>,
    connection: &mut Connection<S, O, C>,
    disk: D,
    benches: &mut Vec<Bench<W, K>>,
    entropy: &mut E,
) -> (u8, D)
    requires store { asks_store (task_of command) ≡ true }
    requires linked { task_of command ≡ Deliver → 0 < vec_len benches.old }
    ensures does { DoesOnDisk D.Disk K.Link (task_of command.entry) disk result.1
        (sight S.Source O.Sink C.Clock E.Entropy connection.old entropy.old benches.old)
        (sight S.Source O.Sink C.Clock E.Entropy connection.new entropy.new benches.new) result.0 }
    ensures rest { LeavesRest (Some (task_of command.entry)) connection.old connection.new
        entropy.old entropy.new benches.old benches.new }
{
    match command {
        Command::Init { host } => {
            let (out, clock) = (&mut connection.out, &connection.clock);
            begin_store(alloc, out, clock, disk, host)
        }
        Command::Export { table } => export(alloc, seed, &mut connection.out, disk, table),
        Command::Check => check(alloc, seed, &mut connection.out, disk),
        _ => work_on_disk(alloc, seed, command, connection, disk, benches, entropy),
    }
}

/// Does what the command asks over the store of the vault. The store is opened first, as on a disk.
/// Returns the exit status.
fn work_in_vault<S: Source, O: Sink, V: Vault, W, K: Link, C: Clock, E: Entropy>(
    alloc: Global,
    seed: Seed,
    command: Command<'_>,
    connection: &mut Connection<S, O, C>,
    vault: &mut V,
    benches: &mut Vec<Bench<W, K>>,
    entropy: &mut E,
) -> u8
    requires home { (V.shown vault.old).out ≡ false }
    requires works { works_over (task_of command) ≡ true }
    requires linked { task_of command ≡ Deliver → 0 < vec_len benches.old }
    ensures works { WorksIn K.Link V.K.Keeper (task_of command.entry)
        (V.shown vault.old) (V.shown vault.new)
        (sight S.Source O.Sink C.Clock E.Entropy connection.old entropy.old benches.old)
        (sight S.Source O.Sink C.Clock E.Entropy connection.new entropy.new benches.new) result }
    ensures rest { LeavesRest (Some (task_of command.entry)) connection.old connection.new
        entropy.old entropy.new benches.old benches.new }
    ensures home { (V.shown vault.new).out ≡ false }
{
    match open_vault(alloc, seed, vault) {
        Ok(core) => {
            let (status, core) = work(alloc, core, command, connection, benches, entropy);
            close_vault(vault, core);
            status
        }
        Err(fault) => report_unopened(&mut connection.out, command, fault),
    }
}

/// Does what the command asks with the store of the vault. Returns the exit status.
pub(crate) fn in_vault<S: Source, O: Sink, V: Vault, W, K: Link, C: Clock, E: Entropy>(
    alloc: Global,
    seed: Seed,
    command: Command<'_>,
    connection: &mut Connection<S, O, C>,
    vault: &mut V,
    benches: &mut Vec<Bench<W, K>>,
    entropy: &mut E,
) -> u8
    requires home { (V.shown vault.old).out ≡ false }
    requires store { asks_store (task_of command) ≡ true }
    requires linked { task_of command ≡ Deliver → 0 < vec_len benches.old }
    ensures does { DoesIn K.Link V.K.Keeper (task_of command.entry)
        (V.shown vault.old) (V.shown vault.new)
        (sight S.Source O.Sink C.Clock E.Entropy connection.old entropy.old benches.old)
        (sight S.Source O.Sink C.Clock E.Entropy connection.new entropy.new benches.new) result }
    ensures rest { LeavesRest (Some (task_of command.entry)) connection.old connection.new
        entropy.old entropy.new benches.old benches.new }
    ensures home { (V.shown vault.new).out ≡ false }
{
    match command {
        Command::Init { host } => {
            let (out, clock) = (&mut connection.out, &connection.clock);
            begin_vault(alloc, out, clock, vault, host)
        }
        _ => work_in_vault(alloc, seed, command, connection, vault, benches, entropy),
    }
}
