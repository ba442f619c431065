//! Printing a table of what a store holds.

ghost use Rattle.std.specs.Prelude.{None};
ghost use Rattle.fedi_log.specs.Keeping.{base_of, state_of};
ghost use Rattle.fedi_log.specs.Log.{given};
ghost use Rattle.fedi_logged.specs.Marks.{Survives};
ghost use Rattle.fedi_program.specs.Seen.{medium, output};
ghost use Rattle.fedi_program.specs.Stores.{ExportsStore, PrintsTable, table_text};
ghost use Rattle.fedi_report.specs.Tables.{Reports};
ghost use Rattle.fedi_town.specs.Histories.{town};
ghost use Rattle.fedi_town.specs.Legal.{IsLegal};

use crate::commands::Table;
use crate::statuses::{DONE, OUT_OF_MEMORY, WRITE_FAULT};
use crate::stores::report_store;
use fedi_core::Core;
use fedi_effects::Seed;
use fedi_index::IndexedShelf;
use fedi_outside::{Disk, Keeper, Sink};
use fedi_report::{ReportFault, csv_activities, csv_actors, csv_queue};
use fedi_startup::{close_store, open_store};
use std::alloc::Global;

fn write_table<O: Sink, P: Keeper>(
    alloc: Global,
    out: &mut O,
    core: &Core<IndexedShelf, P>,
    table: Table,
) -> Result<(), ReportFault>
    requires legal { IsLegal core.now.history }
    ensures { Reports (output O.Sink out.old) (output O.Sink out.new)
        (table_text table (town core.now.history)) result }
{
    match table {
        Table::Actors => csv_actors(alloc, core, out),
        Table::Activities => csv_activities(alloc, core, out),
        Table::Queue => csv_queue(alloc, core, out),
    }
}

/// Prints the table. Returns the exit status.
pub(crate) fn print_table<O: Sink, P: Keeper>(
    alloc: Global,
    out: &mut O,
    core: &Core<IndexedShelf, P>,
    table: Table,
) -> u8
    requires legal { IsLegal core.now.history }
    ensures printed { PrintsTable (output O.Sink out.old) (output O.Sink out.new)
        (table_text table (town core.now.history)) result }
    // The machine is only read.
    ensures crashes { let opened = state_of core.now.history (P.shown core.now.keeper) in
        Survives (base_of P.growth P.room opened) None (given core.now.history)
        (given core.now.history) opened (P.crashes core.now.keeper) (P.crashes core.now.keeper) }
{
    match write_table(alloc, out, core, table) {
        Ok(()) => DONE,
        Err(ReportFault::WriteFault) => WRITE_FAULT,
        Err(ReportFault::Memory) => OUT_OF_MEMORY,
    }
}

/// Prints a table of what the store of the disk holds. Returns the exit status, and the disk as it
/// was.
pub(crate) fn export<O: Sink, D: Disk>(
    alloc: Global,
    seed: Seed,
    out: &mut O,
    disk: D,
    table: Table,
) -> (u8, D)
    ensures exported { ExportsStore table (medium D.Disk disk) (medium D.Disk result.1)
        (output O.Sink out.old) (output O.Sink out.new) result.0 }
{
    match open_store(alloc, seed, disk) {
        Ok(core) => {
            let status = print_table(alloc, out, &core, table);
            (status, close_store(core))
        }
        Err((fault, disk)) => (report_store(out, fault), disk),
    }
}
