//! What a command does over a store that was opened, wherever the store keeps its records.

ghost use Rattle.std.specs.Prelude.{◌≡◌, ◌<◌, IsTrue, None, Some, is_some, length, true, vec_len};
ghost use Rattle.fedi_log.specs.Keeping.{base_of, state_of};
ghost use Rattle.fedi_log.specs.Log.{Log, given};
ghost use Rattle.fedi_logged.specs.Marks.{Survives, SurvivesMarked};
ghost use Rattle.fedi_logged.specs.Turning.{setting_by};
ghost use Rattle.fedi_program.specs.Commands.{Deliver, task_of};
ghost use Rattle.fedi_program.specs.Endings.{HasCauses, HoldsSession, status_of};
ghost use Rattle.fedi_program.specs.Seen.{faults, output, scene};
ghost use Rattle.fedi_program.specs.Working.{LeavesRest, PrintsLine, ReportsUnopened, TriesBy};
ghost use Rattle.fedi_program.specs.Working.{Works, sight, works_over};
ghost use Rattle.fedi_queue.specs.Rows.{rows_of};
ghost use Rattle.fedi_report.specs.Reports.{check_text};
ghost use Rattle.fedi_town.specs.Histories.{town};
ghost use Rattle.fedi_town.specs.Legal.{IsLegal};

use crate::checking::count;
use crate::commands::Command;
use crate::delivering::deliver;
use crate::exporting::print_table;
use crate::members::make_member;
use crate::peers::make_peer;
use crate::printing::print;
use crate::statuses::{CUT_SHORT, DONE, OUT_OF_MEMORY, READ_FAULT, WRITE_FAULT};
use crate::stores::{report_store, status_by};
use fedi_core::Core;
use fedi_index::IndexedShelf;
use fedi_logged::{Connection, SessionEnd, serve_connection};
use fedi_outside::{Bench, Clock, Entropy, Keeper, Link, Sink, Source};
use fedi_routes::Routes;
use fedi_startup::StoreFault;
use std::alloc::{AllocError, Global};

fn status_of(end: SessionEnd) -> u8
    ensures { result ≡ status_of end }
{
    match end {
        SessionEnd::End => DONE,
        SessionEnd::Closed => DONE,
        SessionEnd::CutShort => CUT_SHORT,
        SessionEnd::ReadFault => READ_FAULT,
        SessionEnd::WriteFault => WRITE_FAULT,
        SessionEnd::Memory => OUT_OF_MEMORY,
    }
}

/// Serves the connection with the machine. Returns the exit status, and the machine.
fn converse<S: Source, O: Sink, P: Keeper, C: Clock>(
    alloc: Global,
    core: Core<IndexedShelf, P>,
    connection: &mut Connection<S, O, C>,
) -> (u8, Core<IndexedShelf, P>)
    requires unclaimed { core.rows ≡ rows_of (town core.history) }
    requires hosted { IsTrue (is_some (town core.history).host) }
    requires legal { IsLegal core.history }
    ensures ends { let opened = state_of core.history (P.shown core.keeper) in
        let closed = state_of result.1.history (P.shown result.1.keeper) in
        (log : Log) × Survives (base_of P.growth P.room opened) None (given core.history) log closed
        (P.crashes core.keeper) (P.crashes result.1.keeper)
        × HoldsSession (setting_by P.growth P.room (C.told connection.old.clock) None opened)
        opened log (scene S.Source O.Sink connection.old.input connection.old.out)
        (scene S.Source O.Sink connection.new.input connection.new.out) result.0 }
    ensures causes { HasCauses
        (faults S.Source O.Sink connection.old.input connection.old.out)
        (faults S.Source O.Sink connection.new.input connection.new.out) result.0 }
    ensures clock { connection.new.clock ≡ connection.old.clock }
{
    match Routes::new(alloc) {
        Ok(routes) => {
            let (end, core) = serve_connection(alloc, core, routes, connection);
            (status_of(end), core)
        }
        Err(AllocError) => (OUT_OF_MEMORY, core),
    }
}

/// Tries what is due, by the link of the first bench. Returns the exit status, and the machine.
fn deliver_by<O: Sink, P: Keeper, W, K: Link, C: Clock>(
    alloc: Global,
    core: Core<IndexedShelf, P>,
    out: &mut O,
    clock: &C,
    benches: &mut [Bench<W, K>],
) -> (u8, Core<IndexedShelf, P>)
    requires legal { IsLegal core.history }
    requires unclaimed { core.rows ≡ rows_of (town core.history) }
    requires hosted { IsTrue (is_some (town core.history).host) }
    requires some { 0 < length benches.old }
    ensures tried { TriesBy K.Link P.growth P.room (C.told clock.now)
        (state_of core.history (P.shown core.keeper))
        (state_of result.1.history (P.shown result.1.keeper)) benches.old benches.new
        (output O.Sink out.old) (output O.Sink out.new) result.0 }
    ensures crashes { SurvivesMarked
        (base_of P.growth P.room (state_of core.history (P.shown core.keeper)))
        None (given core.history) (state_of result.1.history (P.shown result.1.keeper))
        (P.crashes core.keeper) (P.crashes result.1.keeper) }
{
    deliver(alloc, core, out, clock, &mut benches[0].link)
}

/// Prints how much the machine holds. Returns the exit status.
fn print_line<O: Sink, P: Keeper>(alloc: Global, out: &mut O, core: &Core<IndexedShelf, P>) -> u8
    requires legal { IsLegal core.now.history }
    ensures printed { PrintsLine (output O.Sink out.old) (output O.Sink out.new)
        (check_text core.now.history) result }
    // The machine is only read.
    ensures crashes { let opened = state_of core.now.history (P.shown core.now.keeper) in
        Survives (base_of P.growth P.room opened) None (given core.now.history)
        (given core.now.history) opened (P.crashes core.now.keeper) (P.crashes core.now.keeper) }
{
    match count(alloc, core) {
        Ok(line) => print(out, &line),
        Err(AllocError) => OUT_OF_MEMORY,
    }
}

/// Does what the command asks over a machine that was opened, wherever its records are kept.
/// Returns the exit status, and the machine.
pub(crate) fn work<S: Source, O: Sink, P: Keeper, W, K: Link, C: Clock, E: Entropy>(
    alloc: Global,
    core: Core<IndexedShelf, P>,
    command: Command<'_>,
    connection: &mut Connection<S, O, C>,
    benches: &mut Vec<Bench<W, K>>,
    entropy: &mut E,
) -> (u8, Core<IndexedShelf, P>)
    requires unclaimed { core.rows ≡ rows_of (town core.history) }
    requires hosted { IsTrue (is_some (town core.history).host) }
    requires legal { IsLegal core.history }
    requires works { works_over (task_of command) ≡ true }
    requires linked { task_of command ≡ Deliver → 0 < vec_len benches.old }
    ensures works { let opened = state_of core.history (P.shown core.keeper) in
        let closed = state_of result.1.history (P.shown result.1.keeper) in
        (log : Log) × Survives (base_of P.growth P.room opened) None (given core.history) log closed
        (P.crashes core.keeper) (P.crashes result.1.keeper)
        × Works K.Link P.growth P.room (task_of command.entry) opened closed log
        (sight S.Source O.Sink C.Clock E.Entropy connection.old entropy.old benches.old)
        (sight S.Source O.Sink C.Clock E.Entropy connection.new entropy.new benches.new) result.0 }
    ensures rest { LeavesRest (Some (task_of command.entry)) connection.old connection.new
        entropy.old entropy.new benches.old benches.new }
{
    let mut core = core;
    match command {
        Command::Inetd => converse(alloc, core, connection),
        Command::AddActor { name, locked } => {
            let (out, clock) = (&mut connection.out, &connection.clock);
            let status = make_member(alloc, &mut core, out, clock, entropy, name, locked);
            (status, core)
        }
        Command::AddPeer(peer) => {
            let (out, clock) = (&mut connection.out, &connection.clock);
            let status = make_peer(alloc, &mut core, out, clock, peer);
            (status, core)
        }
        Command::Deliver => {
            let (out, clock) = (&mut connection.out, &connection.clock);
            deliver_by(alloc, core, out, clock, benches)
        }
        Command::Export { table } => {
            let status = print_table(alloc, &mut connection.out, &core, table);
            (status, core)
        }
        Command::Check => {
            let status = print_line(alloc, &mut connection.out, &core);
            (status, core)
        }
        Command::Usage
        | Command::Init { .. }
        | Command::Serve { .. }
        | Command::Migrate
        | Command::Fill
        | Command::Report { .. }
        | Command::Demo { .. }
        | Command::Play => unreachable!(),
    }
}

/// Reports that a store was not opened, unless the command prints nothing. Returns the exit status.
pub(crate) fn report_unopened<O: Sink>(out: &mut O, command: Command<'_>, fault: StoreFault) -> u8
    ensures { ReportsUnopened (task_of command.entry) fault (output O.Sink out.old)
        (output O.Sink out.new) result }
{
    match command {
        Command::Inetd => status_by(fault),
        _ => report_store(out, fault),
    }
}
