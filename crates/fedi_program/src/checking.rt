//! Counting what a store holds.

ghost use Rattle.std.specs.Prelude.{◌≡◌, ◌++◌, ℕ, List, IfOk, IfSome, None};
ghost use Rattle.fedi_journal.specs.Chains.{chain};
ghost use Rattle.fedi_journal.specs.Opening.{disk_of};
ghost use Rattle.fedi_log.specs.Keeping.{base_of, state_of};
ghost use Rattle.fedi_log.specs.Log.{given};
ghost use Rattle.fedi_logged.specs.Marks.{Survives};
ghost use Rattle.fedi_objects.specs.declared.entry.Entry.{Entry};
ghost use Rattle.fedi_program.specs.Seen.{medium, output};
ghost use Rattle.fedi_program.specs.Stores.{ChecksStore, PrintsCount, tip_line};
ghost use Rattle.fedi_report.specs.Reports.{check_text};
ghost use Rattle.fedi_startup.specs.Stores.{IsClosed, records_of};
ghost use Rattle.fedi_town.specs.Legal.{IsLegal};

use crate::printing::print;
use crate::statuses::OUT_OF_MEMORY;
use crate::stores::report_store;
use fedi_core::Core;
use fedi_effects::Seed;
use fedi_index::IndexedShelf;
use fedi_journal::{Chain, SealedJournal};
use fedi_mac::hex_text;
use fedi_outside::{Disk, Keeper, Sink};
use fedi_report::check_line;
use fedi_startup::{StoreCore, open_store};
use std::alloc::{AllocError, Global};

/// The line that says how much the machine holds. The error is out of memory.
pub(crate) fn count<P: Keeper>(
    alloc: Global,
    core: &Core<IndexedShelf, P>,
) -> Result<Vec<u8>, AllocError>
    requires legal { IsLegal core.now.history }
    ensures counted { IfOk result (λ line. line.items ≡ check_text core.now.history) }
    // The machine is only read.
    ensures crashes { let opened = state_of core.now.history (P.shown core.now.keeper) in
        Survives (base_of P.growth P.room opened) None (given core.now.history)
        (given core.now.history) opened (P.crashes core.now.keeper) (P.crashes core.now.keeper) }
{
    check_line(alloc, core)
}

/// The chain of the records of a machine, and its disk, closed.
fn close_with_tip<D: Disk>(core: StoreCore<D>) -> ([u8; 32], D)
    ensures tip { IfSome (D.shown (disk_of core.keeper)).reads
        (λ _. result.0 ≡ chain (records_of core.history)) }
    ensures disk { result.1 ≡ disk_of core.keeper }
    ensures closed { IsClosed (D.shown result.1) (D.crashes result.1)
        (state_of core.history (⟦<SealedJournal<D, Chain> as Keeper>⟧.shown core.keeper)) }
{
    let journal = core.close();
    let tip = journal.tip();
    (tip, journal.into_disk())
}

/// The line, and after it the one that gives the chain. The error is out of memory.
#[tactic(auto, unfolding(crate::specs::Stores::tip_line))]
fn with_tip(line: Result<Vec<u8>, AllocError>, tip: &[u8; 32]) -> Result<Vec<u8>, AllocError>
    ensures { (text : List ℕ) → IfOk line (λ line. line.items ≡ text)
        → IfOk result (λ lines. lines.items ≡ text ++ tip_line tip.now) }
{
    let mut lines = line?;
    lines.extend_from_slice(b"tip ")?;
    lines.extend_from_slice(&hex_text(tip))?;
    lines.push(b'\n')?;
    Ok(lines)
}

/// Prints the line, and after it the one that gives the chain. Returns the exit status.
fn print_count<O: Sink>(out: &mut O, line: Result<Vec<u8>, AllocError>, tip: &[u8; 32]) -> u8
    ensures { (history : List Entry) → IfOk line (λ line. line.items ≡ check_text history)
        → PrintsCount tip.now (output O.Sink out.old) (output O.Sink out.new) history result }
{
    match with_tip(line, tip) {
        Ok(lines) => print(out, &lines),
        Err(AllocError) => OUT_OF_MEMORY,
    }
}

/// Counts what the store of the disk holds. Returns the exit status, and the disk as it was.
pub(crate) fn check<O: Sink, D: Disk>(alloc: Global, seed: Seed, out: &mut O, disk: D) -> (u8, D)
    ensures checked { ChecksStore (medium D.Disk disk) (medium D.Disk result.1)
        (output O.Sink out.old) (output O.Sink out.new) result.0 }
{
    match open_store(alloc, seed, disk) {
        Ok(core) => {
            let line = count(alloc, &core);
            let (tip, disk) = close_with_tip(core);
            (print_count(out, line, &tip), disk)
        }
        Err((fault, disk)) => (report_store(out, fault), disk),
    }
}
