//! Keeping the entry of a new member or peer.

ghost use Rattle.std.specs.Prelude.{◌≡◌, ℕ, List, IfErr, IfOk, None, Ok, OnOk};
ghost use Rattle.fedi_core.specs.Commands.{IsCommand};
ghost use Rattle.fedi_core.specs.Keeping.{IsKept};
ghost use Rattle.fedi_log.specs.Keeping.{base_of, state_of};
ghost use Rattle.fedi_log.specs.Log.{given};
ghost use Rattle.fedi_logged.specs.Marks.{SurvivesMarked};
ghost use Rattle.fedi_program.specs.Members.{EndsWith, IsUnmade, ReportsFault};
ghost use Rattle.fedi_program.specs.Seen.{output};
ghost use Rattle.fedi_town.specs.Histories.{town};
ghost use Rattle.fedi_town.specs.Legal.{broken_command};

use crate::printing::{print, report};
use crate::statuses::{DISK_FAULT, FULL, OUT_OF_MEMORY, REFUSED};
use fedi_core::{Core, KeepError, KeepFault};
use fedi_index::IndexedShelf;
use fedi_objects::Entry;
use fedi_outside::{Failed, Keeper, Sink};
use fedi_town::CommandFault;
use std::alloc::{AllocError, Global};

/// Reports why a command was refused. Returns the exit status.
fn report_fault<O: Sink>(out: &mut O, fault: CommandFault) -> u8
    ensures { ReportsFault fault (output O.Sink out.old) (output O.Sink out.new) result }
{
    match fault {
        CommandFault::NameTaken => report(out, REFUSED, b"refused: name taken\n"),
        CommandFault::KeyTaken => report(out, REFUSED, b"refused: key taken\n"),
        CommandFault::HostTaken => report(out, REFUSED, b"refused: host taken\n"),
        CommandFault::BadAddress => report(out, REFUSED, b"refused: bad address\n"),
        CommandFault::Full => report(out, FULL, b"full\n"),
        CommandFault::KeeperFault => report(out, DISK_FAULT, b"disk fault\n"),
        CommandFault::Memory => OUT_OF_MEMORY,
    }
}

/// Keeps the entry of a new member or peer, and returns the line that reports it. The first rule
/// that is broken is reported however little memory is left, and the line is made before the entry
/// is kept, so that nobody is kept who cannot be reported. A keeper that failed is asked once to
/// settle what it may have left, so that the next opening does not find the entry, unless that
/// fails too.
#[tactic(auto, using(fedi_core::proofs::Commanding::command_may))]
fn keep_entry<P: Keeper>(
    alloc: Global,
    core: &mut Core<IndexedShelf, P>,
    entry: Entry,
    line: Result<Vec<u8>, AllocError>,
) -> Result<Vec<u8>, CommandFault>
    requires command { IsCommand (town core.old.history) entry }
    ensures line { IfOk result (λ told. line ≡ Ok told) }
    ensures unbroken { OnOk result (broken_command (town core.old.history) entry ≡ None) }
    ensures kept { OnOk result (IsKept P.growth P.room core.old.history entry
        (P.shown core.old.keeper) (P.shown core.new.keeper) core.new.history) }
    ensures unmade { IfErr result (λ fault. IsUnmade P.room
        (state_of core.old.history (P.shown core.old.keeper))
        (state_of core.new.history (P.shown core.new.keeper)) entry fault) }
    // A crash during the call leaves the records, followed by at most one more: the one in doubt,
    // or the entry's.
    ensures crashes { SurvivesMarked
        (base_of P.growth P.room (state_of core.old.history (P.shown core.old.keeper)))
        None (given core.old.history) (state_of core.new.history (P.shown core.new.keeper))
        (P.crashes core.old.keeper) (P.crashes core.new.keeper) }
{
    if let Err(fault) = core.facts().judge_command(&entry) {
        return Err(fault);
    }
    let Ok(line) = line else {
        return Err(CommandFault::Memory);
    };
    match core.keep(alloc, entry) {
        Ok(()) => Ok(line),
        Err(KeepError { fault, .. }) => match fault {
            KeepFault::Full => Err(CommandFault::Full),
            KeepFault::Failed => {
                // Whatever the result, the command failed.
                let _ = core.settle();
                Err(CommandFault::KeeperFault)
            }
            KeepFault::Memory => Err(CommandFault::Memory),
        },
    }
}

/// Keeps the entry of a new member or peer, and prints the line that reports it, or why it was
/// refused. If there is no memory for the line, nothing is kept. Returns the exit status: at 0 and
/// 7 the entry was kept. At 5 the disk failed: the entry was not kept, unless the disk failed again
/// when it was to undo what it had of the entry, and then the next opening may find it.
pub fn enroll<O: Sink, P: Keeper>(
    alloc: Global,
    core: &mut Core<IndexedShelf, P>,
    out: &mut O,
    entry: Entry,
    line: Result<Vec<u8>, AllocError>,
) -> u8
    requires command { IsCommand (town core.old.history) entry }
    ensures ends { (text : List ℕ) → IfOk line (λ told. told.items ≡ text)
        → EndsWith P.growth P.room (state_of core.old.history (P.shown core.old.keeper))
        (state_of core.new.history (P.shown core.new.keeper))
        (output O.Sink out.old) (output O.Sink out.new) entry text result }
    ensures crashes { SurvivesMarked
        (base_of P.growth P.room (state_of core.old.history (P.shown core.old.keeper)))
        None (given core.old.history) (state_of core.new.history (P.shown core.new.keeper))
        (P.crashes core.old.keeper) (P.crashes core.new.keeper) }
{
    match keep_entry(alloc, core, entry, line) {
        Ok(line) => print(out, &line),
        Err(fault) => report_fault(out, fault),
    }
}
