//! Trying each delivery that is due, as an operator asks.

ghost use Rattle.std.specs.Prelude.{◌≡◌, ℕ, IfOk, IsTrue, None, OnOk, Option, is_some};
ghost use Rattle.fedi_log.specs.Claims.{HasClaimed};
ghost use Rattle.fedi_log.specs.Keeping.{GoesAlone, base_of, state_of};
ghost use Rattle.fedi_log.specs.Log.{given};
ghost use Rattle.fedi_log.specs.declared.items.Pair.{Pair};
ghost use Rattle.fedi_logged.specs.Claiming.{IsClaimed};
ghost use Rattle.fedi_logged.specs.Conversations.{IsNow};
ghost use Rattle.fedi_logged.specs.Logs.{AreSame};
ghost use Rattle.fedi_logged.specs.Marks.{SurvivesMarked};
ghost use Rattle.fedi_outside.specs.Keepers.{PassesTime};
ghost use Rattle.fedi_program.specs.Delivering.{EndsNext, IsAtRest, IsStopped, TriesDue};
ghost use Rattle.fedi_program.specs.Delivering.{attempt_line, done_line, stop_of, word_of};
ghost use Rattle.fedi_program.specs.Seen.{output, tells};
ghost use Rattle.fedi_queue.specs.Rows.{rows_of};
ghost use Rattle.fedi_town.specs.Histories.{town};
ghost use Rattle.fedi_town.specs.Legal.{IsLegal};
ghost use Rattle.fedi_town.specs.Queues.{outcome};

use crate::printing::{print, report, write};
use crate::statuses::{DISK_FAULT, FULL, OUT_OF_MEMORY, WRITE_FAULT};
use arrayvec::ArrayString;
use fedi_address::Iri;
use fedi_core::{Core, RecordFault};
use fedi_effects::outcome_of;
use fedi_index::IndexedShelf;
use fedi_logged::{Alone, Logged, Opened, Tried, attempt_next};
use fedi_objects::Came;
use fedi_outside::{Clock, Failed, Keeper, Link, Sink};
use fedi_queue::Claim;
use fedi_text::Moment;
use fedi_town::Outcome;
use std::alloc::{AllocError, Global};
use std::marker::Brand;

/// Why no more deliveries are tried.
#[derive(Clone, Copy)]
pub(crate) enum Stop {
    /// A write failed.
    WriteFault,
    /// The keeper failed, and the entry of the attempt may be in doubt.
    KeeperFault,
    /// The keeper has no room for the entry of the attempt.
    Full,
    /// Out of memory.
    Memory,
}

// ---- what is printed

/// The word for the result of an attempt.
fn word_of(came: Came) -> &'static str
    ensures { result.now ≡ word_of (outcome came) }
{
    match outcome_of(came) {
        Outcome::Delivered => "delivered",
        Outcome::Again => "again",
        Outcome::GivenUp => "gave-up",
    }
}

/// The line that reports the result of an attempt to deliver the activity to the recipient. It
/// names only the recipient's host. The error is out of memory.
#[tactic(auto, unfolding(crate::specs::Delivering::attempt_line))]
fn attempt_line(
    alloc: Global,
    activity: &Iri,
    recipient: &Iri,
    came: Came,
) -> Result<Vec<u8>, AllocError>
    ensures { IfOk result (λ line. line.items
        ≡ attempt_line activity.now recipient.now came) }
{
    let mut line = Vec::new(alloc);
    line.extend_from_slice(activity.text().as_bytes())?;
    line.push(b' ')?;
    line.extend_from_slice(recipient.host().as_bytes())?;
    line.push(b' ')?;
    line.extend_from_slice(word_of(came).as_bytes())?;
    line.push(b'\n')?;
    Ok(line)
}

/// The line that says how many deliveries were tried.
#[tactic(auto, unfolding(crate::specs::Delivering::done_line))]
fn done_line(count: u64) -> ArrayString<32>
    ensures { result.bytes ≡ done_line count }
{
    let mut digits = itoa::Buffer::new();
    let mut line = ArrayString::new();
    line.push_str("done ");
    line.push_str(digits.format(count));
    line.push_str("\n");
    line
}

// ---- one delivery

// The line that reports the result of an attempt of a delivery that is claimed. The error is out of
// memory.
fn line_of<P: Keeper, N: Opened>(
    alloc: Global,
    logged: &Logged<IndexedShelf, P, N>,
    claim: &Claim,
    came: Came,
) -> Result<Vec<u8>, AllocError>
    requires claimed { IsClaimed None logged.now.log claim.now }
    ensures { (p : Pair) → HasClaimed None logged.now.log p claim.now
        → IfOk result (λ line. line.items ≡ attempt_line p.activity p.recipient came) }
{
    let (activity, recipient) = logged.claimed_of(claim);
    attempt_line(alloc, activity, recipient, came)
}

// Why no more is tried, if the result of an attempt was not kept for this reason.
fn stop_of(fault: RecordFault) -> Stop
    ensures { result ≡ stop_of fault }
{
    match fault {
        RecordFault::KeeperFault => Stop::KeeperFault,
        RecordFault::Full => Stop::Full,
        RecordFault::Memory => Stop::Memory,
    }
}

/// Tries the first delivery that is due at this moment (ActivityPub, sections 7.1 and 7.1.2), keeps
/// its result, and prints the line that reports it. The line is made before the entry is kept.
/// Returns whether there was one. After an error nothing was kept, except for `WriteFault`, and
/// nothing is claimed.
fn try_next<O: Sink, P: Keeper, N: Opened, K: Link>(
    alloc: Global,
    alone: &mut Alone<IndexedShelf, P, N, ()>,
    out: &mut O,
    link: &mut K,
    moment: Moment,
) -> Result<bool, Stop>
    requires hosted { IsTrue (is_some (town N.state.history).host) }
    requires rest { IsAtRest N.state.history
        alone.old.logged.core.history alone.old.logged.log }
    ensures alone { GoesAlone None (given N.state.history) alone.new.logged.log }
    ensures rest { OnOk result (IsAtRest N.state.history
        alone.new.logged.core.history alone.new.logged.log) }
    ensures tries { EndsNext P.growth P.room moment
        (state_of alone.old.logged.core.history (P.shown alone.old.logged.core.keeper))
        (state_of alone.new.logged.core.history (P.shown alone.new.logged.core.keeper))
        (tells K.Link link.old) (tells K.Link link.new)
        (output O.Sink out.old) (output O.Sink out.new) result }
{
    let (_, next) = attempt_next(alloc, alone, link, moment);
    let tried = match next {
        Ok(Some(tried)) => tried,
        Ok(None) => return Ok(false),
        Err(AllocError) => return Err(Stop::Memory),
    };
    let Tried { claim, came } = tried;
    let Ok(line) = line_of(alloc, &alone.logged, &claim, came) else {
        alone.logged.release(None, claim);
        return Err(Stop::Memory);
    };
    match alone.logged.record(alloc, None, claim, came, moment) {
        Ok(()) => match write(out, &line) {
            Ok(()) => Ok(true),
            Err(Failed) => Err(Stop::WriteFault),
        },
        Err(fault) => Err(stop_of(fault)),
    }
}

// ---- all that is due

/// Reports why no more is tried. A keeper that failed is asked once to settle what it may have
/// left, so that the next opening does not find the entry, unless that fails too. Returns the exit
/// status.
fn report_stop<O: Sink, P: Keeper>(core: &mut Core<IndexedShelf, P>, out: &mut O, stop: Stop) -> u8
    ensures ends { IsStopped stop
        (state_of core.old.history (P.shown core.old.keeper))
        (state_of core.new.history (P.shown core.new.keeper))
        (output O.Sink out.old) (output O.Sink out.new) result }
    ensures time { PassesTime (P.shown core.old.keeper).records (P.shown core.old.keeper).doubt
        (P.crashes core.old.keeper) (P.crashes core.new.keeper) }
{
    match stop {
        Stop::WriteFault => WRITE_FAULT,
        Stop::KeeperFault => {
            // Whatever the result, the command failed.
            let _ = core.settle();
            report(out, DISK_FAULT, b"disk fault\n")
        }
        Stop::Full => report(out, FULL, b"full\n"),
        Stop::Memory => OUT_OF_MEMORY,
    }
}

/// Tries each delivery that is due at this moment, once, in the order of the queue. Returns the
/// exit status, as described for `deliver`, and the machine.
fn try_due<O: Sink, P: Keeper, N: Opened, K: Link>(
    alloc: Global,
    core: Core<IndexedShelf, P>,
    out: &mut O,
    link: &mut K,
    moment: Moment,
) -> (u8, Core<IndexedShelf, P>)
    requires legal { IsLegal core.history }
    requires unclaimed { core.rows ≡ rows_of (town core.history) }
    requires opened { N.state ≡ state_of core.history (P.shown core.keeper) }
    requires crashes { AreSame N.crashes (P.crashes core.keeper) }
    requires hosted { IsTrue (is_some (town core.history).host) }
    ensures tried { (reading : Option ℕ) → IsNow reading moment → TriesDue P.growth P.room reading
        N.state (state_of result.1.history (P.shown result.1.keeper))
        (tells K.Link link.old) (tells K.Link link.new)
        (output O.Sink out.old) (output O.Sink out.new) result.0 }
    ensures crashes { SurvivesMarked (base_of P.growth P.room N.state) None (given N.state.history)
        (state_of result.1.history (P.shown result.1.keeper)) N.crashes (P.crashes result.1.keeper) }
{
    let first = core.count();
    let mut alone = Alone::<IndexedShelf, P, N, ()>::of(core, ());
    'due: loop {
        match try_next(alloc, &mut alone, out, link, moment) {
            Ok(true) => {}
            Ok(false) => {
                let core = alone.into_core();
                let line = done_line(core.count() - first);
                return (print(out, line.as_bytes()), core);
            }
            Err(stop) => {
                let mut core = alone.into_core();
                let status = report_stop(&mut core, out, stop);
                return (status, core);
            }
        }
    }
}

/// Tries each delivery that is due at the one moment that is read from the clock, once, in the
/// order of the queue (ActivityPub, sections 7.1 and 7.1.2). The result of each is kept, and then
/// the line that reports it is printed, before the next is claimed. The last line says how many
/// were tried. Returns the exit status, and the machine. The status is 0 if nothing is left that
/// was due then; 7 if a write failed, which may be that of the line of the last result that was
/// kept; 5 if the disk failed, and 13 if the store has no room, when the result of one more attempt
/// was to be kept; and 12 if memory ran out. What is kept and what is printed are then those of the
/// first of the deliveries.
pub fn deliver<O: Sink, P: Keeper, C: Clock, K: Link>(
    alloc: Global,
    core: Core<IndexedShelf, P>,
    out: &mut O,
    clock: &C,
    link: &mut K,
) -> (u8, Core<IndexedShelf, P>)
    requires legal { IsLegal core.history }
    requires unclaimed { core.rows ≡ rows_of (town core.history) }
    requires hosted { IsTrue (is_some (town core.history).host) }
    ensures tried { TriesDue P.growth P.room (C.told clock.now)
        (state_of core.history (P.shown core.keeper))
        (state_of result.1.history (P.shown result.1.keeper))
        (tells K.Link link.old) (tells K.Link link.new)
        (output O.Sink out.old) (output O.Sink out.new) result.0 }
    ensures crashes { SurvivesMarked
        (base_of P.growth P.room (state_of core.history (P.shown core.keeper)))
        None (given core.history) (state_of result.1.history (P.shown result.1.keeper))
        (P.crashes core.keeper) (P.crashes result.1.keeper) }
{
    let moment = Moment::clamped(clock.now());
    try_due::<O, P, Brand, K>(alloc, core, out, link, moment)
}
