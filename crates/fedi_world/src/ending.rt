//! The end of an attempt: it gets no reply, its result is kept, or its server crashes.

ghost use Rattle.std.specs.Prelude.{◌≡◌, ◌≢◌, ◌≤◌, IfErr, IfOk, IsTrue, Some, false};
ghost use Rattle.std.specs.Prelude.{length, map};
ghost use Rattle.fedi_entry.specs.Fields.{MayCome};
ghost use Rattle.fedi_log.specs.Claims.{HasClaimed};
ghost use Rattle.fedi_worlds.specs.Steps.{IsFit};
ghost use Rattle.fedi_worlds.specs.Worlds.{is_open};
ghost use Rattle.fedi_seat.specs.Seats.{IsSeat};
ghost use Rattle.fedi_world.specs.Ending.{EndsAt, GivesBack, HasNoOpenAt, IsOpenAt, failed_at};
ghost use Rattle.fedi_world.specs.Ending.{over, over_at, unkept};
ghost use Rattle.fedi_world.specs.Happenings.{AreCaused, Happens, Leaves, limits};
ghost use Rattle.fedi_world.specs.Scenes.{attempt_of, claim_in, stage_of};
ghost use Rattle.fedi_world.specs.Standing.{IsTied, pair_at};

use crate::blank::Blank;
use crate::event::{Event, Happened, WorldFault};
use crate::parts::{Pending, Stage};
use crate::world::World;
use fedi_core::RecordFault;
use fedi_objects::{Came, Sent, What};
use fedi_queue::Claim;
use fedi_seat::{Calm, Seat};
use fedi_text::Moment;
use fedi_visible::Shelf;
use std::alloc::Global;

// The claim of the attempt.
pub(crate) fn claim_of(pending: &Pending) -> Claim
    ensures { result ≡ claim_in pending.now }
{
    Claim {
        activity: pending.place.activity,
        recipient: pending.place.recipient,
        moment: pending.claimed,
    }
}

// Whether the attempt has not ended.
pub(crate) fn is_open(pending: &Pending) -> bool
    ensures { result ≡ is_open (stage_of pending.now.stage) }
{
    match pending.stage {
        Stage::Looking | Stage::Posting => true,
        Stage::Over => false,
    }
}

// What an open attempt comes to if it gets no reply.
fn failure_of(pending: &Pending) -> Came
    ensures { result ≡ failed_at (stage_of pending.now.stage) }
{
    let step = match pending.stage {
        Stage::Looking => Sent::Lookup,
        Stage::Posting | Stage::Over => Sent::Post,
    };
    Came {
        step,
        what: What::Failed,
    }
}

// For the proof: shows that the history is one that a server may have, and that the deliveries are
// claimed as the log says. It does nothing when it runs.
pub(crate) fn show<S: Shelf + Drop, P: Calm>(seat: &Seat<S, P>)
    ensures fit { IsFit seat.now.core.history }
    ensures seat { IsSeat seat.now.core.history seat.now.core.rows seat.now.log }
{
    seat.show();
    let _few = seat.facts().activities();
}

// Why the result of an attempt was not kept.
fn fault_of(fault: RecordFault) -> WorldFault
    requires { fault ≢ RecordFault.KeeperFault }
    ensures { result ≡ unkept fault }
{
    match fault {
        RecordFault::Full => WorldFault::Full,
        RecordFault::Memory => WorldFault::Memory,
        RecordFault::KeeperFault => unreachable!(),
    }
}

// Ends the open attempt of this number, and keeps this result of it at its server. The errors are
// `Full`, if the server has no room for the result, and `Memory`, out of memory: the attempt has
// ended all the same, and the delivery may be claimed again.
pub(crate) fn end_attempt<S: Shelf + Drop, P: Calm>(
    alloc: Global,
    seat: &mut Seat<S, P>,
    pending: &mut Pending,
    number: u64,
    came: Came,
    moment: Moment,
) -> Result<(), WorldFault>
    requires claimed { HasClaimed (Some number) seat.old.log (pair_at (attempt_of pending.old))
        (claim_in pending.old) }
    requires came { MayCome came.step came.what }
    requires later { pending.old.claimed ≤ moment }
    ensures over { pending.new ≡ over pending.old }
    ensures fit { IsFit seat.new.core.history }
    ensures stand { IsSeat seat.old.core.history seat.old.core.rows seat.old.log }
    ensures ends { EndsAt (limits P.growth P.room) P.shown number
        (pair_at (attempt_of pending.old)) came moment seat.old seat.new result }
{
    show(seat);
    let claim = claim_of(pending);
    pending.stage = Stage::Over;
    let recorded = seat.record(alloc, number, claim, came, moment);
    show(seat);
    match recorded {
        Ok(()) => Ok(()),
        Err(fault) => Err(fault_of(fault)),
    }
}

// Whether there is an open attempt of this number.
fn has_open(attempts: &[Pending], number: usize) -> bool
    ensures some { IsTrue result → IsOpenAt attempts.now number }
    ensures none { result ≡ false → HasNoOpenAt attempts.now number }
{
    number < attempts.len() && is_open(&attempts[number])
}

// Ends the attempts of this server, and gives back what they have claimed.
fn end_all<S: Shelf + Drop, P: Calm>(seat: &mut Seat<S, P>, attempts: &mut [Pending], server: usize)
    requires tied { IsTied (map attempt_of attempts.old) (map claim_in attempts.old) server
        seat.old.log }
    ensures tied { IsTied (map attempt_of attempts.new) (map claim_in attempts.new) server
        seat.new.log }
    ensures ended { attempts.new ≡ map (over_at server) attempts.old }
    ensures seat { GivesBack seat.old seat.new }
{
    for number in 0..attempts.len() {
        show(seat);
        let pending = &mut attempts[number];
        if pending.server == server && is_open(pending) {
            seat.release(number as u64, claim_of(pending));
            pending.stage = Stage::Over;
        }
    }
}

impl<S: Blank + Drop, P: Calm + Drop> World<S, P> {
    // Lets the attempt end without a reply to its last request.
    pub(crate) fn lose(&mut self, alloc: Global, attempt: u64) -> Result<Happened, WorldFault>
        ensures happened { IfOk result (λ what. Happens (limits P.growth P.room)
            self.old (Event.Lose attempt) what self.new) }
        ensures left { IfErr result (λ fault. Leaves (limits P.growth P.room) fault
            self.old (Event.Lose attempt) self.new) }
        ensures causes { AreCaused self.old.world (Event.Lose attempt) result }
    {
        let number = attempt as usize;
        if !has_open(&self.attempts, number) {
            return Err(WorldFault::NoAttempt);
        }
        let pending = &mut self.attempts[number];
        let came = failure_of(pending);
        let seat = &mut self.seats[pending.server];
        match end_attempt(alloc, seat, pending, attempt, came, self.moment) {
            Ok(()) => Ok(Happened::Recorded(came)),
            Err(fault) => Err(fault),
        }
    }

    // Lets the server stop and start again. What its attempts have claimed is given back before the
    // machine is opened anew: so it is as after an opening even if there is no memory for one.
    pub(crate) fn crash(&mut self, alloc: Global, server: u32) -> Result<Happened, WorldFault>
        ensures happened { IfOk result (λ what. Happens (limits P.growth P.room)
            self.old (Event.Crash server) what self.new) }
        ensures left { IfErr result (λ fault. Leaves (limits P.growth P.room) fault
            self.old (Event.Crash server) self.new) }
        ensures causes { AreCaused self.old.world (Event.Crash server) result }
    {
        let number = server as usize;
        if number >= self.seats.len() {
            return Err(WorldFault::NoServer);
        }
        let seat = &mut self.seats[number];
        end_all(seat, &mut self.attempts, number);
        seat.reopen(alloc, S::blank(alloc)?)?;
        Ok(Happened::Crashed)
    }

    // Lets so many seconds pass.
    pub(crate) fn wait(&mut self, seconds: u32) -> Happened
        ensures { Happens (limits P.growth P.room) self.old (Event.Wait seconds) result self.new }
    {
        self.moment = Moment::clamped(self.moment.seconds() + u64::from(seconds));
        Happened::Waited
    }
}
