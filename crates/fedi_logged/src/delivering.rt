//! Attempts of what is due, one delivery at a time.
ghost use Rattle.std.specs.Prelude.{◌≡◌, ◌⊎◌, ◌++◌, ◌≤◌, IfOk, IfSome};
ghost use Rattle.fedi_entry.specs.Fields.{MayCome};
ghost use Rattle.fedi_log.specs.Claims.{HasClaimed};
ghost use Rattle.fedi_log.specs.Log.{Goes, Log, history_of};
ghost use Rattle.fedi_log.specs.declared.items.Pair.{Pair};
ghost use Rattle.fedi_logged.specs.Attempts.{EndsAttempt, told_by};
ghost use Rattle.fedi_logged.specs.Claiming.{IsClaimed, IsPostSince, IsSending};
ghost use Rattle.fedi_logged.specs.Delivering.{RecordsInTurn, ReleasesInTurn, Steps, TakesUpInTurn};
ghost use Rattle.fedi_logged.specs.Delivering.{TriesNext, rest_of, step_after};
ghost use Rattle.fedi_logged.specs.Turning.{setting_at};
ghost use Rattle.fedi_town.specs.Histories.{town};

use crate::claims::Sending;
use crate::turns::Turns;
use fedi_address::Iri;
use fedi_core::RecordFault;
use fedi_delivery::{Found, Outgoing, look_up, post};
use fedi_objects::Came;
use fedi_outside::{Clock, Link, REPLY_LENGTH, Rest};
use fedi_queue::Claim;
use fedi_text::Moment;
use std::alloc::{AllocError, Global};

/// A delivery that was attempted and is still claimed. It is used up by the turn that records its
/// outcome, or by its release.
pub struct Tried {
    /// The claim.
    pub claim: Claim,
    /// The outcome.
    pub came: Came,
}

/// The result of looking for a delivery that is due. Positions are those of items in the log.
#[derive(Clone, Copy)]
pub enum Step {
    /// A delivery was attempted, and the outcome is kept.
    Sent {
        /// The position of its claim.
        claimed: u64,
        /// The outcome.
        came: Came,
        /// The position of its entry.
        front: u64,
    },
    /// Every delivery that is due is claimed.
    Nothing {
        /// The length of the log at that time.
        front: u64,
        /// The moment.
        moment: Moment,
    },
    /// A delivery was attempted, and the keeper failed to keep the outcome. It is still due.
    Fault {
        /// The position of its claim.
        claimed: u64,
        /// The position of the mark of its entry.
        front: u64,
    },
    /// A delivery was attempted, and the keeper has no room for the outcome. It is still due.
    Full {
        /// The position of its claim.
        claimed: u64,
        /// The position of its release.
        front: u64,
    },
    /// Memory ran out. What was claimed is released, and is still due.
    Memory,
}

impl Step {
    // What became of an attempt, given what became of its entry.
    fn after(claimed: u64, came: Came, front: u64, recorded: Result<(), RecordFault>) -> Step
        ensures { result ≡ step_after claimed came front recorded }
    {
        match recorded {
            Ok(()) => Step::Sent {
                claimed,
                came,
                front,
            },
            Err(RecordFault::KeeperFault) => Step::Fault { claimed, front },
            Err(RecordFault::Full) => Step::Full { claimed, front },
            Err(RecordFault::Memory) => Step::Memory,
        }
    }

    /// What is reported to a door about this step.
    pub fn rest(self) -> Rest
        ensures { result ≡ rest_of self }
    {
        match self {
            Step::Sent { claimed, .. } | Step::Fault { claimed, .. } | Step::Full { claimed, .. } =>
                { Rest::Tried { claimed } }
            Step::Nothing { front, moment } => Rest::Nothing {
                front,
                moment: moment.seconds(),
            },
            Step::Memory => Rest::Lost,
        }
    }
}

/// A machine that also delivers, by four turns: a delivery is taken up, the post to the inbox is
/// made, and the outcome is recorded or the delivery released.
pub trait Delivers: Turns {
    /// What is known of a machine between turns.
    ghost Own: { Type 0 };

    /// Everything of the machine but what is claimed, if nobody else uses it, and nothing if others
    /// do: of these turns only a record changes it.
    ghost own: { Self → Own };

    /// Takes up the first delivery that is due at this moment and not claimed: claims it, and makes
    /// what is sent to deliver it (ActivityPub, section 7.1). Returns the length of the log before
    /// this, and the delivery, or `None` if there is no such delivery. The error is out of memory,
    /// and then nothing is left claimed.
    fn take_up(
        &mut self,
        alloc: Global,
        moment: Moment,
    ) -> (u64, Result<Option<Sending>, AllocError>)
        requires ready { Self.ready self.old }
        ensures ready { Self.ready self.new }
        ensures same { Self.same self.old self.new }
        ensures stays { own self.new ≡ own self.old }
        ensures taken { TakesUpInTurn (Self.by self.old) moment
            (Self.seen self.old) (Self.seen self.new) result.0 result.1 };

    /// Makes the post of the body to the inbox, for the recipient of a delivery that the pass has
    /// claimed (ActivityPub, section 7.1). The error is out of memory.
    fn inbox_post(
        &mut self,
        alloc: Global,
        claim: &Claim,
        inbox: &Iri,
        body: &[u8],
    ) -> Result<Vec<u8>, AllocError>
        requires ready { Self.ready self.old }
        requires claimed { IsClaimed (Self.by self.old) (Self.seen self.old) claim.now }
        ensures ready { Self.ready self.new }
        ensures same { Self.same self.old self.new }
        ensures stays { own self.new ≡ own self.old }
        ensures goes { Goes (Self.by self.old) (Self.seen self.old) (Self.seen self.new) }
        ensures post { (p : Pair)
            → HasClaimed (Self.by self.old) (Self.seen self.old) p claim.now
            → IfOk result (λ text.
            IsPostSince (Self.seen self.new) p inbox.now body.now text.items) };

    /// Releases a delivery that the pass has claimed. It takes no memory.
    fn release(&mut self, claim: Claim)
        requires ready { Self.ready self.old }
        requires claimed { IsClaimed (Self.by self.old) (Self.seen self.old) claim }
        ensures ready { Self.ready self.new }
        ensures same { Self.same self.old self.new }
        ensures stays { own self.new ≡ own self.old }
        ensures released { (p : Pair)
            → HasClaimed (Self.by self.old) (Self.seen self.old) p claim
            → ReleasesInTurn (Self.by self.old) (Self.seen self.old) (Self.seen self.new) p };

    /// Keeps the outcome of an attempt of a delivery that the pass has claimed, or releases the
    /// delivery. Returns the length of the log before this, and why the outcome was not kept.
    fn record(
        &mut self,
        alloc: Global,
        claim: Claim,
        came: Came,
        moment: Moment,
    ) -> (u64, Result<(), RecordFault>)
        requires ready { Self.ready self.old }
        requires claimed { IsClaimed (Self.by self.old) (Self.seen self.old) claim }
        requires came { MayCome came.step came.what }
        requires later { claim.moment ≤ moment }
        ensures ready { Self.ready self.new }
        ensures same { Self.same self.old self.new }
        ensures recorded { (p : Pair)
            → HasClaimed (Self.by self.old) (Self.seen self.old) p claim
            → RecordsInTurn Self.base (Self.by self.old) (Self.seen self.old) (Self.seen self.new)
            p came moment result.0 result.1 };
}

// Attempts a delivery that the pass has claimed over the link (ActivityPub, section 7.1): looks the
// recipient up, and posts the activity to the inbox that was found. Both exchanges are outside of
// turns. The error is out of memory, which does not undo what was already sent.
fn attempt<T: Delivers, K: Link>(
    alloc: Global,
    turns: &mut T,
    claim: &Claim,
    recipient: &Iri,
    outgoing: &Outgoing,
    link: &mut K,
) -> Result<Came, AllocError>
    requires ready { T.ready turns.old }
    requires claimed { IsClaimed (T.by turns.old) (T.seen turns.old) claim.now }
    ensures ready { T.ready turns.new }
    ensures same { T.same turns.old turns.new }
    ensures stays { T.own turns.new ≡ T.own turns.old }
    ensures goes { Goes (T.by turns.old) (T.seen turns.old) (T.seen turns.new) }
    ensures came { (p : Pair) (log more : Log)
        → HasClaimed (T.by turns.old) (T.seen turns.old) p claim.now
        → T.seen turns.old ≡ log ++ more
        → IsSending (town (history_of log)) p claim.now recipient.now outgoing.now
        → EndsAttempt (town (history_of log)) p.activity p.recipient
        (told_by K.asked K.heard K.link_faults link.old)
        (told_by K.asked K.heard K.link_faults link.new) result }
    ensures may_come { IfOk result (λ came. MayCome came.step came.what) }
{
    let mut buffer = vec![in alloc; 0; REPLY_LENGTH]?;
    let address = outgoing.address.text();
    match look_up(
        alloc,
        link,
        address,
        &outgoing.lookup,
        recipient,
        &mut buffer,
    )? {
        Found::Ended(came) => Ok(came),
        Found::Inbox(inbox) => {
            let request = turns.inbox_post(alloc, claim, &inbox, &outgoing.body)?;
            Ok(post(link, address, &request, &mut buffer))
        }
    }
}

/// Attempts the first delivery that is due at this moment and not claimed (ActivityPub, sections
/// 7.1 and 7.1.2): claims it in one turn, looks its recipient up and posts it outside of turns.
/// Returns the length of the log before the claim, and the delivery, which is then still claimed,
/// or `None` if there is no such delivery. The error is out of memory. What was claimed is then
/// released, and what was already sent is not undone.
pub fn attempt_next<T: Delivers, K: Link>(
    alloc: Global,
    turns: &mut T,
    link: &mut K,
    moment: Moment,
) -> (u64, Result<Option<Tried>, AllocError>)
    requires ready { T.ready turns.old }
    ensures ready { T.ready turns.new }
    ensures same { T.same turns.old turns.new }
    ensures stays { T.own turns.new ≡ T.own turns.old }
    ensures tried { TriesNext (T.by turns.old) moment (T.seen turns.old) (T.seen turns.new)
        (told_by K.asked K.heard K.link_faults link.old)
        (told_by K.asked K.heard K.link_faults link.new) result.0 result.1 }
    ensures may_come { IfOk result.1 (λ next. IfSome next (λ tried.
        MayCome tried.came.step tried.came.what)) }
{
    let (front, taken) = turns.take_up(alloc, moment);
    let Sending {
        claim,
        recipient,
        outgoing,
    } = match taken {
        Ok(Some(sending)) => sending,
        Ok(None) => return (front, Ok(None)),
        Err(AllocError) => return (front, Err(AllocError)),
    };
    let Ok(came) = attempt(alloc, turns, &claim, &recipient, &outgoing, link) else {
        turns.release(claim);
        return (front, Err(AllocError));
    };
    (front, Ok(Some(Tried { claim, came })))
}

/// Attempts the first delivery that is due and not claimed, as `attempt_next` does, and records the
/// outcome in another turn. Until then it is given to nobody else. The moment of the record is the
/// later of two readings of the clock.
pub fn deliver_one<T: Delivers, K: Link, C: Clock>(
    alloc: Global,
    turns: &mut T,
    link: &mut K,
    clock: &C,
) -> Step
    requires ready { T.ready turns.old }
    ensures ready { T.ready turns.new }
    ensures same { T.same turns.old turns.new }
    ensures steps { Steps (setting_at (T.by turns.old) (C.told clock.now) T.base)
        (T.seen turns.old) (T.seen turns.new)
        (told_by K.asked K.heard K.link_faults link.old)
        (told_by K.asked K.heard K.link_faults link.new) result }
{
    let moment = Moment::clamped(clock.now());
    let (claimed, next) = attempt_next(alloc, turns, link, moment);
    match next {
        Ok(Some(tried)) => {
            let Tried { claim, came } = tried;
            let moment = later_of(moment, Moment::clamped(clock.now()));
            let (front, recorded) = turns.record(alloc, claim, came, moment);
            Step::after(claimed, came, front, recorded)
        }
        Ok(None) => Step::Nothing {
            front: claimed,
            moment,
        },
        Err(AllocError) => Step::Memory,
    }
}

// The later of two moments: a clock may go back.
fn later_of(first: Moment, second: Moment) -> Moment
    ensures later { first ≤ result }
    ensures one { (result ≡ first) ⊎ (result ≡ second) }
{
    if first.seconds() <= second.seconds() {
        second
    } else {
        first
    }
}
