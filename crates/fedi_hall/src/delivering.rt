//! The turns of a worker that delivers.
ghost use Rattle.std.specs.Prelude.{◌≡◌, ◌≤◌, IfOk, Some};
ghost use Rattle.fedi_entry.specs.Fields.{MayCome};
ghost use Rattle.fedi_log.specs.Claims.{HasClaimed};
ghost use Rattle.fedi_log.specs.Keeping.{base_of};
ghost use Rattle.fedi_log.specs.Log.{Goes};
ghost use Rattle.fedi_log.specs.declared.items.Pair.{Pair};
ghost use Rattle.fedi_logged.specs.Claiming.{IsClaimed, IsPostSince};
ghost use Rattle.fedi_logged.specs.Delivering.{RecordsInTurn, ReleasesInTurn, TakesUpInTurn};
ghost use Rattle.fedi_turn.specs.Turn.{IsIdle, number_of, seen_of};

use crate::hall::Queues;
use fedi_address::Iri;
use fedi_core::RecordFault;
use fedi_log::Item;
use fedi_logged::{Logged, Opened, Sending};
use fedi_objects::Came;
use fedi_outside::Keeper;
use fedi_queue::Claim;
use fedi_text::Moment;
use fedi_turn::{Grows, Pass, Span, TurnLock};
use fedi_visible::Shelf;
use std::alloc::{AllocError, Global};
use std::sync::Wait;

/// Takes up the first delivery that is due and not claimed. The number is the length of the log
/// before this.
pub fn take_up_in_turn<R: Wait, S: Shelf + Drop, P: Keeper + Drop, O: Opened>(
    rt: &R,
    alloc: Global,
    lock: &TurnLock<Logged<S, P, O>>,
    pass: &mut Pass<Item>,
    moment: Moment,
) -> (u64, Result<Option<Sending>, AllocError>)
    requires idle { IsIdle ⟦<Logged<S, P, O> as Grows>⟧ lock.now pass.old }
    ensures idle { IsIdle ⟦<Logged<S, P, O> as Grows>⟧ lock.now pass.new }
    ensures same { number_of pass.new ≡ number_of pass.old }
    ensures taken { TakesUpInTurn (Some (number_of pass.old)) moment
        (seen_of pass.old) (seen_of pass.new) result.0 result.1 }
{
    let by = pass.number();
    let mut held = lock.take(rt, pass, Span::Short);
    let front = held.value.front();
    let taken = held.value.take_up(alloc, Some(by), moment);
    lock.give(pass, held);
    (front, taken)
}

/// Makes the post of the body to the inbox, for the recipient of a delivery that the pass has
/// claimed.
pub fn inbox_post_in_turn<R: Wait, S: Shelf + Drop, P: Keeper + Drop, O: Opened>(
    rt: &R,
    alloc: Global,
    lock: &TurnLock<Logged<S, P, O>>,
    pass: &mut Pass<Item>,
    claim: &Claim,
    inbox: &Iri,
    body: &[u8],
) -> Result<Vec<u8>, AllocError>
    requires idle { IsIdle ⟦<Logged<S, P, O> as Grows>⟧ lock.now pass.old }
    requires claimed { IsClaimed (Some (number_of pass.old)) (seen_of pass.old) claim.now }
    ensures idle { IsIdle ⟦<Logged<S, P, O> as Grows>⟧ lock.now pass.new }
    ensures same { number_of pass.new ≡ number_of pass.old }
    ensures goes { Goes (Some (number_of pass.old)) (seen_of pass.old) (seen_of pass.new) }
    ensures post { (p : Pair)
        → HasClaimed (Some (number_of pass.old)) (seen_of pass.old) p claim.now
        → IfOk result (λ text. IsPostSince (seen_of pass.new) p inbox.now body.now text.items) }
{
    let held = lock.take(rt, pass, Span::Short);
    let text = held.value.inbox_post(alloc, claim, inbox, body);
    lock.give(pass, held);
    text
}

/// Releases a delivery that the pass has claimed.
pub fn release_in_turn<R: Wait, S: Shelf + Drop, P: Keeper + Drop, O: Opened>(
    rt: &R,
    lock: &TurnLock<Logged<S, P, O>>,
    pass: &mut Pass<Item>,
    claim: Claim,
)
    requires idle { IsIdle ⟦<Logged<S, P, O> as Grows>⟧ lock.now pass.old }
    requires claimed { IsClaimed (Some (number_of pass.old)) (seen_of pass.old) claim }
    ensures idle { IsIdle ⟦<Logged<S, P, O> as Grows>⟧ lock.now pass.new }
    ensures same { number_of pass.new ≡ number_of pass.old }
    ensures released { (p : Pair)
        → HasClaimed (Some (number_of pass.old)) (seen_of pass.old) p claim
        → ReleasesInTurn (Some (number_of pass.old)) (seen_of pass.old) (seen_of pass.new) p }
{
    let by = pass.number();
    let mut held = lock.take(rt, pass, Span::Short);
    held.value.release(Some(by), claim);
    lock.give(pass, held);
}

/// Keeps the outcome of an attempt of a delivery that the pass has claimed, or releases the
/// delivery. The number is the length of the log before this.
pub fn record_in_turn<R: Wait, S: Shelf + Drop, P: Keeper + Drop, O: Opened>(
    rt: &R,
    alloc: Global,
    lock: &TurnLock<Logged<S, P, O>>,
    queues: &Queues,
    pass: &mut Pass<Item>,
    claim: Claim,
    came: Came,
    moment: Moment,
) -> (u64, Result<(), RecordFault>)
    requires idle { IsIdle ⟦<Logged<S, P, O> as Grows>⟧ lock.now pass.old }
    requires claimed { IsClaimed (Some (number_of pass.old)) (seen_of pass.old) claim }
    requires came { MayCome came.step came.what }
    requires later { claim.moment ≤ moment }
    ensures idle { IsIdle ⟦<Logged<S, P, O> as Grows>⟧ lock.now pass.new }
    ensures same { number_of pass.new ≡ number_of pass.old }
    ensures recorded { (p : Pair)
        → HasClaimed (Some (number_of pass.old)) (seen_of pass.old) p claim
        → RecordsInTurn (base_of P.growth P.room O.state) (Some (number_of pass.old))
        (seen_of pass.old) (seen_of pass.new) p came moment result.0 result.1 }
{
    let by = pass.number();
    queues.attempts.enter(rt);
    queues.entries.enter(rt);
    let mut held = lock.take(rt, pass, Span::Long);
    let front = held.value.front();
    let recorded = held.value.record(alloc, Some(by), claim, came, moment);
    lock.give(pass, held);
    queues.entries.leave(rt);
    queues.attempts.leave(rt);
    (front, recorded)
}
