//! One turn of a worker.
ghost use Rattle.std.specs.Prelude.{◌≡◌, Err, IfOk, IsTrue, Ok, OnErr, Some, is_some};
ghost use Rattle.fedi_log.specs.Keeping.{base_of};
ghost use Rattle.fedi_log.specs.Log.{Goes};
ghost use Rattle.fedi_model.specs.Answers.{caller_of};
ghost use Rattle.fedi_model.specs.Routes.{Asks, IsPostableAt};
ghost use Rattle.fedi_logged.specs.Turning.{TurnTells};
ghost use Rattle.fedi_town.specs.Histories.{town};
ghost use Rattle.fedi_turn.specs.Turn.{IsIdle, number_of, seen_of};

use crate::hall::Queues;
use fedi_log::Item;
use fedi_logged::{Logged, Opened};
use fedi_model::{Ask, Caller, Post, Read, Refusal, Request};
use fedi_outside::Keeper;
use fedi_text::Moment;
use fedi_turn::{Grows, Pass, Span, TurnLock};
use fedi_visible::Shelf;
use std::alloc::{AllocError, Global};
use std::sync::Wait;

/// A turn that may keep an entry is long, since it waits for the disk.
fn span_of(ask: &Ask) -> Span {
    match ask {
        Ask::Outbox(
            _,
            Post {
                read: Read::Ready(_),
                ..
            },
        )
        | Ask::Inbox(
            _,
            Post {
                read: Read::Ready(_),
                ..
            },
        ) => Span::Long,
        _ => Span::Short,
    }
}

/// Answers a request of this caller that has this body and asks this, in one turn of the pass: it
/// determines what becomes of a post or a delivery, and keeps it. What is written in the turn has a
/// limit: the replies to a request that makes an entry, that of success and that of a failed keeper,
/// and documents that are brief. Any other document is written after it, and is that of the log of
/// the turn. Returns the text of the reply, which has no body if the method is HEAD and says that the
/// connection closes if `closing`. The error is out of memory, and then nothing was kept, and the
/// keeper did not fail.
pub fn answer_in_turn<R: Wait, S: Shelf + Drop, P: Keeper + Drop, O: Opened>(
    rt: &R,
    alloc: Global,
    lock: &TurnLock<Logged<S, P, O>>,
    queues: &Queues,
    pass: &mut Pass<Item>,
    request: &Request,
    body: &[u8],
    caller: &Caller,
    ask: Ask,
    moment: Moment,
    closing: bool,
) -> Result<Vec<u8>, AllocError>
    requires idle { IsIdle ⟦<Logged<S, P, O> as Grows>⟧ lock.now pass.old }
    requires hosted { IsTrue (is_some (town O.state.history).host) }
    requires caller { caller_of (town O.state.history) request.now body.now ≡ Ok caller.now }
    requires asks { Asks (town O.state.history).host caller.now request.now body.now ask }
    requires postable { IsPostableAt (town O.state.history).host ask }
    ensures idle { IsIdle ⟦<Logged<S, P, O> as Grows>⟧ lock.now pass.new }
    ensures same { number_of pass.new ≡ number_of pass.old }
    ensures text { IfOk result (λ text. TurnTells (base_of P.growth P.room O.state)
        (Some (number_of pass.old)) (seen_of pass.old) (seen_of pass.new)
        moment request.now body.now closing text.items) }
    ensures lacking { OnErr result
        (Goes (Some (number_of pass.old)) (seen_of pass.old) (seen_of pass.new)) }
{
    let by = pass.number();
    let span = span_of(&ask);
    queues.enter(rt, span);
    let mut held = lock.take(rt, pass, span);
    let settled = held.value.settle(alloc, Some(by), request, body, caller, ask, moment, closing);
    lock.give(pass, held);
    queues.leave(rt, span);
    let answered = settled?;
    answered.write(alloc, moment, request.head_only, closing)
}

/// Refuses a request whose caller was refused for this reason, in one turn of the pass, at whose log
/// this is the reply. Returns the text of the reply, as `answer_in_turn` does. Nothing is kept. The
/// error is out of memory.
pub fn refuse_in_turn<R: Wait, S: Shelf + Drop, P: Keeper + Drop, O: Opened>(
    rt: &R,
    alloc: Global,
    lock: &TurnLock<Logged<S, P, O>>,
    pass: &mut Pass<Item>,
    request: &Request,
    body: &[u8],
    refusal: Refusal,
    moment: Moment,
    closing: bool,
) -> Result<Vec<u8>, AllocError>
    requires idle { IsIdle ⟦<Logged<S, P, O> as Grows>⟧ lock.now pass.old }
    requires caller { caller_of (town O.state.history) request.now body.now ≡ Err refusal }
    ensures idle { IsIdle ⟦<Logged<S, P, O> as Grows>⟧ lock.now pass.new }
    ensures same { number_of pass.new ≡ number_of pass.old }
    ensures text { IfOk result (λ text. TurnTells (base_of P.growth P.room O.state)
        (Some (number_of pass.old)) (seen_of pass.old) (seen_of pass.new)
        moment request.now body.now closing text.items) }
    ensures lacking { OnErr result
        (Goes (Some (number_of pass.old)) (seen_of pass.old) (seen_of pass.new)) }
{
    let held = lock.take(rt, pass, Span::Short);
    let text = held
        .value
        .refuse(alloc, request, body, refusal, moment, closing);
    lock.give(pass, held);
    text
}
