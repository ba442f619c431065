//! A worker's share of a hall.
ghost use Rattle.std.specs.Prelude.{◌≡◌, IfOk, Some};
ghost use Rattle.std.proofs.Common.{ap, refl, ◌∙◌};
ghost use Rattle.fedi_log.specs.Keeping.{base_of};
ghost use Rattle.fedi_model.specs.Callers.{caller_among};
ghost use Rattle.fedi_model.specs.Credentials.{credentials_of};
ghost use Rattle.fedi_model.specs.Routes.{Asks, IsPostableAt};
ghost use Rattle.fedi_town.specs.Histories.{town};
ghost use Rattle.fedi_turn.specs.Turn.{number_of, seen_of};
ghost use Rattle.fedi_hall.specs.Lobbies.{IsLobbyOf};
ghost use Rattle.fedi_hall.specs.Locks.{IsIdleBy};

use crate::delivering::{inbox_post_in_turn, record_in_turn, release_in_turn, take_up_in_turn};
use crate::hall::Lobby;
use crate::turns::{answer_in_turn, refuse_in_turn};
use fedi_address::Iri;
use fedi_core::{RecordFault, caller_of};
use fedi_log::Item;
use fedi_logged::{Answers, Delivers, Logged, Opened, Sending, Turns};
use fedi_model::{Ask, Caller, Credentials, Refusal, Request};
use fedi_objects::Came;
use fedi_outside::Keeper;
use fedi_queue::Claim;
use fedi_routes::{credentials, route};
use fedi_text::Moment;
use fedi_turn::{Pass, TurnLock};
use fedi_visible::Shelf;
use std::alloc::{AllocError, Global};
use std::sync::Wait;

/// A worker's share of a hall: its pass, which is its own, and the rest, which all workers share.
/// Who makes a request and what it asks are determined outside of the turn.
#[derive(Drop)]
pub struct Shared<'a, 'b, R, S: Shelf + Drop, P: Keeper + Drop, O: Opened> {
    pub rt: &'a R,
    pub lock: &'a TurnLock<Logged<S, P, O>>,
    pub lobby: &'a Lobby,
    pub pass: &'b mut Pass<Item>,
}

/// The most bytes of a body that is read, or checked against its code, while others are. JSON in
/// memory may take 80 times as many bytes as its text.
const SHORT_BODY: usize = 8_192;

// Who makes the request. Of long bodies one is checked against its code at a time, so that wrong
// codes keep one processor busy at most. The error is out of memory.
fn find_caller<R: Wait>(
    rt: &R,
    lobby: &Lobby,
    request: &Request,
    body: &[u8],
) -> Result<Result<Caller, Refusal>, AllocError>
    ensures { let known = lobby.now.roster in IfOk result (λ caller. caller
        ≡ caller_among known.actors known.peers (credentials_of request.now body.now)) }
{
    let shown = credentials(request, body);
    let is_long = body.len() > SHORT_BODY && matches!(shown, Credentials::Mac(Some(_)));
    if is_long {
        lobby.queues.codes.enter(rt);
    }
    let caller = caller_of(&lobby.roster, &shown);
    if is_long {
        lobby.queues.codes.leave(rt);
    }
    caller
}

// What this caller's request asks. Of long bodies one is read at a time. The error is out of memory.
fn read_ask<R: Wait>(
    rt: &R,
    alloc: Global,
    request: &Request,
    body: &[u8],
    lobby: &Lobby,
    caller: &Caller,
) -> Result<Ask, AllocError>
    ensures asks { IfOk result (λ ask.
        Asks (Some lobby.now.host) caller.now request.now body.now ask) }
    ensures postable { IfOk result (IsPostableAt (Some lobby.now.host)) }
{
    let is_long = body.len() > SHORT_BODY;
    if is_long {
        lobby.queues.bodies.enter(rt);
    }
    let ask = route(
        alloc,
        request,
        body,
        Some(&lobby.host),
        &lobby.routes,
        caller,
    );
    if is_long {
        lobby.queues.bodies.leave(rt);
    }
    ask
}

impl<'a, 'b, R: Wait, S: Shelf + Drop, P: Keeper + Drop, O: Opened> Turns
    for Shared<'a, 'b, R, S, P, O> {
    ghost by = { λ s. Some (number_of s.pass.now) };

    ghost base = { base_of P.growth P.room O.state };

    ghost seen = { λ s. seen_of s.pass.now };

    ghost ready = { λ s. IsLobbyOf (town O.state.history) s.lobby.now
        × IsIdleBy (λ l. l.log) s.lock.now s.pass.now };

    ghost same = { λ before after. (after.pass.ghost_name ≡ before.pass.ghost_name)
        × (number_of after.pass.now ≡ number_of before.pass.now)
        × (after.lock.now ≡ before.lock.now) };

    ghost same_none = { λ _. (refl, refl, refl) };

    ghost same_both = { λ _ _ _ one two. (two.0 ∙ one.0, two.1 ∙ one.1, two.2 ∙ one.2) };

    ghost same_by = { λ _ _ is. ap Some is.1 };
}

impl<'a, 'b, R: Wait, S: Shelf + Drop, P: Keeper + Drop, O: Opened> Answers
    for Shared<'a, 'b, R, S, P, O> {
    fn answer(
        &mut self,
        alloc: Global,
        request: &Request,
        body: &[u8],
        moment: Moment,
        closing: bool,
    ) -> Result<Vec<u8>, AllocError> {
        let (rt, lock, lobby) = (self.rt, self.lock, self.lobby);
        let caller = find_caller(rt, lobby, request, body)?;
        match caller {
            Ok(caller) => {
                let ask = read_ask(rt, alloc, request, body, lobby, &caller)?;
                answer_in_turn(
                    rt,
                    alloc,
                    lock,
                    &lobby.queues,
                    self.pass,
                    request,
                    body,
                    &caller,
                    ask,
                    moment,
                    closing,
                )
            }
            Err(refusal) => {
                refuse_in_turn(
                    rt, alloc, lock, self.pass, request, body, refusal, moment, closing,
                )
            }
        }
    }
}

impl<'a, 'b, R: Wait, S: Shelf + Drop, P: Keeper + Drop, O: Opened> Delivers
    for Shared<'a, 'b, R, S, P, O> {
    ghost Own = { Unit {0} };

    ghost own = { λ _. tt };

    fn take_up(
        &mut self,
        alloc: Global,
        moment: Moment,
    ) -> (u64, Result<Option<Sending>, AllocError>) {
        take_up_in_turn(self.rt, alloc, self.lock, self.pass, moment)
    }

    fn inbox_post(
        &mut self,
        alloc: Global,
        claim: &Claim,
        inbox: &Iri,
        body: &[u8],
    ) -> Result<Vec<u8>, AllocError> {
        inbox_post_in_turn(self.rt, alloc, self.lock, self.pass, claim, inbox, body)
    }

    fn release(&mut self, claim: Claim) {
        release_in_turn(self.rt, self.lock, self.pass, claim);
    }

    fn record(
        &mut self,
        alloc: Global,
        claim: Claim,
        came: Came,
        moment: Moment,
    ) -> (u64, Result<(), RecordFault>) {
        let queues = &self.lobby.queues;
        record_in_turn(
            self.rt, alloc, self.lock, queues, self.pass, claim, came, moment,
        )
    }
}
