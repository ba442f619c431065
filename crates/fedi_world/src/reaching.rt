//! What a reply does to the attempt that it reaches.

ghost use Rattle.std.specs.Prelude.{◌≡◌, IfErr, IfNone, IfOk, IfSome};
ghost use Rattle.fedi_world.specs.Ending.{HasClaim, HasNoOpen, IsHeard, IsOpenOf, IsPost};
ghost use Rattle.fedi_world.specs.Scenes.{stage_of};
ghost use Rattle.fedi_world.specs.Happenings.{AreCaused, Happens, Leaves, limits};

use crate::blank::Blank;
use crate::ending::{claim_of, end_attempt, is_open};
use crate::event::{Event, Happened, WorldFault};
use crate::parts::{Packet, Pending, Stage};
use crate::world::World;
use fedi_address::Iri;
use fedi_delivery::{Found, came_of, found_in};
use fedi_queue::Claim;
use fedi_seat::{Calm, Seat};
use fedi_visible::Shelf;
use std::alloc::{AllocError, Global};

// The number of the open attempt whose last request has this number.
fn open_attempt(requests: &[Packet], attempts: &[Pending], request: u64) -> Option<usize>
    ensures some { IfSome result (IsOpenOf requests.now attempts.now request) }
    ensures none { IfNone result (HasNoOpen requests.now attempts.now request) }
{
    let packet = requests.get(request as usize)?;
    let number = packet.attempt as usize;
    match attempts.get(number) {
        Some(pending) if is_open(pending) && pending.request == request => Some(number),
        _ => None,
    }
}

// What the reply to the last request of the attempt shows: that to a lookup the inbox, or how the
// attempt ends; and that to a post how it ends. The error is out of memory.
fn shown_by(alloc: Global, pending: &Pending, text: &[u8]) -> Result<Found, AllocError>
    ensures { IfOk result (IsHeard (stage_of pending.now.stage) pending.now.recipient text.now) }
{
    match pending.stage {
        Stage::Looking => found_in(alloc, text, &pending.recipient),
        Stage::Posting | Stage::Over => Ok(Found::Ended(came_of(text))),
    }
}

// The post of the activity of the attempt of this number to the inbox. The error is out of memory.
fn post_of<S: Shelf + Drop, P: Calm>(
    alloc: Global,
    seats: &[Seat<S, P>],
    attempts: &[Pending],
    number: usize,
    inbox: &Iri,
) -> Result<Vec<u8>, AllocError>
    requires { HasClaim seats.now attempts.now number }
    ensures { IfOk result (λ text. IsPost seats.now attempts.now number inbox.now
        text.items) }
{
    let pending = &attempts[number];
    let claim = claim_of(pending);
    let text = seats[pending.server].inbox_post(alloc, &claim, inbox, &pending.body);
    let Claim {
        activity: _,
        recipient: _,
        moment: _,
    } = claim;
    text
}

impl<S: Blank + Drop, P: Calm + Drop> World<S, P> {
    // Lets the reply reach the attempt whose request it answers.
    pub(crate) fn reach(&mut self, alloc: Global, reply: u64) -> Result<Happened, WorldFault>
        ensures happened { IfOk result (λ what. Happens (limits P.growth P.room)
            self.old (Event.Reach reply) what self.new) }
        ensures left { IfErr result (λ fault. Leaves (limits P.growth P.room) fault
            self.old (Event.Reach reply) self.new) }
        ensures causes { AreCaused self.old.world (Event.Reach reply) result }
    {
        let Some(answer) = self.replies.get(reply as usize) else {
            return Err(WorldFault::NoReply);
        };
        let Some(number) = open_attempt(&self.requests, &self.attempts, answer.request) else {
            return Err(WorldFault::NoAttempt);
        };
        match shown_by(alloc, &self.attempts[number], &answer.text)? {
            Found::Inbox(inbox) => {
                let request = self.requests.len() as u64;
                self.requests.reserve(1)?;
                let text = post_of(alloc, &self.seats, &self.attempts, number, &inbox)?;
                let pending = &mut self.attempts[number];
                pending.request = request;
                pending.stage = Stage::Posting;
                self.requests.push_reserved(Packet {
                    attempt: number as u64,
                    to: inbox,
                    text,
                });
                Ok(Happened::Moved { request })
            }
            Found::Ended(came) => {
                let pending = &mut self.attempts[number];
                let seat = &mut self.seats[pending.server];
                match end_attempt(alloc, seat, pending, number as u64, came, self.moment) {
                    Ok(()) => Ok(Happened::Recorded(came)),
                    Err(fault) => Err(fault),
                }
            }
        }
    }
}
