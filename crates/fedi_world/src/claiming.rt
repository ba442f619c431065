//! Claiming a delivery, and looking its recipient up.

ghost use Rattle.std.specs.Prelude.{◌≡◌, ◌↔◌, ◌<◌, ◌≤◌, IfErr, IfOk, IsErrOf, OnOk, Some, length};
ghost use Rattle.std.specs.Prelude.{vec_capacity, vec_len};
ghost use Rattle.fedi_logged.specs.Claiming.{IsClaimed};
ghost use Rattle.fedi_world.specs.Happenings.{AreCaused, Happens, Leaves, limits};
ghost use Rattle.fedi_world.specs.Taking.{IsMade, TakesUp};

use crate::blank::Blank;
use crate::event::{Event, Happened, WorldFault};
use crate::parts::{Packet, Pending, Stage};
use crate::world::World;
use fedi_log::Place;
use fedi_queue::Claim;
use fedi_seat::{Calm, Seat};
use fedi_text::Moment;
use fedi_visible::Shelf;
use std::alloc::{AllocError, Global};
use std::snapshot::Snapshot;

// What is sent for the claim of this attempt: the attempt, and its lookup. The error is out of
// memory.
fn make<S: Shelf + Drop, P: Calm>(
    alloc: Global,
    seat: &Seat<S, P>,
    claim: &Claim,
    server: usize,
    attempt: u64,
    request: u64,
) -> Result<(Pending, Packet), AllocError>
    requires claimed { IsClaimed (Some attempt) seat.now.log claim.now }
    ensures { IfOk result (λ made.
        IsMade server attempt request seat.now claim.now made.0 made.1) }
{
    seat.show();
    let (recipient, outgoing) = seat.sent_by(alloc, claim)?;
    let to = recipient.copy()?;
    let pending = Pending {
        server,
        place: Place {
            activity: claim.activity,
            recipient: claim.recipient,
        },
        claimed: claim.moment,
        since: Snapshot::of(seat.facts()),
        activity: Snapshot::of(seat.claimed_of(claim).0),
        recipient,
        body: outgoing.body,
        request,
        stage: Stage::Looking,
    };
    let packet = Packet {
        attempt,
        to,
        text: outgoing.lookup,
    };
    Ok((pending, packet))
}

// Claims the first delivery of this server that is due at this moment and not claimed, for the
// attempt of this number, and makes the attempt with its lookup. Returns `None` exactly if there is
// no such delivery. The error is out of memory, and then the delivery is released again.
fn take_up<S: Shelf + Drop, P: Calm>(
    alloc: Global,
    seat: &mut Seat<S, P>,
    server: usize,
    attempt: u64,
    request: u64,
    moment: Moment,
) -> Result<Option<(Pending, Packet)>, AllocError>
    ensures { TakesUp server attempt request moment seat.old seat.new result }
{
    let Some(claim) = seat.claim(attempt, moment) else {
        return Ok(None);
    };
    match make(alloc, seat, &claim, server, attempt, request) {
        Ok(made) => {
            let Claim {
                activity: _,
                recipient: _,
                moment: _,
            } = claim;
            Ok(Some(made))
        }
        Err(AllocError) => {
            seat.release(attempt, claim);
            Err(AllocError)
        }
    }
}

// Makes room for one more attempt and its lookup.
fn make_room(attempts: &mut Vec<Pending>, requests: &mut Vec<Packet>) -> Result<(), AllocError>
    ensures attempts { attempts.new.items ≡ attempts.old.items }
    ensures requests { requests.new.items ≡ requests.old.items }
    ensures room { OnOk result (vec_len attempts.new < vec_capacity attempts.new) }
    ensures request { OnOk result (vec_len requests.new < vec_capacity requests.new) }
{
    attempts.reserve(1)?;
    requests.reserve(1)
}

impl<S: Blank + Drop, P: Calm + Drop> World<S, P> {
    // Lets the server claim its next delivery.
    pub(crate) fn claim(&mut self, alloc: Global, server: u32) -> Result<Happened, WorldFault>
        ensures happened { IfOk result (λ what. Happens (limits P.growth P.room)
            self.old (Event.Claim server) what self.new) }
        ensures left { IfErr result (λ fault. Leaves (limits P.growth P.room) fault
            self.old (Event.Claim server) self.new) }
        ensures causes { AreCaused self.old.world (Event.Claim server) result }
    {
        let number = server as usize;
        if number >= self.seats.len() {
            return Err(WorldFault::NoServer);
        }
        let attempt = self.attempts.len() as u64;
        let request = self.requests.len() as u64;
        make_room(&mut self.attempts, &mut self.requests)?;
        let seat = &mut self.seats[number];
        match take_up(alloc, seat, number, attempt, request, self.moment) {
            Ok(Some((pending, packet))) => {
                self.requests.push_reserved(packet);
                self.attempts.push_reserved(pending);
                Ok(Happened::Sent { attempt, request })
            }
            Ok(None) => Ok(Happened::Idle),
            Err(AllocError) => Err(WorldFault::Memory),
        }
    }
}
