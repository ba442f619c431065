//! Posts of members, and requests that arrive at servers.

ghost use Rattle.std.specs.Prelude.{◌≡◌, IfErr, IfNone, IfOk, IfSome, OnOk};
ghost use Rattle.fedi_model.specs.Routes.{ReadsBody};
ghost use Rattle.fedi_reading.specs.Activities.{reads_activity};
ghost use Rattle.fedi_world.specs.Happenings.{AreCaused, Happens, IsPostBy, Leaves, limits};
ghost use Rattle.fedi_world.specs.Posting.{IsPosted};
ghost use Rattle.fedi_world.specs.Reading.{IsAt, IsNowhere};
ghost use Rattle.fedi_worlds.specs.Steps.{IsFit};

use crate::blank::Blank;
use crate::ending::show;
use crate::event::{Event, Happened, WorldFault};
use crate::parts::Answer;
use crate::world::World;
use fedi_address::{Iri, LocalName};
use fedi_model::{Ask, Caller, KeyAsk, Post, Read, Reply};
use fedi_objects::Boxed;
use fedi_reading::{BodyFault, ShapeFault, read_activity, read_body};
use fedi_seat::{Calm, Seat, ServeFault, Served};
use fedi_text::Moment;
use fedi_visible::Shelf;
use std::alloc::{AllocError, Global};

// What the author's body is read as. The error is out of memory.
fn read_of(alloc: Global, body: &[u8], author: &Iri) -> Result<Read, AllocError>
    ensures { IfOk result (ReadsBody (reads_activity author.now) body.now) }
{
    let value = match read_body(alloc, body) {
        Ok(value) => value,
        Err(BodyFault::BadBody) => return Ok(Read::NotJson),
        Err(BodyFault::Memory) => return Err(AllocError),
    };
    match read_activity(alloc, &value, author) {
        Ok(activity) => Ok(Read::Ready(Boxed::new(alloc, activity)?)),
        Err(ShapeFault::Memory) => Err(AllocError),
        Err(fault) => Ok(Read::Bad(fault)),
    }
}

// The author's post of this body, as ActivityStreams and without a key. The error is out of memory.
fn post_of(alloc: Global, body: &[u8], author: &Iri) -> Result<Post, AllocError>
    ensures { IfOk result (IsPostBy author.now body.now) }
{
    Ok(Post {
        is_typed: true,
        key: KeyAsk::Absent,
        digest: [0; 32],
        read: read_of(alloc, body, author)?,
    })
}

// The member of this name posts this body at the server. The errors are `NoName`, exactly if there
// is no such member, and `Memory`, out of memory; then nothing has changed.
fn post_by<S: Shelf + Drop, P: Calm>(
    alloc: Global,
    seat: &mut Seat<S, P>,
    name: LocalName,
    body: &[u8],
    moment: Moment,
) -> Result<Reply, WorldFault>
    ensures posted { IsPosted P.Keeper name body.now moment seat.old seat.new result }
    ensures fit { OnOk result (IsFit seat.new.core.history) }
{
    seat.show();
    let Some(author) = seat.facts().id_of(&name) else {
        return Err(WorldFault::NoName);
    };
    let post = post_of(alloc, body, author)?;
    let caller = Caller::Actor(name.copy());
    let given = seat.ask(alloc, &caller, Ask::Outbox(name, post), moment)?;
    show(seat);
    Ok(given)
}

// The number of the server that has this host.
fn seat_at<S: Shelf + Drop, P: Calm>(seats: &[Seat<S, P>], host: &str) -> Option<usize>
    ensures some { IfSome result (IsAt seats.now host.now) }
    ensures none { IfNone result (IsNowhere seats.now host.now) }
{
    for (number, seat) in seats.iter().enumerate() {
        if seat.host().text() == host {
            return Some(number);
        }
    }
    None
}

impl<S: Blank + Drop, P: Calm + Drop> World<S, P> {
    // Lets the member of this name post this body.
    pub(crate) fn say(
        &mut self,
        alloc: Global,
        server: u32,
        name: LocalName,
        body: Vec<u8>,
    ) -> Result<Happened, WorldFault>
        ensures happened { IfOk result (λ what. Happens (limits P.growth P.room)
            self.old (Event.Say server name body) what self.new) }
        ensures left { IfErr result (λ fault. Leaves (limits P.growth P.room) fault
            self.old (Event.Say server name body) self.new) }
        ensures causes { AreCaused self.old.world (Event.Say server name body) result }
    {
        let number = server as usize;
        if number >= self.seats.len() {
            return Err(WorldFault::NoServer);
        }
        let seat = &mut self.seats[number];
        match post_by(alloc, seat, name, &body, self.moment) {
            Ok(given) => Ok(Happened::Replied {
                status: given.status.as_u16(),
                location: given.location,
            }),
            Err(fault) => Err(fault),
        }
    }

    // Lets the request arrive at the server that has its host.
    pub(crate) fn arrive(&mut self, alloc: Global, request: u64) -> Result<Happened, WorldFault>
        ensures happened { IfOk result (λ what. Happens (limits P.growth P.room)
            self.old (Event.Arrive request) what self.new) }
        ensures left { IfErr result (λ fault. Leaves (limits P.growth P.room) fault
            self.old (Event.Arrive request) self.new) }
        ensures causes { AreCaused self.old.world (Event.Arrive request) result }
    {
        let Some(packet) = self.requests.get(request as usize) else {
            return Err(WorldFault::NoRequest);
        };
        let Some(number) = seat_at(&self.seats, packet.to.host()) else {
            return Err(WorldFault::NoServer);
        };
        let reply = self.replies.len() as u64;
        self.replies.reserve(1)?;
        let seat = &mut self.seats[number];
        match seat.serve(alloc, &self.routes, &packet.text, self.moment) {
            Ok(Served { status, text }) => {
                show(seat);
                self.replies.push_reserved(Answer { request, text });
                Ok(Happened::Answered { reply, status })
            }
            // What a server has sent holds a whole request, so it is never cut short.
            Err(ServeFault::CutShort | ServeFault::Memory) => Err(WorldFault::Memory),
        }
    }
}
