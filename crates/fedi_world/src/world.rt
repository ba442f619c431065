//! Several servers, and what they send to each other.

ghost use Rattle.std.specs.Prelude.{◌≡◌, ◌↔◌, ◌<◌, [], IfErr, IfOk, IfSome, IsErrOf, length, map};
ghost use Rattle.std.specs.Prelude.{slice_get};
ghost use Rattle.fedi_world.specs.Happenings.{Happens, LacksAttempt, LacksName, LacksReply};
ghost use Rattle.fedi_world.specs.Happenings.{LacksRequest, LacksServer, Leaves, limits};
ghost use Rattle.fedi_world.specs.Scenes.{server_of};
ghost use Rattle.fedi_world.specs.Starting.{AreNew};
ghost use Rattle.fedi_worlds.specs.Promises.{HaveArrived, HaveOrigins, IsNewServer, IsSetUp};
ghost use Rattle.fedi_worlds.specs.Steps.{IsFit};

use crate::blank::Blank;
use crate::ending::show;
use crate::event::{Event, Happened, WorldFault};
use crate::parts::{Answer, Packet, Pending};
use fedi_core::Core;
use fedi_outside::Keeper;
use fedi_routes::Routes;
use fedi_seat::{Calm, Seat};
use fedi_text::Moment;
use fedi_visible::Shelf;
use std::alloc::{AllocError, Global};
use std::marker::Model;

/// Several servers at one moment, with every request, reply and attempt that was ever made among
/// them (ActivityPub, section 7). Events lead from the start to it, one after the other, so that
/// deliveries come from where they say, and what was delivered has arrived.
#[derive(Drop)]
pub struct World<S: Shelf, P: Keeper> {
    pub(crate) routes: Routes,
    pub(crate) moment: Moment,
    pub(crate) seats: Vec<Seat<S, P>>,
    pub(crate) requests: Vec<Packet>,
    pub(crate) replies: Vec<Answer>,
    pub(crate) attempts: Vec<Pending>,
}

impl<S: Shelf, P: Keeper> Model for World<S, P> {
    ghost use Rattle.fedi_world.specs.Scenes.{Scene, scene_of};
    ghost use Rattle.fedi_world.specs.Standing.{IsWhole};

    ghost Value = { Scene };

    ghost view = { λ w. scene_of P.shown w.moment w.seats.items w.requests.items w.replies.items
        w.attempts.items };

    ghost invariant = { λ w. IsWhole w.moment w.seats.items w.requests.items w.replies.items
        w.attempts.items };
}

// For the proof: shows that a server that was set up is a new one of the definitions. It does
// nothing when it runs.
fn show_new<S: Shelf + Drop, P: Calm>(seat: &Seat<S, P>)
    requires { IsSetUp seat.now.core.history }
    ensures fit { IsFit seat.now.core.history }
    ensures new { IsNewServer (server_of seat.now.core) }
{
    show(seat);
    let _host = seat.host().text();
}

impl<S: Blank + Drop, P: Calm + Drop> World<S, P> {
    /// The servers with these machines, before any of them has sent anything. Each machine has been
    /// set up and has only members and peers so far, none of its deliveries is claimed, and no two
    /// have the same host. The error is out of memory.
    pub fn start(
        alloc: Global,
        cores: Vec<Core<S, P>>,
        moment: Moment,
    ) -> Result<World<S, P>, AllocError>
        requires { AreNew cores.items }
        ensures moment { IfOk result (λ w. w.world.moment ≡ moment) }
        ensures servers { IfOk result (λ w. w.world.servers ≡ map server_of cores.items) }
        ensures requests { IfOk result (λ w. w.world.requests ≡ []) }
        ensures replies { IfOk result (λ w. w.world.replies ≡ []) }
        ensures attempts { IfOk result (λ w. w.world.attempts ≡ []) }
        ensures ends { IfOk result (λ w. w.ends ≡ map (λ m. (P.shown m.keeper).end) cores.items) }
    {
        let routes = Routes::new(alloc)?;
        let mut seats = Vec::with_capacity(alloc, cores.len())?;
        // For the proof: no moment is after the last one.
        let _now = moment.seconds();
        'servers: for core in cores {
            let seat = Seat::of(core);
            show_new(&seat);
            seats.push_reserved(seat);
        }
        Ok(World {
            routes,
            moment,
            seats,
            requests: Vec::new(alloc),
            replies: Vec::new(alloc),
            attempts: Vec::new(alloc),
        })
    }

    /// Lets this event happen. What has happened is the event of the definitions. Whatever has,
    /// each delivery that a server has accepted comes from where it says, and what a server has
    /// kept as delivered has arrived (ActivityPub, sections 3 and 7.1).
    ///
    /// Each error has one cause: `NoServer`, `NoRequest`, `NoReply`, `NoAttempt` and `NoName` come
    /// exactly if what the event names is not there, and then nothing has changed. `Full` comes if
    /// the server has no room for the result of an attempt: the attempt has ended, and its delivery
    /// may be claimed again. `Memory` is out of memory: nothing has changed, except that an attempt
    /// whose result could not be kept has ended, and that the attempts of a server that crashes are
    /// gone. A `Wait` takes no memory, and never fails.
    pub fn step(&mut self, alloc: Global, event: Event) -> Result<Happened, WorldFault>
        ensures happened { IfOk result (λ what.
            Happens (limits P.growth P.room) self.old event what self.new) }
        ensures left { IfErr result (λ fault.
            Leaves (limits P.growth P.room) fault self.old event self.new) }
        ensures no_server { IsErrOf result WorldFault.NoServer ↔ LacksServer self.old.world event }
        ensures no_request { IsErrOf result WorldFault.NoRequest
            ↔ LacksRequest self.old.world event }
        ensures no_reply { IsErrOf result WorldFault.NoReply ↔ LacksReply self.old.world event }
        ensures no_attempt { IsErrOf result WorldFault.NoAttempt
            ↔ LacksAttempt self.old.world event }
        ensures no_name { IsErrOf result WorldFault.NoName ↔ LacksName self.old.world event }
        ensures origins { HaveOrigins self.new.world }
        ensures arrivals { HaveArrived self.new.world }
    {
        let what = match event {
            Event::Say { server, name, body } => self.say(alloc, server, name, body),
            Event::Claim { server } => self.claim(alloc, server),
            Event::Arrive { request } => self.arrive(alloc, request),
            Event::Reach { reply } => self.reach(alloc, reply),
            Event::Lose { attempt } => self.lose(alloc, attempt),
            Event::Crash { server } => self.crash(alloc, server),
            Event::Wait { seconds } => Ok(self.wait(seconds)),
        };
        self.show_origins();
        self.show_arrivals();
        what
    }

    /// How many servers there are.
    pub fn servers(&self) -> usize
        ensures { result ≡ length self.now.world.servers }
    {
        self.seats.len()
    }

    /// How many entries the history of the server of this number has.
    pub fn entries(&self, server: usize) -> u64
        requires { server < length self.now.world.servers }
        ensures { IfSome (slice_get self.now.world.servers server)
            (λ s. result ≡ length s.history) }
    {
        self.seats[server].count()
    }

    /// Each delivery that a server has accepted comes from where it says (ActivityPub, section 3).
    pub fn show_origins(&self)
        ensures { HaveOrigins self.now.world }
    {
        let _ = &self.moment;
    }

    /// What a server has kept as delivered has arrived, and acts once (ActivityPub, section 7.1).
    pub fn show_arrivals(&self)
        ensures { HaveArrived self.now.world }
    {
        let _ = &self.moment;
    }
}
