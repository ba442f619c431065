//! The facts that a history has made.

ghost use Rattle.std.specs.Prelude.{◌≡◌, ◌∷◌, ◌++◌, [], ◌+◌, ◌^◌, ◌<◌, ◌≤◌, ◌&&◌, Bool, IsTrue};
ghost use Rattle.std.specs.Prelude.{IfOk, None, OnErr, OnOk, Some, length, map, option_copied};
ghost use Rattle.std.specs.Prelude.{option_map, option_to_list, slice_get, vec_len, vec_capacity};
ghost use Rattle.std.specs.Fn.{FnReturnsAt};
ghost use Rattle.std.specs.List.{find};
ghost use Rattle.fedi_town.specs.declared.act.Act.{Act};
ghost use Rattle.fedi_town.specs.Effects.{affect};
ghost use Rattle.fedi_town.specs.Histories.{addition_of, town, with_addition};
ghost use Rattle.fedi_town.specs.Legal.{IsLegal};
ghost use Rattle.fedi_town.specs.Objects.{maker, makes};
ghost use Rattle.fedi_town.specs.Queues.{progress_of};
ghost use Rattle.fedi_town.specs.Relations.{has_activity_id, is_actor};
ghost use Rattle.fedi_town.specs.Towns.{count_of, empty_town, has_digest, has_host, has_id};
ghost use Rattle.fedi_town.specs.Towns.{has_name, id_of};
ghost use Rattle.fedi_address.specs.Recipients.{is_among};
ghost use Rattle.fedi_effects.specs.Additions.{FitsActs, HasAnswerer, HasAuthors, addition_in};
ghost use Rattle.fedi_effects.specs.Holdings.{coming_in, coming_inbox_in};
ghost use Rattle.fedi_effects.specs.Standings.{IsFew, progress_in};
ghost use Rattle.fedi_register.specs.Changes.{AreMadeOnce, place_where};
ghost use Rattle.fedi_register.specs.Marks.{Decides};

use crate::making::prepare;
use crate::members::Members;
use crate::progress::Standing;
use crate::ready::{Ready, add_authors, make_ready};
use crate::steps::Steps;
use crate::tallies::Tallies;
use fedi_address::{Host, Iri, LocalName};
use fedi_objects::Entry;
use fedi_register::{Kept, Pool, Register, Seed, Spare, Trace};
use fedi_text::Moment;
use fedi_town::{Actor, Effect, Peer};
use std::alloc::{AllocError, Global};
use std::marker::Model;
use std::snapshot::Snapshot;
use std::sync::ledger::Ledger;

// What was made for the next entry.
#[derive(Drop)]
struct Room {
    entry: Snapshot<Entry>,
    ready: Ready,
}

/// What the entries of a history have made: the host, the members, the peers, the activities, and
/// what has become of deliveries. The entries and the attempts to deliver are not kept, but
/// contracts see them.
#[derive(Drop)]
pub struct Facts {
    history: Trace<Entry>,
    host: Option<Host>,
    actors: Members,
    peers: Vec<Peer>,
    tallies: Tallies,
    register: Register,
    room: Option<Room>,
    pool: Pool,
}

impl Model for Facts {
    ghost use Rattle.fedi_effects.specs.Holdings.{Holding, IsSound, holding_in};

    ghost Value = { Holding };

    ghost view = { holding_in };

    ghost invariant = { IsSound };
}

/// Whether the peer is of this host.
#[tactic(auto, unfolding(fedi_town::specs::Towns::has_host))]
pub(crate) fn has_host(peer: &Peer, host: &str) -> bool
    ensures { result ≡ has_host host.now peer.now }
{
    peer.host.text() == host
}

#[tactic(auto, using(crate::proofs::Towns::authors_known))]
fn add_author(register: &mut Register, ready: &Ready) -> Result<(), AllocError>
    ensures acts { register.new.acts ≡ register.old.acts }
    ensures room { register.new.room ≡ register.old.room }
    ensures known { OnOk result (HasAuthors register.new.known ready.now) }
{
    add_authors(register, ready)
}

// Each list gets room for one more entry, which was made ready.
fn make_room(
    actors: &mut Members,
    peers: &mut Vec<Peer>,
    tallies: &mut Tallies,
    register: &mut Register,
    ready: &Ready,
) -> Result<(), AllocError>
    ensures actors { actors.new.actors ≡ actors.old.actors }
    ensures peers { peers.new.items ≡ peers.old.items }
    ensures attempts { tallies.new.attempts ≡ tallies.old.attempts }
    ensures acts { register.new.acts ≡ register.old.acts }
    ensures actors_room { OnOk result (1 ≤ actors.new.room) }
    ensures peers_room { OnOk result (vec_len peers.new + 1 ≤ vec_capacity peers.new) }
    ensures attempts_room { OnOk result (1 ≤ tallies.new.room) }
    ensures acts_room { OnOk result (register.new.room ≡ 2) }
    ensures known { OnOk result (HasAuthors register.new.known ready.now) }
{
    actors.reserve()?;
    peers.reserve(1)?;
    tallies.reserve()?;
    register.reserve()?;
    add_author(register, ready)
}

// Keeps the room for an entry if each list gets its own room. Dropping a room costs much to prove,
// so it is done by calls.
fn keep_room(
    kept: &mut Option<Room>,
    actors: &mut Members,
    peers: &mut Vec<Peer>,
    tallies: &mut Tallies,
    register: &mut Register,
    pool: &mut Pool,
    room: Room,
) -> Result<(), AllocError>
    ensures actors { actors.new.actors ≡ actors.old.actors }
    ensures peers { peers.new.items ≡ peers.old.items }
    ensures attempts { tallies.new.attempts ≡ tallies.old.attempts }
    ensures acts { register.new.acts ≡ register.old.acts }
    ensures actors_room { OnOk result (1 ≤ actors.new.room) }
    ensures peers_room { OnOk result (vec_len peers.new + 1 ≤ vec_capacity peers.new) }
    ensures attempts_room { OnOk result (1 ≤ tallies.new.room) }
    ensures acts_room { OnOk result (register.new.room ≡ 2) }
    ensures known { OnOk result (HasAuthors register.new.known room.ready) }
    ensures ok { OnOk result (kept.new ≡ Some room) }
    ensures err { OnErr result (kept.new ≡ kept.old) }
{
    let mut room = room;
    room.ready.share(pool);
    match make_room(actors, peers, tallies, register, &room.ready) {
        Ok(()) => {
            drop(kept.replace(room));
            Ok(())
        }
        Err(error) => {
            drop(room);
            Err(error)
        }
    }
}

// Adds an activity and its answer, after its effect.
fn add_activity(
    register: &mut Register,
    act: Kept,
    effect: Effect,
    spare: Spare,
    answer: Option<Kept>,
)
    requires once { AreMadeOnce register.old.acts }
    requires room { register.old.room ≡ 2 }
    requires known { IsTrue (is_among act.author register.old.known) }
    requires answerer { HasAnswerer register.old.known answer }
    ensures { register.new.acts
        ≡ map (affect effect) register.old.acts ++ act ∷ option_to_list answer }
{
    register.apply(effect, spare);
    register.push(act);
    if let Some(answer) = answer {
        register.push(answer);
    }
}

// Adds what was made ready.
fn add(
    host: &mut Option<Host>,
    actors: &mut Members,
    peers: &mut Vec<Peer>,
    tallies: &mut Tallies,
    register: &mut Register,
    ready: Ready,
)
    requires once { AreMadeOnce register.old.acts }
    requires actors { 1 ≤ actors.old.room }
    requires peers { vec_len peers.old + 1 ≤ vec_capacity peers.old }
    requires attempts { 1 ≤ tallies.old.room }
    requires room { register.old.room ≡ 2 }
    requires known { HasAuthors register.old.known ready }
    requires fits { FitsActs register.old.acts ready }
    ensures { record {
      host = host.new;
      actors = actors.new.actors;
      peers = peers.new.items;
      acts = register.new.acts;
      attempts = tallies.new.attempts;
    } ≡ with_addition (record {
      host = host.old;
      actors = actors.old.actors;
      peers = peers.old.items;
      acts = register.old.acts;
      attempts = tallies.old.attempts;
    }) (addition_in ready) }
{
    match ready {
        Ready::Nothing => {}
        Ready::Host(new) => *host = Some(new),
        Ready::Member(member) => actors.push(member),
        Ready::Peer(peer) => peers.push_reserved(peer),
        Ready::Activity {
            act,
            effect,
            spare,
            answer,
        } => add_activity(register, act, effect, spare, answer),
        Ready::Inbox {
            activity,
            owner,
            recipients,
        } => register.add_inbox(&activity, &Snapshot::of(&owner), recipients),
        Ready::Attempt(attempt) => tallies.push(attempt),
    }
}

impl Facts {
    /// The facts of no entry. The seed is for the numbers by which members and activities are
    /// looked up. The error is out of memory.
    pub fn empty(alloc: Global, seed: Seed) -> Result<Facts, AllocError>
        ensures { IfOk result (λ facts.
            facts ≡ record { history = []; town = empty_town; room = None }) }
    {
        let pool = Pool::new(alloc)?;
        Ok(Facts {
            history: Trace::new(),
            host: None,
            actors: Members::empty(alloc, seed),
            peers: Vec::new(alloc),
            tallies: Tallies::empty(alloc, seed),
            register: Register::empty(alloc, seed),
            room: None,
            pool,
        })
    }

    /// For the proof: shows that the town is what the history has made. It does nothing at run
    /// time.
    pub fn show_town(&self)
        ensures { self.now.town ≡ town self.now.history }
    {
        // Reading a field opens the invariant, which says so.
        let _ = &self.host;
    }

    #[tactic(auto, using(crate::proofs::Towns::can_add))]
    fn make(&self, alloc: Global, entry: &Entry) -> Result<Ready, AllocError>
        requires { IsLegal self.now.history }
        ensures ready { IfOk result
            (λ ready. addition_in ready ≡ addition_of self.now.town entry.now) }
        ensures fits { IfOk result (λ ready. FitsActs self.now.town.acts ready) }
    {
        self.show_town();
        let addition = prepare(alloc, self, entry)?;
        make_ready(alloc, self, addition)
    }

    // The room for the entry, with all that it adds.
    fn room_for(&self, alloc: Global, entry: &Entry) -> Result<Room, AllocError>
        requires { IsLegal self.now.history }
        ensures entry { IfOk result (λ room. room.entry.value ≡ entry.now) }
        ensures ready { IfOk result
            (λ room. addition_in room.ready ≡ addition_of self.now.town entry.now) }
        ensures fits { IfOk result (λ room. FitsActs self.now.town.acts room.ready) }
    {
        let ready = self.make(alloc, entry)?;
        let entry = Snapshot::of(entry);
        Ok(Room { entry, ready })
    }

    /// Does all the work for an entry that takes memory, so that the entry can be added without. An
    /// earlier entry for which this was done loses its room. The error is out of memory, and then
    /// no entry has room.
    pub fn reserve(&mut self, alloc: Global, entry: &Entry) -> Result<(), AllocError>
        requires { IsLegal self.old.history }
        ensures ok { OnOk result (self.new ≡ record self.old { room = Some entry.now }) }
        ensures err { OnErr result (self.new ≡ record self.old { room = None }) }
    {
        drop(self.room.take());
        let room = self.room_for(alloc, entry)?;
        keep_room(
            &mut self.room,
            &mut self.actors,
            &mut self.peers,
            &mut self.tallies,
            &mut self.register,
            &mut self.pool,
            room,
        )
    }

    /// Gives up the room for an entry, so that no entry has room. Everything else stays as it is.
    pub fn release(&mut self)
        ensures { self.new ≡ record self.old { room = None } }
    {
        drop(self.room.take());
    }

    /// Adds the entry for which there is room. It takes no memory.
    #[tactic(auto, using(crate::proofs::Towns::town_pushed, crate::proofs::Towns::town_made_once))]
    pub fn apply(&mut self, entry: &Entry)
        requires { self.old.room ≡ Some entry.now }
        ensures { self.new ≡ record {
          history = self.old.history ++ entry.now ∷ [];
          town = town (self.old.history ++ entry.now ∷ []);
          room = None;
        } }
    {
        match self.room.take() {
            None => unreachable!(),
            Some(Room { entry: _, ready }) => {
                add(
                    &mut self.host,
                    &mut self.actors,
                    &mut self.peers,
                    &mut self.tallies,
                    &mut self.register,
                    ready,
                );
                self.history.push(entry);
            }
        }
    }

    pub(crate) fn register(&self) -> &Register
        ensures { result.now.acts ≡ self.now.town.acts }
    {
        &self.register
    }

    pub(crate) fn members(&self) -> &Members
        ensures { result.now.actors ≡ self.now.town.actors }
    {
        &self.actors
    }

    /// The host, once the server was set up.
    pub fn host(&self) -> Option<&Host>
        ensures { option_copied result ≡ self.now.town.host }
    {
        self.host.as_ref()
    }

    /// The members, in the order in which they were made.
    pub fn actors(&self) -> &[Actor]
        ensures { result.now ≡ self.now.town.actors }
    {
        self.actors.as_slice()
    }

    /// The peers, in the order in which they were set.
    pub fn peers(&self) -> &[Peer]
        ensures { result.now ≡ self.now.town.peers }
    {
        self.peers.as_slice()
    }

    /// The peer of this host, or none if there is no such peer.
    pub fn peer(&self, host: &str) -> Option<&Peer>
        ensures { option_copied result ≡ find (has_host host.now) self.now.town.peers }
    {
        self.peers.iter().find(|peer| has_host(peer, host))
    }

    /// What has become of the delivery to this recipient of the activity with this id, which was
    /// accepted at this moment. It takes one look-up, however many attempts there were.
    pub(crate) fn standing_of(&self, id: &Iri, recipient: &Iri, moment: Moment) -> Standing
        ensures value { progress_in result
            ≡ progress_of self.now.town id.now recipient.now moment }
        ensures few { IsFew result }
    {
        self.tallies.standing_of(id, recipient, moment)
    }

    /// The number of activities.
    pub fn activities(&self) -> usize
        ensures value { result ≡ length self.now.town.acts }
        ensures few { result < 2 ^ 63 }
    {
        self.register.acts().len()
    }

    /// The activity at this position in the order of acceptance. Reading it is one step.
    pub fn shown<L: Ledger>(&self, place: usize, steps: &mut Steps<L>) -> &Kept
        requires { place < length self.now.town.acts }
        ensures act { Some result.now ≡ slice_get self.now.town.acts place }
        ensures cost { steps.new ≡ steps.old + 1 }
    {
        steps.tick();
        &self.register.acts()[place]
    }

    /// The activities that will be added by the entry for which there is room: its own activity and
    /// the answer to it.
    pub fn coming(&self) -> (Option<&Kept>, Option<&Kept>)
        ensures { option_to_list (option_copied result.0) ++ option_to_list (option_copied result.1)
            ≡ coming_in self.now }
    {
        match &self.room {
            Some(room) => room.ready.activities(),
            None => (None, None),
        }
    }

    /// The id of the activity that the entry for which there is room will bring to one more inbox,
    /// and the inbox's owner.
    pub fn coming_inbox(&self) -> Option<(&Iri, &Iri)>
        ensures { option_map (λ pair. (pair.0.now, pair.1.now)) result ≡ coming_inbox_in self.now }
    {
        match &self.room {
            Some(room) => room.ready.inbox(),
            None => None,
        }
    }

    /// The id of the member with this name, or none if there is no such member.
    pub fn id_of(&self, name: &LocalName) -> Option<&Iri>
        ensures { option_copied result ≡ id_of self.now.town name.now }
    {
        self.actors.named(name).map(|a| &a.id)
    }

    /// The member whose key has this digest, or none if there is no such member.
    pub fn actor_with(&self, digest: &[u8; 32]) -> Option<&Actor>
        ensures { option_copied result ≡ find (has_digest digest.now) self.now.town.actors }
    {
        self.actors.with_digest(digest)
    }

    /// The member with this id, or none if there is no such member.
    pub fn actor_of(&self, id: &Iri) -> Option<&Actor>
        ensures { option_copied result ≡ find (has_id id.now) self.now.town.actors }
    {
        self.actors.of_id(id)
    }

    /// Whether the IRI is the id of a member.
    pub fn is_actor(&self, iri: &Iri) -> bool
        ensures { result ≡ is_actor self.now.town iri.now }
    {
        self.actors.of_id(iri).is_some()
    }

    /// The number of the author's activities.
    pub fn count_of(&self, author: &Iri) -> usize
        ensures value { result ≡ count_of self.now.town author.now }
        ensures few { result < 2 ^ 63 }
    {
        self.register.count_of(author)
    }

    /// The activity with this id, or none if there is no such activity.
    pub fn activity_of(&self, id: &Iri) -> Option<&Kept>
        ensures { option_copied result ≡ find (has_activity_id id.now) self.now.town.acts }
    {
        self.register.activity(id)
    }

    /// The position of the activity with this id among the activities, or none if there is no such
    /// activity.
    pub fn position_of(&self, id: &Iri) -> Option<usize>
        ensures { result ≡ place_where (has_activity_id id.now) self.now.town.acts }
    {
        self.register.position_of(id)
    }

    /// The first activity with this id that passes the test, or none if there is no such activity.
    pub fn first_by_id<F: Fn(&Kept) -> bool>(&self, id: &Iri, passes: F) -> Option<&Kept>
        requires { F.IsAlwaysCallable passes }
        ensures { (p : Act → Bool) → Decides (FnReturnsAt F.Fn passes) p
            → option_copied result
            ≡ find (λ x. has_activity_id id.now x && p x) self.now.town.acts }
    {
        self.register.first_by_id(id, passes)
    }

    /// The activity that made the object with this id, or none if there is no such object.
    pub fn maker(&self, id: &Iri) -> Option<&Kept>
        ensures { option_copied result ≡ maker self.now.town id.now }
    {
        self.register.maker(id)
    }

    /// The first activity that made the object with this id and passes the test, or none if there
    /// is no such activity.
    pub fn first_maker<F: Fn(&Kept) -> bool>(&self, id: &Iri, passes: F) -> Option<&Kept>
        requires { F.IsAlwaysCallable passes }
        ensures { (p : Act → Bool) → Decides (FnReturnsAt F.Fn passes) p
            → option_copied result ≡ find (λ x. makes id.now x && p x) self.now.town.acts }
    {
        self.register.first_maker(id, passes)
    }
}
