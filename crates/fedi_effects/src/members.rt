//! The members of the server.

ghost use Rattle.std.specs.Prelude.{◌≡◌, ◌∷◌, ◌++◌, [], ◌-◌, ◌≤◌, ◌&&◌, IfOk, OnOk};
ghost use Rattle.std.specs.Prelude.{option_copied};
ghost use Rattle.std.specs.List.{find, list_any};
ghost use Rattle.fedi_town.specs.Towns.{has_digest, has_id, has_name};
ghost use Rattle.fedi_register.specs.Seeds.{mark_of};

use fedi_address::{Iri, LocalName};
use fedi_register::{MOST_ITEMS, Marks, Seed};
use fedi_town::Actor;
use std::alloc::{AllocError, Global};
use std::marker::Model;

/// The members in the order in which they were made, looked up by their names, their ids and the
/// digests of their keys.
#[derive(Drop)]
pub(crate) struct Members {
    seed: Seed,
    list: Vec<Actor>,
    names: Marks,
    ids: Marks,
    digests: Marks,
    // How many more members there is room for.
    room: usize,
}

impl Model for Members {
    ghost use Rattle.fedi_effects.specs.Members.{AreMembers, Peopled, members_in};

    ghost Value = { Peopled };

    ghost view = { members_in };

    ghost invariant = { AreMembers };
}

#[tactic(auto, unfolding(fedi_town::specs::Towns::has_name))]
fn has_name(actor: &Actor, name: &LocalName) -> bool
    ensures { result ≡ has_name name.now actor.now }
{
    actor.name == *name
}

#[tactic(auto, unfolding(fedi_town::specs::Towns::has_id))]
fn has_id(actor: &Actor, id: &[u8]) -> bool
    ensures { result ≡ has_id id.now actor.now }
{
    actor.id.text().as_bytes() == id
}

#[tactic(auto, unfolding(fedi_town::specs::Towns::has_digest))]
fn has_digest(actor: &Actor, digest: &[u8; 32]) -> bool
    ensures { result ≡ has_digest digest.now actor.now }
{
    actor.digest.as_slice() == digest.as_slice()
}

fn is_locked_one(actor: &Actor, id: &Iri) -> bool
    ensures { result ≡ (has_id id.now actor.now && actor.now.locked) }
{
    has_id(actor, id.text().as_bytes()) && actor.locked
}

fn mark_of_name(seed: &Seed, name: &LocalName) -> u32
    ensures { result ≡ mark_of seed.now name.now }
{
    seed.mark_of(name.text().as_bytes())
}

fn mark_of_digest(seed: &Seed, digest: &[u8; 32]) -> u32
    ensures { result ≡ mark_of seed.now digest.now }
{
    seed.mark_of(digest.as_slice())
}

fn copy_of(member: &Actor) -> Result<Actor, AllocError>
    ensures { IfOk result (λ copy. copy ≡ member.now) }
{
    Ok(Actor {
        name: member.name.copy(),
        id: member.id.copy()?,
        digest: member.digest,
        locked: member.locked,
    })
}

// The same members in the same order, looked up by numbers of this seed. The error is out of
// memory.
fn copies_of(alloc: Global, seed: Seed, members: &[Actor]) -> Result<Members, AllocError>
    ensures { IfOk result (λ copies. copies.actors ≡ members.now) }
{
    let mut copies = Members::empty(alloc, seed);
    for member in members {
        copies.add_copy(member)?;
    }
    Ok(copies)
}

impl Members {
    /// No members. The seed is for the numbers by which they are looked up.
    pub(crate) fn empty(alloc: Global, seed: Seed) -> Members
        ensures { result ≡ record { actors = []; room = 0 } }
    {
        Members {
            seed,
            list: Vec::new(alloc),
            names: Marks::empty(alloc),
            ids: Marks::empty(alloc),
            digests: Marks::empty(alloc),
            room: 0,
        }
    }

    /// The members.
    pub(crate) fn as_slice(&self) -> &[Actor]
        ensures { result.now ≡ self.now.actors }
    {
        self.list.as_slice()
    }

    /// The member with this name.
    pub(crate) fn named(&self, name: &LocalName) -> Option<&Actor>
        ensures { option_copied result ≡ find (has_name name.now) self.now.actors }
    {
        self.names.first_of(
            &self.list,
            mark_of_name(&self.seed, name),
            |actor| has_name(actor, name),
        )
    }

    /// The member with this id.
    pub(crate) fn of_id(&self, id: &Iri) -> Option<&Actor>
        ensures { option_copied result ≡ find (has_id id.now) self.now.actors }
    {
        self.of_text(id.text().as_bytes())
    }

    /// The member whose id is these bytes.
    pub(crate) fn of_text(&self, id: &[u8]) -> Option<&Actor>
        ensures { option_copied result ≡ find (has_id id.now) self.now.actors }
    {
        self.ids.first_of(&self.list, self.seed.mark_of(id), |actor| has_id(actor, id))
    }

    /// The member whose key has this digest.
    pub(crate) fn with_digest(&self, digest: &[u8; 32]) -> Option<&Actor>
        ensures { option_copied result ≡ find (has_digest digest.now) self.now.actors }
    {
        self.digests.first_of(
            &self.list,
            mark_of_digest(&self.seed, digest),
            |actor| has_digest(actor, digest),
        )
    }

    /// Whether a member with this id is locked.
    pub(crate) fn has_locked(&self, id: &Iri) -> bool
        ensures { result ≡ list_any (λ a. has_id id.now a && a.locked) self.now.actors }
    {
        self.ids
            .first_of(
                &self.list,
                self.seed.mark_of_iri(id),
                |actor| is_locked_one(actor, id),
            )
            .is_some()
    }

    /// Makes room for one more member. The error is out of memory, as it is for more than
    /// [`MOST_ITEMS`] members.
    pub(crate) fn reserve(&mut self) -> Result<(), AllocError>
        ensures actors { self.new.actors ≡ self.old.actors }
        ensures room { OnOk result (1 ≤ self.new.room) }
    {
        self.room = 0;
        if self.list.len() > MOST_ITEMS {
            return Err(AllocError);
        }
        self.list.reserve(1)?;
        self.names.reserve()?;
        self.ids.reserve()?;
        self.digests.reserve()?;
        self.room = 1;
        Ok(())
    }

    /// Adds a member, for which there has to be room. It takes no memory.
    pub(crate) fn push(&mut self, member: Actor)
        requires { 1 ≤ self.old.room }
        ensures { self.new ≡ record {
          actors = self.old.actors ++ member ∷ [];
          room = self.old.room - 1;
        } }
    {
        let place = self.list.len();
        let at = place as u32;
        self.names.push(mark_of_name(&self.seed, &member.name), at);
        self.ids.push(self.seed.mark_of_iri(&member.id), at);
        self.digests
            .push(mark_of_digest(&self.seed, &member.digest), at);
        self.list.push_reserved(member);
        self.room -= 1;
    }

    // Adds a copy of a member. The error is out of memory.
    fn add_copy(&mut self, member: &Actor) -> Result<(), AllocError>
        ensures { OnOk result (self.new.actors ≡ self.old.actors ++ member.now ∷ []) }
    {
        self.reserve()?;
        self.push(copy_of(member)?);
        Ok(())
    }

    /// A copy of the members, with lists of its own. The error is out of memory.
    pub(crate) fn copy(&self, alloc: Global) -> Result<Members, AllocError>
        ensures { IfOk result (λ copy. copy.actors ≡ self.now.actors) }
    {
        copies_of(alloc, self.seed, &self.list)
    }
}
