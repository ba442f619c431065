//! What an entry adds to the town.

ghost use Rattle.std.specs.Prelude.{◌≡◌, IfOk, OnOk, Some, option_copied};
ghost use Rattle.fedi_text.specs.Dates.{moment_text};
ghost use Rattle.fedi_town.specs.declared.addition.Addition.TheVariants as additions;
ghost use Rattle.fedi_town.specs.Activities.{act_by, complete_activity, complete_ref, local_act};
ghost use Rattle.fedi_town.specs.Addressing.{complete_recipients, is_original_for_followers};
ghost use Rattle.fedi_town.specs.Addressing.{is_original_public, original_recipients};
ghost use Rattle.fedi_town.specs.Deeds.{deed_of};
ghost use Rattle.fedi_town.specs.Effects.{acceptance};
ghost use Rattle.fedi_town.specs.Histories.{addition_of, member_addition, post_addition};
ghost use Rattle.fedi_town.specs.Ids.{actor_id};
ghost use Rattle.fedi_town.specs.Relations.{ref_id};
ghost use Rattle.fedi_effects.specs.Stamps.{stamped};
ghost use Rattle.fedi_effects.specs.Subjects.{original_among, subject_of};

use crate::addressing::{names_followers, recipients_with};
use crate::effects::acceptance;
use crate::facts::Facts;
use crate::head::Head;
use crate::implied::complete_recipients;
use crate::receiving::delivery_addition;
use crate::states::state_of;
use crate::subjects::subject_of;
use fedi_address::{Host, Iri, Items, LocalName};
use fedi_objects::{Activity, Boxed, Came, Entry, Object, ObjectRef, RepeatKey, set};
use fedi_register::{Kept, is_done};
use fedi_text::{Moment, Text};
use fedi_town::{Acceptance, Act, Actor, Addition, Attempt, Deed, Peer, actor_iri, object_iri};
use std::alloc::{AllocError, Global};

// The member that an entry makes once the server is set up.
fn member_addition(
    alloc: Global,
    facts: &Facts,
    name: &LocalName,
    digest: &[u8; 32],
    locked: bool,
) -> Result<Addition, AllocError>
    ensures { IfOk result
        (λ a. a ≡ member_addition facts.now.town.host name.now digest.now locked) }
{
    let Some(host) = facts.host() else {
        return Ok(Addition::Nothing);
    };
    Ok(Addition::Member(Actor {
        name: name.copy(),
        id: actor_iri(alloc, host, name)?,
        digest: *digest,
        locked,
    }))
}

// ---- what the server sets

// Owning an object or an activity across many exits costs much to prove, so they are lent.
fn complete_object(object: &mut Object, id: Iri, author: Iri, published: Text)
    ensures { object.new ≡ record object.old {
      id = Some id;
      attributed_to = Some author;
      published = Some published;
    } }
{
    set(&mut object.id, Some(id));
    set(&mut object.attributed_to, Some(author));
    set(&mut object.published, Some(published));
}

// Names also those that the activity implies.
fn complete_addressing(
    alloc: Global,
    facts: &Facts,
    author: &Iri,
    activity: &mut Activity,
    subject: Option<&Kept>,
) -> Result<(), AllocError>
    requires { option_copied subject
        ≡ subject_of facts.now.town (deed_of activity.old.kind) (ref_id activity.old.object) }
    ensures { OnOk result (activity.new ≡ record activity.old {
      recipients = complete_recipients facts.now.town author.now (deed_of activity.old.kind)
          (ref_id activity.old.object) activity.old.recipients;
    }) }
{
    let deed = Deed::of(activity.kind);
    let object = &activity.object;
    let named = &mut activity.recipients;
    complete_recipients(alloc, facts, author, deed, object, subject, named)
}

// What determines all that the server sets in a new activity: its author, its number among the
// author's activities, and when it was accepted.
#[derive(Clone, Copy)]
struct Stamp<'a> {
    host: &'a Host,
    name: &'a LocalName,
    number: u64,
    moment: Moment,
}

impl<'a> Stamp<'a> {
    // The object that the activity carries gets its id, its author and its moment.
    fn complete_ref(
        &self,
        alloc: Global,
        object: &mut ObjectRef,
        author: &Iri,
        published: &Text,
    ) -> Result<(), AllocError>
        requires author { author.now ≡ actor_id self.now.host.now self.now.name.now }
        requires published { published.now ≡ moment_text self.now.moment }
        ensures { OnOk result (object.new ≡ complete_ref self.now.host.now self.now.name.now
            self.now.number self.now.moment object.old) }
    {
        match object {
            ObjectRef::Whole(object) => {
                let id = object_iri(alloc, self.host, self.name, self.number)?;
                let author = author.clone()?;
                let published = published.clone()?;
                complete_object(object.get_mut(), id, author, published);
                Ok(())
            }
            ObjectRef::Nothing | ObjectRef::Id(_) | ObjectRef::Changed(_) => Ok(()),
        }
    }

    // The activity gets its id, its actor and its moment, and its object gets them too.
    fn set_on(&self, alloc: Global, activity: &mut Activity, author: &Iri) -> Result<(), AllocError>
        requires { author.now ≡ actor_id self.now.host.now self.now.name.now }
        ensures { OnOk result (activity.new ≡ stamped self.now.host.now self.now.name.now
            self.now.number self.now.moment activity.old) }
    {
        let head = Head::new(
            alloc,
            self.host,
            self.name,
            self.number,
            author,
            self.moment,
        )?;
        self.complete_ref(alloc, &mut activity.object, author, &head.published)?;
        head.set_on(activity);
        Ok(())
    }

    // Sets in the activity all that the server sets, including those it implies. Returns what it
    // acts on.
    fn complete<'f>(
        &self,
        alloc: Global,
        facts: &'f Facts,
        activity: &mut Activity,
        author: &Iri,
    ) -> Result<Option<&'f Kept>, AllocError>
        requires { author.now ≡ actor_id self.now.host.now self.now.name.now }
        ensures completed { OnOk result (activity.new ≡ complete_activity facts.now.town
            self.now.host.now self.now.name.now self.now.number self.now.moment activity.old) }
        ensures subject { IfOk result (λ subject. option_copied subject
            ≡ subject_of facts.now.town (deed_of activity.new.kind) (ref_id activity.new.object)) }
    {
        self.set_on(alloc, activity, author)?;
        let subject = subject_of(facts, Deed::of(activity.kind), &activity.object);
        complete_addressing(alloc, facts, author, activity, subject)?;
        Ok(subject)
    }
}

// ---- the activity as it is accepted

// The Create of the object that an Update or a Delete is about.
fn original(deed: Deed, subject: Option<&Kept>) -> Option<&Kept>
    ensures { option_copied result ≡ original_among deed (option_copied subject.entry) }
{
    match deed {
        Deed::Update | Deed::Delete => subject,
        Deed::Create
        | Deed::Follow
        | Deed::Like
        | Deed::Announce
        | Deed::Block
        | Deed::Accept
        | Deed::Reject
        | Deed::Undo
        | Deed::Other => None,
    }
}

fn original_recipients(create: Option<&Kept>) -> &[Iri]
    ensures { result.now ≡ original_recipients (option_copied create.entry) }
{
    match create {
        Some(create) => create.recipients(),
        None => &[],
    }
}

fn is_original_public(create: Option<&Kept>) -> bool
    ensures { result ≡ is_original_public (option_copied create.entry) }
{
    match create {
        Some(create) => create.is_public(),
        None => false,
    }
}

fn is_original_for_followers(create: Option<&Kept>) -> bool
    ensures { result ≡ is_original_for_followers (option_copied create.entry) }
{
    match create {
        Some(create) => create.is_for_followers(),
        None => false,
    }
}

fn copy_repeat(repeat: &Option<(RepeatKey, [u8; 32])>) -> Option<(RepeatKey, [u8; 32])>
    ensures { result ≡ repeat.now }
{
    match repeat {
        Some(pair) => {
            let digest = pair.1;
            let key = pair.0.copy();
            let copied = (key, digest);
            Some(copied)
        }
        None => None,
    }
}

// The author's completed activity as it is accepted. An Update or a Delete goes also to those who
// got the Create of its object.
#[tactic(auto, using(crate::proofs::Originals::original_is))]
fn act_by(
    alloc: Global,
    facts: &Facts,
    author: Iri,
    repeat: &Option<(RepeatKey, [u8; 32])>,
    moment: Moment,
    activity: Boxed<Activity>,
    subject: Option<&Kept>,
) -> Result<Act, AllocError>
    requires { option_copied subject
        ≡ subject_of facts.now.town (deed_of activity.kind) (ref_id activity.object) }
    ensures { IfOk result
        (λ x. x ≡ act_by facts.now.town author repeat.now moment activity) }
{
    let accepted = activity.get();
    let named = &accepted.recipients;
    let deed = Deed::of(accepted.kind);
    let create = original(deed, subject);
    let state = state_of(facts, true, &author, deed, &accepted.object, subject);
    let is_public = named.is_public() || is_original_public(create);
    let for_followers = names_followers(&author, named)
        || (is_done(state) && is_original_for_followers(create));
    let others = original_recipients(create);
    let recipients = recipients_with(alloc, facts, &author, named, others)?;
    Ok(Act {
        author,
        activity,
        repeat: copy_repeat(repeat),
        moment,
        recipients,
        forwards: Items::empty(alloc),
        is_public,
        for_followers,
        state,
    })
}

// A member's post, accepted with all that follows from it.
fn accept_post(
    alloc: Global,
    facts: &Facts,
    host: &Host,
    name: &LocalName,
    repeat: &Option<(RepeatKey, [u8; 32])>,
    posted: &Boxed<Activity>,
    moment: Moment,
) -> Result<Acceptance, AllocError>
    ensures { IfOk result (λ a. a ≡ acceptance facts.now.town
        (local_act facts.now.town host.now name.now repeat.now posted.now moment)) }
{
    let author = actor_iri(alloc, host, name)?;
    let number = facts.count_of(&author) as u64 + 1;
    let stamp = Stamp {
        host,
        name,
        number,
        moment,
    };
    let mut activity = posted.clone()?;
    let subject = stamp.complete(alloc, facts, activity.get_mut(), &author)?;
    let act = act_by(alloc, facts, author, repeat, moment, activity, subject)?;
    acceptance(alloc, facts, act, subject)
}

// The activity that a member's post makes once the server is set up.
fn post_addition(
    alloc: Global,
    facts: &Facts,
    name: &LocalName,
    repeat: &Option<(RepeatKey, [u8; 32])>,
    activity: &Boxed<Activity>,
    moment: Moment,
) -> Result<Addition, AllocError>
    ensures { IfOk result (λ a. a ≡ post_addition facts.now.town.host facts.now.town
        name.now repeat.now activity.now moment) }
{
    let Some(host) = facts.host() else {
        return Ok(Addition::Nothing);
    };
    let accepted = accept_post(alloc, facts, host, name, repeat, activity, moment)?;
    Ok(Addition::Activity(accepted))
}

// ---- peers and attempts

fn peer_addition(
    host: &Host,
    key: &[u8; 32],
    address: &Text,
    relay: bool,
) -> Result<Addition, AllocError>
    ensures { IfOk result (λ a. a ≡ additions.Peer (record {
      host = host.now;
      key = key.now;
      address = address.now;
      relay = relay;
    })) }
{
    Ok(Addition::Peer(Peer {
        host: host.clone()?,
        key: *key,
        address: address.clone()?,
        relay,
    }))
}

fn attempt_addition(
    activity: &Iri,
    recipient: &Iri,
    came: Came,
    moment: Moment,
) -> Result<Addition, AllocError>
    ensures { IfOk result (λ a. a ≡ additions.Attempt (record {
      activity = activity.now;
      recipient = recipient.now;
      came = came;
      moment = moment;
    })) }
{
    Ok(Addition::Attempt(Attempt {
        activity: activity.clone()?,
        recipient: recipient.clone()?,
        came,
        moment,
    }))
}

/// What the entry adds to the town: a host, a member, a peer, a member's or a delivered activity
/// with all that follows from it, one more inbox of a known activity, or an attempt. Nothing
/// changes. The error is out of memory.
pub fn prepare(alloc: Global, facts: &Facts, entry: &Entry) -> Result<Addition, AllocError>
    ensures { IfOk result (λ a. a ≡ addition_of facts.now.town entry.now) }
{
    match entry {
        Entry::Hosted { host, .. } => Ok(Addition::Host(host.clone()?)),
        Entry::Made {
            name,
            digest,
            locked,
            ..
        } => member_addition(alloc, facts, name, digest, *locked),
        Entry::PeerSet {
            host,
            key,
            address,
            relay,
            ..
        } => peer_addition(host, key, address, *relay),
        Entry::Local {
            name,
            repeat,
            activity,
            moment,
        } => post_addition(alloc, facts, name, repeat, activity, *moment),
        Entry::Remote {
            inbox,
            activity,
            moment,
            ..
        } => delivery_addition(alloc, facts, inbox, activity, *moment),
        Entry::Tried {
            activity,
            recipient,
            came,
            moment,
        } => attempt_addition(activity, recipient, *came, *moment),
    }
}
