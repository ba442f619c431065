//! What a delivery of another server adds to the town.

ghost use Rattle.std.specs.Prelude.{◌≡◌, ◌∷◌, [], IfOk, OnOk, Some, codes, option_copied};
ghost use Rattle.std.specs.Prelude.{unwrap_or};
ghost use Rattle.fedi_objects.specs.Forms.{is_tombstone};
ghost use Rattle.fedi_text.specs.Dates.{moment_text};
ghost use Rattle.fedi_town.specs.Activities.{attribute, complete_tombstone, receive_object};
ghost use Rattle.fedi_town.specs.Activities.{receive_ref, remote_act};
ghost use Rattle.fedi_town.specs.Deeds.{deed_of};
ghost use Rattle.fedi_town.specs.Effects.{acceptance};
ghost use Rattle.fedi_town.specs.Histories.{delivery_addition, inbox_addition, is_known};
ghost use Rattle.fedi_town.specs.Objects.{emptied};
ghost use Rattle.fedi_town.specs.Relations.{ref_id};
ghost use Rattle.fedi_town.specs.Towns.{id_of};
ghost use Rattle.fedi_effects.specs.Subjects.{subject_of};

use crate::effects::acceptance;
use crate::facts::Facts;
use crate::forwarding::forwards_of;
use crate::states::state_of;
use crate::subjects::subject_of;
use fedi_address::{Iri, Items, LocalName};
use fedi_objects::{Activity, Boxed, Object, ObjectRef, TOMBSTONE, set};
use fedi_register::Kept;
use fedi_text::{Moment, Text};
use fedi_town::{Acceptance, Act, Addition, Deed};
use std::alloc::{AllocError, Global};

// ---- the object

// Gives an absent property a value.
fn set_former_kind(alloc: Global, field: &mut Option<Text>) -> Result<(), AllocError>
    ensures { OnOk result (field.new ≡ Some (unwrap_or field.old (codes "Object"))) }
{
    if field.is_none() {
        *field = Some(Text::from_text(alloc, "Object")?);
    }
    Ok(())
}

fn set_deleted(alloc: Global, field: &mut Option<Text>, moment: Moment) -> Result<(), AllocError>
    ensures { OnOk result (field.new ≡ Some (unwrap_or field.old (moment_text moment))) }
{
    if field.is_none() {
        *field = Some(moment.to_text(alloc)?);
    }
    Ok(())
}

// A Tombstone states its former type and when it was deleted (ActivityStreams 2.0 Vocabulary,
// section 3.3).
fn complete_tombstone(alloc: Global, object: &mut Object, moment: Moment) -> Result<(), AllocError>
    ensures { OnOk result (object.new ≡ complete_tombstone moment object.old) }
{
    set_former_kind(alloc, &mut object.former_kind)?;
    set_deleted(alloc, &mut object.deleted, moment)
}

fn is_tombstone(object: &Object) -> bool
    ensures { result ≡ is_tombstone object.now }
{
    object.kind.text() == TOMBSTONE
}

// Clears everything that an Update may set.
fn empty(alloc: Global, object: &mut Object)
    ensures { object.new ≡ emptied object.old }
{
    set(&mut object.content, None);
    set(&mut object.summary, None);
    set(&mut object.name, None);
    set(&mut object.url, None);
    set(&mut object.in_reply_to, None);
    set(&mut object.tags, Items::empty(alloc));
}

// An object that another server gives: a Tombstone is completed, and one that is created is empty
// beside that, as is what a Delete leaves.
#[tactic(auto, unfolding(fedi_town::specs::Activities::receive_object))]
fn receive_object(
    alloc: Global,
    deed: Deed,
    object: &mut Object,
    moment: Moment,
) -> Result<(), AllocError>
    ensures { OnOk result (object.new ≡ receive_object deed moment object.old) }
{
    if !is_tombstone(object) {
        return Ok(());
    }
    if matches!(deed, Deed::Create) {
        empty(alloc, object);
    }
    complete_tombstone(alloc, object, moment)
}

fn attribute(object: &mut Object, author: Iri)
    ensures { object.new ≡ attribute author object.old }
{
    set(&mut object.attributed_to, Some(author));
}

// What an activity of another server is about.
fn receive_ref(
    alloc: Global,
    deed: Deed,
    object: &mut ObjectRef,
    author: &Iri,
    moment: Moment,
) -> Result<(), AllocError>
    ensures { OnOk result (object.new ≡ receive_ref deed author.now moment object.old) }
{
    match object {
        ObjectRef::Whole(object) => {
            let author = author.clone()?;
            receive_object(alloc, deed, object.get_mut(), moment)?;
            attribute(object.get_mut(), author);
            Ok(())
        }
        ObjectRef::Nothing | ObjectRef::Id(_) | ObjectRef::Changed(_) => Ok(()),
    }
}

// ---- the activity

fn received(
    alloc: Global,
    delivered: &Boxed<Activity>,
    author: &Iri,
    moment: Moment,
) -> Result<Boxed<Activity>, AllocError>
    ensures { IfOk result (λ a. a ≡ record delivered.now {
      object = receive_ref (deed_of delivered.now.kind) author.now moment delivered.now.object;
    }) }
{
    let deed = Deed::of(delivered.get().kind);
    let mut activity = delivered.clone()?;
    receive_ref(alloc, deed, &mut activity.get_mut().object, author, moment)?;
    Ok(activity)
}

fn one(alloc: Global, iri: &Iri) -> Result<Items<Iri>, AllocError>
    ensures { IfOk result (λ items. items ≡ iri.now ∷ []) }
{
    let mut items = Items::empty(alloc);
    items.push(iri.clone()?)?;
    Ok(items)
}

// An activity of a remote author that was delivered to this owner's inbox and is new.
fn remote_act(
    alloc: Global,
    facts: &Facts,
    owner: &Iri,
    author: &Iri,
    delivered: &Boxed<Activity>,
    moment: Moment,
    subject: Option<&Kept>,
) -> Result<Act, AllocError>
    requires { option_copied subject
        ≡ subject_of facts.now.town (deed_of delivered.now.kind) (ref_id delivered.now.object) }
    ensures { IfOk result
        (λ x. x ≡ remote_act facts.now.town owner.now author.now delivered.now moment) }
{
    let read = delivered.get();
    let deed = Deed::of(read.kind);
    let state = state_of(facts, false, author, deed, &read.object, subject);
    let is_public = read.recipients.is_public();
    let forwards = forwards_of(alloc, facts, author, read)?;
    let recipients = one(alloc, owner)?;
    let activity = received(alloc, delivered, author, moment)?;
    Ok(Act {
        author: author.clone()?,
        activity,
        repeat: None,
        moment,
        recipients,
        forwards,
        is_public,
        for_followers: false,
        state,
    })
}

// A new delivery, accepted with all that follows from it.
#[tactic(auto, using(fedi_town::proofs::Kept::ref_received))]
fn accept_delivery(
    alloc: Global,
    facts: &Facts,
    owner: &Iri,
    author: &Iri,
    delivered: &Boxed<Activity>,
    moment: Moment,
) -> Result<Acceptance, AllocError>
    ensures { IfOk result (λ a. a ≡ acceptance facts.now.town
        (remote_act facts.now.town owner.now author.now delivered.now moment)) }
{
    let read = delivered.get();
    let subject = subject_of(facts, Deed::of(read.kind), &read.object);
    let act = remote_act(alloc, facts, owner, author, delivered, moment, subject)?;
    acceptance(alloc, facts, act, subject)
}

// Whether an activity with this id was accepted.
fn is_known(facts: &Facts, id: &Iri) -> bool
    ensures { result ≡ is_known facts.now.town id.now }
{
    facts.activity_of(id).is_some()
}

// What a delivery to this owner's inbox makes: one more inbox if the id is known, otherwise the
// activity (ActivityPub, section 7.1).
fn inbox_addition(
    alloc: Global,
    facts: &Facts,
    owner: &Iri,
    author: &Iri,
    id: &Iri,
    delivered: &Boxed<Activity>,
    moment: Moment,
) -> Result<Addition, AllocError>
    ensures { IfOk result (λ a. a ≡ inbox_addition facts.now.town owner.now author.now id.now
        delivered.now moment) }
{
    if is_known(facts, id) {
        let activity = id.clone()?;
        let owner = owner.clone()?;
        return Ok(Addition::Inbox { activity, owner });
    }
    let accepted = accept_delivery(alloc, facts, owner, author, delivered, moment)?;
    Ok(Addition::Activity(accepted))
}

/// What a delivery makes if it has an id and an actor and goes to a member's inbox. The error is
/// out of memory.
pub(crate) fn delivery_addition(
    alloc: Global,
    facts: &Facts,
    inbox: &LocalName,
    delivered: &Boxed<Activity>,
    moment: Moment,
) -> Result<Addition, AllocError>
    ensures { IfOk result (λ a. a ≡ delivery_addition facts.now.town
        (id_of facts.now.town inbox.now) delivered.now.actor delivered.now.id
        delivered.now moment) }
{
    let read = delivered.get();
    let Some(owner) = facts.id_of(inbox) else {
        return Ok(Addition::Nothing);
    };
    let Some(author) = &read.actor else {
        return Ok(Addition::Nothing);
    };
    let Some(id) = &read.id else {
        return Ok(Addition::Nothing);
    };
    inbox_addition(alloc, facts, owner, author, id, delivered, moment)
}
