//! What an accepted activity does to earlier ones, and the Accept that follows a Follow.

ghost use Rattle.std.specs.Prelude.{◌≡◌, ◌&&◌, IfOk, None, Some, codes, option_copied};
ghost use Rattle.fedi_objects.specs.declared.kind.Kind.TheVariants as kinds;
ghost use Rattle.fedi_objects.specs.declared.kind.State.TheVariants.{Rejected, Undone};
ghost use Rattle.fedi_text.specs.Dates.{moment_text};
ghost use Rattle.fedi_town.specs.declared.effect.Effect.TheVariants as effects;
ghost use Rattle.fedi_town.specs.Deeds.{deed_of, is_accepted, is_follow};
ghost use Rattle.fedi_town.specs.Effects.{accept_activity, accept_by, acceptance, answer_to};
ghost use Rattle.fedi_town.specs.Effects.{effect_about, effect_of, follow_ends, followee};
ghost use Rattle.fedi_town.specs.Effects.{takes_effect, to_one, undo_effect};
ghost use Rattle.fedi_town.specs.Relations.{ref_id};
ghost use Rattle.fedi_town.specs.Showing.{ref_to};
ghost use Rattle.fedi_effects.specs.Subjects.{subject_of};

use crate::addressing::recipients_with;
use crate::facts::Facts;
use crate::head::Head;
use crate::states::count_after;
use crate::subjects::ref_id;
use fedi_address::{Host, Iri, Items, Recipients};
use fedi_objects::{Activity, Boxed, Kind, ObjectRef, State, Tag};
use fedi_register::{Kept, is_accepted, is_done, is_follow, is_standing};
use fedi_text::Text;
use fedi_town::{Acceptance, Act, Actor, Deed, Effect};
use std::alloc::{AllocError, Global};

// Whether the side effect happens: that of a Block if the Block is in force, that of any other
// activity if it is done.
fn takes_effect(deed: Deed, state: State) -> bool
    ensures { result ≡ takes_effect deed state }
{
    match deed {
        Deed::Block => is_standing(state),
        Deed::Create
        | Deed::Update
        | Deed::Delete
        | Deed::Follow
        | Deed::Like
        | Deed::Announce
        | Deed::Accept
        | Deed::Reject
        | Deed::Undo
        | Deed::Other => is_done(state),
    }
}

// Each Follow of the same pair as this Follow ends in this state.
fn follow_ends(follow: &Kept, state: State) -> Result<Effect, AllocError>
    ensures { IfOk result (λ effect. effect ≡ follow_ends state (Some follow.now)) }
{
    let Some(followee) = follow.object_id() else {
        return Ok(Effect::Nothing);
    };
    let follower = follow.author().clone()?;
    let followee = followee.clone()?;
    Ok(Effect::EndFollows {
        follower,
        followee,
        state,
    })
}

// The Reject of this Follow.
fn reject_effect(follow: Option<&Kept>) -> Result<Effect, AllocError>
    ensures { IfOk result (λ effect. effect ≡ follow_ends Rejected (option_copied follow.entry)) }
{
    match follow {
        Some(follow) => follow_ends(follow, State::Rejected),
        None => Ok(Effect::Nothing),
    }
}

// The Undo of this: each Follow of its pair ends, or the one activity is undone (ActivityPub,
// sections 6.10 and 7.12).
fn undo_effect(id: &Iri, undone: Option<&Kept>) -> Result<Effect, AllocError>
    ensures { IfOk result (λ effect. effect ≡ undo_effect id.now (option_copied undone.entry)) }
{
    match undone {
        Some(act) if is_follow(act) => follow_ends(act, State::Undone),
        Some(_) => Ok(Effect::Undo {
            activity: id.clone()?,
        }),
        None => Ok(Effect::Nothing),
    }
}

fn update_effect(alloc: Global, act: &Act, id: &Iri) -> Result<Effect, AllocError>
    ensures { IfOk result (λ effect. effect
        ≡ effects.Update id.now act.now.activity.object (moment_text act.now.moment)) }
{
    let object = id.clone()?;
    let stamp = act.moment.to_text(alloc)?;
    let by = act.activity.get().object.clone()?;
    Ok(Effect::Update { object, by, stamp })
}

fn delete_effect(alloc: Global, act: &Act, id: &Iri) -> Result<Effect, AllocError>
    ensures { IfOk result (λ effect. effect
        ≡ effects.Delete id.now (codes "Tombstone") (moment_text act.now.moment)) }
{
    let object = id.clone()?;
    let kind = Text::from_text(alloc, "Tombstone")?;
    let stamp = act.moment.to_text(alloc)?;
    Ok(Effect::Delete {
        object,
        kind,
        stamp,
    })
}

fn block_effect(act: &Act, id: &Iri) -> Result<Effect, AllocError>
    ensures { IfOk result (λ effect. effect ≡ effects.EndBoth act.now.author id.now) }
{
    let author = act.author.clone()?;
    let other = id.clone()?;
    Ok(Effect::EndBoth { author, other })
}

fn accept_effect(id: &Iri) -> Result<Effect, AllocError>
    ensures { IfOk result (λ effect. effect ≡ effects.Accept id.now) }
{
    let follow = id.clone()?;
    Ok(Effect::Accept { follow })
}

// What an activity about this id does if its side effect happens.
fn effect_about(
    alloc: Global,
    facts: &Facts,
    act: &Act,
    id: &Iri,
    subject: Option<&Kept>,
) -> Result<Effect, AllocError>
    requires { option_copied subject
        ≡ subject_of facts.now.town (deed_of act.now.activity.kind) (Some id.now) }
    ensures { IfOk result (λ effect. effect ≡ effect_about facts.now.town act.now
        (deed_of act.now.activity.kind) id.now) }
{
    match Deed::of(act.activity.get().kind) {
        Deed::Update => update_effect(alloc, act, id),
        Deed::Delete => delete_effect(alloc, act, id),
        Deed::Block => block_effect(act, id),
        Deed::Accept => accept_effect(id),
        Deed::Reject => reject_effect(subject),
        Deed::Undo => undo_effect(id, subject),
        Deed::Create | Deed::Follow | Deed::Like | Deed::Announce | Deed::Other => {
            Ok(Effect::Nothing)
        }
    }
}

// What the activity does to earlier ones (ActivityPub, sections 6 and 7).
#[tactic(auto, unfolding(fedi_town::specs::Effects::effect_of))]
fn effect_of(
    alloc: Global,
    facts: &Facts,
    act: &Act,
    subject: Option<&Kept>,
) -> Result<Effect, AllocError>
    requires { option_copied subject
        ≡ subject_of facts.now.town (deed_of act.now.activity.kind)
        (ref_id act.now.activity.object) }
    ensures { IfOk result (λ effect. effect ≡ effect_of facts.now.town act.now) }
{
    if !takes_effect(Deed::of(act.activity.get().kind), act.state) {
        return Ok(Effect::Nothing);
    }
    match ref_id(&act.activity.get().object) {
        Some(id) => effect_about(alloc, facts, act, id, subject),
        None => Ok(Effect::Nothing),
    }
}

// ---- the Accept of a member who is not locked (ActivityPub, section 7.5)

fn to_one(alloc: Global, id: &Iri) -> Result<Recipients, AllocError>
    ensures { IfOk result (λ r. r ≡ to_one id.now) }
{
    let mut to = Items::empty(alloc);
    to.push(id.clone()?)?;
    Ok(Recipients {
        to,
        cc: Items::empty(alloc),
        bto: Items::empty(alloc),
        bcc: Items::empty(alloc),
        audience: Items::empty(alloc),
    })
}

fn ref_to(id: &Option<Iri>) -> Result<ObjectRef, AllocError>
    ensures { IfOk result (λ object. object ≡ ref_to id.now) }
{
    match id {
        Some(id) => Ok(ObjectRef::Id(id.clone()?)),
        None => Ok(ObjectRef::Nothing),
    }
}

// The Accept with this head, of this object, to these recipients.
fn accept_from(head: Head, object: ObjectRef, recipients: Recipients, tags: Items<Tag>) -> Activity
    ensures { result ≡ record {
      id = Some head.id;
      kind = kinds.Accept;
      actor = Some head.actor;
      object = object;
      target = None;
      recipients = recipients;
      in_reply_to = None;
      content = None;
      summary = None;
      name = None;
      published = Some head.published;
      tags = tags;
    } }
{
    Activity {
        id: Some(head.id),
        kind: Kind::Accept,
        actor: Some(head.actor),
        object,
        target: None,
        recipients,
        in_reply_to: None,
        content: None,
        summary: None,
        name: None,
        published: Some(head.published),
        tags,
    }
}

// The Accept with this head of the Follow.
fn accept_activity(alloc: Global, head: Head, follow: &Act) -> Result<Boxed<Activity>, AllocError>
    requires { head.published ≡ moment_text follow.now.moment }
    ensures { IfOk result (λ a. a ≡ accept_activity head.id head.actor follow.now) }
{
    let recipients = to_one(alloc, &follow.author)?;
    let object = ref_to(&follow.activity.get().id)?;
    let accept = accept_from(head, object, recipients, Items::empty(alloc));
    Boxed::new(alloc, accept)
}

// The member's Accept of the Follow, with the member's next number after it.
#[tactic(auto, unfolding(fedi_town::specs::Effects::accept_by))]
fn accept_by(
    alloc: Global,
    facts: &Facts,
    host: &Host,
    follow: &Act,
    member: &Actor,
) -> Result<Act, AllocError>
    ensures { IfOk result (λ x. x ≡ accept_by facts.now.town host.now follow.now member.now) }
{
    let number = count_after(facts, &follow.author, &member.id) + 1;
    let head = Head::new(alloc, host, &member.name, number, &member.id, follow.moment)?;
    let activity = accept_activity(alloc, head, follow)?;
    let named = &activity.get().recipients;
    let is_public = named.is_public();
    let recipients = recipients_with(alloc, facts, &member.id, named, &[])?;
    let author = member.id.clone()?;
    Ok(Act {
        author,
        activity,
        repeat: None,
        moment: follow.moment,
        recipients,
        forwards: Items::empty(alloc),
        is_public,
        for_followers: false,
        state: State::Done,
    })
}

// The member who is followed.
fn followee<'a>(facts: &'a Facts, follow: &Act) -> Option<&'a Actor>
    ensures { option_copied result
        ≡ followee facts.now.town (ref_id follow.now.activity.object) }
{
    facts.actor_of(ref_id(&follow.activity.get().object)?)
}

// Whether the activity is a Follow that was accepted.
fn is_accepted_follow(act: &Act) -> bool
    ensures { result ≡ (is_follow (deed_of act.now.activity.kind) && is_accepted act.now.state) }
{
    match act.activity.get().kind {
        Kind::Follow => is_accepted(act.state),
        _ => false,
    }
}

// The Accept that follows a Follow which is accepted.
fn answer_to(alloc: Global, facts: &Facts, act: &Act) -> Result<Option<Act>, AllocError>
    ensures { IfOk result (λ answer. answer ≡ answer_to facts.now.town act.now) }
{
    if !is_accepted_follow(act) {
        return Ok(None);
    }
    let (Some(host), Some(member)) = (facts.host(), followee(facts, act)) else {
        return Ok(None);
    };
    let accept = accept_by(alloc, facts, host, act, member)?;
    Ok(Some(accept))
}

// What the activity does to earlier ones, and its answer. Dropping an effect costs much to prove,
// so it is done by a call.
fn consequences(
    alloc: Global,
    facts: &Facts,
    act: &Act,
    subject: Option<&Kept>,
) -> Result<(Effect, Option<Act>), AllocError>
    requires { option_copied subject
        ≡ subject_of facts.now.town (deed_of act.now.activity.kind)
        (ref_id act.now.activity.object) }
    ensures { IfOk result (λ both.
        both ≡ (effect_of facts.now.town act.now, answer_to facts.now.town act.now)) }
{
    let effect = effect_of(alloc, facts, act, subject)?;
    match answer_to(alloc, facts, act) {
        Ok(answer) => Ok((effect, answer)),
        Err(error) => {
            drop(effect);
            Err(error)
        }
    }
}

/// The activity with all that follows from it: what it does to earlier ones, and the Accept that
/// follows a Follow. The error is out of memory.
pub fn acceptance(
    alloc: Global,
    facts: &Facts,
    act: Act,
    subject: Option<&Kept>,
) -> Result<Acceptance, AllocError>
    requires { option_copied subject
        ≡ subject_of facts.now.town (deed_of act.activity.kind) (ref_id act.activity.object) }
    ensures { IfOk result (λ a. a ≡ acceptance facts.now.town act) }
{
    let (effect, answer) = consequences(alloc, facts, &act, subject)?;
    Ok(Acceptance {
        act,
        effect,
        answer,
    })
}
