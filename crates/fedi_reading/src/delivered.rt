//! What another server delivers.

ghost use Rattle.std.specs.Prelude.{◌≡◌, ◌≢◌, Some, None, IfOk, IfErr, OnOk, codes, option_map};
ghost use Rattle.std.specs.Option.{option_copied};
ghost use Rattle.serde_json.specs.View.{view};
ghost use Rattle.fedi_objects.specs.Objects.{activity_of_kind, object_of_kind};
ghost use Rattle.fedi_objects.specs.declared.activity.ObjectRef.TheVariants.{Whole};
ghost use Rattle.fedi_reading.specs.Activities as activities;
ghost use Rattle.fedi_reading.specs.Deliveries as deliveries;
ghost use Rattle.fedi_reading.specs.DeliveryFaults.{first_delivery_fault};
ghost use Rattle.fedi_reading.specs.Reading.{tags_of, url_of};
ghost use Rattle.fedi_reading.specs.Shapes.{Gives, Fills};

use crate::activity::{embedded, is_oneself, object_id, object_ref, read_target};
use crate::audience::{read_both, read_few};
use crate::need::Need;
use crate::posted::{iri_at, read_reply, read_tags, read_words};
use crate::properties::{has_context, kind_of, read_iri, reference_at, text_at, type_of};
use crate::shape_fault::ShapeFault;
use fedi_address::Iri;
use fedi_objects::{Activity, Boxed, Kind, Object, ObjectRef, is_date, is_type, set};
use fedi_text::Text;
use serde_json::Value;
use std::alloc::{AllocError, Global};

/// The maximum number of entries that the five fields of recipients may have, as they are written:
/// one more than in a post, since another server may have added a recipient that was implied.
const MOST_DELIVERED: usize = 501;

// A time, as the other server writes it.
#[tactic(auto, unfolding(crate::specs::Deliveries::date_at))]
fn date_at(alloc: Global, value: &Value, key: &str) -> Result<Option<Text>, AllocError>
    ensures { IfOk result (λ text. text ≡ deliveries.date_at key.now (view value.now)) }
{
    match text_at(value, key) {
        Some(text) if is_date(text) => Ok(Some(Text::from_text(alloc, text)?)),
        Some(_) | None => Ok(None),
    }
}

// What a deleted object was.
#[tactic(auto, unfolding(crate::specs::Deliveries::former_of))]
fn former_of(alloc: Global, value: &Value) -> Result<Option<Text>, AllocError>
    ensures { IfOk result (λ text. text ≡ deliveries.former_of (view value.now)) }
{
    match text_at(value, "formerType") {
        Some(text) if is_type(text) => Ok(Some(Text::from_text(alloc, text)?)),
        Some(_) | None => Ok(None),
    }
}

// The actor that an object is attributed to.
#[tactic(auto, unfolding(crate::specs::Deliveries::reads_attributed))]
fn read_attributed(alloc: Global, object: &Value) -> Result<Option<Iri>, ShapeFault>
    ensures { Gives result (deliveries.reads_attributed (view object.now)) }
{
    read_iri(alloc, reference_at(object, "attributedTo"))
}

// Reads the `id`, the actor, the target and what the activity replies to into an activity.
#[tactic(auto, unfolding(crate::specs::Deliveries::reads_addresses))]
fn fill_addresses(alloc: Global, value: &Value, activity: &mut Activity) -> Result<(), ShapeFault>
    ensures { Fills result activity.new
        (deliveries.reads_addresses activity.old (view value.now)) }
{
    set(
        &mut activity.id,
        read_iri(alloc, reference_at(value, "id"))?,
    );
    set(
        &mut activity.actor,
        read_iri(alloc, reference_at(value, "actor"))?,
    );
    set(&mut activity.target, read_target(alloc, value)?);
    set(&mut activity.in_reply_to, read_reply(alloc, value)?);
    Ok(())
}

// Reads the `id`, the actor that the object is attributed to and what it replies to into an object.
#[tactic(auto, unfolding(crate::specs::Deliveries::reads_own_addresses))]
fn fill_own_addresses(alloc: Global, value: &Value, object: &mut Object) -> Result<(), ShapeFault>
    ensures { Fills result object.new
        (deliveries.reads_own_addresses object.old (view value.now)) }
{
    set(&mut object.id, read_iri(alloc, reference_at(value, "id"))?);
    set(&mut object.attributed_to, read_attributed(alloc, value)?);
    set(&mut object.in_reply_to, read_reply(alloc, value)?);
    Ok(())
}

// Whether there is an actor, and an activity that needs another actor names this one.
fn is_own_target(actor: &Option<Iri>, need: Need, about: &Option<Iri>) -> bool
    ensures { result ≡ deliveries.is_own_target actor.now need about.now }
{
    match actor {
        None => false,
        Some(actor) => is_oneself(actor, need, about),
    }
}

// Reads a delivery that carries no object into an activity.
#[tactic(auto, unfolding(crate::specs::Deliveries::reads_bare))]
fn fill_bare(
    alloc: Global,
    value: &Value,
    need: Need,
    activity: &mut Activity,
) -> Result<(), ShapeFault>
    ensures { Fills result activity.new
        (deliveries.reads_bare activity.old need (view value.now)) }
{
    fill_addresses(alloc, value, activity)?;
    let about = read_iri(alloc, object_id(value))?;
    set(
        &mut activity.recipients,
        read_few(alloc, value, MOST_DELIVERED)?,
    );
    let (content, summary, name) = read_words(alloc, value)?;
    set(&mut activity.content, content);
    set(&mut activity.summary, summary);
    set(&mut activity.name, name);
    if is_own_target(&activity.actor, need, &about) {
        return Err(ShapeFault::SelfTarget);
    }
    set(&mut activity.object, object_ref(about));
    set(&mut activity.published, date_at(alloc, value, "published")?);
    set(&mut activity.tags, read_tags(alloc, value)?);
    Ok(())
}

// Reads the properties of an object that are never at fault into the object.
#[tactic(auto, unfolding(crate::specs::Reading::url_of))]
fn fill_links(alloc: Global, value: &Value, object: &mut Object) -> Result<(), AllocError>
    ensures { OnOk result (object.new ≡ record object.old {
      url = url_of (view value.now);
      published = deliveries.date_at (codes "published") (view value.now);
      updated = deliveries.date_at (codes "updated") (view value.now);
      former_kind = deliveries.former_of (view value.now);
      deleted = deliveries.date_at (codes "deleted") (view value.now);
      tags = tags_of (view value.now);
    }) }
{
    set(&mut object.url, iri_at(alloc, value, "url")?);
    set(&mut object.published, date_at(alloc, value, "published")?);
    set(&mut object.updated, date_at(alloc, value, "updated")?);
    set(&mut object.former_kind, former_of(alloc, value)?);
    set(&mut object.deleted, date_at(alloc, value, "deleted")?);
    set(&mut object.tags, read_tags(alloc, value)?);
    Ok(())
}

// Reads a delivery into an activity, and the delivery's object into `made`. Leaves the activity's
// `object` unchanged.
#[tactic(auto, unfolding(crate::specs::Deliveries::reads_full))]
fn fill_full(
    alloc: Global,
    value: &Value,
    object: &Value,
    activity: &mut Activity,
    made: &mut Object,
) -> Result<(), ShapeFault>
    ensures { Fills result (record activity.new { object = Whole made.new })
        (deliveries.reads_full activity.old made.old (view value.now) (view object.now)) }
{
    fill_addresses(alloc, value, activity)?;
    fill_own_addresses(alloc, object, made)?;
    let (recipients, others) = read_both(alloc, value, object, MOST_DELIVERED)?;
    set(&mut activity.recipients, recipients);
    set(&mut made.recipients, others);
    let (content, summary, name) = read_words(alloc, value)?;
    set(&mut activity.content, content);
    set(&mut activity.summary, summary);
    set(&mut activity.name, name);
    let (content, summary, name) = read_words(alloc, object)?;
    set(&mut made.content, content);
    set(&mut made.summary, summary);
    set(&mut made.name, name);
    fill_links(alloc, object, made)?;
    set(&mut activity.published, date_at(alloc, value, "published")?);
    set(&mut activity.tags, read_tags(alloc, value)?);
    Ok(())
}

// An activity of this type, with an object of type `object_type`.
fn read_full(
    alloc: Global,
    value: &Value,
    object: &Value,
    kind: Kind,
    object_type: &str,
) -> Result<Activity, ShapeFault>
    ensures { Gives result (deliveries.reads_full (activity_of_kind kind)
        (object_of_kind object_type.now) (view value.now) (view object.now)) }
{
    let object_kind = Text::from_text(alloc, object_type)?;
    let mut made = Boxed::new(alloc, Object::new(alloc, object_kind))?;
    let mut activity = Activity::new(alloc, kind);
    let filled = fill_full(alloc, value, object, &mut activity, made.get_mut());
    set(&mut activity.object, ObjectRef::Whole(made));
    filled.and(Ok(activity))
}

// Whether this property names nothing.
fn has_no(value: &Value, key: &str) -> bool
    ensures { result ≡ deliveries.has_no key.now (view value.now) }
{
    reference_at(value, key).is_none()
}

// An activity of this type, which carries no object.
#[tactic(auto, unfolding(crate::specs::Deliveries::reads_without))]
fn read_without(alloc: Global, value: &Value, kind: Kind) -> Result<Activity, ShapeFault>
    ensures { Gives result (deliveries.reads_without kind (view value.now)) }
{
    if has_no(value, "id") {
        return Err(ShapeFault::NoId);
    }
    if has_no(value, "actor") {
        return Err(ShapeFault::NoActor);
    }
    let need = Need::of(kind);
    if need.needs_id() && object_id(value).is_none() {
        return Err(ShapeFault::NoObject);
    }
    let mut activity = Activity::new(alloc, kind);
    fill_bare(alloc, value, need, &mut activity).and(Ok(activity))
}

// An activity of this type, which carries this object.
fn read_with(
    alloc: Global,
    value: &Value,
    object: &Value,
    kind: Kind,
) -> Result<Activity, ShapeFault>
    ensures { Gives result
        (deliveries.reads_carried kind (view value.now) (Some (view object.now))) }
{
    let Some(object_type) = type_of(object) else {
        return Err(ShapeFault::NoType);
    };
    if has_no(value, "id") || has_no(object, "id") {
        return Err(ShapeFault::NoId);
    }
    if has_no(value, "actor") {
        return Err(ShapeFault::NoActor);
    }
    read_full(alloc, value, object, kind, object_type)
}

// The object that a Create or an Update carries, if it carries one.
fn carried(need: Need, value: &Value) -> Option<&Value>
    ensures { option_map (λ v. view v.now) result ≡ activities.carried need (view value.now) }
{
    match need {
        Need::Whole | Need::Change => embedded(value),
        _ => None,
    }
}

// An activity of this type.
#[tactic(auto, unfolding(crate::specs::Deliveries::reads_sent))]
fn read_sent(alloc: Global, value: &Value, kind: Kind) -> Result<Activity, ShapeFault>
    ensures { Gives result (deliveries.reads_sent (view value.now) kind) }
{
    match carried(Need::of(kind), value) {
        Some(object) => read_with(alloc, value, object, kind),
        None => read_without(alloc, value, kind),
    }
}

/// Reads what another server delivers: an activity of one of the 28 types (ActivityPub, section 7).
/// Its time grows with the value alone, however many recipients it names.
///
/// The result keeps the activity's `id`, actor, target, five fields of recipients, what it replies
/// to, its content, summary and name, its time, its mentions and its object. The object is kept
/// whole, as another server keeps it, if a `Create` or an `Update` contains it (section 7.3), and
/// otherwise by its `id`. A time or a former type that is not well formed is skipped.
///
/// The error is the first of these faults that applies, in this order. A fault of a property
/// applies to the activity, and to the object if it is kept whole. `NotObject`: the value is not a
/// JSON object. `BadContext`: `@context` is present, but is neither the ActivityStreams context nor
/// a list that contains it. `NoType`: the type is neither a string of 1 to 64 bytes nor a list
/// whose first entry is one, or the activity's type is not one of the 28. `NoId`: there is no `id`.
/// `NoActor`: the activity has no actor. `NoObject`: a `Create`, an `Update`, an `Accept`,
/// `Announce`, `Block`, `Delete`, `Follow`, `Like`, `Reject` or `Undo` names no object. `BadIri`: a
/// string for the `id`, the actor, the object, the target, the actor that an object is attributed
/// to, what is replied to or a recipient is not a web address of at most 2,048 bytes.
/// `TooManyRecipients`: the five fields have more than 501 entries as written. `BadText`: the
/// content, the summary or the name has more than 65,536 bytes. `SelfTarget`: the object of a
/// `Follow` or `Block` is its own actor. `Memory` (out of memory) can occur at any time.
#[tactic(auto, unfolding(crate::specs::Deliveries::reads_delivered))]
pub fn read_delivered(alloc: Global, value: &Value) -> Result<Activity, ShapeFault>
    ensures exact { Gives result (deliveries.reads_delivered (view value.now)) }
    // The fault with the least number that holds.
    ensures least { IfErr result
        (λ e. e ≢ ShapeFault.Memory → first_delivery_fault (view value.now) ≡ Some e) }
    ensures none { OnOk result (first_delivery_fault (view value.now) ≡ None) }
{
    if !value.is_object() {
        return Err(ShapeFault::NotObject);
    }
    if !has_context(value) {
        return Err(ShapeFault::BadContext);
    }
    match kind_of(value) {
        None => Err(ShapeFault::NoType),
        Some(kind) => read_sent(alloc, value, kind),
    }
}
