//! Activities, as a client posts them.

ghost use Rattle.std.specs.Prelude.{◌≡◌, ◌≢◌, ℕ, List, Some, None, Ok, option_map, IfOk, IfErr};
ghost use Rattle.std.specs.Prelude.{OnOk};
ghost use Rattle.std.specs.Option.{option_copied};
ghost use Rattle.serde_json.specs.Data.{Data};
ghost use Rattle.serde_json.specs.View.{view};
ghost use Rattle.fedi_objects.specs.Objects.{activity_of_kind, object_of_kind, no_change};
ghost use Rattle.fedi_objects.specs.declared.activity.ObjectRef.TheVariants.{Whole, Changed};
ghost use Rattle.fedi_objects.specs.declared.kind.Kind.TheVariants as kinds;
ghost use Rattle.fedi_reading.specs.Activities as activities;
ghost use Rattle.fedi_reading.specs.ActivityFaults.{first_post_fault};
ghost use Rattle.fedi_reading.specs.Reading.{reads_posted};
ghost use Rattle.fedi_reading.specs.Shapes.{Gives, Fills};

use crate::audience::read_audience;
use crate::need::Need;
use crate::posted::{iri_at, read_people, read_posted, read_reply, read_tags, read_words};
use crate::properties::{
    has_context, kind_of, property, read_address, read_iri, read_new_type, reference_at,
};
use crate::shape_fault::ShapeFault;
use fedi_address::{Iri, Items};
use fedi_objects::{Activity, Boxed, Change, Edit, Kind, Object, ObjectRef, Tag, set};
use fedi_text::Text;
use serde_json::Value;
use std::alloc::{AllocError, Global};

// A single value. A list of one entry counts as that entry. Null and every other list count as
// absent.
fn one_value(value: &Value) -> Option<&Value>
    ensures { option_map (λ v. view v.now) result ≡ activities.one_value (view value.now) }
{
    match value {
        Value::Null => None,
        Value::Array(values) if values.len() == 1 => one_value(&values[0]),
        Value::Array(_) => None,
        _ => Some(value),
    }
}

// What an activity is about.
#[tactic(auto, unfolding(crate::specs::Activities::object_at))]
fn object_at(value: &Value) -> Option<&Value>
    ensures { option_map (λ v. view v.now) result ≡ activities.object_at (view value.now) }
{
    one_value(property(value, "object")?)
}

// The object that the activity contains.
#[tactic(auto, unfolding(crate::specs::Activities::embedded))]
pub(crate) fn embedded(value: &Value) -> Option<&Value>
    ensures { option_map (λ v. view v.now) result ≡ activities.embedded (view value.now) }
{
    let object = object_at(value)?;
    if object.is_object() {
        Some(object)
    } else {
        None
    }
}

// The `id` of a thing, or the address that represents it.
#[tactic(auto, unfolding(crate::specs::Activities::id_of))]
fn id_of(value: &Value) -> Option<&str>
    ensures { option_copied result ≡ activities.id_of (view value.now) }
{
    match value {
        Value::String(text) => Some(text.as_str()),
        _ => reference_at(value, "id"),
    }
}

// The `id` of what the activity is about.
#[tactic(auto, unfolding(crate::specs::Activities::object_id))]
pub(crate) fn object_id(value: &Value) -> Option<&str>
    ensures { option_copied result ≡ activities.object_id (view value.now) }
{
    id_of(object_at(value)?)
}

// The actor or thing that an activity is directed to.
#[tactic(auto, unfolding(crate::specs::Activities::reads_target))]
pub(crate) fn read_target(alloc: Global, value: &Value) -> Result<Option<Iri>, ShapeFault>
    ensures { Gives result (activities.reads_target (view value.now)) }
{
    read_iri(alloc, reference_at(value, "target"))
}

// The `id` of what an activity is about.
#[tactic(auto, unfolding(crate::specs::Activities::reads_id))]
fn read_id(alloc: Global, need: Need, reference: Option<&str>) -> Result<Option<Iri>, ShapeFault>
    ensures { Gives result (activities.reads_id need (option_copied reference.entry)) }
{
    if need.needs_id() && reference.is_none() {
        return Err(ShapeFault::NoObject);
    }
    read_iri(alloc, reference)
}

// Whether an actor other than the author is needed, but the author is named.
pub(crate) fn is_oneself(author: &Iri, need: Need, id: &Option<Iri>) -> bool
    ensures { result ≡ activities.is_oneself author.now need id.now }
{
    match (need, id) {
        (Need::Another, Some(id)) => id == author,
        _ => false,
    }
}

// A thing by its `id`, if there is one.
pub(crate) fn object_ref(id: Option<Iri>) -> ObjectRef
    ensures { result ≡ activities.object_ref id }
{
    match id {
        None => ObjectRef::Nothing,
        Some(id) => ObjectRef::Id(id),
    }
}

// Reads an activity that keeps the `id` of its object into an empty activity.
#[tactic(auto, unfolding(crate::specs::Activities::reads_other))]
fn fill_other(
    alloc: Global,
    value: &Value,
    author: &Iri,
    need: Need,
    activity: &mut Activity,
) -> Result<(), ShapeFault>
    requires { activity.old ≡ activity_of_kind activity.old.kind }
    ensures { Fills result activity.new
        (activities.reads_other author.now activity.old.kind need (view value.now)) }
{
    let id = read_id(alloc, need, object_id(value))?;
    set(&mut activity.target, read_target(alloc, value)?);
    let (in_reply_to, recipients) = read_people(alloc, value)?;
    set(&mut activity.in_reply_to, in_reply_to);
    set(&mut activity.recipients, recipients);
    let (content, summary, name) = read_words(alloc, value)?;
    set(&mut activity.content, content);
    set(&mut activity.summary, summary);
    set(&mut activity.name, name);
    if is_oneself(author, need, &id) {
        return Err(ShapeFault::SelfTarget);
    }
    set(&mut activity.object, object_ref(id));
    set(&mut activity.tags, read_tags(alloc, value)?);
    Ok(())
}

// An activity that keeps the `id` of its object.
fn read_other(
    alloc: Global,
    value: &Value,
    author: &Iri,
    kind: Kind,
    need: Need,
) -> Result<Activity, ShapeFault>
    ensures { Gives result (activities.reads_other author.now kind need (view value.now)) }
{
    let mut activity = Activity::new(alloc, kind);
    fill_other(alloc, value, author, need, &mut activity).and(Ok(activity))
}

// Reads a Create into an empty one, and its object into an empty object of its type. Leaves the
// Create's `object` unchanged.
#[tactic(auto, unfolding(crate::specs::Activities::reads_creation, crate::specs::Reading::url_of))]
fn fill_both(
    alloc: Global,
    value: &Value,
    object: &Value,
    create: &mut Activity,
    made: &mut Object,
) -> Result<(), ShapeFault>
    requires empty { create.old ≡ activity_of_kind kinds.Create }
    requires bare { made.old ≡ object_of_kind made.old.kind }
    requires typed { activities.reads_new_type (view object.now) ≡ Ok made.old.kind }
    ensures { Fills result (record create.new { object = Whole made.new })
        (activities.reads_creation (view value.now) (view object.now)) }
{
    let _id = read_iri(alloc, reference_at(object, "id"))?;
    set(&mut create.target, read_target(alloc, value)?);
    set(&mut made.in_reply_to, read_reply(alloc, object)?);
    set(&mut create.in_reply_to, read_reply(alloc, value)?);
    set(&mut create.recipients, read_audience(alloc, value, object)?);
    set(&mut made.recipients, create.recipients.clone()?);
    let (content, summary, name) = read_words(alloc, value)?;
    set(&mut create.content, content);
    set(&mut create.summary, summary);
    set(&mut create.name, name);
    let (content, summary, name) = read_words(alloc, object)?;
    set(&mut made.content, content);
    set(&mut made.summary, summary);
    set(&mut made.name, name);
    set(&mut made.url, iri_at(alloc, object, "url")?);
    set(&mut made.tags, read_tags(alloc, object)?);
    set(&mut create.tags, read_tags(alloc, value)?);
    Ok(())
}

// Reads a Create into an empty one, with its object, which has this type.
fn fill_create(
    alloc: Global,
    value: &Value,
    object: &Value,
    kind: Text,
    create: &mut Activity,
) -> Result<(), ShapeFault>
    requires empty { create.old ≡ activity_of_kind kinds.Create }
    requires typed { activities.reads_new_type (view object.now) ≡ Ok kind }
    ensures { Fills result create.new
        (activities.reads_creation (view value.now) (view object.now)) }
{
    let mut made = Boxed::new(alloc, Object::new(alloc, kind))?;
    let filled = fill_both(alloc, value, object, create, made.get_mut());
    set(&mut create.object, ObjectRef::Whole(made));
    filled
}

// A Create, with the object that it contains.
#[tactic(auto, unfolding(crate::specs::Activities::reads_creation))]
fn read_create(alloc: Global, value: &Value) -> Result<Activity, ShapeFault>
    ensures { Gives result (activities.reads_create (view value.now)) }
{
    let object = embedded(value).ok_or(ShapeFault::NoObject)?;
    let kind = read_new_type(alloc, object)?;
    let mut create = Activity::new(alloc, Kind::Create);
    fill_create(alloc, value, object, kind, &mut create).and(Ok(create))
}

// The `id` of the object that an Update changes.
#[tactic(auto, unfolding(crate::specs::Activities::reads_own_id))]
fn read_own_id(alloc: Global, object: &Value) -> Result<Iri, ShapeFault>
    ensures { Gives result (activities.reads_own_id (view object.now)) }
{
    match reference_at(object, "id") {
        None => Err(ShapeFault::NoObject),
        Some(text) => read_address(alloc, text),
    }
}

// What an Update does to a property for which this value is given.
fn edit<T: Drop>(object: &Value, key: &str, given: Option<T>) -> Edit<T>
    ensures { result ≡ activities.edit key.now (view object.now) given }
{
    match given {
        Some(value) => Edit::Give(value),
        None => match object.get(key) {
            Some(Value::Null) => Edit::Remove,
            _ => Edit::Keep,
        },
    }
}

// The mentions, if tags are given.
#[tactic(auto, unfolding(crate::specs::Activities::given_tags))]
fn given_tags(alloc: Global, object: &Value) -> Result<Option<Items<Tag>>, AllocError>
    ensures { IfOk result (λ tags. tags ≡ activities.given_tags (view object.now)) }
{
    match object.get("tag") {
        Some(Value::Array(_) | Value::Object(_)) => read_tags(alloc, object).map(Some),
        _ => Ok(None),
    }
}

// Reads an Update into an empty one, and what it changes into an empty change. Leaves the Update's
// `object` unchanged.
#[tactic(auto, unfolding(crate::specs::Activities::reads_changes, crate::specs::Reading::url_of))]
fn fill_update(
    alloc: Global,
    value: &Value,
    object: &Value,
    update: &mut Activity,
    change: &mut Change,
) -> Result<(), ShapeFault>
    requires empty { update.old ≡ activity_of_kind kinds.Update }
    requires kept { change.old ≡ no_change change.old.id }
    requires named { activities.reads_own_id (view object.now) ≡ Ok change.old.id }
    ensures { Fills result (record update.new { object = Changed change.new })
        (activities.reads_changes (view value.now) (view object.now)) }
{
    set(&mut update.target, read_target(alloc, value)?);
    let in_reply_to = read_reply(alloc, object)?;
    set(
        &mut change.in_reply_to,
        edit(object, "inReplyTo", in_reply_to),
    );
    let (in_reply_to, recipients) = read_people(alloc, value)?;
    set(&mut update.in_reply_to, in_reply_to);
    set(&mut update.recipients, recipients);
    let (content, summary, name) = read_words(alloc, value)?;
    set(&mut update.content, content);
    set(&mut update.summary, summary);
    set(&mut update.name, name);
    let (content, summary, name) = read_words(alloc, object)?;
    set(&mut change.content, edit(object, "content", content));
    set(&mut change.summary, edit(object, "summary", summary));
    set(&mut change.name, edit(object, "name", name));
    set(
        &mut change.url,
        edit(object, "url", iri_at(alloc, object, "url")?),
    );
    set(
        &mut change.tags,
        edit(object, "tag", given_tags(alloc, object)?),
    );
    set(&mut update.tags, read_tags(alloc, value)?);
    Ok(())
}

// An Update, with the changes to the object whose `id` it contains.
#[tactic(auto, unfolding(crate::specs::Activities::reads_changes))]
fn read_update(alloc: Global, value: &Value) -> Result<Activity, ShapeFault>
    ensures { Gives result (activities.reads_update (view value.now)) }
{
    let object = embedded(value).ok_or(ShapeFault::NoObject)?;
    let mut change = Change::new(read_own_id(alloc, object)?);
    let mut update = Activity::new(alloc, Kind::Update);
    let filled = fill_update(alloc, value, object, &mut update, &mut change);
    set(&mut update.object, ObjectRef::Changed(change));
    filled.and(Ok(update))
}

// An activity of this type.
fn read_kind(alloc: Global, value: &Value, author: &Iri, kind: Kind) -> Result<Activity, ShapeFault>
    ensures { Gives result (activities.reads_kind author.now (view value.now) kind) }
{
    if !has_context(value) {
        return Err(ShapeFault::BadContext);
    }
    match Need::of(kind) {
        Need::Whole => read_create(alloc, value),
        Need::Change => read_update(alloc, value),
        need => read_other(alloc, value, author, kind, need),
    }
}

/// Reads what a client posts to the outbox of this author: an activity of one of the 28 types, or
/// an object, which is wrapped in a Create as in `read_posted` (ActivityPub, section 6.2.1).
///
/// The result keeps the activity's target, five fields of recipients, what it replies to, its
/// content, summary and name, its mentions and its object: the whole object for a `Create`, a
/// change for an `Update` (section 6.3), and otherwise the object's `id`. A `Create` and its object
/// each get the recipients of both (section 6.2). The properties that the server sets itself are
/// skipped: `id`, `actor`, `attributedTo` and the times.
///
/// The error is the first of these faults that applies, in this order. A fault of a property
/// applies to the activity, and to the object of a `Create` or an `Update`. `NotObject`: the value
/// is not a JSON object. `BadContext`: `@context` is present, but is neither the ActivityStreams
/// context nor a list that contains it. `NoType`: the type is neither a string of 1 to 64 bytes nor
/// a list whose first entry is one, or an object to be created is a `Tombstone`. `NoObject`: an
/// `Accept`, `Announce`, `Block`, `Delete`, `Follow`, `Like`, `Reject` or `Undo` names no object, a
/// `Create` contains no object, or an `Update` contains no object with an `id`. `BadIri`: a string
/// that names a recipient, the object, the target or what is replied to is not a web address of at
/// most 2,048 bytes. `TooManyRecipients`: the five fields of the activity, or of the object of a
/// `Create`, have more than 500 entries as written, or those of both together name more than 500
/// recipients. `BadText`: the content, the summary or the name has more than 65,536 bytes.
/// `SelfTarget`: the object of a `Follow` or `Block` is the author. `Memory` (out of memory) can
/// occur at any time.
#[tactic(auto, unfolding(crate::specs::Activities::reads_activity))]
pub fn read_activity(alloc: Global, value: &Value, author: &Iri) -> Result<Activity, ShapeFault>
    ensures exact { Gives result (activities.reads_activity author.now (view value.now)) }
    // The fault with the least number that holds.
    ensures least { IfErr result
        (λ e. e ≢ ShapeFault.Memory → first_post_fault author.now (view value.now) ≡ Some e) }
    ensures none { OnOk result (first_post_fault author.now (view value.now) ≡ None) }
{
    match kind_of(value) {
        None => read_posted(alloc, value),
        Some(kind) => read_kind(alloc, value, author, kind),
    }
}

/// A thing whose type is not an activity type is read exactly as `read_posted` reads it.
#[tactic(auto, unfolding(crate::specs::Activities::reads_activity))]
pub fn objects_alone_are_read_as_posted()
    ensures { (author : List ℕ) (d : Data) → activities.kind_of d ≡ None
        → activities.reads_activity author d ≡ reads_posted d }
{}
