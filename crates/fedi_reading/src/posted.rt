//! What a client posts.

ghost use Rattle.std.specs.Prelude.{◌≡◌, ◌≢◌, map, Some, None, Ok, IfOk, IfErr, OnOk};
ghost use Rattle.std.specs.Option.{option_copied};
ghost use Rattle.std.specs.List.{filter_map};
ghost use Rattle.serde_json.specs.View.{view};
ghost use Rattle.fedi_reading.specs.Faults.{first_fault};
ghost use Rattle.fedi_reading.specs.Properties.{reads_type};
ghost use Rattle.fedi_reading.specs.Reading as reading;
ghost use Rattle.fedi_objects.specs.Objects.{object_of_kind};
ghost use Rattle.fedi_reading.specs.Shapes.{Gives, Fills};

use crate::audience::{MOST_ENTRIES, read_few};
use crate::properties::{
    entries_at, has_context, iri_of, read_iri, read_text, read_type, reference_at, text_at,
};
use crate::shape_fault::ShapeFault;
use fedi_address::{Iri, Items, Recipients};
use fedi_objects::{Activity, MENTION, Object, Tag, is_content, set};
use fedi_text::Text;
use serde_json::Value;
use std::alloc::{AllocError, Global};

// What an object replies to.
#[tactic(auto, unfolding(crate::specs::Reading::reads_reply))]
pub(crate) fn read_reply(alloc: Global, value: &Value) -> Result<Option<Iri>, ShapeFault>
    ensures { Gives result (reading.reads_reply (view value.now)) }
{
    read_iri(alloc, reference_at(value, "inReplyTo"))
}

// What an object replies to, and its recipients.
#[tactic(auto, unfolding(crate::specs::Reading::reads_people))]
pub(crate) fn read_people(
    alloc: Global,
    value: &Value,
) -> Result<(Option<Iri>, Recipients), ShapeFault>
    ensures { Gives result (reading.reads_people (view value.now)) }
{
    let in_reply_to = read_reply(alloc, value)?;
    let recipients = read_few(alloc, value, MOST_ENTRIES)?;
    Ok((in_reply_to, recipients))
}

// The address that a property holds, if it is one.
pub(crate) fn iri_at(alloc: Global, value: &Value, key: &str) -> Result<Option<Iri>, AllocError>
    ensures { IfOk result (λ iri. iri ≡ reading.iri_at key.now (view value.now)) }
{
    match text_at(value, key) {
        None => Ok(None),
        Some(text) => iri_of(alloc, text),
    }
}

fn is_mention(tag: &Value) -> bool
    ensures { result ≡ reading.is_mention (view tag.now) }
{
    match text_at(tag, "type") {
        None => false,
        Some(text) => text == MENTION,
    }
}

// A text that is not too long, otherwise the empty text.
#[tactic(auto, unfolding(fedi_objects::specs::Limits::is_text))]
fn short_text(text: Option<&str>) -> &str
    ensures { result.now ≡ reading.short_text (option_copied text.entry) }
{
    match text {
        None => "",
        Some(text) if is_content(text) => text,
        Some(_) => "",
    }
}

// A mention. Every other tag is skipped.
#[tactic(auto, unfolding(crate::specs::Reading::tag_of))]
fn tag_of(alloc: Global, tag: &Value) -> Result<Option<Tag>, AllocError>
    ensures { IfOk result (λ found. found ≡ reading.tag_of (view tag.now)) }
{
    if !is_mention(tag) {
        return Ok(None);
    }
    let Some(href) = iri_at(alloc, tag, "href")? else {
        return Ok(None);
    };
    let name = Text::from_text(alloc, short_text(text_at(tag, "name")))?;
    Ok(Some(Tag { href, name }))
}

// The mentions among the tags.
fn mentions(alloc: Global, tags: &[Value]) -> Result<Items<Tag>, AllocError>
    ensures { IfOk result (λ found. found ≡ filter_map reading.tag_of (map view tags.now)) }
{
    let mut found = Items::empty(alloc);
    for tag in tags {
        if let Some(mention) = tag_of(alloc, tag)? {
            found.push(mention)?;
        }
    }
    Ok(found)
}

// The mentions of a thing.
#[tactic(auto, unfolding(crate::specs::Reading::tags_of))]
pub(crate) fn read_tags(alloc: Global, value: &Value) -> Result<Items<Tag>, AllocError>
    ensures { IfOk result (λ tags. tags ≡ reading.tags_of (view value.now)) }
{
    mentions(alloc, entries_at(value, "tag"))
}

// The content, the summary and the name.
#[tactic(auto, unfolding(crate::specs::Reading::reads_words))]
pub(crate) fn read_words(
    alloc: Global,
    value: &Value,
) -> Result<(Option<Text>, Option<Text>, Option<Text>), ShapeFault>
    ensures { Gives result (reading.reads_words (view value.now)) }
{
    let content = read_text(alloc, value, "content")?;
    let summary = read_text(alloc, value, "summary")?;
    let name = read_text(alloc, value, "name")?;
    Ok((content, summary, name))
}

// Reads an object that a client posts into an object that so far has only its type. Skips the
// properties that the server sets itself.
#[tactic(auto, unfolding(crate::specs::Reading::reads_object, crate::specs::Reading::url_of))]
fn fill_object(alloc: Global, value: &Value, object: &mut Object) -> Result<(), ShapeFault>
    requires bare { object.old ≡ object_of_kind object.old.kind }
    requires typed { reads_type (view value.now) ≡ Ok object.old.kind }
    ensures { Fills result object.new (reading.reads_object (view value.now)) }
{
    let (in_reply_to, recipients) = read_people(alloc, value)?;
    set(&mut object.in_reply_to, in_reply_to);
    set(&mut object.recipients, recipients);
    let (content, summary, name) = read_words(alloc, value)?;
    set(&mut object.content, content);
    set(&mut object.summary, summary);
    set(&mut object.name, name);
    set(&mut object.url, iri_at(alloc, value, "url")?);
    set(&mut object.tags, read_tags(alloc, value)?);
    Ok(())
}

// An object that a client posts.
#[tactic(auto, unfolding(crate::specs::Reading::reads_object))]
fn read_object(alloc: Global, value: &Value) -> Result<Object, ShapeFault>
    ensures { Gives result (reading.reads_object (view value.now)) }
{
    let mut object = Object::new(alloc, read_type(alloc, value)?);
    fill_object(alloc, value, &mut object).and(Ok(object))
}

/// Reads what a client posts: an object whose type is not an activity type. It is wrapped in a
/// Create for the same recipients (ActivityPub, section 6.2.1). The properties that the server sets
/// itself are skipped: `id`, `actor`, `attributedTo` and the times.
///
/// The error is the first of these faults that applies, in this order. `NotObject`: the value is
/// not a JSON object. `BadContext`: `@context` is present, but is neither the ActivityStreams
/// context nor a list that contains it. `NoType`: the type is neither a string of 1 to 64 bytes nor
/// a list whose first entry is one, or it is an activity type or `Tombstone`. `BadIri`: a string
/// that names a recipient or what is replied to is not a web address of at most 2,048 bytes.
/// `TooManyRecipients`: the five fields of recipients have more than 500 entries as written.
/// `BadText`: the content, the summary or the name has more than 65,536 bytes. `Memory` (out of
/// memory) can occur at any time.
#[tactic(auto, unfolding(crate::specs::Reading::reads_posted))]
pub fn read_posted(alloc: Global, value: &Value) -> Result<Activity, ShapeFault>
    ensures exact { Gives result (reading.reads_posted (view value.now)) }
    // The fault with the least number that holds.
    ensures least { IfErr result
        (λ e. e ≢ ShapeFault.Memory → first_fault (view value.now) ≡ Some e) }
    ensures none { OnOk result (first_fault (view value.now) ≡ None) }
{
    if !value.is_object() {
        return Err(ShapeFault::NotObject);
    }
    if !has_context(value) {
        return Err(ShapeFault::BadContext);
    }
    let object = read_object(alloc, value)?;
    Ok(Activity::create(alloc, object)?)
}
