//! The properties of ActivityStreams, as they are in JSON.

ghost use Rattle.std.specs.Prelude.{◌≡◌, ◌||◌, map, bytes_eq, find, option_map, IfOk};
ghost use Rattle.std.specs.Option.{option_copied};
ghost use Rattle.std.specs.List.{list_any};
ghost use Rattle.serde_json.specs.View.{view};
ghost use Rattle.fedi_objects.specs.Kinds.{kind_name};
ghost use Rattle.fedi_reading.specs.Activities as activities;
ghost use Rattle.fedi_reading.specs.Properties as properties;
ghost use Rattle.fedi_reading.specs.Reading as reading;
ghost use Rattle.fedi_reading.specs.Shapes.{Gives};

use crate::shape_fault::ShapeFault;
use fedi_address::{Iri, IriFault};
use fedi_objects::{CONTEXT, Kind, TOMBSTONE, is_content, is_type};
use fedi_text::Text;
use serde_json::Value;
use std::alloc::{AllocError, Global};

// The value of a property. A property that is null counts as absent.
#[tactic(auto, unfolding(crate::specs::Properties::property))]
pub(crate) fn property<'a>(value: &'a Value, key: &str) -> Option<&'a Value>
    ensures { option_map (λ v. view v.now) result
        ≡ properties.property key.now (view value.now) }
{
    match value.get(key) {
        None => None,
        Some(Value::Null) => None,
        Some(found) => Some(found),
    }
}

// The text of a property, if it is a string.
#[tactic(auto, unfolding(crate::specs::Properties::text_at))]
pub(crate) fn text_at<'a>(value: &'a Value, key: &str) -> Option<&'a str>
    ensures { option_copied result ≡ properties.text_at key.now (view value.now) }
{
    value.get(key).and_then(Value::as_str)
}

// The entries of a list. A value that is not a list is its own single entry.
#[tactic(auto, using(crate::proofs::ReadingLemmas::list_of_items), unfolding(crate::specs::Properties::entries))]
pub(crate) fn entries(value: &Value) -> &[Value]
    ensures { map view result.now ≡ properties.entries (view value.now) }
{
    match value.as_array() {
        Some(values) => values.as_slice(),
        None => std::slice::from_ref(value),
    }
}

// The entries of a property.
#[tactic(auto, unfolding(crate::specs::Properties::entries_at))]
pub(crate) fn entries_at<'a>(value: &'a Value, key: &str) -> &'a [Value]
    ensures { map view result.now ≡ properties.entries_at key.now (view value.now) }
{
    match property(value, key) {
        None => &[],
        Some(found) => entries(found),
    }
}

// The first entry of a list, or the value itself.
#[tactic(auto, unfolding(crate::specs::Properties::first_of))]
fn first_of(value: &Value) -> &Value
    ensures { view result.now ≡ properties.first_of (view value.now) }
{
    match value {
        Value::Array(values) => values.first().unwrap_or(value),
        _ => value,
    }
}

// What a value names.
#[tactic(auto, unfolding(crate::specs::Properties::named))]
pub(crate) fn named(value: &Value) -> Option<&str>
    ensures { option_copied result ≡ properties.named (view value.now) }
{
    match value {
        Value::String(text) => Some(text.as_str()),
        _ => text_at(value, "id"),
    }
}

// What a single-valued property names.
#[tactic(auto, unfolding(crate::specs::Properties::reference_at))]
pub(crate) fn reference_at<'a>(value: &'a Value, key: &str) -> Option<&'a str>
    ensures { option_copied result ≡ properties.reference_at key.now (view value.now) }
{
    match property(value, key) {
        None => None,
        Some(found) => named(first_of(found)),
    }
}

#[tactic(auto, unfolding(crate::specs::Properties::is_context))]
fn is_context(value: &Value) -> bool
    ensures { result ≡ properties.is_context (view value.now) }
{
    match value {
        Value::String(text) => text.as_str() == CONTEXT,
        _ => false,
    }
}

fn contains_context(values: &[Value]) -> bool
    ensures { result ≡ list_any (λ value. properties.is_context (view value)) values.now }
{
    values.iter().any(|value| is_context(value))
}

// Whether the context is that of ActivityStreams, or absent.
#[tactic(auto, using(crate::proofs::ReadingLemmas::list_any_map), unfolding(crate::specs::Properties::has_context))]
pub(crate) fn has_context(value: &Value) -> bool
    ensures { result ≡ properties.has_context (view value.now) }
{
    match property(value, "@context") {
        None => true,
        Some(context) => contains_context(entries(context)),
    }
}

// The type of a thing: the first one, if it has several.
#[tactic(auto, unfolding(crate::specs::Properties::type_of))]
pub(crate) fn type_of(value: &Value) -> Option<&str>
    ensures { option_copied result ≡ properties.type_of (view value.now) }
{
    let found = property(value, "type")?;
    let text = first_of(found).as_str()?;
    if is_type(text) { Some(text) } else { None }
}

// The first of these types that has this name.
fn named_among(kinds: &[Kind], text: &str) -> Option<Kind>
    ensures { result ≡ find (λ kind. bytes_eq (kind_name kind) text.now) kinds.now }
{
    for kind in kinds {
        if kind.name() == text {
            return Some(*kind);
        }
    }
    None
}

// The type of activity with this name.
#[tactic(auto, unfolding(crate::specs::Activities::kind_named))]
fn kind_named(text: &str) -> Option<Kind>
    ensures { result ≡ activities.kind_named text.now }
{
    named_among(&Kind::ALL, text)
}

// The type of an activity. `None` if the type is not an activity type.
#[tactic(auto, unfolding(crate::specs::Activities::kind_of))]
pub(crate) fn kind_of(value: &Value) -> Option<Kind>
    ensures { result ≡ activities.kind_of (view value.now) }
{
    type_of(value).and_then(kind_named)
}

// Whether the text is an activity type.
#[tactic(auto, unfolding(crate::specs::Properties::is_activity_type))]
fn is_activity_type(text: &str) -> bool
    ensures { result ≡ properties.is_activity_type text.now }
{
    Kind::ALL.iter().any(|kind| kind.name() == text)
}

// Whether a client may not post an object of this type: an activity type, or that of deleted
// objects.
#[tactic(auto, unfolding(crate::specs::Properties::makes_nothing))]
fn makes_nothing(text: &str) -> bool
    ensures { result ≡ properties.makes_nothing text.now }
{
    is_activity_type(text) || text == TOMBSTONE
}

// The type of the object of a Create.
#[tactic(auto, unfolding(crate::specs::Activities::reads_new_type))]
pub(crate) fn read_new_type(alloc: Global, object: &Value) -> Result<Text, ShapeFault>
    ensures { Gives result (activities.reads_new_type (view object.now)) }
{
    match type_of(object) {
        Some(text) if text != TOMBSTONE => Ok(Text::from_text(alloc, text)?),
        _ => Err(ShapeFault::NoType),
    }
}

// The type of an object to be created.
#[tactic(auto, unfolding(crate::specs::Properties::reads_type))]
pub(crate) fn read_type(alloc: Global, value: &Value) -> Result<Text, ShapeFault>
    ensures { Gives result (properties.reads_type (view value.now)) }
{
    let Some(text) = type_of(value) else {
        return Err(ShapeFault::NoType);
    };
    if makes_nothing(text) {
        return Err(ShapeFault::NoType);
    }
    Ok(Text::from_text(alloc, text)?)
}

// The text of a property. The error is `BadText` if it is too long.
#[tactic(auto, unfolding(crate::specs::Properties::reads_text, fedi_objects::specs::Limits::is_text))]
pub(crate) fn read_text(alloc: Global, value: &Value, key: &str) -> Result<Option<Text>, ShapeFault>
    ensures { Gives result (properties.reads_text key.now (view value.now)) }
{
    let Some(text) = text_at(value, key) else {
        return Ok(None);
    };
    if !is_content(text) {
        return Err(ShapeFault::BadText);
    }
    Ok(Some(Text::from_text(alloc, text)?))
}

// The address that a text denotes, if it is valid.
#[tactic(auto, unfolding(crate::specs::Properties::iri))]
pub(crate) fn iri_of(alloc: Global, text: &str) -> Result<Option<Iri>, AllocError>
    ensures { IfOk result (λ iri. iri ≡ properties.iri text.now) }
{
    match Iri::parse(alloc, text) {
        Ok(iri) => Ok(Some(iri)),
        Err(IriFault::NotIri) => Ok(None),
        Err(IriFault::TooLong) => Ok(None),
        Err(IriFault::Memory) => Err(AllocError),
    }
}

// The address that a text denotes. The error is `BadIri` if it is not valid.
#[tactic(auto, unfolding(crate::specs::Activities::reads_address))]
pub(crate) fn read_address(alloc: Global, text: &str) -> Result<Iri, ShapeFault>
    ensures { Gives result (activities.reads_address text.now) }
{
    iri_of(alloc, text)?.ok_or(ShapeFault::BadIri)
}

// The same, if there is a text.
#[tactic(auto, unfolding(crate::specs::Activities::reads_address))]
pub(crate) fn read_iri(alloc: Global, text: Option<&str>) -> Result<Option<Iri>, ShapeFault>
    ensures { Gives result (reading.reads_iri (option_copied text.entry)) }
{
    match text {
        None => Ok(None),
        Some(text) => Ok(Some(read_address(alloc, text)?)),
    }
}
