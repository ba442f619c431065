//! The limits on the contents of activities, objects and changes.

ghost use Rattle.std.specs.Prelude.{◌≡◌, ℕ};
ghost use Rattle.std.specs.Cmp.Lexicographic.{pointwise};
ghost use Rattle.std.specs.Str.{bytes_eq};
ghost use Rattle.fedi_objects.specs.Limits as limits;
ghost use Rattle.fedi_town.specs.Shapes as shapes;

use fedi_address::{Iri, Items, Recipients, is_among};
use fedi_objects::{Activity, Change, Edit, Object, Tag, is_content, is_date, is_type};
use fedi_text::Text;

// ---- texts

fn is_content_if_there(text: &Option<Text>) -> bool
    ensures { result ≡ shapes.is_none_or limits.is_text text.now }
{
    match text {
        None => true,
        Some(text) => is_content(text.text()),
    }
}

fn is_type_if_there(text: &Option<Text>) -> bool
    ensures { result ≡ shapes.is_none_or limits.is_type text.now }
{
    match text {
        None => true,
        Some(text) => is_type(text.text()),
    }
}

fn is_date_if_there(text: &Option<Text>) -> bool
    ensures { result ≡ shapes.is_none_or limits.is_date text.now }
{
    match text {
        None => true,
        Some(text) => is_date(text.text()),
    }
}

// ---- mentions and recipients

fn are_tags(tags: &[Tag]) -> bool
    ensures { result ≡ shapes.are_tags tags.now }
{
    tags.iter().all(|tag| is_content(tag.name.text()))
}

// Whether no IRI occurs twice.
fn is_each_once(iris: &[Iri]) -> bool
    ensures { result ≡ shapes.is_each_once iris.now }
{
    let mut left = iris;
    while let [first, others @ ..] = left {
        if is_among(first.text(), others) {
            return false;
        }
        left = others;
    }
    true
}

// Whether the five fields name at most this many, and none of them names anybody twice. The number
// is tested first, since the time to look for duplicates grows with its square.
fn are_addressed(limit: usize, recipients: &Recipients) -> bool
    ensures { result ≡ shapes.are_addressed limit recipients.now }
{
    recipients.count() <= limit
        && is_each_once(&recipients.to)
        && is_each_once(&recipients.cc)
        && is_each_once(&recipients.bto)
        && is_each_once(&recipients.bcc)
        && is_each_once(&recipients.audience)
}

fn is_same_field(left: &[Iri], right: &[Iri]) -> bool
    ensures { result ≡ pointwise bytes_eq left.now right.now }
{
    left == right
}

/// Whether each of the five fields has the same names in the same order (ActivityPub, section 6.2).
pub fn are_same(left: &Recipients, right: &Recipients) -> bool
    ensures { result ≡ shapes.are_same left.now right.now }
{
    is_same_field(&left.to, &right.to)
        && is_same_field(&left.cc, &right.cc)
        && is_same_field(&left.bto, &right.bto)
        && is_same_field(&left.bcc, &right.bcc)
        && is_same_field(&left.audience, &right.audience)
}

// ---- objects, activities and changes

/// Whether the contents of an object keep the limits, and it has at most this many recipients.
pub fn is_object_within(limit: usize, object: &Object) -> bool
    ensures { result ≡ shapes.is_object_within limit object.now }
{
    is_type(object.kind.text())
        && is_content_if_there(&object.content)
        && is_content_if_there(&object.summary)
        && is_content_if_there(&object.name)
        && is_date_if_there(&object.published)
        && is_date_if_there(&object.updated)
        && is_date_if_there(&object.deleted)
        && is_type_if_there(&object.former_kind)
        && are_tags(&object.tags)
        && are_addressed(limit, &object.recipients)
}

/// Whether the contents of an activity keep the limits, and it has at most this many recipients.
pub fn is_activity_within(limit: usize, activity: &Activity) -> bool
    ensures { result ≡ shapes.is_activity_within limit activity.now }
{
    is_content_if_there(&activity.content)
        && is_content_if_there(&activity.summary)
        && is_content_if_there(&activity.name)
        && is_date_if_there(&activity.published)
        && are_tags(&activity.tags)
        && are_addressed(limit, &activity.recipients)
}

fn is_content_edit(edit: &Edit<Text>) -> bool
    ensures { result ≡ shapes.is_text_edit edit.now }
{
    match edit {
        Edit::Keep | Edit::Remove => true,
        Edit::Give(text) => is_content(text.text()),
    }
}

fn is_tags_edit(edit: &Edit<Items<Tag>>) -> bool
    ensures { result ≡ shapes.is_tags_edit edit.now }
{
    match edit {
        Edit::Keep | Edit::Remove => true,
        Edit::Give(tags) => are_tags(tags),
    }
}

/// Whether what a change sets keeps the limits.
pub fn is_change_within(change: &Change) -> bool
    ensures { result ≡ shapes.is_change_within change.now }
{
    is_content_edit(&change.content)
        && is_content_edit(&change.summary)
        && is_content_edit(&change.name)
        && is_tags_edit(&change.tags)
}
