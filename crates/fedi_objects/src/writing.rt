//! The JSON in which objects and activities are shown, written directly.

ghost use Rattle.std.specs.Prelude.{◌≤◌, length, codes, map, OnOk};
ghost use Rattle.std.specs.Option.{option_copied};
ghost use Rattle.serde_json.specs.Data.{object};
ghost use Rattle.fedi_objects.specs.Forms.{activity_form, live_members, object_form, object_in};
ghost use Rattle.fedi_objects.specs.Forms.{shown_in, tag_form, tombstone_members, with_context};
ghost use Rattle.fedi_objects.specs.Views.{viewed};
ghost use Rattle.fedi_objects.specs.Writing.{Adds, IsWritten, collection_of, context_of, listed};
ghost use Rattle.fedi_objects.specs.Writing.{member_tokens, object_value};

use crate::members::{write_iri, write_iris, write_joined, write_str, write_text};
use crate::object::{TOMBSTONE, Tag};
use crate::shown::{ObjectView, Shown, ShownObject, StrippedObject};
use fedi_address::Iri;
use json::Writer;
use std::alloc::AllocError;

/// The context of ActivityStreams (ActivityStreams 2.0 Core, section 2.1).
pub const CONTEXT: &str = "https://www.w3.org/ns/activitystreams";

/// The type of a mention (ActivityStreams 2.0 Vocabulary, section 5.5).
pub const MENTION: &str = "Mention";

#[tactic(auto, unfolding(crate::specs::Writing::context_of))]
fn write_context(out: &mut Writer, context: bool) -> Result<(), AllocError>
    ensures { OnOk result
        (Adds (member_tokens (codes "@context") (context_of context)) out.old out.new) }
{
    if context {
        write_str(out, "@context", CONTEXT)
    } else {
        Ok(())
    }
}

// Writes the mentions of an object, if there are any (Vocabulary, section 5.5).
fn write_tags(out: &mut Writer, tags: &[Tag]) -> Result<(), AllocError>
    ensures { OnOk result
        (Adds (member_tokens (codes "tag") (listed (map tag_form tags.now))) out.old out.new) }
{
    if tags.is_empty() {
        return Ok(());
    }
    out.key("tag")?;
    out.begin_array()?;
    for tag in tags {
        write_tag(out, tag)?;
    }
    out.end_array()
}

fn write_tag(out: &mut Writer, tag: &Tag) -> Result<(), AllocError>
    ensures { OnOk result (IsWritten (tag_form tag.now) out.old out.new) }
{
    out.begin_object()?;
    write_str(out, "href", tag.href.text())?;
    write_str(out, "name", tag.name.text())?;
    write_str(out, "type", MENTION)?;
    out.end_object()
}

// Writes the address of a collection of a local object that has an id (ActivityPub, sections 5.7
// and 5.8).
#[tactic(auto, unfolding(crate::specs::Writing::collection_of))]
fn write_collection(
    out: &mut Writer,
    key: &str,
    local: bool,
    id: Option<&Iri>,
    path: &str,
) -> Result<(), AllocError>
    requires { length path.now ≤ 256 }
    ensures { OnOk result (Adds
        (member_tokens key.now (collection_of local (option_copied id.entry) path.now))
        out.old out.new) }
{
    match id {
        Some(id) if local => write_joined(out, key, id.text(), path),
        _ => Ok(()),
    }
}

// Writes an object that was not deleted.
fn write_live(
    out: &mut Writer,
    view: &ObjectView,
    local: bool,
    context: bool,
) -> Result<(), AllocError>
    ensures { OnOk result (IsWritten
        (object (with_context context (live_members local (viewed view.now)))) out.old out.new) }
{
    out.begin_object()?;
    write_context(out, context)?;
    write_iri(out, "attributedTo", view.attributed_to)?;
    write_iris(out, "audience", view.audience)?;
    write_iris(out, "cc", view.cc)?;
    write_text(out, "content", view.content)?;
    write_iri(out, "id", view.id)?;
    write_iri(out, "inReplyTo", view.in_reply_to)?;
    write_collection(out, "likes", local, view.id, "/likes")?;
    write_text(out, "name", view.name)?;
    write_text(out, "published", view.published)?;
    write_collection(out, "shares", local, view.id, "/shares")?;
    write_text(out, "summary", view.summary)?;
    write_tags(out, view.tags)?;
    write_iris(out, "to", view.to)?;
    write_str(out, "type", view.kind.text())?;
    write_text(out, "updated", view.updated)?;
    write_iri(out, "url", view.url)?;
    out.end_object()
}

// Writes what is left of a deleted view.
fn write_tombstone(out: &mut Writer, view: &ObjectView, context: bool) -> Result<(), AllocError>
    ensures { OnOk result (IsWritten
        (object (with_context context (tombstone_members (viewed view.now)))) out.old out.new) }
{
    out.begin_object()?;
    write_context(out, context)?;
    write_text(out, "deleted", view.deleted)?;
    write_text(out, "formerType", view.former_kind)?;
    write_iri(out, "id", view.id)?;
    write_str(out, "type", view.kind.text())?;
    out.end_object()
}

/// Writes an object as everybody who may see it sees it (ActivityStreams 2.0 Core, sections 2 to
/// 4): never with `bto` and `bcc` (ActivityPub, section 6). A local object that has an id gets
/// `likes` and `shares`, and an object that is a document of its own gets `@context`. What is left
/// of a deleted object, of the type `Tombstone`, has only its id, its types and the time of the
/// deletion. The error is out of memory.
#[tactic(auto, unfolding(crate::specs::Forms::object_form))]
pub fn write_object(
    out: &mut Writer,
    object: &StrippedObject,
    local: bool,
    context: bool,
) -> Result<(), AllocError>
    ensures { OnOk result (IsWritten (object_form local context object.now) out.old out.new) }
{
    let object = object.view();
    if object.kind.text() == TOMBSTONE {
        write_tombstone(out, object, context)
    } else {
        write_live(out, object, local, context)
    }
}

// Writes what an activity is about: an address, or the object itself.
#[tactic(auto, unfolding(crate::specs::Writing::object_value))]
fn write_about(out: &mut Writer, local: bool, object: &ShownObject) -> Result<(), AllocError>
    ensures { OnOk result (Adds
        (member_tokens (codes "object") (object_value local (object_in object.now)))
        out.old out.new) }
{
    match object {
        ShownObject::Nothing => Ok(()),
        ShownObject::Id(id) => write_str(out, "object", id.text()),
        ShownObject::Present(object) => {
            out.key("object")?;
            write_object(out, object, local, false)
        }
    }
}

/// Writes an activity as everybody who may see it sees it (ActivityStreams 2.0 Core, section 4.2):
/// never with `bto` and `bcc` (ActivityPub, section 6). `object` is an address, or the object in
/// its present state. An activity that is a document of its own gets `@context`. The error is out
/// of memory.
pub fn write_activity(out: &mut Writer, shown: &Shown, context: bool) -> Result<(), AllocError>
    ensures { OnOk result (IsWritten
        (activity_form shown.now.local context shown.now.author.now (shown_in shown.now))
        out.old out.new) }
{
    out.begin_object()?;
    write_context(out, context)?;
    write_str(out, "actor", shown.author.text())?;
    write_iris(out, "audience", shown.audience)?;
    write_iris(out, "cc", shown.cc)?;
    write_text(out, "content", shown.content)?;
    write_iri(out, "id", shown.id)?;
    write_iri(out, "inReplyTo", shown.in_reply_to)?;
    write_text(out, "name", shown.name)?;
    write_about(out, shown.local, &shown.object)?;
    write_text(out, "published", shown.published)?;
    write_text(out, "summary", shown.summary)?;
    write_tags(out, shown.tags)?;
    write_iri(out, "target", shown.target)?;
    write_iris(out, "to", shown.to)?;
    write_str(out, "type", shown.kind.name())?;
    out.end_object()
}
