//! Replies to those who read an activity or an object: what they show is found in the facts, and the
//! document is written later, unless it is brief. Out of memory is the only error.

ghost use Rattle.std.specs.Prelude.{◌≡◌, IfOk, Some, if◌then◌else◌, true};
ghost use Rattle.serde_json.specs.Data.{Data};
ghost use Rattle.fedi_model.specs.Reading.{activity_document, maker_document, object_document};
ghost use Rattle.fedi_model.specs.Replies.{reply_of, showing};
ghost use Rattle.fedi_model.specs.declared.reply.Form.TheVariants as forms;
ghost use Rattle.fedi_objects.specs.Forms.{activity_form, is_tombstone, shown_in};
ghost use Rattle.fedi_objects.specs.Writing.{IsDocument};
ghost use Rattle.fedi_visible.specs.Drafts.{reply_in};

use crate::brief::is_brief;
use crate::excerpts::{Excerpt, excerpt_of};
use crate::showing::{present_object, shown_of};
use fedi_effects::Facts;
use fedi_model::{Form, Reply, refusal_reply};
use fedi_objects::{Shown, StrippedObject, new_document, text_of, write_activity, write_object};
use fedi_register::Kept;
use fedi_town::Refusal;
use http::StatusCode;
use json::Writer;
use std::alloc::{AllocError, Global};

/// A reply whose document is not written yet. It no longer depends on the facts.
#[derive(Drop)]
pub enum Draft {
    /// A reply that needs no more writing: a refusal, or a brief document.
    Ready(Reply),
    /// The document of an activity.
    Activity(Excerpt),
    /// The document of the object of an activity, or the Tombstone that is left of it.
    Object(Excerpt),
}

/// The reply that shows what was written, as a document of this media type. It takes no memory.
pub fn document_reply(status: StatusCode, form: Form, out: Writer) -> Reply
    ensures { (d : Data) → IsDocument d out → result ≡ showing status form d }
{
    Reply::document(status, form, text_of(out))
}

fn activity_document(alloc: Global, shown: &Shown) -> Result<Reply, AllocError>
    ensures { IfOk result (λ r. r ≡ showing 200 forms.Activity
        (activity_form shown.now.local true shown.now.author.now (shown_in shown.now))) }
{
    let mut out = new_document(alloc)?;
    write_activity(&mut out, shown, true)?;
    Ok(document_reply(StatusCode::OK, Form::Activity, out))
}

// The status with which an object is shown: what is left of a deleted one is gone.
fn status_of(object: &StrippedObject) -> StatusCode
    ensures { result ≡ (if is_tombstone object.now then 410 else 200) }
{
    if object.is_tombstone() {
        StatusCode::GONE
    } else {
        StatusCode::OK
    }
}

fn object_document(alloc: Global, object: &StrippedObject) -> Result<Reply, AllocError>
    ensures { IfOk result (λ r. r ≡ reply_of (object_document (Some object.now))) }
{
    let mut out = new_document(alloc)?;
    write_object(&mut out, object, true, true)?;
    Ok(document_reply(status_of(object), Form::Activity, out))
}

// The reply that shows the object, or that there is none.
fn object_reply(alloc: Global, object: Option<StrippedObject<'_>>) -> Result<Reply, AllocError>
    ensures { IfOk result (λ r. r ≡ reply_of (object_document object.entry)) }
{
    match object {
        Some(object) => object_document(alloc, &object),
        None => Ok(refusal_reply(Refusal::NotFound)),
    }
}

impl Draft {
    /// Writes the reply. It takes memory for the document alone.
    #[tactic(auto, unfolding(crate::specs::Drafts::sight_document))]
    pub fn write(self, alloc: Global) -> Result<Reply, AllocError>
        ensures { IfOk result (λ r. r ≡ reply_in self) }
    {
        match self {
            Draft::Ready(reply) => Ok(reply),
            Draft::Activity(excerpt) => activity_document(alloc, &excerpt.shown()),
            Draft::Object(excerpt) => object_reply(alloc, excerpt.object()),
        }
    }
}

/// The reply that shows the activity. A brief document is written at once.
#[tactic(auto, using(crate::proofs::ShownForms::sight_shown, crate::proofs::ShownForms::shown_document))]
pub(crate) fn activity_draft(alloc: Global, facts: &Facts, act: &Kept) -> Result<Draft, AllocError>
    ensures { IfOk result
        (λ draft. reply_in draft ≡ reply_of (activity_document facts.now.town act.now)) }
{
    if is_brief(facts, act) {
        let reply = activity_document(alloc, &shown_of(facts, act))?;
        return Ok(Draft::Ready(reply));
    }
    let excerpt = excerpt_of(alloc, facts, act)?;
    Ok(Draft::Activity(excerpt))
}

/// The reply that shows the object of the activity, as it is now. A brief document is written at
/// once.
#[tactic(auto, using(crate::proofs::ShownForms::object_document_shown))]
pub(crate) fn object_draft(alloc: Global, facts: &Facts, act: &Kept) -> Result<Draft, AllocError>
    ensures { IfOk result
        (λ draft. reply_in draft ≡ reply_of (maker_document facts.now.town act.now)) }
{
    if is_brief(facts, act) {
        let reply = object_reply(alloc, present_object(facts, act))?;
        return Ok(Draft::Ready(reply));
    }
    let excerpt = excerpt_of(alloc, facts, act)?;
    Ok(Draft::Object(excerpt))
}
