//! What the replies show.

ghost use Rattle.std.specs.Prelude.{◌≡◌, ◌≤◌, length, drop, IfOk, IfSome, IfNone, None, Some};
ghost use Rattle.serde_json.specs.View.{view};
ghost use Rattle.fedi_objects.specs.declared.entry.Sent.TheVariants.{Post};
ghost use Rattle.fedi_objects.specs.declared.entry.What.TheVariants.{Failed};
ghost use Rattle.fedi_delivery.specs.Replies.{HasHead, HasNoHead, IsCameOfPost, IsLookedUp};
ghost use Rattle.fedi_delivery.specs.Replies.{IsShownBy, NamesInbox, NamesNone, ended_by, inbox_in};
ghost use Rattle.fedi_delivery.specs.Replies.{inbox_of};

use fedi_address::Iri;
use fedi_objects::{Came, Sent, What};
use fedi_reading::{ActorDocument, BodyFault, ShapeFault, read_actor, read_body};
use httparse::Status;
use httparse::spans::{EMPTY_HEADER_SPAN, parse_response};
use serde_json::Value;
use std::alloc::{AllocError, Global};

/// The largest number of fields that are read from the head of a reply.
const MOST_FIELDS: usize = 64;

/// The outcome of a lookup.
#[derive(Drop)]
pub enum Found {
    /// The recipient's inbox.
    Inbox(Iri),
    /// No inbox was found. This ends the attempt.
    Ended(Came),
}

// ---- the head

// The head of a reply.
#[derive(Clone, Copy)]
struct Head {
    status: u16,
    // Its length in bytes.
    length: usize,
}

fn read_head(reply: &[u8]) -> Option<Head>
    ensures within { IfSome result (λ head. head.length ≤ length reply.now) }
    ensures head { IfSome result (λ head.
        HasHead reply.now head.status (drop head.length reply.now)) }
    ensures none { IfNone result (HasNoHead reply.now) }
{
    let mut fields = [EMPTY_HEADER_SPAN; MOST_FIELDS];
    match parse_response(reply, &mut fields) {
        Ok(Status::Complete(head)) if head.code >= 100 => Some(Head {
            status: head.code,
            length: head.len,
        }),
        _ => None,
    }
}

// ---- the actor document

// The inbox of the document, if it is the recipient's, and the inbox is at the recipient's host.
fn own_inbox(document: ActorDocument, recipient: &Iri) -> Option<Iri>
    ensures { result ≡ inbox_of recipient.now (Ok document) }
{
    let is_own = document.id == *recipient && document.inbox.host() == recipient.host();
    if is_own { Some(document.inbox) } else { None }
}

#[tactic(auto, unfolding(crate::specs::Replies::inbox_in))]
fn inbox_in(alloc: Global, value: &Value, recipient: &Iri) -> Result<Option<Iri>, AllocError>
    ensures { IfOk result (λ inbox. inbox ≡ inbox_in recipient.now (view value.now)) }
{
    match read_actor(alloc, value) {
        Ok(document) => Ok(own_inbox(document, recipient)),
        Err(ShapeFault::Memory) => Err(AllocError),
        Err(_) => Ok(None),
    }
}

// The recipient's inbox, if these bytes are a document that names it.
fn named_inbox(alloc: Global, bytes: &[u8], recipient: &Iri) -> Result<Option<Iri>, AllocError>
    ensures found { IfOk result (λ inbox. IfSome inbox (NamesInbox recipient.now bytes.now)) }
    ensures none { IfOk result (λ inbox. IfNone inbox (NamesNone recipient.now bytes.now)) }
{
    match read_body(alloc, bytes) {
        Ok(value) => inbox_in(alloc, &value, recipient),
        Err(BodyFault::BadBody) => Ok(None),
        Err(BodyFault::Memory) => Err(AllocError),
    }
}

// ---- the lookup

// How the reply to a lookup ends the attempt.
fn ended(what: What) -> Found
    ensures { result ≡ ended_by what }
{
    Found::Ended(Came {
        step: Sent::Lookup,
        what,
    })
}

// What a reply with the status 200 shows by the bytes after its head.
fn document_shows(alloc: Global, bytes: &[u8], recipient: &Iri) -> Result<Found, AllocError>
    ensures { IfOk result (IsShownBy recipient.now bytes.now) }
{
    match named_inbox(alloc, bytes, recipient)? {
        Some(inbox) => Ok(Found::Inbox(inbox)),
        None => Ok(ended(What::BadActor)),
    }
}

/// What the reply to a lookup of the recipient shows. The error is out of memory, which comes only
/// after a head with the status 200.
pub fn found_in(alloc: Global, reply: &[u8], recipient: &Iri) -> Result<Found, AllocError>
    ensures { IsLookedUp recipient.now (Some reply.now) result }
{
    match read_head(reply) {
        Some(head) if head.status == 200 => {
            document_shows(alloc, &reply[head.length..], recipient)
        }
        Some(head) => Ok(ended(What::Status(head.status))),
        None => Ok(ended(What::NoHead)),
    }
}

/// What a lookup without a reply means for the attempt.
pub(crate) fn lookup_failed() -> Found
    ensures { result ≡ ended_by Failed }
{
    ended(What::Failed)
}

// ---- the post

fn came_with(what: What) -> Came
    ensures { result ≡ record { step = Post; what = what } }
{
    Came {
        step: Sent::Post,
        what,
    }
}

/// What the reply to a post means for the attempt. It takes no memory.
pub fn came_of(reply: &[u8]) -> Came
    ensures { IsCameOfPost (Some reply.now) result }
{
    match read_head(reply) {
        Some(head) => came_with(What::Status(head.status)),
        None => came_with(What::NoHead),
    }
}

/// What a post without a reply means for the attempt.
pub(crate) fn post_failed() -> Came
    ensures { IsCameOfPost None result }
{
    came_with(What::Failed)
}
