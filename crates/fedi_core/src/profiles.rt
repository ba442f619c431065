//! The replies to questions about who a member is, and to a method that a path does not have. Out
//! of memory is the only error.

ghost use Rattle.std.specs.Prelude.{◌≡◌, IfOk, OnErr, false, option_copied};
ghost use Rattle.fedi_model.specs.Documents.{actor_form, jrd_form};
ghost use Rattle.fedi_model.specs.Reading.{actor_or_missing, profile_or_missing, webfinger_answer};
ghost use Rattle.fedi_model.specs.Memory.{is_refused};
ghost use Rattle.fedi_model.specs.Replies.{disallowed, reply_of, showing};
ghost use Rattle.fedi_town.specs.Towns.{id_of};

use fedi_address::{Host, LocalName};
use fedi_effects::Facts;
use fedi_model::{Allow, Form, Reply, Resource, refusal_reply};
use fedi_objects::new_document;
use fedi_routes::{write_actor, write_jrd};
use fedi_text::Text;
use fedi_town::Refusal;
use fedi_visible::document_reply;
use http::StatusCode;
use std::alloc::{AllocError, Global};

/// The reply to a method that a path does not have. It names those that the path has (RFC 9110,
/// sections 10.2.1 and 15.5.6). It takes no memory.
pub fn wrong_method_reply(allow: Allow) -> Reply
    ensures { result ≡ disallowed allow }
{
    let mut reply = refusal_reply(Refusal::WrongMethod);
    reply.allow = Some(allow);
    reply
}

fn actor_document(alloc: Global, name: &LocalName, host: &Host) -> Result<Reply, AllocError>
    ensures { IfOk result (λ r. r ≡ showing 200 Form.Activity (actor_form host.now name.now)) }
{
    let mut out = new_document(alloc)?;
    write_actor(&mut out, alloc, name, host)?;
    Ok(document_reply(StatusCode::OK, Form::Activity, out))
}

fn profile_document(
    alloc: Global,
    name: &LocalName,
    host: &Host,
    rels: &[Text],
) -> Result<Reply, AllocError>
    ensures { IfOk result (λ r. r ≡ showing 200 Form.Jrd (jrd_form host.now name.now rels.now)) }
{
    let mut out = new_document(alloc)?;
    write_jrd(&mut out, alloc, name, host, rels)?;
    Ok(document_reply(StatusCode::OK, Form::Jrd, out))
}

/// The reply to a read of the actor document of the member of this name (ActivityPub, section 4.1).
pub fn actor_reply(alloc: Global, facts: &Facts, name: &LocalName) -> Result<Reply, AllocError>
    ensures reply { IfOk result (λ r. r ≡ reply_of (actor_or_missing facts.now.town.host name.now
        (id_of facts.now.town name.now))) }
    ensures memory { OnErr result (is_refused (actor_or_missing facts.now.town.host name.now
        (id_of facts.now.town name.now)) ≡ false) }
{
    let Some(host) = facts.host() else {
        return Ok(refusal_reply(Refusal::NotFound));
    };
    let Some(_id) = facts.id_of(name) else {
        return Ok(refusal_reply(Refusal::NotFound));
    };
    actor_document(alloc, name, host)
}

// The reply that describes the member of this name by these relations (RFC 7033, sections 4.2 to
// 4.4).
fn profile_reply(
    alloc: Global,
    facts: &Facts,
    name: &LocalName,
    rels: &[Text],
) -> Result<Reply, AllocError>
    ensures reply { IfOk result (λ r. r ≡ reply_of (profile_or_missing facts.now.town.host
        name.now rels.now (id_of facts.now.town name.now))) }
    ensures memory { OnErr result (is_refused (profile_or_missing facts.now.town.host
        name.now rels.now (id_of facts.now.town name.now)) ≡ false) }
{
    let Some(host) = facts.host() else {
        return Ok(refusal_reply(Refusal::NotFound));
    };
    let Some(_id) = facts.id_of(name) else {
        return Ok(refusal_reply(Refusal::NotFound));
    };
    profile_document(alloc, name, host, rels)
}

/// The reply to a WebFinger query (RFC 7033, section 4.2): who the member is that it names, 404 if
/// it names none, and 400 if it is malformed.
pub fn webfinger_reply(
    alloc: Global,
    facts: &Facts,
    resource: Option<&Resource>,
) -> Result<Reply, AllocError>
    ensures reply { IfOk result (λ r. r
        ≡ reply_of (webfinger_answer facts.now.town (option_copied resource.entry))) }
    ensures memory { OnErr result (is_refused
        (webfinger_answer facts.now.town (option_copied resource.entry)) ≡ false) }
{
    let Some(resource) = resource else {
        return Ok(refusal_reply(Refusal::BadQuery));
    };
    match &resource.name {
        Some(name) => profile_reply(alloc, facts, name, resource.rels.as_slice()),
        None => Ok(refusal_reply(Refusal::NotFound)),
    }
}
