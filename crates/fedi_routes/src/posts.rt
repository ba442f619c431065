//! What a post holds (ActivityPub, sections 6 and 7).

ghost use Rattle.std.specs.Prelude.{◌≡◌, ◌≢◌, map, option_map, Err, IfOk, OnOk};
ghost use Rattle.std.specs.Char.{to_ascii_lowercase};
ghost use Rattle.serde_json.specs.View.{view};
ghost use Rattle.fedi_model.specs.Posting.{is_bad_key};
ghost use Rattle.fedi_model.specs.Routes as model;
ghost use Rattle.fedi_model.specs.declared.post.Read.TheVariants.{NotJson};
ghost use Rattle.fedi_routes.specs.Posts.{HoldsValue, read_of};

use crate::texts::before;
use fedi_address::{Iri, LocalName};
use fedi_http::{is_same_name, trim_end};
use fedi_mac::digest;
use fedi_model::{Caller, Fields, KeyAsk, Post, Read, Request, is_peer, is_self};
use fedi_objects::{Activity, Boxed, RepeatKey};
use fedi_reading::{BodyFault, ShapeFault, read_activity, read_body, read_delivered};
use serde_json::Value;
use std::alloc::{AllocError, Global};

/// The post that this caller's request with this body makes to the outbox of the member of this
/// name, whose id is the author's. The body is not even looked at if the post is refused whatever
/// it holds. The error is out of memory, which then does not occur.
#[tactic(auto, using(crate::proofs::PostLemmas::value_read, crate::proofs::PostLemmas::nothing_read))]
pub(crate) fn post_of(
    alloc: Global,
    request: &Request,
    body: &[u8],
    caller: &Caller,
    name: &LocalName,
    author: &Iri,
) -> Result<Post, AllocError>
    ensures { IfOk result (λ post.
        model.IsPost caller.now name.now request.now author.now body.now post) }
{
    let key = key_of(&request.fields);
    if !is_post_read(caller, name, &request.fields) {
        return Ok(unread(&request.fields, key));
    }
    let read = match value_of(alloc, body)? {
        Some(value) => read_as(alloc, read_activity(alloc, &value, author))?,
        None => Read::NotJson,
    };
    let digest = digest_under(&key, body);
    Ok(Post {
        is_typed: is_typed(&request.fields),
        key,
        digest,
        read,
    })
}

/// The delivery that this caller's request with this body makes to an inbox (ActivityPub, section
/// 7). The body is not even looked at if the delivery is refused whatever it holds. The error is out
/// of memory, which then does not occur.
#[tactic(auto, using(crate::proofs::PostLemmas::value_read, crate::proofs::PostLemmas::nothing_read))]
pub(crate) fn delivery_of(
    alloc: Global,
    request: &Request,
    body: &[u8],
    caller: &Caller,
) -> Result<Post, AllocError>
    ensures { IfOk result (λ post. model.IsDelivery caller.now request.now body.now post) }
{
    if !is_delivery_read(caller, &request.fields) {
        return Ok(unread(&request.fields, KeyAsk::Absent));
    }
    let read = match value_of(alloc, body)? {
        Some(value) => read_as(alloc, read_delivered(alloc, &value))?,
        None => Read::NotJson,
    };
    Ok(Post {
        is_typed: is_typed(&request.fields),
        key: KeyAsk::Absent,
        digest: [0; 32],
        read,
    })
}

/// Whether the body of a post by this caller to the outbox of this name is read.
fn is_post_read(caller: &Caller, name: &LocalName, fields: &Fields) -> bool
    ensures { result ≡ model.is_post_read caller.now name.now fields.now }
{
    is_self(caller, name) && is_typed(fields) && !is_malformed(&key_of(fields))
}

/// Whether the body of a delivery by this caller is read.
fn is_delivery_read(caller: &Caller, fields: &Fields) -> bool
    ensures { result ≡ model.is_delivery_read caller.now fields.now }
{
    is_peer(caller) && is_typed(fields)
}

/// A post under this key whose body is not read.
fn unread(fields: &Fields, key: KeyAsk) -> Post
    ensures { result ≡ record {
      is_typed = model.is_typed fields.now.content_type;
      key = key;
      digest = model.no_digest;
      read = NotJson;
    } }
{
    Post {
        is_typed: is_typed(fields),
        key,
        digest: [0; 32],
        read: Read::NotJson,
    }
}

/// The key that the post may be repeated under.
fn key_of(fields: &Fields) -> KeyAsk
    ensures { result ≡ model.repeat_key fields.now.idempotency_key }
{
    let Some(value) = &fields.idempotency_key else {
        return KeyAsk::Absent;
    };
    match RepeatKey::parse(value.bytes()) {
        Some(key) => KeyAsk::Given(key),
        None => KeyAsk::Malformed,
    }
}

/// The digest of the body, if it is needed: under a key.
fn digest_under(key: &KeyAsk, body: &[u8]) -> [u8; 32]
    ensures { result ≡ model.digest_under key.now body.now }
{
    match key {
        KeyAsk::Given(_) => digest(body),
        KeyAsk::Absent | KeyAsk::Malformed => [0; 32],
    }
}

fn is_malformed(key: &KeyAsk) -> bool
    ensures { result ≡ is_bad_key key.now }
{
    match key {
        KeyAsk::Malformed => true,
        KeyAsk::Absent | KeyAsk::Given(_) => false,
    }
}

/// The value of the body. `None` if the body is not JSON.
fn value_of(alloc: Global, body: &[u8]) -> Result<Option<Value>, AllocError>
    ensures { IfOk result (λ value. HoldsValue body.now (option_map view value)) }
{
    match read_body(alloc, body) {
        Ok(value) => Ok(Some(value)),
        Err(BodyFault::BadBody) => Ok(None),
        Err(BodyFault::Memory) => Err(AllocError),
    }
}

/// What was read: the activity, or the fault of its shape.
fn read_as(alloc: Global, outcome: Result<Activity, ShapeFault>) -> Result<Read, AllocError>
    ensures read { IfOk result (λ read. read ≡ read_of outcome) }
    ensures in_memory { OnOk result (outcome ≢ Err ShapeFault.Memory) }
{
    match outcome {
        Ok(activity) => Ok(Read::Ready(Boxed::new(alloc, activity)?)),
        Err(ShapeFault::Memory) => Err(AllocError),
        Err(fault) => Ok(Read::Bad(fault)),
    }
}

/// Whether the request says that its body is JSON or ActivityStreams.
fn is_typed(fields: &Fields) -> bool
    ensures { result ≡ model.is_typed fields.now.content_type }
{
    match &fields.content_type {
        Some(value) => is_read_type(media_type(value.bytes())),
        None => false,
    }
}

/// The media type as it was written, without its parameters (RFC 9110, section 8.3.1).
#[tactic(auto, unfolding(fedi_model::specs::Routes::media_type))]
fn media_type(value: &[u8]) -> &[u8]
    ensures { map to_ascii_lowercase result.now ≡ model.media_type value.now }
{
    trim_end(before(value, b';'))
}

/// Whether this is a media type of JSON or of ActivityStreams, in upper or lower case.
#[tactic(auto, unfolding(fedi_model::specs::Routes::is_read_type))]
fn is_read_type(media_type: &[u8]) -> bool
    ensures { result ≡ model.is_read_type (map to_ascii_lowercase media_type.now) }
{
    is_same_name(media_type, b"application/activity+json")
        || is_same_name(media_type, b"application/ld+json")
        || is_same_name(media_type, b"application/json")
}
