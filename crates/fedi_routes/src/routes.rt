//! What a request asks for, by its path and its method.

ghost use Rattle.std.specs.Prelude.{◌≡◌, IsTrue, IfOk, OnErr, option_copied};
ghost use Rattle.fedi_model.specs.Places as places;
ghost use Rattle.fedi_model.specs.Queries as queries;
ghost use Rattle.fedi_model.specs.Requests as requests;
ghost use Rattle.fedi_model.specs.Routes as model;
ghost use Rattle.fedi_routes.specs.Memory.{MayNeedMemory, has_query, needs_memory};

use crate::pages::page_in;
use crate::places::place_of;
use crate::posts::{delivery_of, post_of};
use crate::router::Routes;
use crate::texts::{after, before};
use crate::webfinger::resource_in;
use fedi_address::{Host, LocalName};
use fedi_model::{Allow, Ask, Caller, Place, Request, Which};
use fedi_town::actor_iri;
use http::Method;
use std::alloc::{AllocError, Global};

/// What this caller's request with this body asks for, at the server of this host once the host is
/// set: the place that its path leads to decides first, and then its method.
///
/// Members, activities, objects, collections and WebFinger are read by GET and HEAD. Outboxes and
/// inboxes are posted to. Any other method asks for `Ask::WrongMethod`. A path that leads nowhere
/// asks for `Ask::Nowhere`, and so does a post to an outbox before the host is set. The path is the
/// target up to its first question mark (RFC 3986, section 3.3). It is compared byte for byte and
/// never decoded.
///
/// The body of a post is read only if the caller may post there, it is declared as JSON or
/// ActivityStreams, and its key is well formed: otherwise it is refused whatever it holds.
///
/// The error is out of memory. It occurs only for a query of WebFinger or of a collection, and for
/// a post to an outbox or an inbox.
#[tactic(auto, using(crate::proofs::AskLemmas::asked_once))]
pub fn route(
    alloc: Global,
    request: &Request,
    body: &[u8],
    host: Option<&Host>,
    routes: &Routes,
    caller: &Caller,
) -> Result<Ask, AllocError>
    ensures asks { IfOk result (λ ask.
        model.Asks (option_copied host.entry) caller.now request.now body.now ask) }
    ensures once { model.IsAskedOnce (option_copied host.entry) caller.now request.now body.now }
    // An activity to be posted is one that a history at this host may accept from its author, and
    // one that is delivered has the shape of a delivery.
    ensures postable { IfOk result (λ ask. model.IsPostableAt (option_copied host.entry) ask) }
    ensures memory { OnErr result (MayNeedMemory request.now) }
{
    match place_of(routes, path_of(request)) {
        Some(place) => ask_at(alloc, request, body, host, place, caller),
        None => Ok(Ask::Nowhere),
    }
}

/// The target up to its first question mark.
fn path_of(request: &Request) -> &[u8]
    ensures { result.now ≡ model.path_of request.now.target }
{
    before(request.target.bytes(), b'?')
}

/// The target after its first question mark, or nothing.
fn query_of(request: &Request) -> &[u8]
    ensures { result.now ≡ queries.query_of request.now.target }
{
    after(request.target.bytes(), b'?')
}

/// What the request asks for at this place.
fn ask_at(
    alloc: Global,
    request: &Request,
    body: &[u8],
    host: Option<&Host>,
    place: Place,
    caller: &Caller,
) -> Result<Ask, AllocError>
    ensures asks { IfOk result (λ ask.
        model.AsksAt (option_copied host.entry) caller.now request.now body.now place ask) }
    ensures memory { OnErr result (IsTrue (needs_memory request.now.method place)) }
{
    if is_reading(&request.method) {
        read_at(alloc, query_of(request), host, place)
    } else if request.method == Method::POST {
        post_to(alloc, request, body, host, place, caller)
    } else {
        Ok(refused_at(place))
    }
}

/// Whether the method reads (RFC 9110, sections 9.3.1 and 9.3.2).
fn is_reading(method: &Method) -> bool
    ensures { result ≡ requests.is_reading method.now }
{
    *method == Method::GET || *method == Method::HEAD
}

/// What reading this place asks for.
fn read_at(
    alloc: Global,
    query: &[u8],
    host: Option<&Host>,
    place: Place,
) -> Result<Ask, AllocError>
    ensures asks { IfOk result (λ ask.
        ask ≡ model.read_at (option_copied host.entry) query.now place) }
    ensures memory { OnErr result (IsTrue (has_query place)) }
{
    match place {
        Place::Webfinger => Ok(Ask::Webfinger(resource_in(alloc, query, host)?)),
        Place::Actor(name) => Ok(Ask::Actor(name)),
        Place::Collection(which) => Ok(Ask::Collection(which, page_in(alloc, query)?)),
        Place::Board(name, slug) => Ok(Ask::Board(name, slug, page_in(alloc, query)?)),
        Place::Activity(name, number) => Ok(Ask::Activity(name, number)),
        Place::Object(name, number) => Ok(Ask::Object(name, number)),
    }
}

/// What posting to this place asks for.
fn post_to(
    alloc: Global,
    request: &Request,
    body: &[u8],
    host: Option<&Host>,
    place: Place,
    caller: &Caller,
) -> Result<Ask, AllocError>
    requires { IsTrue (requests.is_post request.now.method) }
    ensures asks { IfOk result (λ ask.
        model.PostsTo (option_copied host.entry) caller.now request.now body.now place ask) }
    ensures memory { OnErr result (IsTrue (needs_memory request.now.method place)) }
{
    match place {
        Place::Collection(Which::Outbox(name)) => {
            outbox_of(alloc, request, body, host, name, caller)
        }
        Place::Collection(Which::Inbox(name)) => {
            Ok(Ask::Inbox(name, delivery_of(alloc, request, body, caller)?))
        }
        place => Ok(refused_at(place)),
    }
}

/// What posting to the outbox of this name asks for.
fn outbox_of(
    alloc: Global,
    request: &Request,
    body: &[u8],
    host: Option<&Host>,
    name: LocalName,
    caller: &Caller,
) -> Result<Ask, AllocError>
    ensures { IfOk result (λ ask.
        model.PostsAs (option_copied host.entry) caller.now request.now body.now name ask) }
{
    let Some(host) = host else {
        return Ok(Ask::Nowhere);
    };
    let author = actor_iri(alloc, host, &name)?;
    let post = post_of(alloc, request, body, caller, &name, &author)?;
    Ok(Ask::Outbox(name, post))
}

/// What a method asks for that this place does not have.
fn refused_at(place: Place) -> Ask
    ensures { result ≡ model.refused_at place }
{
    Ask::WrongMethod(allow_of(&place))
}

/// The methods that this place has.
fn allow_of(place: &Place) -> Allow
    ensures { result ≡ places.allow_of place.now }
{
    match place {
        Place::Collection(Which::Outbox(_) | Which::Inbox(_)) => Allow::GetHeadPost,
        _ => Allow::GetHead,
    }
}
