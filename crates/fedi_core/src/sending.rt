//! What is sent to deliver an activity.

ghost use Rattle.std.specs.Prelude.{◌≡◌, IfOk, IsTrue, Some, is_some};
ghost use Rattle.fedi_delivery.specs.Deliveries.{IsOutgoing, body_of, peer_for, post_to};

use fedi_address::{Host, Iri};
use fedi_delivery::{Outgoing, lookup_bytes, post_bytes};
use fedi_effects::Facts;
use fedi_objects::{new_document, text_of, write_activity};
use fedi_register::Kept;
use fedi_town::Peer;
use fedi_visible::shown_of;
use std::alloc::{AllocError, Global};

// The document of an activity, as its readers see it.
fn body_of(alloc: Global, facts: &Facts, act: &Kept) -> Result<Vec<u8>, AllocError>
    ensures { IfOk result (λ body. body.items ≡ body_of facts.now.town act.now) }
{
    let mut out = new_document(alloc)?;
    write_activity(&mut out, &shown_of(facts, act), true)?;
    Ok(text_of(out))
}

// The host of this server, which has been set up.
fn own_host(facts: &Facts) -> &Host
    requires { IsTrue (is_some facts.now.town.host) }
    ensures { Some result.now ≡ facts.now.town.host }
{
    match facts.host() {
        Some(host) => host,
        None => unreachable!(),
    }
}

// The peer that the recipient belongs to.
#[tactic(auto, unfolding(fedi_delivery::specs::Deliveries::peer_for))]
fn peer_for<'a>(facts: &'a Facts, recipient: &Iri) -> &'a Peer
    requires { IsTrue (is_some (peer_for facts.now.town recipient.now)) }
    ensures { Some result.now ≡ peer_for facts.now.town recipient.now }
{
    match facts.peer(recipient.host()) {
        Some(peer) => peer,
        None => unreachable!(),
    }
}

/// What is sent to deliver the activity to the recipient, except for the post to the inbox. The
/// error is out of memory.
pub(crate) fn outgoing(
    alloc: Global,
    facts: &Facts,
    act: &Kept,
    recipient: &Iri,
) -> Result<Outgoing, AllocError>
    requires host { IsTrue (is_some facts.now.town.host) }
    requires peer { IsTrue (is_some (peer_for facts.now.town recipient.now)) }
    ensures { IfOk result (IsOutgoing facts.now.town act.now recipient.now) }
{
    let peer = peer_for(facts, recipient);
    let lookup = lookup_bytes(alloc, own_host(facts), &peer.key, recipient)?;
    let body = body_of(alloc, facts, act)?;
    let address = peer.address.clone()?;
    Ok(Outgoing {
        address,
        lookup,
        body,
    })
}

/// The post of the body to the inbox, for the recipient. The error is out of memory.
pub(crate) fn post_to(
    alloc: Global,
    facts: &Facts,
    recipient: &Iri,
    inbox: &Iri,
    body: &[u8],
) -> Result<Vec<u8>, AllocError>
    requires host { IsTrue (is_some facts.now.town.host) }
    requires peer { IsTrue (is_some (peer_for facts.now.town recipient.now)) }
    ensures { IfOk result (λ text. Some text.items
        ≡ post_to facts.now.town recipient.now inbox.now body.now) }
{
    let peer = peer_for(facts, recipient);
    post_bytes(alloc, own_host(facts), &peer.key, inbox, body)
}
