//! Which activities a peer may deliver (ActivityPub, section 7). Only hosts decide.

ghost use Rattle.std.specs.Prelude.{◌≡◌, ◌||◌, not, option_copied};
ghost use Rattle.fedi_town.specs.Legal.{may_deliver};
ghost use Rattle.fedi_town.specs.Origins.{is_another, is_at, is_beside, is_foreign, is_of_another};

use fedi_address::{Host, Iri};
use fedi_effects::Facts;
use fedi_objects::{Activity, Object, ObjectRef};
use fedi_town::Peer;

// Whether the IRI has this server's host, whatever its scheme.
fn is_at(host: Option<&Host>, iri: &Iri) -> bool
    ensures { result ≡ is_at (option_copied host.entry) iri.now }
{
    match host {
        Some(host) => iri.host() == host.text(),
        None => false,
    }
}

// Whether there is an id and it has the author's host.
fn is_beside(author: &Iri, id: &Option<Iri>) -> bool
    ensures { result ≡ is_beside author.now id.now }
{
    match id {
        Some(id) => id.host() == author.host(),
        None => false,
    }
}

// Whether somebody other than the author is named.
fn is_another(author: &Iri, id: &Option<Iri>) -> bool
    ensures { result ≡ is_another author.now id.now }
{
    match id {
        Some(id) => id != author,
        None => false,
    }
}

fn is_object_of_another(author: &Iri, object: &Object) -> bool
    ensures { result ≡ (not (is_beside author.now object.now.id)
        || is_another author.now object.now.attributed_to) }
{
    !is_beside(author, &object.id) || is_another(author, &object.attributed_to)
}

// Whether the activity carries an object that belongs to another host than the author, or is
// attributed to somebody else.
fn is_of_another(author: &Iri, object: &ObjectRef) -> bool
    ensures { result ≡ is_of_another author.now object.now }
{
    match object {
        ObjectRef::Whole(object) => is_object_of_another(author, object.get()),
        ObjectRef::Nothing | ObjectRef::Id(_) | ObjectRef::Changed(_) => false,
    }
}

/// Whether the peer may not deliver the activity: its actor belongs to this host, or to a host that
/// is not the peer's although the peer is not a relay; or its id or the object that it carries does
/// not belong to its actor's host.
pub fn is_foreign(facts: &Facts, peer: &Peer, activity: &Activity) -> bool
    ensures { result ≡ is_foreign facts.now.town.host peer.now activity.now.actor
        activity.now.id activity.now.object }
{
    match &activity.actor {
        None => true,
        Some(actor) => {
            is_at(facts.host(), actor)
                || (actor.host() != peer.host.text() && !peer.relay)
                || !is_beside(actor, &activity.id)
                || is_of_another(actor, &activity.object)
        }
    }
}

/// Whether there is a peer and it may deliver the activity (ActivityPub, section 7).
pub fn may_deliver(facts: &Facts, peer: Option<&Peer>, activity: &Activity) -> bool
    ensures { result ≡ may_deliver facts.now.town (option_copied peer.entry) activity.now }
{
    match peer {
        Some(peer) => !is_foreign(facts, peer, activity),
        None => false,
    }
}
