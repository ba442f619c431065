//! What becomes of a post to an inbox, before it is kept.

ghost use Rattle.std.specs.Prelude.{◌≡◌, Some, option_copied};
ghost use Rattle.fedi_model.specs.Posting.{is_there, judge_delivery, judge_inbox};
ghost use Rattle.fedi_inbound.specs.Receptions.{judgement_in};

use crate::judging::{Verdict, judge_remote};
use fedi_address::Iri;
use fedi_effects::Facts;
use fedi_model::{Post, Read};
use fedi_objects::{Activity, Boxed};
use fedi_reading::ShapeFault;
use fedi_town::{Caller, Peer, Refusal};

/// What becomes of a post to an inbox.
#[derive(Drop)]
pub enum Received {
    /// It is refused for this reason.
    Refused(Refusal),
    /// It does not have the shape of a delivery.
    Misshapen(ShapeFault),
    /// The inbox has its activity already.
    Repeated,
    /// Its activity is kept.
    Kept(Boxed<Activity>),
}

// What was read, of an activity that this peer delivers.
fn receive_read(facts: &Facts, peer: &Peer, owner: &Iri, read: Read) -> Received
    ensures { judgement_in result ≡ judge_delivery facts.now.town.host (Some peer.now)
        (is_there facts.now.town owner.now read) read }
{
    match read {
        Read::NotJson => Received::Refused(Refusal::BadBody),
        Read::Bad(fault) => Received::Misshapen(fault),
        Read::Ready(activity) => match judge_remote(facts, peer, owner, activity.get()) {
            Verdict::NotOrigin => Received::Refused(Refusal::NotOrigin),
            Verdict::Repeat => Received::Repeated,
            Verdict::New | Verdict::AddInbox => Received::Kept(activity),
        },
    }
}

fn receive_from(facts: &Facts, peer: Option<&Peer>, owner: &Iri, read: Read) -> Received
    ensures { judgement_in result ≡ judge_delivery facts.now.town.host (option_copied peer.entry)
        (is_there facts.now.town owner.now read) read }
{
    match peer {
        Some(peer) => receive_read(facts, peer, owner, read),
        None => Received::Refused(Refusal::NotOwner),
    }
}

/// What becomes of a post to the inbox of this owner (ActivityPub, section 7). It is refused if the
/// caller is unknown or is not a peer, if it has another media type, if it is not JSON or does not
/// have the shape of a delivery, or if the peer may not deliver it. The first reason counts. It
/// takes no memory.
pub fn receive(facts: &Facts, caller: &Caller, owner: &Iri, post: Post) -> Received
    ensures { judgement_in result ≡ judge_inbox facts.now.town caller.now owner.now post }
{
    let host = match caller {
        Caller::Nobody => return Received::Refused(Refusal::NoKey),
        Caller::Actor(_) => return Received::Refused(Refusal::NotOwner),
        Caller::Peer(host) => host,
    };
    if !post.is_typed {
        return Received::Refused(Refusal::WrongType);
    }
    receive_from(facts, facts.peer(host.text()), owner, post.read)
}
