//! Who makes a request.

ghost use Rattle.std.specs.Prelude.{◌≡◌, IfOk, IsTrue, OnErr, option_copied};
ghost use Rattle.std.specs.List.{find};
ghost use Rattle.sha2.specs.Sha256.{sha256};
ghost use Rattle.fedi_model.specs.Callers.{caller_among, member_or_refused, peer_or_refused};
ghost use Rattle.fedi_model.specs.Credentials.{shown_by, signature_in};
ghost use Rattle.fedi_model.specs.Memory.{copies_host};
ghost use Rattle.fedi_town.specs.Towns.{has_digest};

use fedi_effects::Directory;
use fedi_mac::digest;
use fedi_model::{Credentials, Signed};
use fedi_routes::is_signed;
use fedi_town::{Caller, Peer, Refusal};
use std::alloc::AllocError;

fn member_with<D: Directory>(directory: &D, key: &[u8; 32]) -> Result<Caller, Refusal>
    ensures { result ≡ member_or_refused
        (find (has_digest (sha256 key.now)) (D.callers directory.now).actors) }
{
    match directory.actor_with(&digest(key.as_slice())) {
        Some(actor) => Ok(Caller::Actor(actor.name.copy())),
        None => Err(Refusal::WrongKey),
    }
}

// The peer, if it signed the request.
fn peer_by(peer: Option<&Peer>, signed: &Signed) -> Result<Result<Caller, Refusal>, AllocError>
    ensures caller { IfOk result (λ caller.
        caller ≡ peer_or_refused (signature_in signed.now) (option_copied peer.entry)) }
    ensures memory { OnErr result (IsTrue (copies_host
        (peer_or_refused (signature_in signed.now) (option_copied peer.entry)))) }
{
    match peer {
        Some(peer) if is_signed(&peer.key, signed) => Ok(Ok(Caller::Peer(peer.host.clone()?))),
        _ => Ok(Err(Refusal::WrongMac)),
    }
}

/// Who makes a request with these credentials (RFC 6750, section 2.1): nobody if there are none,
/// the member whose key they show, or the peer that signed the request with the key that it shares
/// with this server (RFC 2104). It is `WrongKey` if a key is shown that belongs to no member, and
/// `WrongMac` if one of a peer's fields is present but no peer of that host signed the request. The
/// error is out of memory, which occurs only if the caller is a peer.
#[tactic(auto, unfolding(fedi_model::specs::Callers::caller_among))]
pub fn caller_of<D: Directory>(
    directory: &D,
    credentials: &Credentials,
) -> Result<Result<Caller, Refusal>, AllocError>
    ensures caller { let known = D.callers directory.now in IfOk result (λ caller.
        caller ≡ caller_among known.actors known.peers (shown_by credentials.now)) }
    ensures memory { let known = D.callers directory.now in OnErr result (IsTrue (copies_host
        (caller_among known.actors known.peers (shown_by credentials.now)))) }
{
    match credentials {
        Credentials::Nothing => Ok(Ok(Caller::Nobody)),
        Credentials::Bearer(Some(key)) => Ok(member_with(directory, key)),
        Credentials::Bearer(None) => Ok(Err(Refusal::WrongKey)),
        Credentials::Mac(Some(signed)) => peer_by(directory.peer(signed.host), signed),
        Credentials::Mac(None) => Ok(Err(Refusal::WrongMac)),
    }
}
