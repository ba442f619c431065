//! Who sees what.

ghost use Rattle.std.specs.Prelude.{◌≡◌};
ghost use Rattle.std.specs.List.{list_any};
ghost use Rattle.fedi_town.specs.Seeing.{is_followed_from, is_follower_from, is_of_peer, reaches};
ghost use Rattle.fedi_town.specs.Seeing.{sees};

use fedi_address::{Host, Iri};
use fedi_effects::{Facts, is_following, sees_as};
use fedi_register::Kept;
use fedi_town::Caller;

/// Whether the IRI is of the other server.
#[tactic(auto, unfolding(fedi_town::specs::Seeing::is_of_peer))]
pub fn is_of_peer(host: &Host, iri: &Iri) -> bool
    ensures { result ≡ is_of_peer host.now iri.now }
{
    iri.host() == host.text()
}

#[tactic(auto, unfolding(fedi_town::specs::Seeing::reaches))]
fn reaches(facts: &Facts, host: &Host, author: &Iri, recipient: &Iri) -> bool
    ensures { result ≡ reaches facts.now.town host.now author.now recipient.now }
{
    is_of_peer(host, recipient) && !facts.has_block_between(recipient, author)
}

/// Whether an activity by the author goes to somebody of the other server who is not kept away by a
/// Block.
pub fn reaches_any(facts: &Facts, host: &Host, author: &Iri, recipients: &[Iri]) -> bool
    ensures { result ≡ list_any (reaches facts.now.town host.now author.now) recipients.now }
{
    recipients
        .iter()
        .any(|iri| reaches(facts, host, author, iri))
}

// Whether the activity is an accepted Follow of the author by somebody of the other server who is
// not kept away by a Block.
#[tactic(auto, unfolding(fedi_town::specs::Seeing::is_follower_from))]
fn is_follower_from(facts: &Facts, host: &Host, author: &Iri, act: &Kept) -> bool
    ensures { result ≡ is_follower_from facts.now.town host.now author.now act.now }
{
    is_following(act, author) && reaches(facts, host, author, act.author())
}

/// Whether somebody of the other server follows the author, and no Block keeps the two apart. The
/// followers of the author are looked through.
pub fn is_followed_from(facts: &Facts, host: &Host, author: &Iri) -> bool
    ensures { result ≡ is_followed_from facts.now.town host.now author.now }
{
    facts.is_followed_by(author, |act| is_follower_from(facts, host, author, act))
}

/// Whether the caller sees the activity (ActivityPub, sections 5, 6 and 6.9). A member sees what
/// the member wrote. If there is no Block between member and author, the member also sees what is
/// public, what goes to the member, and what is for the author's followers while the member is one.
/// A peer sees what is public, what is by the peer, what goes to somebody of the peer who is not
/// kept away by a Block, and what is for the author's followers while such an actor follows.
/// Everybody else sees what is public.
#[tactic(auto, unfolding(fedi_town::specs::Seeing::sees))]
pub fn sees(facts: &Facts, caller: &Caller, act: &Kept) -> bool
    ensures { result ≡ sees facts.now.town caller.now act.now }
{
    match caller {
        Caller::Nobody => act.is_public(),
        Caller::Actor(name) => match facts.id_of(name) {
            Some(id) => sees_as(facts, id, act),
            None => act.is_public(),
        },
        Caller::Peer(host) => {
            act.is_public()
                || is_of_peer(host, act.author())
                || reaches_any(facts, host, act.author(), act.recipients())
                || (act.is_for_followers() && is_followed_from(facts, host, act.author()))
        }
    }
}
