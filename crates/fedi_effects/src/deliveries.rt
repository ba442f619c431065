//! What is due to be delivered.

ghost use Rattle.std.specs.Prelude.{◌≡◌};
ghost use Rattle.fedi_town.specs.Queues.{is_at_peer, is_due, is_due_at, is_due_in, progress_of};
ghost use Rattle.fedi_town.specs.Queues.{sends};
ghost use Rattle.fedi_effects.specs.Standings.{IsFew, progress_in};

use crate::addressing::is_of_town;
use crate::facts::{Facts, has_host};
use crate::progress::Standing;
use fedi_address::{Iri, is_among};
use fedi_register::{Kept, has_activity_id};
use fedi_text::Moment;

/// What has become of the delivery to this recipient of the activity with this id, which was
/// accepted at this moment.
pub fn progress_of(facts: &Facts, id: &Iri, recipient: &Iri, moment: Moment) -> Standing
    ensures value { progress_in result
        ≡ progress_of facts.now.town id.now recipient.now moment }
    ensures few { IsFew result }
{
    facts.standing_of(id, recipient, moment)
}

// ---- what is due

/// The IRIs to which this server sends the activity: a member's activity goes to its recipients,
/// and any other to those it is forwarded to (ActivityPub, section 7.1.2).
#[tactic(auto, unfolding(fedi_town::specs::Queues::sends))]
pub fn sends<'a>(facts: &Facts, act: &'a Kept) -> &'a [Iri]
    ensures { result.now ≡ sends facts.now.town act.now }
{
    if is_of_town(facts, act.author()) {
        act.recipients()
    } else {
        act.forwards()
    }
}

/// Whether the recipient belongs to a peer.
#[tactic(auto, unfolding(fedi_town::specs::Queues::is_at_peer))]
pub fn is_at_peer(facts: &Facts, recipient: &Iri) -> bool
    ensures { result ≡ is_at_peer facts.now.town recipient.now }
{
    let host = recipient.host();
    facts.peers().iter().any(|peer| has_host(peer, host))
}

fn is_due_at(moment: Moment, standing: Standing) -> bool
    ensures { result ≡ is_due_at moment (progress_in standing) }
{
    match standing {
        Standing::Due { attempts: _, from } => from <= moment.seconds(),
        Standing::Ended { .. } => false,
    }
}

#[tactic(auto, unfolding(fedi_town::specs::Queues::is_due_in))]
fn is_due_in(facts: &Facts, id: &Iri, recipient: &Iri, moment: Moment, act: &Kept) -> bool
    ensures { result ≡ is_due_in facts.now.town id.now recipient.now moment act.now }
{
    has_activity_id(act, id)
        && is_among(recipient.text(), sends(facts, act))
        && is_at_peer(facts, recipient)
        && is_due_at(moment, progress_of(facts, id, recipient, act.moment()))
}

/// Whether the delivery of the activity with this id to this recipient is due at this moment: the
/// activity goes to the recipient, the recipient belongs to a peer, and the next attempt is due
/// after the attempts so far.
pub fn judge_tried(facts: &Facts, id: &Iri, recipient: &Iri, moment: Moment) -> bool
    ensures { result ≡ is_due facts.now.town id.now recipient.now moment }
{
    facts
        .first_by_id(id, |act| is_due_in(facts, id, recipient, moment, act))
        .is_some()
}
