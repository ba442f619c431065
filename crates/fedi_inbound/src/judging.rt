//! What becomes of an activity that a peer delivers.

ghost use Rattle.std.specs.Prelude.{◌≡◌, ◌&&◌, option_copied};
ghost use Rattle.std.specs.List.{list_any};
ghost use Rattle.fedi_town.specs.Legal.{lacks};
ghost use Rattle.fedi_town.specs.Origins.{has_inbox};
ghost use Rattle.fedi_town.specs.Relations.{has_activity_id};
ghost use Rattle.fedi_inbound.specs.Verdicts.{is_known_by, is_recipient, verdict};

use crate::origins::is_foreign;
use fedi_address::{Iri, is_among};
use fedi_effects::Facts;
use fedi_objects::Activity;
use fedi_register::Kept;
use fedi_town::Peer;

/// What becomes of a delivery to one inbox.
#[derive(Clone, Copy, Debug, PartialEq, Eq)]
pub enum Verdict {
    /// Its id is new.
    New,
    /// Its id is known, and this inbox is new for it.
    AddInbox,
    /// The inbox has it already.
    Repeat,
    /// The peer may not deliver it.
    NotOrigin,
}

#[tactic(auto, unfolding(crate::specs::Verdicts::is_recipient))]
fn is_recipient(act: &Kept, owner: &Iri) -> bool
    ensures { result ≡ is_recipient owner.now act.now }
{
    is_among(owner.text(), act.recipients())
}

// Whether an activity with this id goes to this owner's inbox.
fn goes_to(facts: &Facts, id: &Iri, owner: &Iri) -> bool
    ensures { result ≡ list_any (λ x. has_activity_id id.now x && is_recipient owner.now x)
        facts.now.town.acts }
{
    facts
        .first_by_id(id, |act| is_recipient(act, owner))
        .is_some()
}

// Whether the activity with this id goes to this owner's inbox already. It does if it has no id.
#[tactic(auto, unfolding(crate::specs::Verdicts::is_recipient))]
fn has_inbox(facts: &Facts, id: Option<&Iri>, owner: &Iri) -> bool
    ensures { result ≡ has_inbox facts.now.town (option_copied id.entry) owner.now }
{
    match id {
        Some(id) => goes_to(facts, id, owner),
        None => true,
    }
}

// Whether an activity with this id was accepted.
fn is_known(facts: &Facts, id: &Iri) -> bool
    ensures { result ≡ list_any (has_activity_id id.now) facts.now.town.acts }
{
    facts.activity_of(id).is_some()
}

fn is_known_by(facts: &Facts, id: Option<&Iri>) -> bool
    ensures { result ≡ is_known_by facts.now.town (option_copied id.entry) }
{
    match id {
        Some(id) => is_known(facts, id),
        None => false,
    }
}

/// What becomes of the peer's delivery of an activity to the inbox of this owner (ActivityPub,
/// section 7.1). It takes no memory.
pub fn judge_remote(facts: &Facts, peer: &Peer, owner: &Iri, activity: &Activity) -> Verdict
    ensures { result ≡ verdict facts.now.town peer.now owner.now activity.now }
{
    let id = activity.id.as_ref();
    if is_foreign(facts, peer, activity) {
        Verdict::NotOrigin
    } else if has_inbox(facts, id, owner) {
        Verdict::Repeat
    } else if is_known_by(facts, id) {
        Verdict::AddInbox
    } else {
        Verdict::New
    }
}

/// Whether the activity with this id does not go to this member's inbox yet. It is false without an
/// id, which each delivery has, and without a member.
pub fn lacks(facts: &Facts, id: Option<&Iri>, owner: Option<&Iri>) -> bool
    ensures { result ≡ lacks facts.now.town (option_copied id.entry) (option_copied owner.entry) }
{
    match owner {
        Some(owner) => !has_inbox(facts, id, owner),
        None => false,
    }
}
