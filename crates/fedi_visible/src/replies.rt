//! The replies to reads, before they are written. Out of memory is the only error.

ghost use Rattle.std.specs.Prelude.{◌≡◌, IfOk, option_copied};
ghost use Rattle.fedi_model.specs.Asks.{id_at};
ghost use Rattle.fedi_model.specs.Reading.{activity_answer, object_answer};
ghost use Rattle.fedi_model.specs.Replies.{reply_of};
ghost use Rattle.fedi_town.specs.Ids.{activity_id, object_id};
ghost use Rattle.fedi_town.specs.Rules.{seen_act, seen_maker};
ghost use Rattle.fedi_visible.specs.Drafts.{reply_in};

use crate::drafts::{Draft, activity_draft, object_draft};
use crate::seeing::sees;
use fedi_address::{Iri, LocalName};
use fedi_effects::Facts;
use fedi_model::refusal_reply;
use fedi_register::Kept;
use fedi_town::{Caller, Refusal, activity_iri, object_iri};
use std::alloc::{AllocError, Global};

// ---- activities

// The activity with this id, among those that the caller sees.
fn seen_act<'a>(facts: &'a Facts, caller: &Caller, id: &Iri) -> Option<&'a Kept>
    ensures { option_copied result ≡ seen_act facts.now.town caller.now id.now }
{
    facts.first_by_id(id, |act| sees(facts, caller, act))
}

/// The reply to a caller who asks for the member's activity of this number, before it is written:
/// its document if the caller sees it, otherwise that there is no such activity (ActivityPub,
/// section 3.2).
pub fn draft_activity(
    alloc: Global,
    facts: &Facts,
    caller: &Caller,
    name: &LocalName,
    number: u32,
) -> Result<Draft, AllocError>
    ensures { IfOk result (λ draft. reply_in draft ≡ reply_of (activity_answer facts.now.town
        caller.now (id_at facts.now.town.host activity_id name.now number))) }
{
    let Some(host) = facts.host() else {
        return Ok(Draft::Ready(refusal_reply(Refusal::NotFound)));
    };
    let id = activity_iri(alloc, host, name, u64::from(number))?;
    match seen_act(facts, caller, &id) {
        Some(act) => activity_draft(alloc, facts, act),
        None => Ok(Draft::Ready(refusal_reply(Refusal::NotFound))),
    }
}

// ---- objects

/// The activity that made the object with this id, among those that the caller sees, or none.
pub fn seen_maker<'a>(facts: &'a Facts, caller: &Caller, id: &Iri) -> Option<&'a Kept>
    ensures { option_copied result ≡ seen_maker facts.now.town caller.now id.now }
{
    facts.first_maker(id, |act| sees(facts, caller, act))
}

/// The reply to a caller who asks for the object that the member's activity of this number made,
/// before it is written: its document, or the Tombstone that is left of it, if the caller sees the
/// activity, and otherwise that there is no such object (ActivityPub, sections 3.2 and 6.4).
pub fn draft_object(
    alloc: Global,
    facts: &Facts,
    caller: &Caller,
    name: &LocalName,
    number: u32,
) -> Result<Draft, AllocError>
    ensures { IfOk result (λ draft. reply_in draft ≡ reply_of (object_answer facts.now.town
        caller.now (id_at facts.now.town.host object_id name.now number))) }
{
    let Some(host) = facts.host() else {
        return Ok(Draft::Ready(refusal_reply(Refusal::NotFound)));
    };
    let id = object_iri(alloc, host, name, u64::from(number))?;
    match seen_maker(facts, caller, &id) {
        Some(act) => object_draft(alloc, facts, act),
        None => Ok(Draft::Ready(refusal_reply(Refusal::NotFound))),
    }
}
