//! The replies to readers of a collection. Out of memory is the only error.

ghost use Rattle.std.specs.Prelude.{◌≡◌, ◌<◌, ◌||◌, IfOk, IsTrue, OnErr, Some, false, not};
ghost use Rattle.std.specs.Prelude.{option_copied};
ghost use Rattle.fedi_collections.specs.Drafts.{is_ready, reply_in};
ghost use Rattle.fedi_model.specs.Reading.{collection_answer, is_malformed, items_answer};
ghost use Rattle.fedi_model.specs.Reading.{marks_rule, name_of, object_rule, owner_answer};
ghost use Rattle.fedi_model.specs.Reading.{reading_rule};
ghost use Rattle.fedi_town.specs.Collections.{owner_of};
ghost use Rattle.fedi_town.specs.declared.caller.Which.TheVariants.{Inbox, Likes};
ghost use Rattle.fedi_model.specs.Memory.{finds_marked, is_refused};
ghost use Rattle.fedi_model.specs.Replies.{reply_of};

use crate::drafts::CollectionDraft;
use crate::pages::{draft_page, summary};
use fedi_address::{Iri, LocalName};
use fedi_effects::{Facts, Steps};
use fedi_model::{Form, PageAsk, Reply, is_nobody, is_self, refusal_reply};
use fedi_register::Kept;
use fedi_town::{Caller, Refusal, Which, object_iri};
use fedi_visible::{Shelf, seen_maker};
use http::StatusCode;
use std::alloc::{AllocError, Global};
use std::marker::Brand;
use std::sync::ledger::{Blank, Ledger};

// ---- rules

fn name_of(which: &Which) -> &LocalName
    ensures { result.now ≡ name_of which.now }
{
    match which {
        Which::Inbox(name)
        | Which::Outbox(name)
        | Which::Followers(name)
        | Which::Following(name)
        | Which::Liked(name)
        | Which::Likes(name, _)
        | Which::Shares(name, _) => name,
    }
}

// Why the caller may not read the member's inbox, which is the member's alone (ActivityPub, section
// 5.2).
fn inbox_rule(caller: &Caller, name: &LocalName) -> Option<Refusal>
    ensures { result ≡ reading_rule caller.now (Inbox name.now) }
{
    if is_nobody(caller) {
        Some(Refusal::NoKey)
    } else if is_self(caller, name) {
        None
    } else {
        Some(Refusal::NotOwner)
    }
}

// Why the caller may not read the collection, whatever it holds.
fn reading_rule(caller: &Caller, which: &Which) -> Option<Refusal>
    ensures { result ≡ reading_rule caller.now which.now }
{
    match which {
        Which::Inbox(name) => inbox_rule(caller, name),
        Which::Outbox(_) | Which::Followers(_) | Which::Following(_) | Which::Liked(_) => None,
        Which::Likes(..) | Which::Shares(..) => None,
    }
}

// Why the Likes and Announces of the object that this activity made may not be read.
fn marks_rule(maker: Option<&Kept>) -> Option<Refusal>
    ensures { result ≡ marks_rule (option_copied maker.entry) }
{
    match maker {
        Some(maker) => maker.is_deleted().then_some(Refusal::Gone),
        None => Some(Refusal::NotFound),
    }
}

// Why the collection of the object with this id may not be read, if it is an object's.
fn object_rule(facts: &Facts, caller: &Caller, which: &Which, id: &Iri) -> Option<Refusal>
    ensures { result ≡ object_rule facts.now.town caller.now which.now id.now }
{
    match which {
        Which::Likes(..) | Which::Shares(..) => marks_rule(seen_maker(facts, caller, id)),
        Which::Inbox(_) | Which::Outbox(_) => None,
        Which::Followers(_) | Which::Following(_) | Which::Liked(_) => None,
    }
}

// ---- owners

// The id of the object that the member's activity of this number made.
fn object_owner(
    alloc: Global,
    facts: &Facts,
    name: &LocalName,
    number: u32,
) -> Result<Option<Iri>, AllocError>
    ensures { IfOk result (λ owner. owner ≡ owner_of facts.now.town (Likes name.now number)) }
{
    match facts.host() {
        Some(host) => {
            let id = object_iri(alloc, host, name, u64::from(number))?;
            Ok(Some(id))
        }
        None => Ok(None),
    }
}

// ---- replies

// The reply to a reader of this part of the owner's collection. The reads of activities are counted
// here, and the bounds are those of `summary` and `draft_page`.
#[tactic(auto, using(crate::proofs::Found::page_answered, crate::proofs::Found::page_shown), unfolding(fedi_model::specs::Reading::items_answer))]
fn draft_part<S: Shelf, L: Ledger>(
    alloc: Global,
    shelf: &S,
    caller: &Caller,
    which: &Which,
    owner: &Iri,
    part: &PageAsk,
    blank: Blank,
) -> Result<CollectionDraft, AllocError>
    requires name { blank.name ≡ L.name }
    requires parts { blank.parts ≡ L.parts }
    requires some { 0 < blank.parts }
    requires owner { owner_of (S.holding shelf.now).town which.now ≡ Some owner.now }
    ensures reply { IfOk result (λ draft. reply_in draft ≡ reply_of
        (items_answer (S.holding shelf.now).town caller.now which.now owner.now part.now)) }
    ensures memory { OnErr result (is_refused
        (items_answer (S.holding shelf.now).town caller.now which.now owner.now part.now)
        ≡ false) }
    ensures ready { IfOk result (λ draft. IsTrue (is_ready draft || not (is_refused
        (items_answer (S.holding shelf.now).town caller.now which.now owner.now part.now)))) }
{
    let mut steps = Steps::<L>::new(blank);
    match part {
        PageAsk::Summary => {
            let text = summary(alloc, shelf, caller, which, owner, &mut steps)?;
            let reply = Reply::document(StatusCode::OK, Form::Activity, text);
            Ok(CollectionDraft::Ready(reply))
        }
        PageAsk::Page(number) => {
            match draft_page(alloc, shelf, caller, which, owner, *number, &mut steps)? {
                Some(page) => Ok(page),
                None => Ok(CollectionDraft::Ready(refusal_reply(Refusal::NotFound))),
            }
        }
        PageAsk::Malformed => Ok(CollectionDraft::Ready(refusal_reply(Refusal::BadQuery))),
    }
}

// The reply to a reader of the collection of the owner with this id.
fn draft_owned<S: Shelf>(
    alloc: Global,
    shelf: &S,
    caller: &Caller,
    which: &Which,
    owner: &Iri,
    part: &PageAsk,
) -> Result<CollectionDraft, AllocError>
    requires { owner_of (S.holding shelf.now).town which.now ≡ Some owner.now }
    ensures reply { IfOk result (λ draft. reply_in draft ≡ reply_of (owner_answer
        (S.holding shelf.now).town caller.now which.now part.now (Some owner.now))) }
    ensures memory { OnErr result (is_refused (owner_answer
        (S.holding shelf.now).town caller.now which.now part.now (Some owner.now)) ≡ false) }
    ensures ready { IfOk result (λ draft. IsTrue (is_ready draft || not (is_refused (owner_answer
        (S.holding shelf.now).town caller.now which.now part.now (Some owner.now))))) }
{
    if let Some(refusal) = reading_rule(caller, which) {
        return Ok(CollectionDraft::Ready(refusal_reply(refusal)));
    }
    if let Some(refusal) = object_rule(shelf.facts(), caller, which, owner) {
        return Ok(CollectionDraft::Ready(refusal_reply(refusal)));
    }
    draft_part::<S, Brand>(alloc, shelf, caller, which, owner, part, Blank::new(1))
}

fn is_malformed(part: &PageAsk) -> bool
    ensures { result ≡ is_malformed part.now }
{
    match part {
        PageAsk::Malformed => true,
        PageAsk::Summary | PageAsk::Page(_) => false,
    }
}

/// The reply to a reader of a collection or of a page of it (ActivityPub, section 5), before a page
/// is written. `NotFound` if there is no such member or no page of that number; `BadQuery` if the
/// page is not a number; `NoKey` and `NotOwner` if an inbox is read by somebody other than its
/// owner (section 5.2); for the Likes and Announces of an object, `NotFound` if the reader does not
/// see the object, and `Gone` if it was deleted.
pub fn draft_collection<S: Shelf>(
    alloc: Global,
    shelf: &S,
    caller: &Caller,
    which: &Which,
    part: &PageAsk,
) -> Result<CollectionDraft, AllocError>
    ensures reply { IfOk result (λ draft. reply_in draft ≡ reply_of
        (collection_answer (S.holding shelf.now).town caller.now which.now part.now)) }
    // A refusal never runs out of memory, except when the id of an object is made to find it. It
    // leaves nothing to be written.
    ensures memory { OnErr result (IsTrue (finds_marked which.now part.now || not (is_refused
        (collection_answer (S.holding shelf.now).town caller.now which.now part.now)))) }
    ensures ready { IfOk result (λ draft. IsTrue (is_ready draft || not (is_refused
        (collection_answer (S.holding shelf.now).town caller.now which.now part.now)))) }
{
    let facts = shelf.facts();
    let Some(member) = facts.id_of(name_of(which)) else {
        return Ok(CollectionDraft::Ready(refusal_reply(Refusal::NotFound)));
    };
    if is_malformed(part) {
        return Ok(CollectionDraft::Ready(refusal_reply(Refusal::BadQuery)));
    }
    match which {
        Which::Likes(name, number) | Which::Shares(name, number) => {
            match object_owner(alloc, facts, name, *number)? {
                Some(owner) => draft_owned(alloc, shelf, caller, which, &owner, part),
                None => Ok(CollectionDraft::Ready(refusal_reply(Refusal::NotFound))),
            }
        }
        Which::Inbox(_)
        | Which::Outbox(_)
        | Which::Followers(_)
        | Which::Following(_)
        | Which::Liked(_) => draft_owned(alloc, shelf, caller, which, member, part),
    }
}
