//! What the machine decides on one ask.

ghost use Rattle.std.specs.Prelude.{◌≡◌, ◌<◌, ◌+◌, ◌||◌, IfOk, IsTrue, OnErr, false, true};
ghost use Rattle.std.specs.Prelude.{option_copied, option_map};
ghost use Rattle.fedi_model.specs.Asks.{entry_of};
ghost use Rattle.fedi_model.specs.Posting.{delivery_answer, delivery_of, entry_at, inbox_entry_at};
ghost use Rattle.fedi_model.specs.Posting.{post_answer};
ghost use Rattle.fedi_model.specs.Memory.{is_refused, keeps_delivery, takes_memory};
ghost use Rattle.fedi_model.specs.Replies.{reply, reply_of};
ghost use Rattle.fedi_core.specs.Drafts.{is_ready, reply_in};
ghost use Rattle.fedi_town.specs.Ids.{activity_id};
ghost use Rattle.fedi_town.specs.Towns.{id_of};

use crate::drafts::Draft;
use crate::posts::{Judged, judge};
use crate::profiles::{actor_reply, webfinger_reply, wrong_method_reply};
use fedi_address::{Host, Iri, LocalName};
use fedi_collections::draft_collection;
use fedi_effects::Facts;
use fedi_inbound::{Received, receive};
use fedi_model::{Ask, Post, Reply, misshapen_reply, refusal_reply};
use fedi_objects::{Activity, Boxed, Entry};
use fedi_pins::board_reply;
use fedi_text::Moment;
use fedi_town::{Caller, Refusal, activity_iri};
use fedi_visible::{Shelf, draft_activity, draft_object};
use std::alloc::{AllocError, Global};

/// The decision on an ask.
#[derive(Drop)]
pub struct Decision {
    /// The reply. If there is an entry, it may be sent only after the entry is kept.
    pub draft: Draft,
    /// The entry that the ask adds: that of a post or a delivery that is accepted and new.
    pub entry: Option<Entry>,
}

// The id of the member's activity of this number, if the server has been set up.
fn id_at(
    alloc: Global,
    host: Option<&Host>,
    name: &LocalName,
    number: u64,
) -> Result<Option<Iri>, AllocError>
    ensures { IfOk result (λ id. id
        ≡ option_map (λ h. activity_id h name.now number) (option_copied host.entry)) }
{
    match host {
        Some(host) => Ok(Some(activity_iri(alloc, host, name, number)?)),
        None => Ok(None),
    }
}

// A copy of the id, if there is one.
fn copy_id(id: Option<&Iri>) -> Result<Option<Iri>, AllocError>
    ensures { IfOk result (λ copy. copy ≡ option_copied id.entry) }
{
    match id {
        Some(id) => Ok(Some(id.copy()?)),
        None => Ok(None),
    }
}

// The decision on a post to the outbox of the member of this name.
fn decide_post(
    alloc: Global,
    facts: &Facts,
    caller: &Caller,
    name: LocalName,
    post: Post,
    moment: Moment,
) -> Result<Decision, AllocError>
    ensures reply { IfOk result (λ d. reply_in d.draft ≡ reply_of (post_answer facts.now.town
        caller.now name post (id_of facts.now.town name))) }
    ensures entry { IfOk result (λ d. d.entry ≡ entry_at facts.now.town caller.now
        name post moment (id_of facts.now.town name)) }
    ensures memory { OnErr result (is_refused (post_answer facts.now.town caller.now
        name post (id_of facts.now.town name)) ≡ false) }
    ensures ready { IfOk result (λ d. is_ready d.draft ≡ true) }
{
    let Some(author) = facts.id_of(&name) else {
        return Ok(Decision {
            draft: Draft::Ready(refusal_reply(Refusal::NotFound)),
            entry: None,
        });
    };
    match judge(facts, caller, &name, author, post) {
        Judged::Refused(reply) => Ok(Decision {
            draft: Draft::Ready(reply),
            entry: None,
        }),
        Judged::Repeated(id) => Ok(Decision {
            draft: Draft::Ready(Reply::created(copy_id(id)?)),
            entry: None,
        }),
        Judged::Kept(activity, repeat) => {
            let number = facts.count_of(author) as u64 + 1;
            let id = id_at(alloc, facts.host(), &name, number)?;
            Ok(Decision {
                draft: Draft::Ready(Reply::created(id)),
                entry: Some(Entry::Local {
                    name,
                    repeat,
                    activity,
                    moment,
                }),
            })
        }
    }
}

// The entry of this caller's delivery, if the caller is a peer.
fn delivery_of(
    caller: &Caller,
    name: LocalName,
    activity: Boxed<Activity>,
    moment: Moment,
) -> Result<Option<Entry>, AllocError>
    ensures { IfOk result (λ entry. entry ≡ delivery_of caller.now name activity moment) }
{
    match caller {
        Caller::Peer(host) => Ok(Some(Entry::Remote {
            peer: host.clone()?,
            inbox: name,
            activity,
            moment,
        })),
        Caller::Nobody | Caller::Actor(_) => Ok(None),
    }
}

// The decision on a post to the inbox of the member of this name. It takes memory only for the
// entry of a delivery that is kept.
fn decide_delivery(
    facts: &Facts,
    caller: &Caller,
    name: LocalName,
    post: Post,
    moment: Moment,
) -> Result<Decision, AllocError>
    ensures reply { IfOk result (λ d. reply_in d.draft ≡ reply_of (delivery_answer facts.now.town
        caller.now post (id_of facts.now.town name))) }
    ensures entry { IfOk result (λ d. d.entry ≡ inbox_entry_at facts.now.town caller.now
        name post moment (id_of facts.now.town name)) }
    ensures memory { OnErr result (IsTrue (keeps_delivery facts.now.town caller.now
        post (id_of facts.now.town name))) }
    ensures ready { IfOk result (λ d. is_ready d.draft ≡ true) }
{
    let Some(owner) = facts.id_of(&name) else {
        return Ok(Decision {
            draft: Draft::Ready(refusal_reply(Refusal::NotFound)),
            entry: None,
        });
    };
    match receive(facts, caller, owner, post) {
        Received::Refused(refusal) => Ok(Decision {
            draft: Draft::Ready(refusal_reply(refusal)),
            entry: None,
        }),
        Received::Misshapen(fault) => Ok(Decision {
            draft: Draft::Ready(misshapen_reply(fault)),
            entry: None,
        }),
        Received::Repeated => Ok(Decision {
            draft: Draft::Ready(Reply::accepted()),
            entry: None,
        }),
        Received::Kept(activity) => Ok(Decision {
            draft: Draft::Ready(Reply::accepted()),
            entry: delivery_of(caller, name, activity, moment)?,
        }),
    }
}

/// Decides on an ask by the history on a shelf. The only error is out of memory. A refusal takes no
/// memory, unless an id is made to look something up, and leaves nothing to be written.
#[tactic(auto, using(crate::proofs::Drafting::ready_more))]
pub fn decide<S: Shelf>(
    alloc: Global,
    shelf: &S,
    caller: &Caller,
    ask: Ask,
    moment: Moment,
) -> Result<Decision, AllocError>
    ensures reply { IfOk result (λ d.
        reply_in d.draft ≡ reply (S.holding shelf.now).town caller.now ask) }
    ensures entry { IfOk result (λ d.
        d.entry ≡ entry_of (S.holding shelf.now).town caller.now ask moment) }
    ensures memory { OnErr result
        (IsTrue (takes_memory (S.holding shelf.now).town caller.now ask)) }
    ensures ready { IfOk result (λ d. IsTrue (is_ready d.draft
        || takes_memory (S.holding shelf.now).town caller.now ask)) }
{
    let facts = shelf.facts();
    let draft = match ask {
        Ask::Nowhere => Draft::Ready(refusal_reply(Refusal::NotFound)),
        Ask::WrongMethod(allow) => Draft::Ready(wrong_method_reply(allow)),
        Ask::Webfinger(resource) => {
            Draft::Ready(webfinger_reply(alloc, facts, resource.as_ref())?)
        }
        Ask::Actor(name) => Draft::Ready(actor_reply(alloc, facts, &name)?),
        Ask::Activity(name, number) => {
            Draft::Document(draft_activity(alloc, facts, caller, &name, number)?)
        }
        Ask::Object(name, number) => {
            Draft::Document(draft_object(alloc, facts, caller, &name, number)?)
        }
        Ask::Outbox(name, post) => {
            return decide_post(alloc, facts, caller, name, post, moment);
        }
        Ask::Collection(which, part) => {
            Draft::Collection(draft_collection(alloc, shelf, caller, &which, &part)?)
        }
        Ask::Board(name, slug, part) => {
            Draft::Ready(board_reply(alloc, shelf, caller, &name, slug.as_ref(), &part)?)
        }
        Ask::Inbox(name, post) => {
            return decide_delivery(facts, caller, name, post, moment);
        }
    };
    Ok(Decision { draft, entry: None })
}
