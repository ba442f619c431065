//! The state in which an activity is accepted.

ghost use Rattle.std.specs.Prelude.{◌≡◌, ◌^◌, ◌≤◌, Some, option_copied};
ghost use Rattle.std.specs.List.{list_any};
ghost use Rattle.fedi_town.specs.Deeds.{is_open, is_pending};
ghost use Rattle.fedi_town.specs.Objects.{makes};
ghost use Rattle.fedi_town.specs.Relations.{ref_id};
ghost use Rattle.fedi_town.specs.States.{can_be_undone, follow_state, has_room, is_follow_for};
ghost use Rattle.fedi_town.specs.States.{is_live_to, is_locked, is_own_live, is_own_undoable};
ghost use Rattle.fedi_town.specs.States.{is_public_act, only_where, state_about, state_of};
ghost use Rattle.fedi_town.specs.Towns.{count_after, has_next};
ghost use Rattle.fedi_effects.specs.Subjects.{subject_of};

use crate::facts::Facts;
use crate::seeing::sees_as;
use crate::subjects::{is_whole, ref_id};
use fedi_address::Iri;
use fedi_objects::{ObjectRef, State};
use fedi_register::{Kept, can_be_undone, is_about, is_by, is_follow, is_open, is_pending};
use fedi_town::{Deed, MOST_ACTIVITIES};

// The state if the condition holds, otherwise Plain.
fn only_where(holds: bool, state: State) -> State
    ensures { result ≡ only_where holds state }
{
    if holds { state } else { State::Plain }
}

// ---- objects

// Whether an activity made an object with this id.
fn is_made(facts: &Facts, id: &Iri) -> bool
    ensures { result ≡ list_any (makes id.now) facts.now.town.acts }
{
    facts.maker(id).is_some()
}

// Whether the object was made by this author and was not deleted.
fn is_own_live(author: &Iri, maker: Option<&Kept>) -> bool
    ensures { result ≡ is_own_live author.now (option_copied maker.entry) }
{
    match maker {
        Some(maker) => is_by(maker, author) && !maker.is_deleted(),
        None => false,
    }
}

// Whether the object was not deleted and the author sees its Create.
fn is_live_to(facts: &Facts, author: &Iri, maker: Option<&Kept>) -> bool
    ensures { result ≡ is_live_to facts.now.town author.now (option_copied maker.entry) }
{
    match maker {
        Some(maker) => sees_as(facts, author, maker) && !maker.is_deleted(),
        None => false,
    }
}

// Whether the object's Create is public.
fn is_public_act(maker: Option<&Kept>) -> bool
    ensures { result ≡ is_public_act (option_copied maker.entry) }
{
    match maker {
        Some(maker) => maker.is_public(),
        None => false,
    }
}

// ---- Follows

/// How many activities this one has after one more of the author.
pub fn count_after(facts: &Facts, author: &Iri, id: &Iri) -> u64
    ensures value { result ≡ count_after facts.now.town author.now id.now }
    ensures few { result ≤ 2 ^ 63 }
{
    let count = facts.count_of(id) as u64;
    if author == id { count + 1 } else { count }
}

// Whether there is a number for one more activity after this many.
pub(crate) fn has_next(count: u64) -> bool
    ensures { result ≡ has_next count }
{
    count < u64::from(MOST_ACTIVITIES)
}

// Whether this one has room for one more activity after this one of the author.
#[tactic(auto, unfolding(fedi_town::specs::States::has_room))]
fn has_room(facts: &Facts, author: &Iri, id: &Iri) -> bool
    ensures { result ≡ has_room facts.now.town author.now id.now }
{
    has_next(count_after(facts, author, id))
}

// Whether Follows of this member wait for an answer.
#[tactic(auto, unfolding(fedi_town::specs::States::is_locked))]
fn is_locked(facts: &Facts, id: &Iri) -> bool
    ensures { result ≡ is_locked facts.now.town id.now }
{
    facts.members().has_locked(id)
}

// What becomes of a Follow of this member: a Block refuses it. Otherwise it is accepted at once if
// the member is not locked and has room for the Accept (ActivityPub, section 7.5).
#[tactic(auto, unfolding(fedi_town::specs::States::follow_state))]
fn follow_state(facts: &Facts, author: &Iri, id: &Iri) -> State
    ensures { result ≡ follow_state facts.now.town author.now id.now }
{
    if facts.has_block_between(author, id) {
        State::Rejected
    } else if !is_locked(facts, id) && has_room(facts, author, id) {
        State::Accepted
    } else {
        State::Pending
    }
}

fn is_pending_follow_for(author: &Iri, follow: Option<&Kept>) -> bool
    ensures { result ≡ is_follow_for is_pending author.now (option_copied follow.entry) }
{
    match follow {
        Some(act) => is_follow(act) && is_pending(act.state()) && is_about(act, author),
        None => false,
    }
}

fn is_open_follow_for(author: &Iri, follow: Option<&Kept>) -> bool
    ensures { result ≡ is_follow_for is_open author.now (option_copied follow.entry) }
{
    match follow {
        Some(act) => is_follow(act) && is_open(act.state()) && is_about(act, author),
        None => false,
    }
}

// Whether the activity is the author's and can be undone.
fn is_own_undoable(author: &Iri, act: Option<&Kept>) -> bool
    ensures { result ≡ is_own_undoable author.now (option_copied act.entry) }
{
    match act {
        Some(act) => is_by(act, author) && can_be_undone(act),
        None => false,
    }
}

// ---- the table

fn state_about(
    facts: &Facts,
    is_local: bool,
    author: &Iri,
    deed: Deed,
    is_full: bool,
    id: &Iri,
    subject: Option<&Kept>,
) -> State
    requires { option_copied subject ≡ subject_of facts.now.town deed (Some id.now) }
    ensures { result ≡ state_about facts.now.town is_local author.now deed is_full id.now }
{
    match deed {
        Deed::Create => only_where(is_full && !is_made(facts, id), State::Done),
        Deed::Update => only_where(
            (is_local || is_full) && is_own_live(author, subject),
            State::Done,
        ),
        Deed::Delete => only_where(is_own_live(author, subject), State::Done),
        Deed::Follow if facts.is_actor(id) => follow_state(facts, author, id),
        Deed::Follow => only_where(is_local, State::Pending),
        Deed::Like => only_where(
            is_live_to(facts, author, subject) && !facts.likes(author, id),
            State::Standing,
        ),
        Deed::Announce => only_where(
            is_live_to(facts, author, subject)
                && is_public_act(subject)
                && !facts.shares(author, id),
            State::Standing,
        ),
        Deed::Block => only_where(!facts.blocks(author, id) && id != author, State::Standing),
        Deed::Accept => only_where(is_pending_follow_for(author, subject), State::Done),
        Deed::Reject => only_where(is_open_follow_for(author, subject), State::Done),
        Deed::Undo => only_where(is_own_undoable(author, subject), State::Done),
        Deed::Other => State::Plain,
    }
}

/// The state of an activity with this deed about this: whether its side effect happens
/// (ActivityPub, sections 6 and 7). The activity is a member's or comes from elsewhere.
#[tactic(auto, unfolding(fedi_town::specs::States::state_of))]
pub fn state_of(
    facts: &Facts,
    is_local: bool,
    author: &Iri,
    deed: Deed,
    object: &ObjectRef,
    subject: Option<&Kept>,
) -> State
    requires { option_copied subject
        ≡ subject_of facts.now.town deed (ref_id object.now) }
    ensures { result ≡ state_of facts.now.town is_local author.now deed object.now }
{
    match ref_id(object) {
        Some(id) => state_about(facts, is_local, author, deed, is_whole(object), id, subject),
        None => State::Plain,
    }
}
