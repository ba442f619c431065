//! The effect of an accepted activity on earlier ones. Only those that it concerns are touched, and
//! they are found by their marks. Nothing here uses memory except what is spare, so that a prepared
//! change cannot fail.

ghost use Rattle.std.specs.Prelude.{◌≡◌, ◌<◌, Some, length, map, set, slice_get};
ghost use Rattle.fedi_town.specs.declared.act.Act.{Act};
ghost use Rattle.fedi_town.specs.Effects.{affect, end_follow, in_state, is_pending_follow};
ghost use Rattle.fedi_town.specs.Effects.{is_standing_activity, where_passes};
ghost use Rattle.fedi_town.specs.Histories.{with_recipient};
ghost use Rattle.fedi_town.specs.Lists.{PassesOnce};
ghost use Rattle.fedi_town.specs.Objects.{makes, rewrite_act, tombstone_of, update_object};
ghost use Rattle.fedi_town.specs.Relations.{has_activity_id};
ghost use Rattle.fedi_register.specs.Changes.{AreMadeOnce, accept_one, end_both, is_state};
ghost use Rattle.fedi_register.specs.Changes.{is_unended, longer_of, place_where, undo_one};
ghost use Rattle.fedi_register.specs.Marks.{marks_from};
ghost use Rattle.fedi_register.specs.Registers.{has_own_id, is_making, object_mark, own_mark};
ghost use Rattle.fedi_register.specs.Registers.{relates, relation_mark};

use crate::acts::{has_activity_id, is_follow, is_open_follow, is_pending, is_standing, makes};
use crate::extras::Spare;
use crate::iris::Iris;
use crate::kept::Kept;
use crate::marks::Marks;
use crate::seeds::Seed;
use fedi_address::Iri;
use fedi_objects::{ObjectRef, State};
use fedi_text::Text;
use fedi_town::Effect;
use std::snapshot::Snapshot;

fn set_state_at(acts: &mut [Kept], place: usize, state: State)
    requires { place < length acts.old }
    ensures { (y : Act) → slice_get acts.old place ≡ Some y
        → acts.new ≡ set acts.old place (in_state state y) }
{
    acts[place].set_state(state);
}

// ---- Follows

fn is_state(own: State, state: State) -> bool
    ensures { result ≡ is_state own state }
{
    matches!(
        (own, state),
        (State::Plain, State::Plain)
            | (State::Done, State::Done)
            | (State::Pending, State::Pending)
            | (State::Accepted, State::Accepted)
            | (State::Rejected, State::Rejected)
            | (State::Standing, State::Standing)
            | (State::Undone, State::Undone)
    )
}

#[tactic(auto, unfolding(crate::specs::Changes::is_unended))]
fn is_unended(act: &Kept, follower: &Iri, followee: &Iri, state: State) -> bool
    ensures { result ≡ is_unended follower.now followee.now state act.now }
{
    is_open_follow(act, follower, followee) && !is_state(act.state(), state)
}

// The position of the first Follow of `followee` by `follower` that is pending or was accepted and
// is not yet in this state.
fn unended_follow(
    acts: &[Kept],
    seed: &Seed,
    pairs: &Marks,
    follower: &Iri,
    followee: &Iri,
    state: State,
) -> Option<usize>
    requires { pairs.now.marks ≡ marks_from relates (relation_mark seed.now) 0 acts.now }
    ensures { result ≡ place_where (is_unended follower.now followee.now state) acts.now }
{
    let mark = seed.mark_of_pair(follower, followee.text());
    pairs.position_of(acts, mark, |act| is_unended(act, follower, followee, state))
}

// Puts each Follow of `followee` by `follower` that is pending or was accepted into this state.
fn end_follows(
    acts: &mut [Kept],
    seed: &Seed,
    pairs: &Marks,
    follower: &Iri,
    followee: &Iri,
    state: State,
)
    requires { pairs.now.marks ≡ marks_from relates (relation_mark seed.now) 0 acts.old }
    ensures acts { acts.new ≡ map (end_follow follower.now followee.now state) acts.old }
    ensures marks { pairs.now.marks ≡ marks_from relates (relation_mark seed.now) 0 acts.new }
{
    while let Some(place) = unended_follow(acts, seed, pairs, follower, followee, state) {
        set_state_at(acts, place, state);
    }
}

// Ends each Follow between the two, in either direction.
fn end_both(acts: &mut [Kept], seed: &Seed, pairs: &Marks, author: &Iri, other: &Iri)
    requires { pairs.now.marks ≡ marks_from relates (relation_mark seed.now) 0 acts.old }
    ensures { acts.new ≡ map (end_both author.now other.now) acts.old }
{
    end_follows(acts, seed, pairs, other, author, State::Undone);
    end_follows(acts, seed, pairs, author, other, State::Undone);
}

// ---- answers

#[tactic(auto, unfolding(fedi_town::specs::Effects::is_pending_follow))]
fn is_pending_follow(act: &Kept, id: &Iri) -> bool
    ensures { result ≡ is_pending_follow id.now act.now }
{
    has_activity_id(act, id) && is_follow(act) && is_pending(act.state())
}

fn pending_follow(acts: &[Kept], seed: &Seed, ids: &Marks, id: &Iri) -> Option<usize>
    requires { ids.now.marks ≡ marks_from has_own_id (own_mark seed.now) 0 acts.now }
    ensures { result ≡ place_where (is_pending_follow id.now) acts.now }
{
    ids.position_of(acts, seed.mark_of_iri(id), |act| is_pending_follow(act, id))
}

// Accepts the Follow with this id if it is pending.
fn accept(acts: &mut [Kept], seed: &Seed, ids: &Marks, follow: &Iri)
    requires { ids.now.marks ≡ marks_from has_own_id (own_mark seed.now) 0 acts.old }
    ensures { acts.new ≡ map (accept_one follow.now) acts.old }
{
    while let Some(place) = pending_follow(acts, seed, ids, follow) {
        set_state_at(acts, place, State::Accepted);
    }
}

#[tactic(auto, unfolding(fedi_town::specs::Effects::is_standing_activity))]
fn is_standing_activity(act: &Kept, id: &Iri) -> bool
    ensures { result ≡ is_standing_activity id.now act.now }
{
    has_activity_id(act, id) && is_standing(act.state())
}

fn standing_activity(acts: &[Kept], seed: &Seed, ids: &Marks, id: &Iri) -> Option<usize>
    requires { ids.now.marks ≡ marks_from has_own_id (own_mark seed.now) 0 acts.now }
    ensures { result ≡ place_where (is_standing_activity id.now) acts.now }
{
    ids.position_of(
        acts,
        seed.mark_of_iri(id),
        |act| is_standing_activity(act, id),
    )
}

// Undoes the activity with this id if it is in effect.
fn undo(acts: &mut [Kept], seed: &Seed, ids: &Marks, activity: &Iri)
    requires { ids.now.marks ≡ marks_from has_own_id (own_mark seed.now) 0 acts.old }
    ensures { acts.new ≡ map (undo_one activity.now) acts.old }
{
    while let Some(place) = standing_activity(acts, seed, ids, activity) {
        set_state_at(acts, place, State::Undone);
    }
}

// ---- objects

// The position of the activity that created the object.
fn position_of(acts: &[Kept], seed: &Seed, made: &Marks, object: &Iri) -> Option<usize>
    requires { made.now.marks ≡ marks_from is_making (object_mark seed.now) 0 acts.now }
    ensures { result ≡ place_where (makes object.now) acts.now }
{
    made.position_of(acts, seed.mark_of_iri(object), |act| makes(act, object))
}

// Applies what an Update carries to the object.
fn update(
    acts: &mut [Kept],
    seed: &Seed,
    made: &Marks,
    object: &Iri,
    by: ObjectRef,
    stamp: Text,
    spare: Spare,
)
    requires once { PassesOnce (makes object.now) acts.old }
    requires marks { made.now.marks ≡ marks_from is_making (object_mark seed.now) 0 acts.old }
    ensures { acts.new
        ≡ map (where_passes (makes object.now) (rewrite_act (update_object by stamp))) acts.old }
{
    if let Some(place) = position_of(acts, seed, made, object) {
        acts[place].update_object(by, stamp, spare);
    }
}

// Replaces the object by a Tombstone.
fn make_tombstone(
    acts: &mut [Kept],
    seed: &Seed,
    made: &Marks,
    object: &Iri,
    kind: Text,
    stamp: Text,
    spare: Spare,
)
    requires once { PassesOnce (makes object.now) acts.old }
    requires marks { made.now.marks ≡ marks_from is_making (object_mark seed.now) 0 acts.old }
    ensures { acts.new
        ≡ map (where_passes (makes object.now) (rewrite_act (tombstone_of kind stamp))) acts.old }
{
    if let Some(place) = position_of(acts, seed, made, object) {
        acts[place].make_tombstone(kind, stamp, spare);
    }
}

/// The effect of an accepted activity on those before it (ActivityPub, sections 6 and 7).
#[tactic(auto, using(crate::proofs::Once::nothing_changes), unfolding(crate::specs::Changes::accept_one, crate::specs::Changes::undo_one, crate::specs::Changes::end_both))]
pub(crate) fn apply_effect(
    acts: &mut [Kept],
    seed: &Seed,
    made: &Marks,
    ids: &Marks,
    pairs: &Marks,
    effect: Effect,
    spare: Spare,
)
    requires once { AreMadeOnce acts.old }
    requires made { made.now.marks ≡ marks_from is_making (object_mark seed.now) 0 acts.old }
    requires ids { ids.now.marks ≡ marks_from has_own_id (own_mark seed.now) 0 acts.old }
    requires pairs { pairs.now.marks ≡ marks_from relates (relation_mark seed.now) 0 acts.old }
    ensures { acts.new ≡ map (affect effect) acts.old }
{
    match effect {
        Effect::Nothing => {}
        Effect::Update { object, by, stamp } => update(acts, seed, made, &object, by, stamp, spare),
        Effect::Delete {
            object,
            kind,
            stamp,
        } => make_tombstone(acts, seed, made, &object, kind, stamp, spare),
        Effect::Accept { follow } => accept(acts, seed, ids, &follow),
        Effect::EndFollows {
            follower,
            followee,
            state,
        } => end_follows(acts, seed, pairs, &follower, &followee, state),
        Effect::EndBoth { author, other } => end_both(acts, seed, pairs, &author, &other),
        Effect::Undo { activity } => undo(acts, seed, ids, &activity),
    }
}

// ---- inboxes

/// The position of the activity with this id.
pub(crate) fn position_of_id(acts: &[Kept], seed: &Seed, ids: &Marks, id: &Iri) -> Option<usize>
    requires { ids.now.marks ≡ marks_from has_own_id (own_mark seed.now) 0 acts.now }
    ensures { result ≡ place_where (has_activity_id id.now) acts.now }
{
    ids.position_of(acts, seed.mark_of_iri(id), |act| has_activity_id(act, id))
}

/// Adds one more inbox owner to the recipients of the activity with this id: `recipients` is the
/// resulting list.
pub(crate) fn add_inbox(
    acts: &mut [Kept],
    seed: &Seed,
    ids: &Marks,
    id: &Iri,
    owner: &Snapshot<Iri>,
    recipients: Iris,
)
    requires once { PassesOnce (has_activity_id id.now) acts.old }
    requires longer { longer_of id.now owner.now.value acts.old ≡ Some recipients }
    requires ids { ids.now.marks ≡ marks_from has_own_id (own_mark seed.now) 0 acts.old }
    ensures { acts.new ≡ map (with_recipient id.now owner.now.value) acts.old }
{
    if let Some(place) = position_of_id(acts, seed, ids, id) {
        acts[place].set_recipients(recipients);
    }
}
