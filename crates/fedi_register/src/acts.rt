//! Questions about a single activity.

ghost use Rattle.std.specs.Prelude.{◌≡◌, option_copied};
ghost use Rattle.fedi_town.specs.Collections.{object_key};
ghost use Rattle.fedi_town.specs.Deeds.{deed_of, is_accepted, is_announce, is_block, is_create};
ghost use Rattle.fedi_town.specs.Deeds.{is_done, is_follow, is_like, is_open, is_pending};
ghost use Rattle.fedi_town.specs.Deeds.{is_standing};
ghost use Rattle.fedi_town.specs.Objects.{makes};
ghost use Rattle.fedi_town.specs.Relations.{has_activity_id, is_about, is_block_of, is_follow_of};
ghost use Rattle.fedi_town.specs.Relations.{is_following, is_id, is_open_follow};
ghost use Rattle.fedi_town.specs.States.{can_be_undone, is_announce_of, is_like_of};
ghost use Rattle.fedi_town.specs.Towns.{is_by};

use crate::kept::Kept;
use fedi_address::Iri;
use fedi_objects::State;
use fedi_town::Deed;

/// Whether an activity in this state has taken effect.
pub fn is_done(state: State) -> bool
    ensures { result ≡ is_done state }
{
    matches!(state, State::Done)
}

/// Whether a Follow in this state is waiting for an answer.
pub fn is_pending(state: State) -> bool
    ensures { result ≡ is_pending state }
{
    matches!(state, State::Pending)
}

/// Whether a Follow in this state was accepted.
pub fn is_accepted(state: State) -> bool
    ensures { result ≡ is_accepted state }
{
    matches!(state, State::Accepted)
}

/// Whether a Follow in this state is pending or was accepted.
pub fn is_open(state: State) -> bool
    ensures { result ≡ is_open state }
{
    matches!(state, State::Pending | State::Accepted)
}

/// Whether a Like, an Announce or a Block in this state is in effect.
pub fn is_standing(state: State) -> bool
    ensures { result ≡ is_standing state }
{
    matches!(state, State::Standing)
}

// Whether there is an id and it equals this one.
fn is_id(own: Option<&Iri>, id: &Iri) -> bool
    ensures { result ≡ is_id id.now (option_copied own.entry) }
{
    match own {
        Some(own) => own == id,
        None => false,
    }
}

/// Whether the activity is by this author.
#[tactic(auto, unfolding(fedi_town::specs::Towns::is_by))]
pub fn is_by(act: &Kept, author: &Iri) -> bool
    ensures { result ≡ is_by author.now act.now }
{
    act.author() == author
}

/// Whether the activity has this id.
#[tactic(auto, unfolding(fedi_town::specs::Relations::has_activity_id))]
pub fn has_activity_id(act: &Kept, id: &Iri) -> bool
    ensures { result ≡ has_activity_id id.now act.now }
{
    is_id(act.id(), id)
}

/// Whether the activity is about this.
#[tactic(auto, unfolding(fedi_town::specs::Relations::is_about))]
pub fn is_about(act: &Kept, id: &Iri) -> bool
    ensures { result ≡ is_about id.now act.now }
{
    is_id(act.object_id(), id)
}

/// The id of what the activity is about, or an empty string if that has no id.
pub fn object_key(act: &Kept) -> &str
    ensures { result.now ≡ object_key act.now }
{
    match act.object_id() {
        Some(id) => id.text(),
        None => "",
    }
}

/// Whether the activity creates an object.
pub fn is_create(act: &Kept) -> bool
    ensures { result ≡ is_create (deed_of act.now.activity.kind) }
{
    matches!(act.deed(), Deed::Create)
}

/// Whether the activity is a request to follow.
pub fn is_follow(act: &Kept) -> bool
    ensures { result ≡ is_follow (deed_of act.now.activity.kind) }
{
    matches!(act.deed(), Deed::Follow)
}

/// Whether the activity created the object with this id (ActivityPub, section 6.2).
#[tactic(auto, unfolding(fedi_town::specs::Objects::makes))]
pub fn makes(act: &Kept, id: &Iri) -> bool
    ensures { result ≡ makes id.now act.now }
{
    is_create(act) && is_done(act.state()) && is_about(act, id)
}

/// Whether the activity blocks an actor.
pub fn is_block(act: &Kept) -> bool
    ensures { result ≡ is_block (deed_of act.now.activity.kind) }
{
    matches!(act.deed(), Deed::Block)
}

/// Whether the activity is a Block of b by a that is in effect (ActivityPub, section 6.9).
#[tactic(auto, unfolding(fedi_town::specs::Relations::is_block_of))]
pub fn is_block_of(act: &Kept, a: &Iri, b: &Iri) -> bool
    ensures { result ≡ is_block_of a.now b.now act.now }
{
    is_block(act) && is_standing(act.state()) && is_by(act, a) && is_about(act, b)
}

/// Whether the activity is a Follow of b by a that is pending or was accepted (ActivityPub, section
/// 6.5).
#[tactic(auto, unfolding(fedi_town::specs::Relations::is_open_follow))]
pub fn is_open_follow(act: &Kept, a: &Iri, b: &Iri) -> bool
    ensures { result ≡ is_open_follow a.now b.now act.now }
{
    is_follow(act) && is_open(act.state()) && is_by(act, a) && is_about(act, b)
}

/// Whether the activity is a Follow of b by a that was accepted (ActivityPub, section 6.5).
#[tactic(auto, unfolding(fedi_town::specs::Relations::is_follow_of))]
pub(crate) fn is_follow_of(act: &Kept, a: &Iri, b: &Iri) -> bool
    ensures { result ≡ is_follow_of a.now b.now act.now }
{
    is_follow(act) && is_accepted(act.state()) && is_by(act, a) && is_about(act, b)
}

/// Whether the activity is a Follow of b that was accepted.
#[tactic(auto, unfolding(fedi_town::specs::Relations::is_following))]
pub fn is_following(act: &Kept, b: &Iri) -> bool
    ensures { result ≡ is_following b.now act.now }
{
    is_follow(act) && is_accepted(act.state()) && is_about(act, b)
}

/// Whether the activity likes an object.
pub fn is_like(act: &Kept) -> bool
    ensures { result ≡ is_like (deed_of act.now.activity.kind) }
{
    matches!(act.deed(), Deed::Like)
}

/// Whether the activity shares an object.
pub fn is_announce(act: &Kept) -> bool
    ensures { result ≡ is_announce (deed_of act.now.activity.kind) }
{
    matches!(act.deed(), Deed::Announce)
}

/// Whether the activity is a Like of this id by this author that is in effect (ActivityPub, section
/// 6.8).
#[tactic(auto, unfolding(fedi_town::specs::States::is_like_of))]
pub fn is_like_of(act: &Kept, author: &Iri, id: &Iri) -> bool
    ensures { result ≡ is_like_of author.now id.now act.now }
{
    is_like(act) && is_standing(act.state()) && is_by(act, author) && is_about(act, id)
}

/// Whether the activity is an Announce of this id by this author that is in effect (ActivityPub,
/// section 7.11).
#[tactic(auto, unfolding(fedi_town::specs::States::is_announce_of))]
pub fn is_announce_of(act: &Kept, author: &Iri, id: &Iri) -> bool
    ensures { result ≡ is_announce_of author.now id.now act.now }
{
    is_announce(act) && is_standing(act.state()) && is_by(act, author) && is_about(act, id)
}

/// Whether the activity can be undone: a Follow that is pending or was accepted, or a Like, an
/// Announce or a Block that is in effect (ActivityPub, section 6.10).
#[tactic(auto, unfolding(fedi_town::specs::States::can_be_undone))]
pub fn can_be_undone(act: &Kept) -> bool
    ensures { result ≡ can_be_undone act.now }
{
    match act.deed() {
        Deed::Follow => is_open(act.state()),
        Deed::Like | Deed::Announce | Deed::Block => is_standing(act.state()),
        _ => false,
    }
}
