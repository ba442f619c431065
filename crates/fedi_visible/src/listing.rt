//! What is in a collection (ActivityPub, section 5).

ghost use Rattle.std.specs.Prelude.{◌≡◌};
ghost use Rattle.fedi_town.specs.Collections.{is_item, is_same_item};

use fedi_address::{Iri, is_among};
use fedi_effects::{
    is_about, is_accepted, is_announce, is_by, is_follow, is_following, is_like, is_standing,
    object_key,
};
use fedi_register::Kept;
use fedi_town::Which;

/// Whether the activity is in the owner's collection (ActivityPub, section 5): what the owner got
/// or posted, the accepted Follows of and by the owner, the Likes by the owner that are in force,
/// and the Likes and Announces of the owner that are in force. The owner is the member or the
/// object with this id.
#[tactic(auto, unfolding(fedi_town::specs::Collections::is_item, fedi_town::specs::Relations::is_following))]
pub fn is_item(act: &Kept, which: &Which, owner: &Iri) -> bool
    ensures { result ≡ is_item which.now owner.now act.now }
{
    match which {
        Which::Inbox(_) => is_among(owner.text(), act.recipients()),
        Which::Outbox(_) => is_by(act, owner),
        Which::Followers(_) => is_following(act, owner),
        Which::Following(_) => is_follow(act) && is_accepted(act.state()) && is_by(act, owner),
        Which::Liked(_) => is_like(act) && is_standing(act.state()) && is_by(act, owner),
        Which::Likes(_, _) => is_like(act) && is_standing(act.state()) && is_about(act, owner),
        Which::Shares(_, _) => {
            is_announce(act) && is_standing(act.state()) && is_about(act, owner)
        }
    }
}

/// Whether two activities of the collection represent the same item. Among the followers these are
/// activities by the same author, and among the followed those about the same object (ActivityPub,
/// sections 5.3 and 5.4).
#[tactic(auto, unfolding(fedi_town::specs::Collections::is_same_item))]
pub fn is_same_item(which: &Which, a: &Kept, b: &Kept) -> bool
    ensures { result ≡ is_same_item which.now a.now b.now }
{
    match which {
        Which::Followers(_) => a.author() == b.author(),
        Which::Following(_) => object_key(a) == object_key(b),
        _ => false,
    }
}
