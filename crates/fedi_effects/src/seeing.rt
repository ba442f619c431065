//! What an actor sees.

ghost use Rattle.std.specs.Prelude.{◌≡◌};
ghost use Rattle.fedi_town.specs.Seeing.{sees_as};

use crate::facts::Facts;
use fedi_address::{Iri, is_among};
use fedi_register::{Kept, is_by};

/// Whether the actor with this id sees the activity (ActivityPub, sections 5, 6 and 6.9). An actor
/// sees its own activities. If there is no Block between it and the author, it also sees what is
/// public, what goes to it, and what is for the author's followers while it is one. A Follow is
/// looked up for the last case alone, and a Block last, for what would be seen without it.
#[tactic(auto, unfolding(fedi_town::specs::Seeing::sees_as, fedi_town::specs::Seeing::is_for_follower))]
pub fn sees_as(facts: &Facts, id: &Iri, act: &Kept) -> bool
    ensures { result ≡ sees_as facts.now.town id.now act.now }
{
    is_by(act, id)
        || ((act.is_public()
            || is_among(id.text(), act.recipients())
            || (act.is_for_followers() && facts.follows(id, act.author())))
            && !facts.has_block_between(id, act.author()))
}
