//! What an activity does.

ghost use Rattle.std.specs.Prelude.{◌≡◌};
ghost use Rattle.fedi_town.specs.Deeds.{deed_of};

use fedi_objects::Kind;

/// What an activity does, by its type: the types with side effects (ActivityPub, sections 6 and 7),
/// and all others as one.
#[derive(Clone, Copy, Debug)]
pub enum Deed {
    /// Makes an object.
    Create,
    /// Changes an object.
    Update,
    /// Replaces an object with a Tombstone.
    Delete,
    /// Asks to follow an actor.
    Follow,
    /// Likes an object.
    Like,
    /// Shares an object.
    Announce,
    /// Keeps an actor away.
    Block,
    /// Grants a Follow.
    Accept,
    /// Refuses a Follow, or ends it.
    Reject,
    /// Undoes an activity.
    Undo,
    /// Has no side effect here.
    Other,
}

impl Deed {
    /// What an activity of this type does.
    pub fn of(kind: Kind) -> Deed
        ensures { result ≡ deed_of kind }
    {
        match kind {
            Kind::Create => Deed::Create,
            Kind::Update => Deed::Update,
            Kind::Delete => Deed::Delete,
            Kind::Follow => Deed::Follow,
            Kind::Like => Deed::Like,
            Kind::Announce => Deed::Announce,
            Kind::Block => Deed::Block,
            Kind::Accept => Deed::Accept,
            Kind::Reject => Deed::Reject,
            Kind::Undo => Deed::Undo,
            _ => Deed::Other,
        }
    }
}
