//! The kinds of collections.

ghost use Rattle.std.specs.Prelude.{◌≡◌};
ghost use Rattle.fedi_index.specs.Candidates.{collection_of, is_same};

use fedi_town::Which;

/// A kind of collection (ActivityPub, section 5).
#[derive(Clone, Copy, PartialEq, Eq)]
pub(crate) enum Collection {
    /// What was delivered to a member (ActivityPub, section 5.2).
    Inbox,
    /// What a member posted (ActivityPub, section 5.1).
    Outbox,
    /// The followers of a member (ActivityPub, section 5.3).
    Followers,
    /// The actors that a member follows (ActivityPub, section 5.4).
    Following,
    /// What a member likes (ActivityPub, section 5.5).
    Liked,
    /// The Likes of an object (ActivityPub, section 5.7).
    Likes,
    /// The Announces of an object (ActivityPub, section 5.8).
    Shares,
    /// The Adds and Removes by a member (ActivityPub, sections 6.6 and 6.7).
    Pins,
    /// The Adds and Removes that are directed to one collection.
    Board,
}

impl Collection {
    /// The kind of a collection.
    pub(crate) fn of(which: &Which) -> Collection
        ensures { result ≡ collection_of which.now }
    {
        match which {
            Which::Inbox(_) => Collection::Inbox,
            Which::Outbox(_) => Collection::Outbox,
            Which::Followers(_) => Collection::Followers,
            Which::Following(_) => Collection::Following,
            Which::Liked(_) => Collection::Liked,
            Which::Likes(_, _) => Collection::Likes,
            Which::Shares(_, _) => Collection::Shares,
        }
    }
}

/// Whether the two are of the same kind.
pub(crate) fn is_same(a: Collection, b: Collection) -> bool
    ensures { result ≡ is_same a b }
{
    a == b
}
