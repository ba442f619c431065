//! Who makes a request, and for which collection.

use fedi_address::{Host, LocalName};

/// Who makes a request.
#[derive(Drop)]
pub enum Caller {
    /// Somebody without credentials.
    Nobody,
    /// A member of this server.
    Actor(LocalName),
    /// Another server.
    Peer(Host),
}

/// A collection (ActivityPub, section 5): of a member, or of the object that the member's activity
/// of the given number made.
#[derive(Drop)]
pub enum Which {
    /// What was delivered to the member (ActivityPub, section 5.2).
    Inbox(LocalName),
    /// What the member posted (ActivityPub, section 5.1).
    Outbox(LocalName),
    /// The followers of the member (ActivityPub, section 5.3).
    Followers(LocalName),
    /// The actors that the member follows (ActivityPub, section 5.4).
    Following(LocalName),
    /// What the member likes (ActivityPub, section 5.5).
    Liked(LocalName),
    /// The Likes of the object (ActivityPub, section 5.7).
    Likes(LocalName, u32),
    /// The Announces of the object (ActivityPub, section 5.8).
    Shares(LocalName, u32),
}
