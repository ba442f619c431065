//! What the entries of a history have made: members, peers, activities and attempts.

use fedi_address::{Host, Iri, Items, LocalName};
use fedi_objects::{Activity, Boxed, Came, RepeatKey, State};
use fedi_text::{Moment, Text};

/// A member of this server.
#[derive(Drop)]
pub struct Actor {
    /// The name, which is the last part of the id.
    pub name: LocalName,
    /// The id of the member's actor document (ActivityPub, section 3.1).
    pub id: Iri,
    /// The SHA-256 digest of the member's key.
    pub digest: [u8; 32],
    /// Whether Follows of the member wait for an answer.
    pub locked: bool,
}

/// Another server that exchanges deliveries with this one (ActivityPub, section 7.1).
#[derive(Drop)]
pub struct Peer {
    /// Its host.
    pub host: Host,
    /// The key that the two servers share.
    pub key: [u8; 32],
    /// The address at which it is reached.
    pub address: Text,
    /// Whether it may deliver activities of other hosts' actors, as a forwarding server does
    /// (ActivityPub, section 7.1.2).
    pub relay: bool,
}

/// An accepted activity, by a member or by somebody elsewhere.
#[derive(Drop)]
pub struct Act {
    /// The id of its author.
    pub author: Iri,
    /// The activity with everything that the server completed. If a Create made an object, its
    /// object is that object in its present state.
    pub activity: Boxed<Activity>,
    /// The key that identifies a repeat, and the digest of the posted body.
    pub repeat: Option<(RepeatKey, [u8; 32])>,
    /// When it was accepted.
    pub moment: Moment,
    /// The recipients (ActivityPub, section 7.1). For an activity from elsewhere, the owners of the
    /// inboxes that it was delivered to.
    pub recipients: Items<Iri>,
    /// The recipients that an activity from elsewhere is forwarded to (ActivityPub, section 7.1.2).
    pub forwards: Items<Iri>,
    /// Whether everybody may see it (ActivityPub, section 5.6).
    pub is_public: bool,
    /// Whether it is addressed to its author's followers collection (ActivityPub, section 5.3).
    pub for_followers: bool,
    /// What has become of it.
    pub state: State,
}

/// One attempt to deliver an activity (ActivityPub, section 7.1).
#[derive(Drop)]
pub struct Attempt {
    /// The id of the activity.
    pub activity: Iri,
    /// The intended recipient.
    pub recipient: Iri,
    /// Its outcome.
    pub came: Came,
    /// When it was made.
    pub moment: Moment,
}
