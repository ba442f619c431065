//! What is served at the paths of the server.

use fedi_address::LocalName;
use fedi_town::Which;

/// What is served at a path.
#[derive(Drop)]
pub enum Place {
    /// The lookup of a resource (RFC 7033, section 4).
    Webfinger,
    /// The member's actor document (ActivityPub, section 4.1).
    Actor(LocalName),
    /// A collection (ActivityPub, section 5).
    Collection(Which),
    /// The member's collection with this name, which the member makes by Add and Remove
    /// (ActivityPub, sections 6.6 and 6.7), or without a name the list of such collections.
    Board(LocalName, Option<LocalName>),
    /// The member's activity with this number (ActivityPub, section 3.2).
    Activity(LocalName, u32),
    /// The object that the member's activity with this number made.
    Object(LocalName, u32),
}
