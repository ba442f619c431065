//! What a request asks for.

use crate::post::Post;
use fedi_address::{Items, LocalName};
use fedi_text::Text;
use fedi_town::Which;

/// The methods of a path.
#[derive(Clone, Copy, Debug)]
pub enum Allow {
    /// GET and HEAD (RFC 9110, sections 9.3.1 and 9.3.2).
    GetHead,
    /// These and POST (RFC 9110, section 9.3.3).
    GetHeadPost,
}

/// The resource that a WebFinger query asks for (RFC 7033, section 4.1).
#[derive(Drop)]
pub struct Resource {
    /// The name of the member, or `None` if the resource certainly belongs to nobody here.
    pub name: Option<LocalName>,
    /// The relations that the query asks for (RFC 7033, section 4.3).
    pub rels: Items<Text>,
}

/// The requested part of a collection (ActivityStreams 2.0 Core, section 5).
#[derive(Drop)]
pub enum PageAsk {
    /// The collection without its items.
    Summary,
    /// The page with this number.
    Page(u64),
    /// The page is not a number.
    Malformed,
}

/// What a request asks for, by its method and its path.
#[derive(Drop)]
pub enum Ask {
    /// Nothing is served at the path.
    Nowhere,
    /// The path has only these methods.
    WrongMethod(Allow),
    /// To look up a resource (RFC 7033), or `None` if the query is malformed.
    Webfinger(Option<Resource>),
    /// To read the member's actor document (ActivityPub, section 4.1).
    Actor(LocalName),
    /// To read a collection (ActivityPub, section 5).
    Collection(Which, PageAsk),
    /// To read the member's collection with this name, which the member makes by Add and Remove
    /// (ActivityPub, sections 6.6 and 6.7), or without a name the list of such collections.
    Board(LocalName, Option<LocalName>, PageAsk),
    /// To read the member's activity with this number (ActivityPub, section 3.2).
    Activity(LocalName, u32),
    /// To read the object that the member's activity with this number made.
    Object(LocalName, u32),
    /// To post to the member's outbox (ActivityPub, section 6).
    Outbox(LocalName, Post),
    /// To deliver to the member's inbox (ActivityPub, section 7).
    Inbox(LocalName, Post),
}
