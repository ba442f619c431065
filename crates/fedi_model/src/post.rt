//! What is posted to an outbox or an inbox.

use fedi_objects::{Activity, Boxed, RepeatKey};
use fedi_reading::ShapeFault;

/// The result of reading the body of a post.
#[derive(Drop)]
pub enum Read {
    /// The body is not JSON (RFC 8259), or it was not read, as nothing shows who posts it.
    NotJson,
    /// The body does not have the shape of a post. It is never `ShapeFault::Memory`.
    Bad(ShapeFault),
    /// The body was read as this activity.
    Ready(Boxed<Activity>),
}

/// The key that a post is repeated under (the header field Idempotency-Key).
#[derive(Drop)]
pub enum KeyAsk {
    /// No key is given.
    Absent,
    /// The key is malformed.
    Malformed,
    /// This key is given.
    Given(RepeatKey),
}

/// A post to an outbox (ActivityPub, section 6) or to an inbox (section 7).
#[derive(Drop)]
pub struct Post {
    /// Whether the media type is one of JSON and ActivityStreams (RFC 9110, section 8.3).
    pub is_typed: bool,
    /// The key that the post is repeated under.
    pub key: KeyAsk,
    /// The SHA-256 digest of the body if a key is given, otherwise zeros.
    pub digest: [u8; 32],
    /// The result of reading the body.
    pub read: Read,
}
