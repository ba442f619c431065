//! The entries of a history.

use crate::activity::Activity;
use crate::boxed::Boxed;
use crate::repeat_key::RepeatKey;
use fedi_address::{Host, Iri, LocalName};
use fedi_text::{Moment, Text};

/// The request to a peer that an outcome belongs to.
#[derive(Clone, Copy, Debug)]
pub enum Sent {
    Lookup,
    Post,
}

/// The outcome of a request to a peer.
#[derive(Clone, Copy, Debug)]
pub enum What {
    /// The exchange failed.
    Failed,
    /// The reply has no head, or a status below 100.
    NoHead,
    /// The looked up actor document cannot be used.
    BadActor,
    /// The reply has this status.
    Status(u16),
}

/// The outcome of one attempt to deliver.
#[derive(Clone, Copy, Debug)]
pub struct Came {
    pub step: Sent,
    pub what: What,
}

/// One entry of a history.
#[derive(Drop)]
pub enum Entry {
    /// The server was set up for this host.
    Hosted {
        host: Host,
        moment: Moment,
    },
    /// A member was made, with the SHA-256 digest of the member's key.
    Made {
        name: LocalName,
        digest: [u8; 32],
        locked: bool,
        moment: Moment,
    },
    /// Another server became a peer.
    PeerSet {
        host: Host,
        key: [u8; 32],
        address: Text,
        relay: bool,
        moment: Moment,
    },
    /// A member posted an activity, as it was read. It may have a key for repeats, with the digest
    /// of the body.
    Local {
        name: LocalName,
        repeat: Option<(RepeatKey, [u8; 32])>,
        activity: Boxed<Activity>,
        moment: Moment,
    },
    /// A peer delivered an activity, as it was read, to a member's inbox.
    Remote {
        peer: Host,
        inbox: LocalName,
        activity: Boxed<Activity>,
        moment: Moment,
    },
    /// A delivery was tried.
    Tried {
        activity: Iri,
        recipient: Iri,
        came: Came,
        moment: Moment,
    },
}
