//! What servers have sent to each other, and what they attempt.

use fedi_address::Iri;
use fedi_effects::Facts;
use fedi_log::Place;
use fedi_text::Moment;
use std::snapshot::Snapshot;

/// A request that was sent.
#[derive(Drop)]
pub(crate) struct Packet {
    /// The number of the attempt that it belongs to.
    pub(crate) attempt: u64,
    /// What it is addressed to: the recipient, or the recipient's inbox.
    pub(crate) to: Iri,
    /// Its bytes (RFC 9112, section 2.1).
    pub(crate) text: Vec<u8>,
}

/// A reply that was sent.
#[derive(Drop)]
pub(crate) struct Answer {
    /// The number of the request that it answers.
    pub(crate) request: u64,
    /// Its bytes.
    pub(crate) text: Vec<u8>,
}

/// How far an attempt is.
#[derive(Clone, Copy, Debug, PartialEq, Eq)]
pub(crate) enum Stage {
    /// Its recipient is looked up.
    Looking,
    /// The activity is posted to the recipient's inbox.
    Posting,
    /// It has ended.
    Over,
}

/// An attempt to deliver an activity to a recipient.
#[derive(Drop)]
pub(crate) struct Pending {
    /// The number of the server that has claimed the delivery.
    pub(crate) server: usize,
    /// The position of the delivery in the queue of that server.
    pub(crate) place: Place,
    /// When it was claimed.
    pub(crate) claimed: Moment,
    /// The history of the server at the claim. It is not stored.
    pub(crate) since: Snapshot<Facts>,
    /// The id of the activity. It is not stored.
    pub(crate) activity: Snapshot<Iri>,
    /// The recipient.
    pub(crate) recipient: Iri,
    /// The document of the activity, as it was at the claim.
    pub(crate) body: Vec<u8>,
    /// The number of the last request that was sent for it.
    pub(crate) request: u64,
    /// How far it is.
    pub(crate) stage: Stage,
}
