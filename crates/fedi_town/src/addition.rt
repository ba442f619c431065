//! What one entry adds to the town of a history.

use crate::act::{Act, Actor, Attempt, Peer};
use crate::effect::Effect;
use fedi_address::{Host, Iri};

/// An accepted activity, with all that follows from it. Each part is a function of the town before
/// it.
#[derive(Drop)]
pub struct Acceptance {
    /// The activity.
    pub act: Act,
    /// What it does to earlier activities.
    pub effect: Effect,
    /// The Accept that follows the Follow of a member who is not locked.
    pub answer: Option<Act>,
}

/// What an entry adds.
#[derive(Drop)]
pub enum Addition {
    /// Nothing.
    Nothing,
    /// The server's host.
    Host(Host),
    /// A member.
    Member(Actor),
    /// Another server.
    Peer(Peer),
    /// An activity, with all that follows from it.
    Activity(Acceptance),
    /// One more inbox of a known activity.
    Inbox {
        /// The id of the activity.
        activity: Iri,
        /// The inbox's owner.
        owner: Iri,
    },
    /// An attempt to deliver.
    Attempt(Attempt),
}
