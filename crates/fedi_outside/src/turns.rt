//! What a door gives, and what is reported to it.

/// What a door gives.
#[derive(Drop)]
pub enum Turn<L> {
    /// A connection, which is to be handed back.
    Line(L),
    /// No connection waits. What is done meanwhile is to be reported to the door.
    Idle,
    /// There will be no more connections.
    Closed,
    /// The door failed, and has counted it.
    Failed,
}

/// What was done while no connection waited.
#[derive(Clone, Copy, Debug, PartialEq, Eq)]
pub enum Rest {
    /// A delivery was tried.
    Tried {
        /// The position of its claim in the log.
        claimed: u64,
    },
    /// No delivery was due.
    Nothing {
        /// The length of the log then.
        front: u64,
        /// The moment, in seconds since 1970-01-01T00:00:00Z.
        moment: u64,
    },
    /// What was done is not reported.
    Lost,
}
