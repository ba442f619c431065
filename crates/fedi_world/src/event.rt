//! What may happen in a world, what has happened, and why something has not.

ghost use Rattle.std.specs.Prelude.{◌≡◌};

use fedi_address::{Iri, LocalName};
use fedi_objects::Came;
use std::alloc::AllocError;
use thiserror::Error;

/// Something that may happen among several servers. Servers are numbered from 0 in the order of the
/// start, and requests, replies and attempts from 0 in the order in which they were made.
#[derive(Drop)]
pub enum Event {
    /// The member of this name posts this body to its outbox, as ActivityStreams (ActivityPub,
    /// section 6).
    Say {
        server: u32,
        name: LocalName,
        body: Vec<u8>,
    },
    /// The server claims its next delivery, and looks its recipient up (ActivityPub, section 7.1).
    Claim {
        server: u32,
    },
    /// The request arrives at its host, for the first time or again.
    Arrive {
        request: u64,
    },
    /// The reply reaches the attempt whose request it answers.
    Reach {
        reply: u64,
    },
    /// The attempt gets no reply to its last request.
    Lose {
        attempt: u64,
    },
    /// The server stops, and starts again from its records.
    Crash {
        server: u32,
    },
    /// So many seconds pass, at most until the last second of the year 9999.
    Wait {
        seconds: u32,
    },
}

/// What has happened.
#[derive(Drop)]
pub enum Happened {
    /// A post was answered with this status, and with the address of what it created.
    Replied { status: u16, location: Option<Iri> },
    /// A delivery was claimed: this attempt of it was made, and its recipient is looked up by this
    /// request.
    Sent { attempt: u64, request: u64 },
    /// No delivery is due that is not attempted.
    Idle,
    /// A request was answered by this reply, with this status.
    Answered { reply: u64, status: u16 },
    /// The inbox was found, and the activity is posted to it by this request.
    Moved { request: u64 },
    /// The attempt has ended with this result, which was kept.
    Recorded(Came),
    /// The server was opened anew.
    Crashed,
    /// The time has passed.
    Waited,
}

/// Why an event did not happen.
#[derive(Clone, Copy, Debug, PartialEq, Eq, Error)]
pub enum WorldFault {
    /// There is no server of this number, or none with the host of the request.
    #[error("there is no such server")]
    NoServer,
    /// There is no request of this number.
    #[error("there is no such request")]
    NoRequest,
    /// There is no reply of this number.
    #[error("there is no such reply")]
    NoReply,
    /// There is no open attempt of this number, or the reply does not answer the last request of an
    /// open attempt.
    #[error("there is no such attempt")]
    NoAttempt,
    /// The server has no member of this name.
    #[error("there is no such member")]
    NoName,
    /// The server has no room for the result of the attempt.
    #[error("the server has no room")]
    Full,
    /// Out of memory.
    #[error("out of memory")]
    Memory,
}

impl From<AllocError> for WorldFault {
    ghost use Rattle.fedi_world.specs.declared.event.WorldFault.TheVariants.{Memory};

    ghost from_gives = { λ _ fault. fault ≡ Memory };

    fn from(_: AllocError) -> Self {
        WorldFault::Memory
    }
}
