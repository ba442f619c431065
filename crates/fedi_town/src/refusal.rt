//! Why a request is refused.

ghost use Rattle.std.specs.Prelude.{◌≡◌};

use thiserror::Error;

/// Why a request is refused. Each reason has a number.
#[derive(Clone, Copy, Debug, PartialEq, Eq, Error)]
pub enum Refusal {
    /// The head of the request cannot be read.
    #[error("the head of the request cannot be read")]
    BadHead = 1,
    /// The body is not a JSON text.
    #[error("the body is no JSON text")]
    BadBody,
    /// The path does not accept this query.
    #[error("the query is not one that this path takes")]
    BadQuery,
    /// A key is required, and none was given.
    #[error("a key is needed, and none was given")]
    NoKey,
    /// The key does not belong to any member.
    #[error("the key is no member's")]
    WrongKey,
    /// The authentication code is not that of a known server.
    #[error("the authentication code is not that of a known server")]
    WrongMac,
    /// The path belongs to another member.
    #[error("the path belongs to another member")]
    NotOwner,
    /// The receiver has blocked the sender.
    #[error("the receiver has blocked the sender")]
    Blocked,
    /// The server that sent this is not its origin.
    #[error("the server that sent this is not where it comes from")]
    NotOrigin,
    /// Only what is public may be repeated to others.
    #[error("only what is public may be repeated to others")]
    NotPublic,
    /// It does not exist, or it may not be seen.
    #[error("there is no such thing, or it may not be seen")]
    NotFound,
    /// The path does not accept this method.
    #[error("the path does not take this method")]
    WrongMethod,
    /// The repeat key was used for another request.
    #[error("the repeat key was used for another request")]
    KeyReused,
    /// The activity that this would undo or answer is not in force.
    #[error("what this would undo or answer does not stand")]
    NotStanding,
    /// The object was deleted.
    #[error("the object was deleted")]
    Gone,
    /// The request does not say how long its body is.
    #[error("the request does not say how long its body is")]
    NoLength,
    /// The body is longer than the limit.
    #[error("the body is longer than the limit")]
    TooLong,
    /// The type of the body is not accepted here.
    #[error("the body has a type that is not taken here")]
    WrongType,
    /// The body is JSON, but not an activity that is accepted here.
    #[error("the body is JSON, but no activity that is taken here")]
    BadShape,
    /// The head is longer than the limit.
    #[error("the head is longer than the limit")]
    HeadTooLong,
    /// The transfer coding is not known.
    #[error("the transfer coding is not known")]
    NoCoding,
    /// The member has as many activities as can be numbered.
    #[error("the member has as many activities as can be numbered")]
    ActorFull,
    /// The record could not be kept.
    #[error("the record could not be kept")]
    KeeperFault,
    /// Out of memory.
    #[error("out of memory")]
    Memory,
    /// The journal has no room for the record.
    #[error("the journal has no room for the record")]
    JournalFull,
}

impl Refusal {
    ghost use Rattle.fedi_town.specs.Refusals.{number_of};

    /// The number of the reason, 1 to 25.
    pub fn number(self) -> u8
        ensures { result ≡ number_of self }
    {
        self as u8
    }
}
