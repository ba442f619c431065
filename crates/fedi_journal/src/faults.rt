//! Why a journal was not made or opened.
ghost use Rattle.std.specs.Prelude.{◌≡◌};

use fedi_outside::Failed;
use std::alloc::{AllocError, AllocFailed};
use thiserror::Error;

/// Why a journal was not opened.
#[derive(Clone, Copy, Debug, PartialEq, Eq, Error)]
pub enum JournalFault {
    /// The disk has fewer than 9 bytes, or begins with no magic.
    #[error("not a store")]
    NotAStore,
    /// The disk has at least 9 bytes, and begins with the magic of the format before this one.
    #[error("an old format")]
    OldFormat,
    /// The byte at this offset should be a gate, but it is neither 0 nor 1; or it is 1, and the
    /// record after it, its seal or the gate after that extends past the end, or the record is not
    /// sealed as one that follows those before it.
    #[error("damaged at {place}")]
    Damaged { place: u64 },
    /// The disk failed, and has counted it.
    #[error("the disk failed")]
    Failed,
    /// Out of memory.
    #[error("out of memory")]
    Memory,
}

impl From<Failed> for JournalFault {
    ghost use Rattle.fedi_journal.specs.declared.faults.JournalFault.TheVariants.{Failed};

    ghost from_gives = { λ _ fault. fault ≡ Failed };

    fn from(_: Failed) -> Self {
        JournalFault::Failed
    }
}

impl From<AllocError> for JournalFault {
    ghost use Rattle.fedi_journal.specs.declared.faults.JournalFault.TheVariants.{Memory};

    ghost from_gives = { λ _ fault. fault ≡ Memory };

    fn from(_: AllocError) -> Self {
        JournalFault::Memory
    }
}

impl<T: Drop> From<AllocFailed<T>> for JournalFault {
    ghost use Rattle.fedi_journal.specs.declared.faults.JournalFault.TheVariants.{Memory};

    ghost from_gives = { λ _ fault. fault ≡ Memory };

    fn from(_: AllocFailed<T>) -> Self {
        JournalFault::Memory
    }
}

/// Why a journal was not made.
#[derive(Clone, Copy, Debug, PartialEq, Eq, Error)]
pub enum InitFault {
    /// The disk has more than 9 bytes, and does not begin with the magic and a closed gate.
    #[error("it exists")]
    Exists,
    /// The disk failed, and has counted it.
    #[error("the disk failed")]
    Failed,
}

impl From<Failed> for InitFault {
    ghost use Rattle.fedi_journal.specs.declared.faults.InitFault.TheVariants.{Failed};

    ghost from_gives = { λ _ fault. fault ≡ Failed };

    fn from(_: Failed) -> Self {
        InitFault::Failed
    }
}

/// Why records were not copied.
#[derive(Clone, Copy, Debug, PartialEq, Eq, Error)]
pub enum CopyFault {
    /// The keeper that they come from failed, and has counted it.
    #[error("the source failed")]
    Source,
    /// The disk failed, and has counted it.
    #[error("the disk failed")]
    Failed,
    /// A record has no room.
    #[error("it is full")]
    Full,
    /// Out of memory.
    #[error("out of memory")]
    Memory,
}
