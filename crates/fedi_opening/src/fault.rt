//! Why a history is not opened.

ghost use Rattle.std.specs.Prelude.{◌≡◌};
ghost use Rattle.fedi_opening.specs.declared.fault.OpenFault.TheVariants.{Memory};

use std::alloc::AllocError;
use thiserror::Error;

/// Why a history was not opened.
#[derive(Clone, Copy, Debug, PartialEq, Eq, Error)]
pub enum OpenFault {
    /// The keeper failed, and has counted it.
    #[error("the keeper failed")]
    Failed,
    /// The bytes of a record are not those of any entry that may come next.
    #[error("the record at place {place} is that of no entry that may stand there")]
    Damaged {
        /// The index of the first such record, counted from 0.
        place: u64,
    },
    /// There is no record.
    #[error("no record is kept")]
    Empty,
    /// Out of memory.
    #[error("out of memory")]
    Memory,
}

impl From<AllocError> for OpenFault {
    ghost from_gives = { λ _ fault. fault ≡ Memory };

    fn from(_error: AllocError) -> OpenFault {
        OpenFault::Memory
    }
}
