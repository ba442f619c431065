//! Why bytes are not read as an entry.

ghost use Rattle.std.specs.Prelude.{◌≡◌};
ghost use Rattle.fedi_entry.specs.declared.fault.ReadFault.TheVariants.{Memory};

use std::alloc::{AllocError, AllocFailed};
use thiserror::Error;

/// Why bytes are not the bytes of an entry.
#[derive(Clone, Copy, Debug, PartialEq, Eq, Error)]
pub enum EntryFault {
    /// The bytes are not those of any entry.
    #[error("no entry has these bytes, from {place} on")]
    BadEntry {
        /// The offset of the first field that cannot be read, or the offset of the entry's end if
        /// bytes follow it.
        place: usize,
    },
    /// Out of memory.
    #[error("out of memory")]
    Memory,
}

/// Why a field was not read.
#[derive(Clone, Copy)]
pub enum ReadFault {
    /// The field that cannot be read begins where `left` bytes are left.
    BadField { left: usize },
    /// Out of memory.
    Memory,
}

impl From<AllocError> for ReadFault {
    ghost from_gives = { λ _ fault. fault ≡ Memory };

    fn from(_error: AllocError) -> ReadFault {
        ReadFault::Memory
    }
}

impl<T: Drop> From<AllocFailed<T>> for ReadFault {
    ghost from_gives = { λ _ fault. fault ≡ Memory };

    fn from(_error: AllocFailed<T>) -> ReadFault {
        ReadFault::Memory
    }
}
