//! Why a store was not opened or made.
ghost use Rattle.std.specs.Prelude.{◌≡◌};
ghost use Rattle.fedi_startup.specs.Faults.{of_init, of_journal, of_opening};

use fedi_journal::{InitFault, JournalFault};
use fedi_opening::OpenFault;
use thiserror::Error;

/// Why a store was not opened.
#[derive(Clone, Copy, Debug, PartialEq, Eq, Error)]
pub enum StoreFault {
    /// The disk has fewer than 9 bytes, or does not begin with a magic, or has no record.
    #[error("not a store")]
    NotAStore,
    /// The disk begins with the magic of the format before this one.
    #[error("old format")]
    OldFormat,
    /// The gate at this byte is invalid, or its record extends past the end or is not followed by
    /// its chain.
    #[error("damaged at byte {place}")]
    DamagedByte {
        /// The offset of the gate, counted from 0.
        place: u64,
    },
    /// The record at this index is not the code of an entry that may occur there.
    #[error("damaged at record {place}")]
    DamagedRecord {
        /// The index of the first such record, counted from 0.
        place: u64,
    },
    /// The disk failed, and has counted it.
    #[error("the disk failed")]
    Failed,
    /// Out of memory.
    #[error("out of memory")]
    Memory,
}

impl From<JournalFault> for StoreFault {
    ghost from_gives = { λ fault store. store ≡ of_journal fault };

    fn from(fault: JournalFault) -> StoreFault {
        match fault {
            JournalFault::NotAStore => StoreFault::NotAStore,
            JournalFault::OldFormat => StoreFault::OldFormat,
            JournalFault::Damaged { place } => StoreFault::DamagedByte { place },
            JournalFault::Failed => StoreFault::Failed,
            JournalFault::Memory => StoreFault::Memory,
        }
    }
}

impl From<OpenFault> for StoreFault {
    ghost from_gives = { λ fault store. store ≡ of_opening fault };

    fn from(fault: OpenFault) -> StoreFault {
        match fault {
            OpenFault::Empty => StoreFault::NotAStore,
            OpenFault::Damaged { place } => StoreFault::DamagedRecord { place },
            OpenFault::Failed => StoreFault::Failed,
            OpenFault::Memory => StoreFault::Memory,
        }
    }
}

/// Why a disk or a vault was not made a store.
#[derive(Clone, Copy, Debug, PartialEq, Eq, Error)]
pub enum MakeFault {
    /// The disk has more than 9 bytes, and does not begin with the magic and a closed gate; or the
    /// vault keeps at least one record.
    #[error("it exists")]
    Exists,
    /// The vault has no room for a first record. A disk has.
    #[error("it is full")]
    Full,
    /// The disk or the vault failed, and has counted it.
    #[error("the disk failed")]
    Failed,
    /// Out of memory.
    #[error("out of memory")]
    Memory,
}

impl From<InitFault> for MakeFault {
    ghost from_gives = { λ fault made. made ≡ of_init fault };

    fn from(fault: InitFault) -> MakeFault {
        match fault {
            InitFault::Exists => MakeFault::Exists,
            InitFault::Failed => MakeFault::Failed,
        }
    }
}
