//! A journal: records on a disk, each of them whole or absent, whenever the program stops.
#![tactic(auto)]

mod ahead;
mod blocks;
mod chains;
mod faults;
mod finding;
mod hidden;
mod hiding;
mod journal;
mod making;
mod seals;

pub use chains::{
    Chain, chained_are_formats, chains_determine_records, first_files_are_as_computed,
};
pub use faults::{CopyFault, InitFault, JournalFault};
pub use hidden::Hidden;
pub use journal::{FirstJournal, Journal, SealedJournal};
pub use seals::{Seal, Unsealed};
