//! What lies outside the server: where bytes come from, where they go, where records are kept, what
//! time it is, and where random bytes come from.
//!
//! Each trait says what a caller may rely on. Its ghost members are what contracts see of a value.
//! Some of them are optional, and a value that has one is said to report it. Each trait has an
//! implementation in memory, which reports everything that it does.
//!
//! Besides the traits, there is what a file of records is on a disk, in any format: what it looks
//! like, what it is found to be when it is opened, and what is known of a disk that has one.
#![tactic(auto)]

mod calm_keepers;
mod clocks;
mod disks;
mod doors;
mod entropies;
mod failure;
mod images;
mod keepers;
mod lines;
mod links;
mod memory_disks;
mod memory_doors;
mod memory_keepers;
mod memory_lines;
mod memory_links;
mod memory_vaults;
mod plans;
mod sinks;
mod sources;
mod turns;
mod vaults;

pub use calm_keepers::{CalmKeeper, Record};
pub use clocks::{Clock, FixedClock};
pub use disks::{Disk, write_synced};
pub use doors::{Bench, Door};
pub use entropies::{CalmEntropy, Entropy, MemoryEntropy};
pub use failure::Failed;
pub use images::{files_have_one_list, openings_exclude_each_other, plain_is_a_format};
pub use keepers::{Keeper, LoadFault, ReserveFault};
pub use lines::Line;
pub use links::{Link, REPLY_LENGTH};
pub use memory_disks::{Call, MemoryDisk};
pub use memory_doors::{MemoryDoor, MemoryRow};
pub use memory_keepers::MemoryKeeper;
pub use memory_lines::MemoryLine;
pub use memory_links::{Asked, Heard, MemoryLink};
pub use memory_vaults::MemoryVault;
pub use sinks::{MemorySink, Sink};
pub use sources::{CalmSource, MemorySource, Source};
pub use turns::{Rest, Turn};
pub use vaults::{FillFault, Vault, VaultFault};
