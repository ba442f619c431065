//! The program over whatever lies outside: its commands, and the sessions that it serves.
#![tactic(auto)]

mod checking;
mod commands;
mod delivering;
mod demonstrating;
mod enrolling;
mod exporting;
mod filling;
mod members;
mod migrating;
mod peers;
mod places;
mod playing;
mod printing;
mod reporting;
mod running;
mod serving;
mod statuses;
mod stores;
mod usage;
mod words;
mod working;

pub use commands::{
    Command, NewPeer, TABLE, Table, address_of, command_of, second_store_of, store_of,
};
pub use fedi_effects::Seed;
pub use fedi_logged::Connection;
pub use running::{Ended, run, run_alone};
pub use statuses::OUT_OF_MEMORY;
