//! Vaults and selections over files: each is a database that SQLite's own tools read while nobody
//! has it open.
//!
//! No contract can say what a file holds, so neither reports its records or rows. What is proved is
//! that each hands out what the table of a database does, and counts exactly the calls that fail.
#![tactic(auto)]

mod databases;
mod file_selections;
mod file_vaults;

pub use file_selections::FileSelection;
pub use file_vaults::FileVault;
