//! Records in a table of an SQLite database: a keeper over the table, and the vault that hands it
//! out and takes it back.
//!
//! Each statement has a function of its own, whose clause says what it does to the rows of the
//! table. All else rests on these clauses.
#![tactic(auto)]

mod filling;
mod places;
mod statements;
mod tables;
mod vaults;

pub use tables::Table;
pub use vaults::TableVault;
