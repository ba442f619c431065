//! What the crates of tests share: what a row of a table requires, the records of small histories,
//! and the files of stores by their records.
#![tactic(auto)]

mod leaking;
pub mod records;
mod rows;
mod store_files;

pub use leaking::leaked;
pub use rows::{expect, expect_at};
pub use store_files::{disk_of, first_store_of, has_records, records_of, store_of};
