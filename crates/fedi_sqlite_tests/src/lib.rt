//! Tests of what names the database, over tables of files: vaults, whose records are kept from one
//! run to the next, and selections. What those in memory hold, their contracts say.
#![tactic(auto)]

#[cfg(test)]
mod files;
#[cfg(test)]
mod selections;
#[cfg(test)]
mod tables;
#[cfg(test)]
mod vaults;
