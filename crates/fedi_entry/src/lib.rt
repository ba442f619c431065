//! Writing the entries of a history as the bytes of a journal, and reading entries from such bytes.
//!
//! An entry is a byte for its kind, followed by its fields. Numbers are big-endian. A text starts
//! with its length and a list with its item count, each in four bytes. An optional value starts
//! with a byte that says whether it is present.
#![tactic(auto)]

mod entries;
mod fault;
mod known_hosts;
mod laws;
mod limits;
mod objects;
mod read_entries;
mod read_objects;
mod read_values;
mod reader;
mod values;

pub use entries::encode;
pub use fault::EntryFault;
pub use known_hosts::KnownHosts;
pub use laws::{
    codes_are_no_fronts, codes_are_read, codes_are_unique, codes_begin_with_the_kind,
    forms_keep_limits,
};
pub use read_entries::decode;
