//! The activities of a town as rows, which are laid in a table of a database to be picked by author
//! and type.
//!
//! Each statement has a function of its own, which calls the database once and says what becomes of
//! the rows. All else rests on these.
#![tactic(auto)]

mod act_rows;
mod laying;
mod memory_selections;
mod plans;
mod selections;
mod statements;
mod tables;

pub use act_rows::ActRow;
pub use memory_selections::MemorySelection;
pub use selections::{Selection, SelectionFault};
pub use tables::TableSelection;
