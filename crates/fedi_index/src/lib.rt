//! A history with the positions of the candidates of each collection, so that a page looks only at
//! its own collection.
#![tactic(auto)]

mod collection;
mod growing;
mod lists;
mod pages;
mod reader;
mod shelf;

pub use shelf::IndexedShelf;
