//! Tests of whole runs: that calls succeed if there is ample memory, what worked examples require,
//! and what happens if what lies outside fails or stops; and of a machine that goes on from its
//! records. Whole conversations in which nothing fails are scenes, as in `scenes/`.
//!
//! Values are made in helper functions and lent, and a test fails with the text of the row that
//! does not hold. Tests call the program in `runs` and nowhere else.
#![tactic(auto)]

#[cfg(test)]
mod cases;
#[cfg(test)]
mod delivering;
#[cfg(test)]
mod example;
#[cfg(test)]
mod machines;
#[cfg(test)]
mod members;
#[cfg(test)]
mod migrating;
#[cfg(test)]
mod moving;
#[cfg(test)]
mod peers;
#[cfg(test)]
mod program;
#[cfg(test)]
mod runs;
#[cfg(test)]
mod selecting;
#[cfg(test)]
mod stores;
#[cfg(test)]
mod tables;
