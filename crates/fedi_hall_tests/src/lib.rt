//! Tests that need threads: of the turn lock, of workers side by side, and of doors and links over
//! TCP with whatever peer answers; and the value that takes turns in the tests of the lock.
#![tactic(auto)]

#[cfg(test)]
mod clocks;
#[cfg(test)]
mod deliveries;
#[cfg(test)]
mod doors;
#[cfg(test)]
mod held;
#[cfg(test)]
mod lines;
#[cfg(test)]
mod links;
mod tally;
#[cfg(test)]
mod towns;
#[cfg(test)]
mod turns;
#[cfg(test)]
mod waiting;

pub use tally::{Tally, turn};
