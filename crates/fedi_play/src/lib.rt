//! Playing a script of several servers: what happens, line by line, and what is printed.
#![tactic(auto)]

mod events;
mod playing;

pub use fedi_script::LONGEST;
pub use playing::{Played, play};
