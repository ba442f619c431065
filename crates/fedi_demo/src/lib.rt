//! A demonstration: the requests of eight members, chosen by drawn numbers, their two connections
//! to a server in memory, and what is printed about the replies.
#![tactic(auto)]

mod asking;
mod demonstrating;
mod draws;
mod laws;
mod printed;

pub use asking::connections;
pub use demonstrating::demonstration;
pub use laws::demonstrations_are_determined;
pub use printed::{Held, summary};
