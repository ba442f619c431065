//! A server in memory over a keeper that never fails, one of several that deliver to each other
//! (ActivityPub, section 7): what it does when it is asked, when bytes arrive, when it delivers,
//! and when it crashes.
#![tactic(auto)]

mod calm;
mod seat;

pub use calm::Calm;
pub use seat::{Seat, ServeFault, Served};
