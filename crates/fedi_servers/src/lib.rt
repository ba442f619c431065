//! Servers in memory, as the first lines of a script set them up.
#![tactic(auto)]

mod making;
mod servers;

pub use making::ServerCore;
pub use servers::{MOMENT, Servers, index_of};
