//! What becomes of a delivery of another server.
#![tactic(auto)]

mod judging;
mod origins;
mod receiving;

pub use judging::{Verdict, judge_remote, lacks};
pub use origins::may_deliver;
pub use receiving::{Received, receive};
