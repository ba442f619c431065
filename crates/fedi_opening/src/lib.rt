//! A history opened from the records that a keeper holds: which entry may come next, and the shapes
//! that reading gives a member's post and another server's delivery.
#![tactic(auto)]

mod delivered;
mod fault;
mod judging;
mod laws;
mod limits;
mod opening;
mod posted;
mod reading;

pub use fault::OpenFault;
pub use judging::may_come;
pub use laws::{admissible_entries_keep_limits, records_have_one_answer};
pub use opening::open_history;
