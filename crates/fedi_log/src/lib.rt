//! The log under every connection: which entries were kept, which the keeper failed to keep, and
//! which deliveries were claimed and released, in order. No log is kept in memory: only contracts
//! refer to it. And what persists over the lives of a store: runs, crashes and openings, one after
//! another.
#![tactic(auto)]

mod items;
mod laws;
mod lives;

pub use items::{Item, Pair, Place, What};
pub use laws::{
    doubts_are_marked, given_logs_hold_their_history, items_past_are_added, logs_go_on,
    machines_stand_for_logs,
};
pub use lives::{
    crashes_end_lives, crashes_leave_files, files_join_lives, kept_entries_stay, kept_records_stay,
    later_crashes_end_lives,
};
