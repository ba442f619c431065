//! A machine with its log: which entries were kept and which the keeper failed to keep since the
//! opening, and which deliveries were claimed and released, in order, and by which pass. Only the
//! length of the log is stored. Its items exist in contracts alone.
//!
//! Also what a connection reads and writes, request by request, over any machine and any log,
//! whether others add to the log or not.
#![tactic(auto)]

mod alone;
mod answered;
mod answers;
mod channels;
mod claims;
mod connection;
mod conversations;
mod delivering;
mod laws;
mod logged;
mod noted;
mod opened;
mod refusals;
mod sessions;
mod turns;

pub use alone::{Alone, serve_alone};
pub use answered::Answered;
pub use channels::{Channel, Joined};
pub use claims::Sending;
pub use connection::{Connection, serve_connection};
pub use conversations::{
    conversations_are_determined, conversations_have_no_gaps, conversations_own_their_items,
    conversations_stand_in_the_log, conversations_stay, failures_are_marked,
};
pub use delivering::{Delivers, Step, Tried, attempt_next, deliver_one};
pub use laws::acknowledged_entries_survive;
pub use logged::Logged;
pub use noted::{Deed, Delivery, Noted};
pub use opened::Opened;
pub use refusals::refusal_text;
pub use sessions::{SessionEnd, exchange, session};
pub use turns::{Answers, Turns};
