//! The machine over one history: who a caller is, what becomes of a post or a delivery, and what is
//! kept.
#![tactic(auto)]

mod attempts;
mod callers;
mod deciding;
mod delivering;
mod drafts;
mod keeping;
mod machine;
mod posts;
mod profiles;
mod sending;

pub use callers::caller_of;
pub use deciding::Decision;
pub use delivering::RecordFault;
pub use drafts::Draft;
pub use keeping::{KeepError, KeepFault};
pub use machine::Core;
