//! What a reader sees in the collections that members make by Add and Remove (ActivityPub, sections
//! 6.6 and 6.7), and the replies to those who read them.
#![tactic(auto)]

mod held;
mod items;
mod lists;
mod pages;
mod pins;
mod replies;
mod texts;

pub use replies::board_reply;
pub use texts::{pin_page, pin_summary};
