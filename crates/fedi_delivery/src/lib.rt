//! A delivery to another server (ActivityPub, section 7.1): what is sent, and what the replies
//! show.
#![tactic(auto)]

mod exchanges;
mod laws;
mod replies;
mod sending;

pub use exchanges::{look_up, post};
pub use laws::{
    bodies_are_clean, replies_are_as_shown, replies_show_once, requests_are_as_written,
};
pub use replies::{Found, came_of, found_in};
pub use sending::{Outgoing, lookup_bytes, post_bytes};
