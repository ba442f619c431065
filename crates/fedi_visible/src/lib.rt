//! Who sees what of the facts, what they are shown, the replies to those who read activities and
//! objects, the trait `Shelf` of what holds a history, and a plain shelf, which scans its history
//! to find what its readers see of its collections.
#![tactic(auto)]

mod brief;
mod drafts;
mod excerpts;
mod listing;
mod pins;
mod places;
mod plain_shelf;
mod replies;
mod seeing;
mod shelf;
mod showing;

pub use brief::is_brief;
pub use drafts::{Draft, document_reply};
pub use excerpts::{Excerpt, excerpt_of};
pub use listing::{is_item, is_same_item};
pub use pins::{is_directed, is_pin_kind};
pub use places::{is_same_seen, is_seen_item};
pub use plain_shelf::PlainShelf;
pub use replies::{draft_activity, draft_object, seen_maker};
pub use seeing::{is_followed_from, is_of_peer, reaches_any, sees};
pub use shelf::{PAGE, Shelf, VisiblePage};
pub use showing::shown_of;
