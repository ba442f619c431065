//! Collections and their pages, as their readers see them. What a page shows is found in the facts,
//! and its document is written later.
#![tactic(auto)]

mod address;
mod documents;
mod drafts;
mod items;
mod members;
mod pages;
mod replies;

pub use address::Address;
pub use documents::{begin_page, end_page, highest_page};
pub use drafts::CollectionDraft;
pub use pages::{PageDraft, draft_page, summary, summary_text};
pub use replies::draft_collection;
