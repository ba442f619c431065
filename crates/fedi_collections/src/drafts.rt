//! Replies to readers of a collection whose document is written later. Out of memory is the only
//! error.

ghost use Rattle.std.specs.Prelude.{◌≡◌, IfOk, OnErr, false};
ghost use Rattle.fedi_collections.specs.Drafts.{is_ready, reply_in};

use crate::pages::PageDraft;
use fedi_model::{Form, Reply};
use http::StatusCode;
use std::alloc::{AllocError, Global};

/// A reply to a reader of a collection. It no longer depends on the facts.
#[derive(Drop)]
pub enum CollectionDraft {
    /// A reply that needs no more writing: a refusal, a collection without its items, or a page
    /// whose items are brief.
    Ready(Reply),
    /// A page that has activities of any length.
    Page(PageDraft),
}

impl CollectionDraft {
    /// Writes the reply. The error is out of memory, which occurs only if a page is written.
    pub fn write(self, alloc: Global) -> Result<Reply, AllocError>
        ensures reply { IfOk result (λ r. r ≡ reply_in self) }
        ensures memory { OnErr result (is_ready self ≡ false) }
    {
        match self {
            CollectionDraft::Ready(reply) => Ok(reply),
            CollectionDraft::Page(page) => {
                let text = page.write(alloc)?;
                Ok(Reply::document(StatusCode::OK, Form::Activity, text))
            }
        }
    }
}
