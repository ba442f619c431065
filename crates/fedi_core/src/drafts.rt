//! Replies that are decided on, and written later.

ghost use Rattle.std.specs.Prelude.{◌≡◌, IfOk, OnErr, false};
ghost use Rattle.fedi_core.specs.Drafts.{is_ready, reply_in};

use fedi_collections::CollectionDraft;
use fedi_model::Reply;
use std::alloc::{AllocError, Global};

/// A reply that is decided on. It shares what it shows with the history, but no longer depends on
/// it: it can be written at any time, and is the same whatever was kept since.
#[derive(Drop)]
pub enum Draft {
    /// A reply that needs no more writing: a refusal, or one that shows no text of a member.
    Ready(Reply),
    /// The document of an activity or of an object.
    Document(fedi_visible::Draft),
    /// A collection or a page of it.
    Collection(CollectionDraft),
}

impl Draft {
    /// Writes the reply. The error is out of memory, which occurs only if there is a document to
    /// write.
    pub fn write(self, alloc: Global) -> Result<Reply, AllocError>
        ensures reply { IfOk result (λ r. r ≡ reply_in self) }
        ensures memory { OnErr result (is_ready self ≡ false) }
    {
        match self {
            Draft::Ready(reply) => Ok(reply),
            Draft::Document(draft) => draft.write(alloc),
            Draft::Collection(draft) => draft.write(alloc),
        }
    }
}
