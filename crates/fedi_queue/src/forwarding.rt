//! Who an activity of another server is forwarded to.

ghost use Rattle.std.specs.Prelude.{◌≡◌, IfOk};
ghost use Rattle.fedi_queue.specs.Queues.{forwards};

use fedi_address::{Iri, Items};
use fedi_effects::{Facts, forwards_of};
use fedi_objects::Activity;
use std::alloc::{AllocError, Global};

/// Who an activity of another server is forwarded to when it arrives for the first time
/// (ActivityPub, section 7.1.2), each once: nobody if it has no actor. The error is out of memory.
pub fn forwards(alloc: Global, facts: &Facts, activity: &Activity) -> Result<Items<Iri>, AllocError>
    ensures { IfOk result (λ found. found ≡ forwards facts.now.town activity.now) }
{
    match &activity.actor {
        Some(author) => forwards_of(alloc, facts, author, activity),
        None => Ok(Items::empty(alloc)),
    }
}
