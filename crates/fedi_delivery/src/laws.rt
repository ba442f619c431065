//! Laws of the definitions, each the contract of a function that does nothing.

ghost use Rattle.fedi_delivery.specs.Deliveries.{BodiesAreClean};
ghost use Rattle.fedi_delivery.specs.Examples.{ShownReplies, WrittenRequests};
ghost use Rattle.fedi_delivery.specs.Replies.{ShowsOnce};

/// No posted body names anybody that `bto` and `bcc` hide (ActivityPub, sections 6 and 7).
#[tactic(auto, using(crate::proofs::Clean::bodies_clean))]
pub fn bodies_are_clean()
    ensures { BodiesAreClean }
{}

/// What is heard of a lookup or of a post shows exactly one thing.
#[tactic(auto, using(crate::proofs::Once::replies_once))]
pub fn replies_show_once()
    ensures { ShowsOnce }
{}

/// The requests of an example are as they are written there.
#[tactic(auto, using(crate::proofs::Written::written_requests))]
pub fn requests_are_as_written()
    ensures { WrittenRequests }
{}

/// The replies of an example show what is written there.
#[tactic(auto, using(crate::proofs::Shown::shown_replies))]
pub fn replies_are_as_shown()
    ensures { ShownReplies }
{}
