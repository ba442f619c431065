//! Laws of several servers, each the contract of a function that does nothing.

ghost use Rattle.fedi_worlds.specs.Promises.{DeliveriesArrive, DeliveriesHaveOrigins};

/// Each delivery that a server has accepted comes from where it says: it is what a reader gets of
/// an activity that the actor's own server accepted from its member, and the owner of the inbox is
/// one of its recipients; or a relay delivered it, and the actor's server accepted an activity with
/// its id, actor and kind (ActivityPub, section 3, on content that is spoofed, and section 7).
///
/// It holds in every world that events lead to from the beginning: whatever requests and replies
/// are lost, delayed, repeated or overtaken, and whichever servers crash. What is supposed about
/// keys is the form of two events:
///
/// - Whoever asks a server of his own accord is no peer of it (`no_peer` in `Asks`): nobody else
///   has the key that two servers share.
/// - What is signed with such a key exists only as bytes that a server made and sent (`sent` in
///   `Arrives`): they are requests of the world, which `Claims` and `Posts` alone make. Whoever
///   has seen them may send them again, as they are.
///
/// Nothing is supposed about HMAC (RFC 2104) as a function, nor that two servers have the same key:
/// with another key the delivery is refused. About the way between servers it is supposed that an
/// address leads to its host (`host` in `Arrives`; RFC 9110, section 4.3.3), and that a reply that
/// is heard is one that was sent (`sent` in `Reaches`): nothing signs replies.
#[tactic(auto, using(crate::proofs::Locals::origins))]
pub fn deliveries_have_origins()
    ensures { DeliveriesHaveOrigins }
{}

/// If a server has kept that an activity was delivered to a recipient, the recipient's server has
/// it in the recipient's inbox, and has it once, so that it acts once (ActivityPub, sections 5.2
/// and 7.1).
///
/// It holds in the same worlds, and supposes the same. That an activity is delivered at all is not
/// said: each request may be lost.
#[tactic(auto, using(crate::proofs::Locals::arrivals))]
pub fn deliveries_arrive()
    ensures { DeliveriesArrive }
{}
