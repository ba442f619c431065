//! What a caller may learn.

ghost use Rattle.fedi_laws.specs.Statements.{
  AddedInboxesTellTheirOwners,
  AddedPeersTellThemselves,
  AnswersAreClean,
  AnswersArePrivate,
  AttemptsTellNothing,
  BoardsTellWhatIsShown,
  ChangesReachTheReaders,
  DeletedContentIsToldToNobody,
  ProfilesTellNamesAlone,
  UnseenDeliveriesTellNothing,
  UnreadDeliveriesAreAnsweredAlike,
  UnreadPostsAreAnsweredAlike,
  UnseenPostsTellNothing,
};

/// Histories that agree for a caller give the caller the same answer, whatever else they contain.
#[tactic(auto, using(crate::proofs::Isolation::private_answers))]
pub fn answers_are_private()
    ensures { AnswersArePrivate }
{}

/// Who a member is (an actor document, or WebFinger) depends only on the host and on the members'
/// names, and the answer is the same for everybody.
#[tactic(auto, using(crate::proofs::Isolation::public_profiles))]
pub fn profiles_tell_names_alone()
    ensures { ProfilesTellNamesAlone }
{}

/// The answer for a post does not depend on its body if the caller is not the member, the body is
/// not declared as JSON or ActivityStreams, or the key is malformed. So the body need not be read.
#[tactic(auto, using(crate::proofs::Unread::unread_posts))]
pub fn unread_posts_are_answered_alike()
    ensures { UnreadPostsAreAnsweredAlike }
{}

/// The answer for a delivery does not depend on its body if the caller is no peer, or the body is
/// not declared as JSON or ActivityStreams. So the body need not be read.
#[tactic(auto, using(crate::proofs::Unread::unread_deliveries))]
pub fn unread_deliveries_are_answered_alike()
    ensures { UnreadDeliveriesAreAnsweredAlike }
{}

/// A post that changes nothing earlier, such as a Create, a Follow or a Like, changes nothing that
/// is known to a caller who does not see it.
#[tactic(auto, using(crate::proofs::Isolation::unseen_posts))]
pub fn unseen_posts_tell_nothing()
    ensures { UnseenPostsTellNothing }
{}

/// The same holds for a delivery that is new and is not a Follow.
pub fn unseen_deliveries_tell_nothing()
    ensures { UnseenDeliveriesTellNothing }
{}

/// A delivery of a known activity reveals something only to the owner of its inbox.
pub fn added_inboxes_tell_their_owners()
    ensures { AddedInboxesTellTheirOwners }
{}

/// Adding a peer changes nothing that any caller knows except the peer itself: neither a member nor
/// the caller `Nobody` nor another peer learns of it.
pub fn added_peers_tell_themselves()
    ensures { AddedPeersTellThemselves }
{}

/// An attempt to deliver changes nothing that any caller knows.
pub fn attempts_tell_nothing()
    ensures { AttemptsTellNothing }
{}

/// What a Tombstone hides is revealed to no caller: histories that differ only in it agree for
/// everybody (ActivityPub, section 6.4).
pub fn deleted_content_is_told_to_nobody()
    ensures { DeletedContentIsToldToNobody }
{}

/// Whoever sees an object's Create sees each Update and Delete of it by its author (ActivityPub,
/// sections 6.3 and 6.4), and so does everybody if the Create is public. A Block hides all of them.
#[tactic(auto, using(crate::proofs::Readers::changes_are_seen))]
pub fn changes_reach_the_readers()
    ensures { ChangesReachTheReaders }
{}

/// No answer names a recipient that `bto` or `bcc` hides (ActivityPub, section 6).
#[tactic(auto, using(crate::proofs::Clean::answers_clean))]
pub fn answers_are_clean()
    ensures { AnswersAreClean }
{}

/// What a caller sees in the collections that a member makes by Add and Remove, and which of them,
/// depends only on what the caller is shown: an Add or Remove that the caller does not see changes
/// nothing for the caller.
#[tactic(auto, using(crate::proofs::Boards::boards_are_shown))]
pub fn boards_tell_what_is_shown()
    ensures { BoardsTellWhatIsShown }
{}
