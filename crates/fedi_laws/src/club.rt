//! Events in a small club, computed from the definitions.

ghost use Rattle.fedi_laws.specs.ClubBoards.{EmptyBoards, OwnBoards};
ghost use Rattle.fedi_laws.specs.ClubFollows.{BlockAndUndo, LastNumber, LateFollower, LockedFollow};
ghost use Rattle.fedi_laws.specs.ClubFollows.{PostToFollowers};
ghost use Rattle.fedi_laws.specs.ClubObjects.{ChangedNote, DeletedNote, OpenNote, SecretNote};
ghost use Rattle.fedi_laws.specs.ClubPeers.{DeliveredFollow, DeliveredNote, DeliveredTombstone};
ghost use Rattle.fedi_laws.specs.ClubPeers.{FarFollower, ForwardedReply, PeersAndRelays};
ghost use Rattle.fedi_laws.specs.ClubPeers.{StrayFollow};

/// A Follow of a locked member waits for the Accept.
#[tactic(auto, using(crate::proofs::ClubFollows::locked_follow))]
pub fn a_locked_member_is_followed()
    ensures { LockedFollow }
{}

/// A Block ends Follows and hides both sides, and its Undo shows them again.
#[tactic(auto, using(crate::proofs::ClubFollows::block_and_undo))]
pub fn a_follower_is_blocked()
    ensures { BlockAndUndo }
{}

/// A Note to followers goes to those who follow when it is accepted. Those who follow later see it
/// too.
#[tactic(auto, using(crate::proofs::ClubFollows::post_to_followers))]
pub fn followers_get_a_note()
    ensures { PostToFollowers }
{}

/// A later follower sees a Note to followers, as long as the Follow lasts.
#[tactic(auto, using(crate::proofs::ClubFollows::late_follower))]
pub fn a_late_follower_sees_a_note()
    ensures { LateFollower }
{}

/// There is no Accept if no number is left for it.
#[tactic(auto, using(crate::proofs::ClubFollows::last_number))]
pub fn numbers_end()
    ensures { LastNumber }
{}

/// A secret Note is seen by its recipient.
#[tactic(auto, using(crate::proofs::ClubObjects::secret_note))]
pub fn a_note_is_secret()
    ensures { SecretNote }
{}

/// A public Note goes to the recipients that it names, and hides those that it names in secret.
#[tactic(auto, using(crate::proofs::ClubObjects::open_note))]
pub fn a_note_is_public()
    ensures { OpenNote }
{}

/// A deleted Note leaves a Tombstone.
#[tactic(auto, using(crate::proofs::ClubObjects::deleted_note))]
pub fn a_note_is_deleted()
    ensures { DeletedNote }
{}

/// Only its author may change a Note.
#[tactic(auto, using(crate::proofs::ClubObjects::changed_note))]
pub fn a_note_is_changed()
    ensures { ChangedNote }
{}

/// A Note from elsewhere is kept once, no matter how often it arrives.
#[tactic(auto, using(crate::proofs::ClubPeers::delivered_note))]
pub fn a_note_is_delivered()
    ensures { DeliveredNote }
{}

/// A peer delivers for its own host, and a relay for others too.
#[tactic(auto, using(crate::proofs::ClubPeers::peers_and_relays))]
pub fn peers_deliver_their_own()
    ensures { PeersAndRelays }
{}

/// A Tombstone from elsewhere is completed.
#[tactic(auto, using(crate::proofs::ClubPeers::delivered_tombstone))]
pub fn a_tombstone_is_delivered()
    ensures { DeliveredTombstone }
{}

/// A Follow from elsewhere is answered.
#[tactic(auto, using(crate::proofs::ClubPeers::delivered_follow))]
pub fn a_follow_is_delivered()
    ensures { DeliveredFollow }
{}

/// A Follow that arrives in another member's inbox is answered, and the followed member does not
/// see it.
#[tactic(auto, using(crate::proofs::ClubPeers::stray_follow))]
pub fn a_follow_goes_astray()
    ensures { StrayFollow }
{}

/// A reply from elsewhere is forwarded to the followers that it names.
#[tactic(auto, using(crate::proofs::ClubPeers::forwarded_reply))]
pub fn a_reply_is_forwarded()
    ensures { ForwardedReply }
{}

/// Another server sees a Note to followers, as long as somebody there follows.
#[tactic(auto, using(crate::proofs::ClubPeers::far_follower))]
pub fn a_follower_elsewhere_sees_a_note()
    ensures { FarFollower }
{}

/// A member makes a collection, of which each caller sees what the Adds and Removes that the caller
/// sees leave.
#[tactic(auto, using(crate::proofs::ClubBoards::own_boards))]
pub fn a_collection_is_made()
    ensures { OwnBoards }
{}

/// Only its author changes a collection, and an empty one is not listed.
#[tactic(auto, using(crate::proofs::ClubBoards::empty_boards))]
pub fn a_collection_is_emptied()
    ensures { EmptyBoards }
{}
