//! Laws about the meaning of a history, and about requests and replies. Each is the contract of a
//! function that does nothing.
#![tactic(auto)]

mod club;
mod histories;
mod objects;
mod privacy;
mod replies;

pub use club::{
    a_collection_is_emptied, a_collection_is_made, a_follow_goes_astray, a_follow_is_delivered,
    a_follower_elsewhere_sees_a_note, a_follower_is_blocked, a_late_follower_sees_a_note,
    a_locked_member_is_followed, a_note_is_changed, a_note_is_deleted, a_note_is_delivered,
    a_note_is_public, a_note_is_secret, a_reply_is_forwarded, a_tombstone_is_delivered,
    followers_get_a_note, numbers_end, peers_deliver_their_own,
};
pub use histories::{
    asks_keep_histories_legal, due_deliveries_are_queued, due_deliveries_stay_due,
    members_have_their_ids,
};
pub use objects::{
    activities_are_there_once, deleted_content_leaves_no_trace, objects_are_made_once,
    objects_are_replayed, tombstones_stay,
};
pub use privacy::{
    added_inboxes_tell_their_owners, added_peers_tell_themselves, answers_are_clean,
    answers_are_private, attempts_tell_nothing, boards_tell_what_is_shown,
    changes_reach_the_readers, deleted_content_is_told_to_nobody, profiles_tell_names_alone,
    unread_deliveries_are_answered_alike, unread_posts_are_answered_alike,
    unseen_deliveries_tell_nothing, unseen_posts_tell_nothing,
};
pub use replies::{
    a_delivery_is_signed, refusals_are_clean, replies_are_clean, replies_are_private,
    what_is_read_may_be_delivered, what_is_read_may_be_posted,
};
