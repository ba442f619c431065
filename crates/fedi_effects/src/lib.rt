//! The facts that a history has made, and what an entry adds to them.
#![tactic(auto)]

mod addressing;
mod commands;
mod deliveries;
mod directory;
mod effects;
mod facts;
mod forwarding;
mod head;
mod implied;
mod making;
mod members;
mod progress;
mod ready;
mod receiving;
mod relations;
mod repeats;
mod roster;
mod rules;
mod seeing;
mod states;
mod steps;
mod subjects;
mod tallies;

pub use addressing::is_of_town;
pub use deliveries::{is_at_peer, judge_tried, progress_of, sends};
pub use directory::Directory;
pub use facts::Facts;
pub use fedi_register::{
    Seed, has_activity_id, is_about, is_accepted, is_announce, is_by, is_follow, is_following,
    is_like, is_standing, makes, object_key,
};
pub use forwarding::forwards_of;
pub use making::prepare;
pub use progress::{Standing, after_outcome, outcome_of};
pub use repeats::Repeat;
pub use roster::Roster;
pub use rules::judge_local;
pub use seeing::sees_as;
pub use steps::Steps;
pub use subjects::ref_id;
