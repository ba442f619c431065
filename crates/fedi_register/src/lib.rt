//! The accepted activities, the indexes used to look them up, and the questions asked about a
//! single activity. Each activity is stored once, in a form of its own that contracts see as the
//! whole activity of the definitions.
#![tactic(auto)]

mod about;
mod acts;
mod applying;
mod authors;
mod common;
mod extras;
mod iris;
mod kept;
mod marking;
mod marks;
mod object;
mod parts;
mod pool;
mod register;
mod repeats;
mod seeds;
mod trace;
mod words;

pub use acts::{
    can_be_undone, has_activity_id, is_about, is_accepted, is_announce, is_announce_of, is_block,
    is_block_of, is_by, is_create, is_done, is_follow, is_following, is_like, is_like_of, is_open,
    is_open_follow, is_pending, is_standing, makes, object_key,
};
pub use extras::Spare;
pub use iris::Iris;
pub use kept::Kept;
pub use marks::{MOST_ITEMS, Marks};
pub use pool::Pool;
pub use register::Register;
pub use seeds::Seed;
pub use trace::Trace;
