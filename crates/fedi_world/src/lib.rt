//! Several servers that deliver to each other (ActivityPub, section 7), each a machine over a
//! keeper that never fails: what it does when it is asked, when bytes arrive, when it delivers, and
//! when it crashes; and what events make of all of them, one after the other, whatever is lost,
//! repeated or overtaken.
#![tactic(auto)]

mod asking;
mod blank;
mod claiming;
mod ending;
mod event;
mod parts;
mod reaching;
mod world;

pub use blank::Blank;
pub use event::{Event, Happened, WorldFault};
pub use world::World;
