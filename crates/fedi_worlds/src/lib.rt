//! Several servers of this program that deliver to each other (ActivityPub, section 7): what each
//! event makes of them, and what is true of every world that events lead to.
#![tactic(auto)]

mod laws;

pub use laws::{deliveries_arrive, deliveries_have_origins};
