//! Reading what a client posts and what another server delivers: ActivityStreams from JSON.
#![tactic(auto)]

mod activity;
mod actors;
mod audience;
mod body;
mod delivered;
mod need;
mod posted;
mod properties;
mod shape_fault;

pub use activity::{objects_alone_are_read_as_posted, read_activity};
pub use actors::{ActorDocument, read_actor};
pub use body::{BodyFault, read_body};
pub use delivered::read_delivered;
pub use need::Need;
pub use posted::read_posted;
pub use shape_fault::ShapeFault;
