//! The town that a history makes: its members, peers, activities and attempts, the plain types used
//! by the definitions, and the definitions.
#![tactic(auto)]

mod act;
mod addition;
mod caller;
mod command_fault;
mod deed;
mod effect;
mod ids;
mod numbers;
mod outcome;
mod refusal;

pub use act::{Act, Actor, Attempt, Peer};
pub use addition::{Acceptance, Addition};
pub use caller::{Caller, Which};
pub use command_fault::CommandFault;
pub use deed::Deed;
pub use effect::Effect;
pub use ids::{activity_iri, actor_iri, object_iri};
pub use numbers::{MOST_ACTIVITIES, most_activities_are_fixed, next_number};
pub use outcome::Outcome;
pub use refusal::Refusal;
