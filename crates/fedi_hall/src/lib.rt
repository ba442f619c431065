//! Many connections at once over one machine, and deliveries to other servers: workers that take
//! turns with it, each at a bench.
#![tactic(auto)]

mod delivering;
mod hall;
mod laws;
mod serving;
mod shared;
mod stations;
mod turns;
mod workers;

pub use delivering::{inbox_post_in_turn, record_in_turn, release_in_turn, take_up_in_turn};
pub use hall::{Hall, Lobby, Queues};
pub use laws::work_stays;
pub use serving::{ServeEnd, Served, serve_core};
pub use shared::Shared;
pub use stations::{Station, serve_stations};
pub use turns::{answer_in_turn, refuse_in_turn};
pub use workers::{WorkerEnd, worker};
