//! The deliveries that this server owes to others: what is due, who tries it, and what results from
//! it.
#![tactic(auto)]

mod changes;
mod forwarding;
mod laws;
mod making;
mod queue;
mod rows;

pub use fedi_effects::outcome_of;
pub use forwarding::forwards;
pub use laws::{
    accepted_activities_add_rows, attempts_change_their_rows, attempts_leave_the_rest,
    claims_are_held, deliveries_have_one_row, next_ids_are_new, repeats_add_no_rows, rows_are_due,
    rows_are_the_queue,
};
pub use queue::Queue;
pub use rows::{Claim, QueueRow};
