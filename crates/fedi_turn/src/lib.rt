//! A lock for a value that represents a growing list. Each pass of the lock knows a prefix of that
//! list, and the value of its next turn continues from there.
//!
//! Callers take turns: [`TurnLock::take`] waits for the value, [`TurnLock::give`] ends the turn.
//! Two tables of `atomic_table` carry the proof. The gate (`gate.rt`) keeps callers out: its slot
//! holds the value between two turns. The record (`record.rt`) keeps what each pass has seen, and
//! is there for the proof alone: no running code reads its word.
#![tactic(auto)]

mod closing;
mod gate;
mod grows;
mod line;
mod lock;
mod opening;
mod record;
mod turns;

pub use grows::Grows;
pub use line::Line;
pub use lock::{Held, Pass, Span, TurnLock};
