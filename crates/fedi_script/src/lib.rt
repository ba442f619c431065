//! Scripts of several servers: their lines, and what is printed about each.
#![tactic(auto)]

mod laws;
mod lines;
mod printed;
mod words;

pub use laws::scripts_are_read;
pub use lines::{LONGEST, next_line};
pub use printed::{
    put_answered, put_attempt, put_crashed, put_entries, put_idle, put_outcome, put_refused,
    put_replied, put_request, put_too_long, put_waited,
};
pub use words::{Line, read_line};
