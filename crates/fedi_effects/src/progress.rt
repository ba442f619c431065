//! What results from attempts to deliver, and when the next one is due.

ghost use Rattle.std.specs.Prelude.{◌≡◌, ◌<◌, ◌*◌, ◌^◌};
ghost use Rattle.fedi_town.specs.Queues.{after_attempt, after_outcome, next_attempt, outcome};
ghost use Rattle.fedi_town.specs.Queues.{request_outcome, status_outcome, step_outcome};
ghost use Rattle.fedi_effects.specs.Standings.{IsFew, progress_in};

use fedi_objects::{Came, Sent, What};
use fedi_text::Moment;
use fedi_town::{Attempt, Outcome};

// ---- the result of an attempt

fn step_outcome(step: Sent, status: u16) -> Outcome
    ensures { result ≡ step_outcome step status }
{
    match step {
        Sent::Lookup => Outcome::Again,
        Sent::Post if 200 <= status && status < 300 => Outcome::Delivered,
        Sent::Post => Outcome::Again,
    }
}

fn status_outcome(step: Sent, status: u16) -> Outcome
    ensures { result ≡ status_outcome step status }
{
    match status {
        404 | 410 => Outcome::GivenUp,
        _ => step_outcome(step, status),
    }
}

/// What the result of an attempt means (RFC 9110, section 15): a recipient that is not found or
/// gone gets no further attempt, and a successful status of the post means that the activity
/// arrived.
pub fn outcome_of(came: Came) -> Outcome
    ensures { result ≡ outcome came }
{
    match came.what {
        What::Failed | What::NoHead | What::BadActor => Outcome::Again,
        What::Status(status) => status_outcome(came.step, status),
    }
}

// ---- what has become of a delivery

/// What has become of a delivery: the next attempt is due after so many, or there is no further
/// attempt.
#[derive(Clone, Copy)]
pub enum Standing {
    /// The next attempt is due.
    Due {
        /// How many attempts there were: fewer than eight.
        attempts: u8,
        /// From when it is due, in seconds since 1970-01-01T00:00:00Z.
        from: u64,
    },
    /// There is no further attempt.
    Ended {
        /// How many attempts there were: one to eight.
        attempts: u8,
    },
}

// The number of seconds between an attempt, after this many earlier ones, and the next.
fn pause(before: u8) -> u64
    requires { before < 7 }
    ensures value { result ≡ 60 * 2 ^ before }
    ensures bound { result < 4000 }
{
    match before {
        0 => 60,
        1 => 120,
        2 => 240,
        3 => 480,
        4 => 960,
        5 => 1920,
        _ => 3840,
    }
}

fn next_attempt(before: u8, moment: Moment) -> Standing
    requires { before < 8 }
    ensures value { progress_in result ≡ next_attempt before moment }
    ensures few { IsFew result }
{
    if before + 1 == 8 {
        return Standing::Ended {
            attempts: before + 1,
        };
    }
    Standing::Due {
        attempts: before + 1,
        from: moment.seconds() + pause(before),
    }
}

/// What has become of a delivery after one more attempt at this moment, which this many came
/// before: after a failure the next is due 60, 120, 240, 480, 960, 1920 or 3840 seconds later, and
/// the eighth is the last.
pub fn after_outcome(before: u8, moment: Moment, outcome: Outcome) -> Standing
    requires { before < 8 }
    ensures value { progress_in result ≡ after_outcome before moment outcome }
    ensures few { IsFew result }
{
    match outcome {
        Outcome::Delivered | Outcome::GivenUp => Standing::Ended {
            attempts: before + 1,
        },
        Outcome::Again => next_attempt(before, moment),
    }
}

/// What has become of a delivery after one more attempt.
pub(crate) fn after_attempt(standing: Standing, attempt: &Attempt) -> Standing
    requires { IsFew standing }
    ensures value { progress_in result ≡ after_attempt (progress_in standing) attempt.now }
    ensures few { IsFew result }
{
    match standing {
        Standing::Due { attempts, from: _ } => {
            after_outcome(attempts, attempt.moment, outcome_of(attempt.came))
        }
        Standing::Ended { attempts } => Standing::Ended { attempts },
    }
}
