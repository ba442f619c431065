//! What an attempt to deliver means.

/// What an attempt to deliver means for the next one.
#[derive(Clone, Copy, Debug)]
pub enum Outcome {
    /// The activity arrived.
    Delivered,
    /// Another attempt is due later.
    Again,
    /// The recipient is gone.
    GivenUp,
}
