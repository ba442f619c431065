//! The items that a log consists of.

use fedi_address::Iri;
use fedi_objects::Entry;
use fedi_text::Moment;

/// A delivery: an activity, and one of its recipients.
#[derive(Drop)]
pub struct Pair {
    pub activity: Iri,
    pub recipient: Iri,
}

/// The position of a delivery in the queue.
#[derive(Clone, Copy, Debug, PartialEq, Eq)]
pub struct Place {
    /// The index of the activity in the order of acceptance.
    pub activity: usize,
    /// The index of the recipient among those that the activity is sent to.
    pub recipient: usize,
}

/// What happened to a log.
#[derive(Drop)]
pub enum What {
    /// The keeper kept this entry.
    Entered(Entry),
    /// The keeper failed to keep this entry, and its record may be in doubt.
    Marked(Entry),
    /// This delivery, which is in the queue, was claimed at this moment.
    Claimed(Pair, Place, Moment),
    /// This delivery was released.
    Released(Pair),
}

/// One item of a log.
#[derive(Drop)]
pub struct Item {
    pub what: What,
    /// The number of the pass that added it. `None` if it was there at the opening, or if nobody
    /// else adds items.
    pub pass: Option<u64>,
}
