//! What a turn adds to a log. None of it is stored.
use fedi_address::Iri;
use fedi_log::Place;
use fedi_objects::{Came, Entry};
use fedi_text::Moment;
use std::snapshot::Snapshot;

/// A delivery. Nothing of it is stored.
#[derive(Drop)]
pub struct Delivery {
    pub activity: Snapshot<Iri>,
    pub recipient: Snapshot<Iri>,
}

/// What a turn did.
#[derive(Drop)]
pub enum Deed {
    /// The keeper kept this entry of a request, or failed to keep it.
    Entry {
        entry: Snapshot<Entry>,
        kept: bool,
    },
    /// This delivery was claimed.
    Claimed {
        delivery: Delivery,
        place: Place,
        moment: Moment,
    },
    /// The keeper kept the outcome of an attempt of this delivery, or failed to keep it.
    Tried {
        delivery: Delivery,
        came: Came,
        moment: Moment,
        kept: bool,
    },
    /// This delivery was released.
    Released {
        delivery: Delivery,
    },
}

/// What a turn did, and the number of the pass that did it, if others add to the log too.
#[derive(Drop)]
pub struct Noted {
    pub deed: Deed,
    pub by: Option<u64>,
}
