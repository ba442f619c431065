//! The items at positions among the activities.

ghost use Rattle.std.specs.Prelude.{◌≡◌, ◌+◌, ◌≤◌, OnOk, length, map, reverse};
ghost use Rattle.serde_json.specs.Data.{array, string};
ghost use Rattle.serde_json.specs.View.{items_of};
ghost use Rattle.fedi_objects.specs.Writing.{IsWritten};
ghost use Rattle.fedi_pins.specs.Held.{item_at};

use crate::pins::{Listing, item_key};
use fedi_effects::{Facts, Steps};
use json::Writer;
use std::alloc::AllocError;
use std::sync::ledger::Ledger;

/// The item of the activity at this position, which is read once, or an empty text if there is no
/// such activity.
pub(crate) fn item_at<'a, L: Ledger>(
    facts: &'a Facts,
    listing: Listing,
    place: usize,
    steps: &mut Steps<L>,
) -> &'a str
    ensures value { result.now ≡ item_at facts.now.town listing place }
    ensures cost { steps.new ≤ steps.old + 1 }
{
    if place < facts.activities() {
        item_key(listing, facts.shown(place, steps))
    } else {
        ""
    }
}

/// Writes the items of the activities at these positions, the last one first. Each activity is read
/// once. The error is out of memory.
pub(crate) fn write_items<L: Ledger>(
    out: &mut Writer,
    facts: &Facts,
    listing: Listing,
    places: &[usize],
    steps: &mut Steps<L>,
) -> Result<(), AllocError>
    ensures written { OnOk result (IsWritten (array (items_of (map string
        (reverse (map (item_at facts.now.town listing) places.now))))) out.old out.new) }
    ensures cost { steps.new ≤ steps.old + length places.now }
{
    out.begin_array()?;
    for place in places.iter().rev() {
        out.string(item_at(facts, listing, *place, steps))?;
    }
    out.end_array()
}
