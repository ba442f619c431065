//! The activity of a claim, and the entry of an attempt to deliver it.

ghost use Rattle.std.specs.Prelude.{◌≡◌, ◌<◌, IfOk, IsTrue, Some, is_some, length, map, slice_get};
ghost use Rattle.fedi_core.specs.Delivering.{attempt_of};
ghost use Rattle.fedi_queue.specs.Claims.{release};
ghost use Rattle.fedi_queue.specs.Queues.{IsHeld};
ghost use Rattle.fedi_queue.specs.Rows.{id_at, rows_of};

use fedi_address::Iri;
use fedi_effects::{Facts, Steps};
use fedi_objects::{Came, Entry};
use fedi_queue::{Claim, Queue};
use fedi_register::Kept;
use fedi_text::Moment;
use std::alloc::AllocError;
use std::marker::Brand;
use std::sync::ledger::{Blank, Ledger};

fn act_counted<L: Ledger>(facts: &Facts, place: usize, blank: Blank) -> &Kept
    requires name { blank.name ≡ L.name }
    requires parts { blank.parts ≡ L.parts }
    requires some { 0 < blank.parts }
    requires there { place < length facts.now.town.acts }
    ensures { Some result.now ≡ slice_get facts.now.town.acts place }
{
    let mut steps = Steps::<L>::new(blank);
    facts.shown(place, &mut steps)
}

/// The activity at this index in the order of acceptance.
pub(crate) fn act_at(facts: &Facts, place: usize) -> &Kept
    requires { place < length facts.now.town.acts }
    ensures { Some result.now ≡ slice_get facts.now.town.acts place }
{
    act_counted::<Brand>(facts, place, Blank::new(1))
}

/// The id of the activity at this index in the order of acceptance.
pub(crate) fn id_at(facts: &Facts, place: usize) -> &Iri
    requires { IsTrue (is_some (id_at facts.now.town.acts place)) }
    ensures { Some result.now ≡ id_at facts.now.town.acts place }
{
    match act_at(facts, place).id() {
        Some(id) => id,
        None => unreachable!(),
    }
}

/// The entry of an attempt of the delivery that is claimed in the queue. The queue is that of these
/// facts. The error is out of memory.
pub(crate) fn attempt_of(
    facts: &Facts,
    queue: &Queue,
    claim: &Claim,
    came: Came,
    moment: Moment,
) -> Result<Entry, AllocError>
    requires rows { map release queue.now.rows ≡ rows_of facts.now.town }
    requires held { IsHeld claim.now queue.now.rows }
    ensures { IfOk result (λ entry. entry
        ≡ attempt_of facts.now.town queue.now.rows claim.now came moment) }
{
    let recipient = queue.recipient_of(claim).copy()?;
    let activity = id_at(facts, claim.activity).copy()?;
    Ok(Entry::Tried {
        activity,
        recipient,
        came,
        moment,
    })
}
