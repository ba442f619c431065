//! The rows of activities.

ghost use Rattle.std.specs.Prelude.{◌≡◌, ◌++◌, ◌+◌, ◌<◌, ◌^◌, ℕ, IfOk, OnOk, length, option_copied};
ghost use Rattle.std.specs.Prelude.{option_to_list};
ghost use Rattle.fedi_effects.specs.Holdings.{coming_in};
ghost use Rattle.fedi_queue.specs.Rows.{is_reached, row_where, rows_by, rows_from, rows_to};
ghost use Rattle.fedi_town.specs.Queues.{is_at_peer, progress_of, sends};

use crate::rows::QueueRow;
use fedi_address::{Host, Iri};
use fedi_effects::{Facts, Standing, Steps, is_at_peer, progress_of, sends};
use fedi_register::Kept;
use fedi_text::Moment;
use std::alloc::{AllocError, Global};
use std::marker::Brand;
use std::sync::ledger::{Blank, Ledger};

// An activity that is sent: its position among the activities, its id, and when it was accepted.
#[derive(Drop)]
struct Sending<'a> {
    activity: usize,
    id: &'a Iri,
    moment: Moment,
}

// Whether the recipient belongs to a peer, or to the host that becomes one.
#[tactic(auto, unfolding(crate::specs::Rows::is_reached))]
fn is_reached(facts: &Facts, new: Option<&Host>, recipient: &Iri) -> bool
    ensures { result ≡ is_reached facts.now.town (option_copied new.entry) recipient.now }
{
    match new {
        None => is_at_peer(facts, recipient),
        Some(host) => is_at_peer(facts, recipient) || host.text() == recipient.host(),
    }
}

// Adds the row of the delivery to this recipient, if the recipient is reached and another attempt
// is due.
fn add_row(
    rows: &mut Vec<QueueRow>,
    facts: &Facts,
    new: Option<&Host>,
    sending: &Sending,
    place: usize,
    recipient: &Iri,
) -> Result<(), AllocError>
    ensures { OnOk result (rows.new.items ≡ rows.old.items
        ++ row_where (is_reached facts.now.town (option_copied new.entry) recipient.now)
        sending.now.activity place recipient.now (progress_of facts.now.town
        sending.now.id.now recipient.now sending.now.moment)) }
{
    if !is_reached(facts, new, recipient) {
        return Ok(());
    }
    match progress_of(facts, sending.id, recipient, sending.moment) {
        Standing::Due { attempts, from } => {
            let recipient = recipient.copy()?;
            rows.push(QueueRow {
                activity: sending.activity,
                place,
                recipient,
                attempts,
                due: from,
                claimed: false,
            })?;
            Ok(())
        }
        Standing::Ended { .. } => Ok(()),
    }
}

// Adds the rows of the deliveries to these recipients.
fn add_rows_to(
    rows: &mut Vec<QueueRow>,
    facts: &Facts,
    new: Option<&Host>,
    sending: &Sending,
    recipients: &[Iri],
) -> Result<(), AllocError>
    ensures { OnOk result (rows.new.items ≡ rows.old.items
        ++ rows_to facts.now.town (is_reached facts.now.town (option_copied new.entry))
        sending.now.activity sending.now.id.now sending.now.moment 0 recipients.now) }
{
    for (place, recipient) in recipients.iter().enumerate() {
        add_row(rows, facts, new, sending, place, recipient)?;
    }
    Ok(())
}

// Adds the rows of the activity at this position among the activities.
fn add_rows_of(
    rows: &mut Vec<QueueRow>,
    facts: &Facts,
    new: Option<&Host>,
    activity: usize,
    act: &Kept,
) -> Result<(), AllocError>
    ensures { OnOk result (rows.new.items ≡ rows.old.items
        ++ rows_by facts.now.town (is_reached facts.now.town (option_copied new.entry))
        activity act.now.moment (sends facts.now.town act.now) act.now.activity.id) }
{
    match act.id() {
        Some(id) => {
            let sending = Sending {
                activity,
                id,
                moment: act.moment(),
            };
            add_rows_to(rows, facts, new, &sending, sends(facts, act))
        }
        None => Ok(()),
    }
}

// Adds the rows of the activity in the same way, if there is one.
fn add_rows_for(
    rows: &mut Vec<QueueRow>,
    facts: &Facts,
    activity: usize,
    act: Option<&Kept>,
) -> Result<(), AllocError>
    ensures { OnOk result (rows.new.items ≡ rows.old.items
        ++ rows_from facts.now.town (is_reached facts.now.town None) activity
        (option_to_list (option_copied act.entry))) }
{
    match act {
        Some(act) => add_rows_of(rows, facts, None, activity, act),
        None => Ok(()),
    }
}

// The position after that of the activity, if there is one.
fn place_after(place: usize, act: Option<&Kept>) -> usize
    requires { place < 2 ^ 63 }
    ensures { result ≡ place + length (option_to_list (option_copied act.entry)) }
{
    match act {
        Some(_) => place + 1,
        None => place,
    }
}

/// The rows of the activities that will be added by the entry for which the facts have room. The
/// error is out of memory.
pub(crate) fn rows_of_coming(alloc: Global, facts: &Facts) -> Result<Vec<QueueRow>, AllocError>
    ensures { IfOk result (λ rows. rows.items ≡ rows_from facts.now.town
        (is_at_peer facts.now.town) (length facts.now.town.acts) (coming_in facts.now)) }
{
    let mut rows = Vec::new(alloc);
    let place = facts.activities();
    let (act, answer) = facts.coming();
    add_rows_for(&mut rows, facts, place, act)?;
    add_rows_for(&mut rows, facts, place_after(place, act), answer)?;
    Ok(rows)
}

fn rows_counted<L: Ledger>(
    alloc: Global,
    facts: &Facts,
    new: Option<&Host>,
    blank: Blank,
) -> Result<Vec<QueueRow>, AllocError>
    requires name { blank.name ≡ L.name }
    requires parts { blank.parts ≡ L.parts }
    requires some { 0 < blank.parts }
    ensures { IfOk result (λ rows. rows.items ≡ rows_from facts.now.town
        (is_reached facts.now.town (option_copied new.entry)) 0 facts.now.town.acts) }
{
    let mut steps = Steps::<L>::new(blank);
    let mut rows = Vec::new(alloc);
    for place in 0..facts.activities() {
        let act = facts.shown(place, &mut steps);
        add_rows_of(&mut rows, facts, new, place, act)?;
    }
    Ok(rows)
}

/// The rows of all activities if this host is a peer or becomes one. All activities are scanned.
/// The error is out of memory.
pub(crate) fn rows_of_all(
    alloc: Global,
    facts: &Facts,
    new: Option<&Host>,
) -> Result<Vec<QueueRow>, AllocError>
    ensures { IfOk result (λ rows. rows.items ≡ rows_from facts.now.town
        (is_reached facts.now.town (option_copied new.entry)) 0 facts.now.town.acts) }
{
    rows_counted::<Brand>(alloc, facts, new, Blank::new(1))
}
