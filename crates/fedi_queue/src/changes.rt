//! What an entry makes of the waiting deliveries, made ready so that it takes no memory.

ghost use Rattle.std.specs.Prelude.{◌≡◌, ◌∷◌, ◌<◌, ◌≤◌, IfOk, IsTrue, List, OnErr, OnOk, Some};
ghost use Rattle.std.specs.Prelude.{drop, false, length, map, option_copied, slice_get, true};
ghost use Rattle.std.specs.List.{list_all};
ghost use Rattle.std.specs.Str.{bytes_eq};
ghost use Rattle.fedi_objects.specs.declared.entry.Entry.TheVariants.{Tried};
ghost use Rattle.fedi_queue.specs.declared.rows.QueueRow.{QueueRow};
ghost use Rattle.fedi_queue.specs.Claims.{carried, is_at, is_few, release};
ghost use Rattle.fedi_queue.specs.Queues.{Fits, HasRoom, IsSettling, IsWithin, adds_rows, due_of};
ghost use Rattle.fedi_queue.specs.Queues.{is_row_for, rows_with, takes_memory};
ghost use Rattle.fedi_queue.specs.Rows.{rows_of};
ghost use Rattle.fedi_register.specs.Changes.{place_where};
ghost use Rattle.fedi_town.specs.Histories.{town};
ghost use Rattle.fedi_town.specs.Legal.{IsLegal, is_admissible};
ghost use Rattle.fedi_town.specs.Queues.{after_outcome};

use crate::making::{rows_of_all, rows_of_coming};
use crate::rows::{QueueRow, Rows};
use fedi_address::Iri;
use fedi_effects::{Facts, Standing, after_outcome, outcome_of};
use fedi_objects::{Came, Entry};
use fedi_text::Moment;
use fedi_town::Outcome;
use std::alloc::{AllocError, Global};

/// What becomes of the waiting deliveries.
#[derive(Drop)]
pub(crate) enum Change {
    /// Nothing.
    Nothing,
    /// These are added at the end.
    Added(Vec<QueueRow>),
    /// The one at this index was tried: another attempt is due from a moment on, or there is no
    /// further attempt.
    Settled {
        /// Its index.
        place: usize,
        /// The moment from which the next attempt is due.
        due: Option<u64>,
    },
    /// They are replaced by these.
    Rebuilt(Vec<QueueRow>),
}

// The moment from which the next attempt is due after one more, if there is one.
fn next_due(attempts: u8, moment: Moment, outcome: Outcome) -> Option<u64>
    requires { attempts < 8 }
    ensures { result ≡ due_of (after_outcome attempts moment outcome) }
{
    match after_outcome(attempts, moment, outcome) {
        Standing::Due { attempts: _, from } => Some(from),
        Standing::Ended { .. } => None,
    }
}

#[tactic(auto, unfolding(crate::specs::Queues::is_row_for))]
fn is_row_for(row: &QueueRow, activity: usize, recipient: &Iri) -> bool
    ensures { result ≡ is_row_for activity recipient.now row.now }
{
    row.activity == activity && row.recipient == *recipient
}

fn row_position(rows: &[QueueRow], activity: usize, recipient: &Iri) -> Option<usize>
    ensures { result ≡ place_where (is_row_for activity recipient.now) rows.now }
{
    rows.iter()
        .position(|row| is_row_for(row, activity, recipient))
}

// What becomes of the delivery of the activity at this position among the activities.
fn settle_at(
    rows: &[QueueRow],
    activity: usize,
    recipient: &Iri,
    came: Came,
    moment: Moment,
) -> Change
    requires { IsTrue (list_all is_few rows.now) }
    ensures settled { IsSettling activity recipient.now came moment rows.now result }
    ensures unadded { adds_rows result ≡ false }
{
    match row_position(rows, activity, recipient) {
        Some(place) => Change::Settled {
            place,
            due: next_due(rows[place].attempts, moment, outcome_of(came)),
        },
        None => Change::Nothing,
    }
}

// What becomes of the delivery that was tried.
fn settle(
    facts: &Facts,
    rows: &[QueueRow],
    activity: &Iri,
    recipient: &Iri,
    came: Came,
    moment: Moment,
) -> Change
    requires legal { IsLegal facts.now.history }
    requires town { facts.now.town ≡ town facts.now.history }
    requires rows { map release rows.now ≡ rows_of facts.now.town }
    requires few { IsTrue (list_all is_few rows.now) }
    ensures fits { Fits facts.now.town (Tried activity.now recipient.now came moment) result }
    ensures within { IsWithin result (length rows.now) }
    ensures unadded { adds_rows result ≡ false }
{
    match facts.position_of(activity) {
        Some(place) => settle_at(rows, place, recipient, came, moment),
        None => Change::Nothing,
    }
}

/// What the entry for which the facts have room makes of the waiting deliveries, which are those of
/// the facts. The error is out of memory, which the entry of an attempt does not take.
pub(crate) fn change_for(
    alloc: Global,
    facts: &Facts,
    rows: &[QueueRow],
    entry: &Entry,
) -> Result<Change, AllocError>
    requires legal { IsLegal facts.now.history }
    requires town { facts.now.town ≡ town facts.now.history }
    requires admissible { IsTrue (is_admissible facts.now.town entry.now) }
    requires room { facts.now.room ≡ Some entry.now }
    requires rows { map release rows.now ≡ rows_of facts.now.town }
    requires few { IsTrue (list_all is_few rows.now) }
    ensures fits { IfOk result (λ change. Fits facts.now.town entry.now change) }
    ensures within { IfOk result (λ change. IsWithin change (length rows.now)) }
    ensures adds { IfOk result
        (λ change. adds_rows change ≡ true → takes_memory entry.now ≡ true) }
    ensures memory { OnErr result (takes_memory entry.now ≡ true) }
{
    match entry {
        Entry::PeerSet { host, .. } => {
            Ok(Change::Rebuilt(rows_of_all(alloc, facts, Some(host))?))
        }
        Entry::Tried {
            activity,
            recipient,
            came,
            moment,
        } => Ok(settle(facts, rows, activity, recipient, *came, *moment)),
        Entry::Hosted { .. } | Entry::Made { .. } | Entry::Local { .. } | Entry::Remote { .. } => {
            Ok(Change::Added(rows_of_coming(alloc, facts)?))
        }
    }
}

/// Makes room for what is to be added. The error is out of memory.
pub(crate) fn reserve_for(rows: &mut Rows, change: &Change) -> Result<(), AllocError>
    requires { IsWithin change.now (length rows.old.rows) }
    ensures rows { rows.new.rows ≡ rows.old.rows }
    ensures room { OnOk result (HasRoom change.now (length rows.old.rows) rows.new.room) }
    ensures memory { OnErr result (adds_rows change.now ≡ true) }
{
    match change {
        Change::Added(more) => rows.reserve(more.len()),
        Change::Nothing | Change::Settled { .. } | Change::Rebuilt(_) => Ok(()),
    }
}

#[tactic(auto, unfolding(crate::specs::Claims::is_at))]
fn is_at(row: &QueueRow, activity: usize, place: usize) -> bool
    ensures { result ≡ is_at activity place row.now }
{
    row.activity == activity && row.place == place
}

fn row_at(rows: &[QueueRow], place: usize) -> Option<&QueueRow>
    ensures { option_copied result ≡ slice_get rows.now place }
{
    rows.get(place)
}

// Claims the row if it is the next of these and that one is claimed. Returns the index of the next
// one after it.
#[tactic(auto, using(crate::proofs::Carried::carried_past, crate::proofs::Carried::carried_other, crate::proofs::Carried::carried_same, crate::proofs::Carried::got_within))]
fn carry_one(rows: &[QueueRow], next: usize, row: &mut QueueRow) -> usize
    requires { next ≤ length rows.now }
    ensures within { result ≤ length rows.now }
    ensures carried { (rest : List QueueRow) → carried (drop next rows.now) (row.old ∷ rest)
        ≡ row.new ∷ carried (drop result rows.now) rest }
{
    match row_at(rows, next) {
        Some(old) => {
            if is_at(row, old.activity, old.place) {
                row.claimed = old.claimed;
                return next + 1;
            }
            next
        }
        None => next,
    }
}

// Claims those rows of the list that are claimed among these rows, which are in the same order.
fn carry(rows: &[QueueRow], list: &mut [QueueRow])
    ensures { list.new ≡ carried rows.now list.old }
{
    let mut next = 0;
    for row in list.iter_mut() {
        next = carry_one(rows, next, row);
    }
}

/// Changes the deliveries. It takes no memory.
pub(crate) fn apply_change(rows: &mut Rows, change: Change)
    requires room { HasRoom change (length rows.old.rows) rows.old.room }
    requires few { IsTrue (list_all is_few (rows_with change rows.old.rows)) }
    ensures { rows.new.rows ≡ rows_with change rows.old.rows }
{
    match change {
        Change::Nothing => {}
        Change::Added(more) => {
            let mut more = more;
            rows.append(&mut more);
        }
        Change::Settled { place, due } => rows.settle(place, due),
        Change::Rebuilt(list) => {
            let mut list = list;
            carry(rows.as_slice(), &mut list);
            *rows = Rows::new(list);
        }
    }
}
