//! Waiting deliveries, in order.

ghost use Rattle.std.specs.Prelude.{◌≡◌, ◌∷◌, ◌++◌, [], ◌+◌, ◌-◌, ◌<◌, ◌≤◌, ◌^◌, IsTrue, OnOk};
ghost use Rattle.std.specs.Prelude.{OnErr, None, Some, length, option_copied, option_map, vec_len};
ghost use Rattle.std.specs.List.{find, list_all};
ghost use Rattle.fedi_queue.specs.Claims.{change_first, claim, claim_of, is_claimed_at, is_few};
ghost use Rattle.fedi_queue.specs.Claims.{is_free_at, is_not_before, release, replace_at, settled};
ghost use Rattle.fedi_register.specs.Changes.{place_where};

use fedi_address::Iri;
use fedi_text::Moment;
use std::alloc::{AllocError, Global};
use std::marker::Model;

/// A waiting delivery: of one activity to one recipient.
#[derive(Drop)]
pub struct QueueRow {
    /// The position of the activity in the order of acceptance.
    pub activity: usize,
    /// The index of the recipient among those that the activity is sent to.
    pub place: usize,
    /// The recipient, who belongs to a peer.
    pub recipient: Iri,
    /// How many attempts there were: fewer than eight.
    pub attempts: u8,
    /// The moment from which the next attempt is due, in seconds since 1970-01-01T00:00:00Z.
    pub due: u64,
    /// Whether somebody who tries it has claimed it.
    pub claimed: bool,
}

/// A delivery that its owner has to itself and tries. It is used up by the result of the attempt,
/// or given back.
pub struct Claim {
    /// The position of the activity in the order of acceptance.
    pub activity: usize,
    /// The index of the recipient among those that the activity is sent to.
    pub recipient: usize,
    /// The moment at which it was claimed.
    pub moment: Moment,
}

/// Waiting deliveries, in order.
pub(crate) struct Rows {
    list: Vec<QueueRow>,
    // None of them may be claimed before this, so that a claim while nothing is due takes one
    // comparison.
    earliest: u64,
}

// Written out, so that a caller does not prove again how each part is dropped.
impl Drop for Rows {
    fn drop(self) {
        let Rows {
            list: _,
            earliest: _,
        } = self;
    }
}

impl Model for Rows {
    ghost use Rattle.fedi_queue.specs.Claims.{AreRows, Listed, listed_in};

    ghost Value = { Listed };

    ghost view = { listed_in };

    ghost invariant = { AreRows };
}

#[tactic(auto, unfolding(crate::specs::Claims::is_free_at))]
fn is_free_at(row: &QueueRow, moment: Moment) -> bool
    ensures { result ≡ is_free_at moment row.now }
{
    !row.claimed && row.due <= moment.seconds()
}

#[tactic(auto, unfolding(crate::specs::Claims::is_claimed_at, crate::specs::Claims::is_at))]
fn is_claimed_at(row: &QueueRow, activity: usize, place: usize) -> bool
    ensures { result ≡ is_claimed_at activity place row.now }
{
    row.claimed && row.activity == activity && row.place == place
}

fn first_free(rows: &[QueueRow], moment: Moment) -> Option<usize>
    ensures { result ≡ place_where (is_free_at moment) rows.now }
{
    rows.iter().position(|row| is_free_at(row, moment))
}

fn first_claimed(rows: &[QueueRow], activity: usize, place: usize) -> Option<usize>
    ensures { result ≡ place_where (is_claimed_at activity place) rows.now }
{
    rows.iter()
        .position(|row| is_claimed_at(row, activity, place))
}

// The moment before which neither one of the earlier rows nor this one may be claimed.
#[tactic(auto, unfolding(crate::specs::Claims::is_not_before))]
fn earlier(earliest: u64, row: &QueueRow) -> u64
    ensures none_later { result ≤ earliest }
    ensures own { IsTrue (is_not_before result row.now) }
{
    if row.claimed {
        earliest
    } else {
        earliest.min(row.due)
    }
}

// A moment before which none of the rows may be claimed: the last moment if all are claimed.
fn earliest_of(rows: &[QueueRow]) -> u64
    ensures { IsTrue (list_all (is_not_before result) rows.now) }
{
    let mut earliest = u64::MAX;
    for row in rows {
        earliest = earlier(earliest, row);
    }
    earliest
}

fn claim_row(row: &mut QueueRow, moment: Moment) -> Claim
    ensures claim { result ≡ claim_of moment row.old }
    ensures row { row.new ≡ claim row.old }
{
    row.claimed = true;
    Claim {
        activity: row.activity,
        recipient: row.place,
        moment,
    }
}

fn release_row(row: &mut QueueRow) -> u64
    ensures due { result ≡ row.old.due }
    ensures row { row.new ≡ release row.old }
{
    row.claimed = false;
    row.due
}

fn retry_row(row: &mut QueueRow, due: u64)
    requires { row.old.attempts < 8 }
    ensures { row.new ∷ [] ≡ settled (Some due) row.old }
{
    row.attempts += 1;
    row.due = due;
    row.claimed = false;
}

impl Rows {
    /// These deliveries.
    pub(crate) fn new(list: Vec<QueueRow>) -> Rows
        requires { IsTrue (list_all is_few list.items) }
        ensures { result.rows ≡ list.items }
    {
        let earliest = earliest_of(&list);
        Rows { list, earliest }
    }

    /// The deliveries.
    pub(crate) fn as_slice(&self) -> &[QueueRow]
        ensures rows { result.now ≡ self.now.rows }
        ensures few { IsTrue (list_all is_few result.now) }
    {
        self.list.as_slice()
    }

    /// Makes room for this many more. The error is out of memory.
    pub(crate) fn reserve(&mut self, more: usize) -> Result<(), AllocError>
        ensures rows { self.new.rows ≡ self.old.rows }
        ensures room { OnOk result (more ≤ self.new.room) }
    {
        self.list.reserve(more)
    }

    /// Adds more at the end, for which there has to be room. It takes no memory.
    #[tactic(auto, using(crate::proofs::Listed::more_few, crate::proofs::Listed::more_not_before))]
    pub(crate) fn append(&mut self, more: &mut Vec<QueueRow>)
        requires room { vec_len more.old ≤ self.old.room }
        requires few { IsTrue (list_all is_few more.old.items) }
        ensures { self.new.rows ≡ self.old.rows ++ more.old.items }
    {
        let earliest = earliest_of(more);
        if self.list.append(more).is_ok() {
            self.earliest = self.earliest.min(earliest);
        }
    }

    /// Claims the first delivery that is due at this moment and not claimed, or returns none if
    /// there is no such delivery. It takes no memory.
    #[tactic(auto, using(crate::proofs::Listed::early_none, crate::proofs::Listed::early_same, fedi_register::proofs::Edited::none_there, crate::proofs::Listed::late_same, crate::proofs::Listed::first_changed, crate::proofs::Listed::first_found, crate::proofs::Listed::first_within, crate::proofs::Listed::few_claimed, crate::proofs::Listed::claimed_not_before))]
    pub(crate) fn claim(&mut self, moment: Moment) -> Option<Claim>
        ensures first { result
            ≡ option_map (claim_of moment) (find (is_free_at moment) self.old.rows) }
        ensures claimed { self.new ≡ record self.old {
          rows = change_first (is_free_at moment) claim self.old.rows;
        } }
    {
        if moment.seconds() < self.earliest {
            return None;
        }
        match first_free(&self.list, moment) {
            Some(place) => Some(claim_row(&mut self.list[place], moment)),
            None => {
                self.earliest = earliest_of(&self.list);
                None
            }
        }
    }

    /// Gives up the claim on the delivery of this activity to the recipient at this index, if it is
    /// claimed. It takes no memory.
    #[tactic(auto, using(crate::proofs::Listed::late_same, crate::proofs::Listed::first_changed, crate::proofs::Listed::first_within, crate::proofs::Listed::few_after_release, crate::proofs::Listed::due_not_before))]
    pub(crate) fn release(&mut self, activity: usize, place: usize)
        ensures { self.new ≡ record self.old {
          rows = change_first (is_claimed_at activity place) release self.old.rows;
        } }
    {
        if let Some(place) = first_claimed(&self.list, activity, place) {
            let due = release_row(&mut self.list[place]);
            self.earliest = self.earliest.min(due);
        }
    }

    /// The delivery of this activity to the recipient at this index, if it is claimed.
    pub(crate) fn claimed(&self, activity: usize, place: usize) -> Option<&QueueRow>
        ensures { option_copied result ≡ find (is_claimed_at activity place) self.now.rows }
    {
        self.list
            .iter()
            .find(|row| is_claimed_at(row, activity, place))
    }

    /// Records one more attempt of the delivery at this index: another is due from this moment on,
    /// or there is no further attempt. It takes no memory.
    #[tactic(auto, using(crate::proofs::Listed::was_few, crate::proofs::Listed::set_at, crate::proofs::Listed::removed_at, crate::proofs::Listed::all_removed, crate::proofs::Listed::due_not_before))]
    pub(crate) fn settle(&mut self, place: usize, due: Option<u64>)
        requires there { place < length self.old.rows }
        requires few { IsTrue (list_all is_few (replace_at place (settled due) self.old.rows)) }
        ensures { self.new.rows ≡ replace_at place (settled due) self.old.rows }
    {
        match due {
            Some(due) => {
                retry_row(&mut self.list[place], due);
                self.earliest = self.earliest.min(due);
            }
            None => drop(self.list.remove(place)),
        }
    }
}
