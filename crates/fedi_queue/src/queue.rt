//! The deliveries that this server owes to others.

ghost use Rattle.std.specs.Prelude.{◌≡◌, ◌∷◌, ◌++◌, [], IfOk, IfSome, IsTrue, None, OnErr, OnOk};
ghost use Rattle.std.specs.Prelude.{Some, filter, length, map, option_copied, option_map, true};
ghost use Rattle.std.specs.List.{find};
ghost use Rattle.fedi_queue.specs.Claims.{change_first, claim, claim_of, is_claimed_at, is_free_at};
ghost use Rattle.fedi_queue.specs.Claims.{release};
ghost use Rattle.fedi_queue.specs.Queues.{Fits, HasRoom, IsHeld, IsWithin, adds_rows, is_claimed};
ghost use Rattle.fedi_queue.specs.Queues.{stays_claimed, takes_memory};
ghost use Rattle.fedi_queue.specs.Rows.{rows_of};
ghost use Rattle.fedi_town.specs.Histories.{town};
ghost use Rattle.fedi_town.specs.Legal.{IsLegal, is_admissible};

use crate::changes::{Change, apply_change, change_for, reserve_for};
use crate::making::rows_of_all;
use crate::rows::{Claim, QueueRow, Rows};
use fedi_address::Iri;
use fedi_effects::Facts;
use fedi_objects::Entry;
use fedi_register::Trace;
use fedi_text::Moment;
use std::alloc::{AllocError, Global};
use std::marker::Model;
use std::snapshot::Snapshot;

// The facts of the history for which a queue was made.
#[derive(Drop)]
struct Start {
    facts: Snapshot<Facts>,
}

// What was made for the next entry.
#[derive(Drop)]
struct Room {
    entry: Snapshot<Entry>,
    change: Change,
}

/// The waiting deliveries of a history, in the order of acceptance and of recipients (ActivityPub,
/// section 7.1): those to recipients of peers for which another attempt is due. Each may be
/// claimed, and is then given to nobody else until it is tried or given back.
pub struct Queue {
    start: Option<Start>,
    since: Trace<Entry>,
    rows: Rows,
    room: Option<Room>,
}

// Written out, so that a caller does not prove again how each part is dropped.
impl Drop for Queue {
    fn drop(self) {
        let Queue {
            start: _,
            since: _,
            rows: _,
            room: _,
        } = self;
    }
}

impl Model for Queue {
    ghost use Rattle.fedi_queue.specs.Queues.{Queued};

    ghost Value = { Queued };

    ghost use Rattle.fedi_queue.specs.Holding.{IsQueue, queued_in};

    ghost view = { queued_in };

    ghost invariant = { IsQueue };
}

fn keep_room(room: &mut Option<Room>, rows: &mut Rows, new: Room) -> Result<(), AllocError>
    requires { IsWithin new.change (length rows.old.rows) }
    ensures rows { rows.new.rows ≡ rows.old.rows }
    ensures room { OnOk result (HasRoom new.change (length rows.old.rows) rows.new.room) }
    ensures ok { OnOk result (room.new ≡ Some new) }
    ensures err { OnErr result (room.new ≡ room.old) }
    ensures memory { OnErr result (adds_rows new.change ≡ true) }
{
    match reserve_for(rows, &new.change) {
        Ok(()) => {
            drop(room.replace(new));
            Ok(())
        }
        Err(error) => {
            drop(new);
            Err(error)
        }
    }
}

impl Queue {
    /// The queue of no entry.
    pub fn empty(alloc: Global) -> Queue
        ensures { result ≡ record { history = []; rows = []; room = None } }
    {
        Queue {
            start: None,
            since: Trace::new(),
            rows: Rows::new(Vec::new(alloc)),
            room: None,
        }
    }

    /// The queue of the history of these facts, in which nothing is claimed. All activities are
    /// scanned. The error is out of memory.
    pub fn of(alloc: Global, facts: &Facts) -> Result<Queue, AllocError>
        ensures { IfOk result (λ queue. queue ≡ record {
          history = facts.now.history;
          rows = rows_of facts.now.town;
          room = None;
        }) }
    {
        facts.show_town();
        let rows = rows_of_all(alloc, facts, None)?;
        Ok(Queue {
            start: Some(Start {
                facts: Snapshot::of(facts),
            }),
            since: Trace::new(),
            rows: Rows::new(rows),
            room: None,
        })
    }

    /// The waiting deliveries, in order.
    pub fn entries(&self) -> &[QueueRow]
        ensures rows { result.now ≡ self.now.rows }
        ensures queue { map release result.now ≡ rows_of (town self.now.history) }
    {
        self.rows.as_slice()
    }

    /// Claims the first delivery that is due at this moment and not claimed. It returns none
    /// exactly if there is no such delivery. It takes no memory, and only one comparison while
    /// nothing is due.
    pub fn claim(&mut self, moment: Moment) -> Option<Claim>
        ensures first { result
            ≡ option_map (claim_of moment) (find (is_free_at moment) self.old.rows) }
        ensures claimed { self.new ≡ record self.old {
          rows = change_first (is_free_at moment) claim self.old.rows;
        } }
        ensures held { IfSome result (λ c. IsHeld c self.new.rows) }
    {
        self.rows.claim(moment)
    }

    /// The recipient of the claimed delivery.
    #[tactic(auto, using(crate::proofs::Held::recipient_found, crate::proofs::Held::not_missing))]
    pub fn recipient_of(&self, claim: &Claim) -> &Iri
        requires { IsHeld claim.now self.now.rows }
        ensures { Some result.now ≡ option_map (λ row. row.recipient)
            (find (is_claimed_at claim.now.activity claim.now.recipient) self.now.rows) }
    {
        match self.rows.claimed(claim.activity, claim.recipient) {
            Some(row) => &row.recipient,
            None => unreachable!(),
        }
    }

    /// Gives up a claim, so that the delivery may be claimed again. It takes no memory.
    pub fn release(&mut self, claim: Claim)
        requires { IsHeld claim self.old.rows }
        ensures { self.new ≡ record self.old {
          rows = change_first (is_claimed_at claim.activity claim.recipient)
              release self.old.rows;
        } }
    {
        let Claim {
            activity,
            recipient,
            moment: _,
        } = claim;
        self.rows.release(activity, recipient);
    }

    /// Makes room for an entry that may come next, with all that it makes of the deliveries. The
    /// facts are those of the queue's history and have room for the entry. The error is out of
    /// memory, and then there is room for no entry. The entry of an attempt takes none.
    pub fn reserve(&mut self, alloc: Global, facts: &Facts, entry: &Entry) -> Result<(), AllocError>
        requires history { facts.now.history ≡ self.old.history }
        requires legal { IsLegal self.old.history }
        requires admissible { IsTrue (is_admissible facts.now.town entry.now) }
        requires room { facts.now.room ≡ Some entry.now }
        ensures ok { OnOk result (self.new ≡ record self.old { room = Some entry.now }) }
        ensures err { OnErr result (self.new ≡ record self.old { room = None }) }
        ensures memory { OnErr result (takes_memory entry.now ≡ true) }
    {
        drop(self.room.take());
        facts.show_town();
        let change = change_for(alloc, facts, self.rows.as_slice(), entry)?;
        let entry = Snapshot::of(entry);
        keep_room(&mut self.room, &mut self.rows, Room { entry, change })
    }

    /// Adds the entry for which there is room. Everything that is claimed stays claimed, except the
    /// delivery that the entry has tried. It takes no memory.
    pub fn push(&mut self, entry: &Entry)
        requires { self.old.room ≡ Some entry.now }
        ensures history { self.new.history ≡ self.old.history ++ entry.now ∷ [] }
        ensures claims { filter is_claimed self.new.rows
            ≡ filter (stays_claimed (town self.old.history).acts entry.now) self.old.rows }
        ensures room { self.new.room ≡ None }
    {
        match self.room.take() {
            None => unreachable!(),
            Some(Room { entry: _, change }) => {
                apply_change(&mut self.rows, change);
                self.since.push(entry);
            }
        }
    }
}
