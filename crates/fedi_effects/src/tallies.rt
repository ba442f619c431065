//! The attempts to deliver.

ghost use Rattle.std.specs.Prelude.{◌≡◌, ◌∷◌, ◌++◌, [], ◌-◌, ◌≤◌, IsTrue, OnOk};
ghost use Rattle.fedi_town.specs.Queues.{Due, after_attempt};
ghost use Rattle.fedi_effects.specs.Standings.{IsFew, progress_at, progress_in};
ghost use Rattle.fedi_effects.specs.Tallies.{is_few, is_tally_of, tally_mark};
ghost use Rattle.fedi_register.specs.Changes.{place_where};
ghost use Rattle.fedi_register.specs.Marks.{every, marks_from};

use crate::progress::{Standing, after_attempt};
use fedi_address::Iri;
use fedi_register::{MOST_ITEMS, Marks, Seed, Trace};
use fedi_text::Moment;
use fedi_town::Attempt;
use std::alloc::{AllocError, Global};
use std::marker::Model;

/// What has become of a delivery that was tried: of the activity with this id to this recipient.
#[derive(Drop)]
pub(crate) struct Tally {
    activity: Iri,
    recipient: Iri,
    standing: Standing,
}

/// The attempts to deliver, in order. The attempts themselves are not held, but what has become of
/// each delivery that was tried. So a delivery is looked up among those with its mark, however many
/// attempts there were.
#[derive(Drop)]
pub(crate) struct Tallies {
    seed: Seed,
    list: Vec<Tally>,
    marks: Marks,
    attempts: Trace<Attempt>,
    // How many more tallies there is room for.
    room: usize,
}

impl Model for Tallies {
    ghost use Rattle.fedi_effects.specs.Tallies.{AreTallies, Tallied, tallied_in};

    ghost Value = { Tallied };

    ghost view = { tallied_in };

    ghost invariant = { AreTallies };
}

#[tactic(auto, unfolding(crate::specs::Tallies::is_tally_of))]
fn is_tally_of(tally: &Tally, id: &Iri, recipient: &Iri) -> bool
    ensures { result ≡ is_tally_of id.now recipient.now tally.now }
{
    tally.activity == *id && tally.recipient == *recipient
}

// The index of the tally for the delivery of the activity with this id to this recipient.
fn position_of(
    list: &[Tally],
    seed: &Seed,
    marks: &Marks,
    id: &Iri,
    recipient: &Iri,
) -> Option<usize>
    requires { marks.now.marks ≡ marks_from every (tally_mark seed.now) 0 list.now }
    ensures { result ≡ place_where (is_tally_of id.now recipient.now) list.now }
{
    marks.position_of(
        list,
        seed.mark_of_pair(id, recipient.text()),
        |tally| is_tally_of(tally, id, recipient),
    )
}

// The tally after the first attempt.
#[tactic(auto, using(crate::proofs::Tallying::few_now))]
fn first_tally(attempt: Attempt) -> Tally
    ensures activity { result.activity ≡ attempt.activity }
    ensures recipient { result.recipient ≡ attempt.recipient }
    ensures standing { progress_in result.standing ≡ after_attempt (Due 0 0) attempt }
    ensures few { IsTrue (is_few result) }
{
    let standing = after_attempt(
        Standing::Due {
            attempts: 0,
            from: 0,
        },
        &attempt,
    );
    Tally {
        activity: attempt.activity,
        recipient: attempt.recipient,
        standing,
    }
}

#[tactic(auto, using(crate::proofs::Tallying::few_now, crate::proofs::Tallying::few_then))]
fn count(tally: &mut Tally, attempt: &Attempt)
    requires { IsTrue (is_few tally.old) }
    ensures activity { tally.new.activity ≡ tally.old.activity }
    ensures recipient { tally.new.recipient ≡ tally.old.recipient }
    ensures standing { progress_in tally.new.standing
        ≡ after_attempt (progress_in tally.old.standing) attempt.now }
    ensures few { IsTrue (is_few tally.new) }
{
    tally.standing = after_attempt(tally.standing, attempt);
}

impl Tallies {
    /// No attempts. The seed is for the numbers by which deliveries are looked up.
    pub(crate) fn empty(alloc: Global, seed: Seed) -> Tallies
        ensures { result ≡ record { attempts = []; room = 0 } }
    {
        Tallies {
            seed,
            list: Vec::new(alloc),
            marks: Marks::empty(alloc),
            attempts: Trace::new(),
            room: 0,
        }
    }

    /// What has become of the delivery to this recipient of the activity with this id, which was
    /// accepted at this moment.
    pub(crate) fn standing_of(&self, id: &Iri, recipient: &Iri, moment: Moment) -> Standing
        ensures value { progress_in result
            ≡ progress_at self.now.attempts id.now recipient.now moment }
        ensures few { IsFew result }
    {
        match position_of(&self.list, &self.seed, &self.marks, id, recipient) {
            Some(place) => self.list[place].standing,
            None => Standing::Due {
                attempts: 0,
                from: moment.seconds(),
            },
        }
    }

    /// Makes room for one more attempt. The error is out of memory, as it is for more than
    /// [`MOST_ITEMS`] deliveries that were tried.
    pub(crate) fn reserve(&mut self) -> Result<(), AllocError>
        ensures attempts { self.new.attempts ≡ self.old.attempts }
        ensures room { OnOk result (1 ≤ self.new.room) }
    {
        self.room = 0;
        if self.list.len() > MOST_ITEMS {
            return Err(AllocError);
        }
        self.list.reserve(1)?;
        self.marks.reserve()?;
        self.room = 1;
        Ok(())
    }

    /// Adds an attempt, for which there has to be room. It takes no memory.
    pub(crate) fn push(&mut self, attempt: Attempt)
        requires { 1 ≤ self.old.room }
        ensures { self.new ≡ record {
          attempts = self.old.attempts ++ attempt ∷ [];
          room = self.old.room - 1;
        } }
    {
        self.attempts.push(&attempt);
        self.room -= 1;
        let mark = self
            .seed
            .mark_of_pair(&attempt.activity, attempt.recipient.text());
        match position_of(
            &self.list,
            &self.seed,
            &self.marks,
            &attempt.activity,
            &attempt.recipient,
        ) {
            Some(place) => count(&mut self.list[place], &attempt),
            None => {
                self.marks.push(mark, self.list.len() as u32);
                self.list.push_reserved(first_tally(attempt));
            }
        }
    }
}
