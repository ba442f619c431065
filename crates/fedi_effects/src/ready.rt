//! What an entry adds, made ready to be added without memory.

ghost use Rattle.std.specs.Prelude.{◌≡◌, ◌++◌, IfOk, IsTrue, List, OnOk, Some, option_copied};
ghost use Rattle.std.specs.Prelude.{option_map, option_to_list};
ghost use Rattle.std.specs.List.{list_any};
ghost use Rattle.fedi_address.specs.Recipients.{add_new};
ghost use Rattle.fedi_town.specs.declared.act.Act.{Act};
ghost use Rattle.fedi_town.specs.declared.addition.Addition.TheVariants as additions;
ghost use Rattle.fedi_town.specs.Lists.{PassesOnce};
ghost use Rattle.fedi_town.specs.Relations.{has_activity_id};
ghost use Rattle.fedi_register.specs.Changes.{longer_of};
ghost use Rattle.fedi_effects.specs.Additions.{CanAdd, FitsActs, acts_in, addition_in, inbox_in};
ghost use Rattle.fedi_effects.specs.Additions.{with_answerer, with_authors};

use crate::facts::Facts;
use fedi_address::{Host, Iri};
use fedi_register::{Iris, Kept, Pool, Register, Spare};
use fedi_town::{Acceptance, Act, Actor, Addition, Attempt, Effect, Peer};
use std::alloc::{AllocError, Global};

/// What an entry adds. Each activity is in the form in which it is kept.
#[derive(Drop)]
pub(crate) enum Ready {
    /// Nothing.
    Nothing,
    /// The server's host.
    Host(Host),
    /// A member.
    Member(Actor),
    /// Another server.
    Peer(Peer),
    /// An activity, with all that follows from it.
    Activity {
        /// The activity.
        act: Kept,
        /// What it does to earlier ones.
        effect: Effect,
        /// Memory for that.
        spare: Spare,
        /// The Accept that follows it.
        answer: Option<Kept>,
    },
    /// One more inbox of a known activity.
    Inbox {
        /// The id of the activity.
        activity: Iri,
        /// The inbox's owner.
        owner: Iri,
        /// The recipients of the activity with this inbox.
        recipients: Iris,
    },
    /// An attempt to deliver.
    Attempt(Attempt),
}

fn keep_answer(alloc: Global, answer: Option<Act>) -> Result<Option<Kept>, AllocError>
    ensures { IfOk result (λ kept. kept ≡ answer) }
{
    match answer {
        Some(answer) => Ok(Some(Kept::new(alloc, answer)?)),
        None => Ok(None),
    }
}

// Dropping an activity or an effect costs much to prove, so here and below it is done by calls.
fn keep_both(
    alloc: Global,
    act: Act,
    answer: Option<Act>,
) -> Result<(Kept, Option<Kept>), AllocError>
    ensures { IfOk result (λ kept. kept ≡ (act, answer)) }
{
    let answer = match keep_answer(alloc, answer) {
        Ok(answer) => answer,
        Err(error) => {
            drop(act);
            return Err(error);
        }
    };
    match Kept::new(alloc, act) {
        Ok(act) => Ok((act, answer)),
        Err(error) => {
            drop(answer);
            Err(error)
        }
    }
}

fn keep_all(alloc: Global, acceptance: Acceptance, spare: Spare) -> Result<Ready, AllocError>
    ensures ready { IfOk result (λ ready. addition_in ready ≡ additions.Activity acceptance) }
    ensures fits { (acts : List Act) → IfOk result (λ ready. FitsActs acts ready) }
{
    let Acceptance {
        act,
        effect,
        answer,
    } = acceptance;
    match keep_both(alloc, act, answer) {
        Ok((act, answer)) => Ok(Ready::Activity {
            act,
            effect,
            spare,
            answer,
        }),
        Err(error) => {
            drop(effect);
            Err(error)
        }
    }
}

fn keep_with_spare(alloc: Global, acceptance: Acceptance) -> Result<Ready, AllocError>
    ensures ready { IfOk result (λ ready. addition_in ready ≡ additions.Activity acceptance) }
    ensures fits { (acts : List Act) → IfOk result (λ ready. FitsActs acts ready) }
{
    match Spare::new(alloc, &acceptance.effect) {
        Ok(spare) => keep_all(alloc, acceptance, spare),
        Err(error) => {
            drop(acceptance);
            Err(error)
        }
    }
}

fn share_answer(answer: &mut Option<Kept>, pool: &mut Pool)
    ensures { answer.new ≡ answer.old }
{
    match answer {
        Some(answer) => answer.share(pool),
        None => {}
    }
}

impl Ready {
    /// The activity that is added, and the answer to it.
    pub(crate) fn activities(&self) -> (Option<&Kept>, Option<&Kept>)
        ensures { option_to_list (option_copied result.0) ++ option_to_list (option_copied result.1)
            ≡ acts_in (addition_in self.now) }
    {
        match self {
            Ready::Activity {
                act,
                effect: _,
                spare: _,
                answer,
            } => (Some(act), answer.as_ref()),
            Ready::Nothing
            | Ready::Host(_)
            | Ready::Member(_)
            | Ready::Peer(_)
            | Ready::Inbox { .. }
            | Ready::Attempt(_) => (None, None),
        }
    }

    /// The id of the activity that goes to one more inbox, and the inbox's owner.
    pub(crate) fn inbox(&self) -> Option<(&Iri, &Iri)>
        ensures { option_map (λ pair. (pair.0.now, pair.1.now)) result
            ≡ inbox_in (addition_in self.now) }
    {
        match self {
            Ready::Inbox {
                activity,
                owner,
                recipients: _,
            } => Some((activity, owner)),
            Ready::Nothing
            | Ready::Host(_)
            | Ready::Member(_)
            | Ready::Peer(_)
            | Ready::Activity { .. }
            | Ready::Attempt(_) => None,
        }
    }

    /// Makes equal values that are often repeated share their bytes. It takes no memory.
    pub(crate) fn share(&mut self, pool: &mut Pool)
        ensures { self.new ≡ self.old }
    {
        match self {
            Ready::Activity {
                act,
                effect: _,
                spare: _,
                answer,
            } => {
                act.share(pool);
                share_answer(answer, pool);
            }
            Ready::Inbox {
                activity: _,
                owner: _,
                recipients,
            } => recipients.share(pool),
            Ready::Nothing
            | Ready::Host(_)
            | Ready::Member(_)
            | Ready::Peer(_)
            | Ready::Attempt(_) => {}
        }
    }
}

// The recipients of the activity with this id once it goes to one more owner of an inbox.
#[tactic(auto, using(crate::proofs::Longer::longer_found, crate::proofs::Longer::not_missing))]
fn longer(alloc: Global, facts: &Facts, id: &Iri, owner: &Iri) -> Result<Iris, AllocError>
    requires { IsTrue (list_any (has_activity_id id.now) facts.now.town.acts) }
    ensures { IfOk result (λ recipients.
        longer_of id.now owner.now facts.now.town.acts ≡ Some recipients) }
{
    match facts.activity_of(id) {
        Some(act) => Iris::with_one(alloc, act.recipients(), owner),
        None => unreachable!(),
    }
}

fn make_inbox(alloc: Global, facts: &Facts, activity: Iri, owner: Iri) -> Result<Ready, AllocError>
    requires known { IsTrue (list_any (has_activity_id activity) facts.now.town.acts) }
    requires once { PassesOnce (has_activity_id activity) facts.now.town.acts }
    ensures ready { IfOk result (λ ready. addition_in ready ≡ additions.Inbox activity owner) }
    ensures fits { IfOk result (λ ready. FitsActs facts.now.town.acts ready) }
{
    let recipients = longer(alloc, facts, &activity, &owner)?;
    Ok(Ready::Inbox {
        activity,
        owner,
        recipients,
    })
}

/// Makes an addition to these facts ready. The error is out of memory.
pub(crate) fn make_ready(
    alloc: Global,
    facts: &Facts,
    addition: Addition,
) -> Result<Ready, AllocError>
    requires { CanAdd facts.now.town.acts addition }
    ensures ready { IfOk result (λ ready. addition_in ready ≡ addition) }
    ensures fits { IfOk result (λ ready. FitsActs facts.now.town.acts ready) }
{
    match addition {
        Addition::Nothing => Ok(Ready::Nothing),
        Addition::Host(host) => Ok(Ready::Host(host)),
        Addition::Member(member) => Ok(Ready::Member(member)),
        Addition::Peer(peer) => Ok(Ready::Peer(peer)),
        Addition::Activity(acceptance) => keep_with_spare(alloc, acceptance),
        Addition::Inbox { activity, owner } => make_inbox(alloc, facts, activity, owner),
        Addition::Attempt(attempt) => Ok(Ready::Attempt(attempt)),
    }
}

fn add_answerer(register: &mut Register, answer: &Option<Kept>) -> Result<(), AllocError>
    ensures acts { register.new.acts ≡ register.old.acts }
    ensures room { register.new.room ≡ register.old.room }
    ensures known { OnOk result (register.new.known ≡ with_answerer register.old.known answer.now) }
{
    match answer {
        Some(answer) => register.add_author(answer.author()),
        None => Ok(()),
    }
}

fn add_both(register: &mut Register, act: &Kept, answer: &Option<Kept>) -> Result<(), AllocError>
    ensures acts { register.new.acts ≡ register.old.acts }
    ensures room { register.new.room ≡ register.old.room }
    ensures known { OnOk result (register.new.known
        ≡ with_answerer (add_new register.old.known act.now.author) answer.now) }
{
    register.add_author(act.author())?;
    add_answerer(register, answer)
}

/// Makes the authors of what is ready known. The error is out of memory.
pub(crate) fn add_authors(register: &mut Register, ready: &Ready) -> Result<(), AllocError>
    ensures acts { register.new.acts ≡ register.old.acts }
    ensures room { register.new.room ≡ register.old.room }
    ensures known { OnOk result (register.new.known ≡ with_authors register.old.known ready.now) }
{
    match ready {
        Ready::Nothing
        | Ready::Host(_)
        | Ready::Member(_)
        | Ready::Peer(_)
        | Ready::Inbox { .. }
        | Ready::Attempt(_) => Ok(()),
        Ready::Activity { act, answer, .. } => add_both(register, act, answer),
    }
}
