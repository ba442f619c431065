//! Who an activity implies: who learns of it although it does not name them.

ghost use Rattle.std.specs.Prelude.{◌≡◌, OnOk, Some, option_copied};
ghost use Rattle.fedi_town.specs.Addressing.{author_of, complete_recipients, implied_recipient};
ghost use Rattle.fedi_town.specs.Addressing.{is_silent, undo_recipient, with_implied};
ghost use Rattle.fedi_town.specs.Relations.{ref_id};
ghost use Rattle.fedi_effects.specs.Subjects.{subject_of};

use crate::facts::Facts;
use crate::subjects::ref_id;
use fedi_address::{Iri, Recipients};
use fedi_objects::ObjectRef;
use fedi_register::{Kept, is_block};
use fedi_town::Deed;
use std::alloc::{AllocError, Global};

fn author_of(found: Option<&Kept>) -> Option<&Iri>
    ensures { option_copied result ≡ author_of (option_copied found.entry) }
{
    match found {
        Some(act) => Some(act.author()),
        None => None,
    }
}

// Who the undone activity implied: the actor it follows, or the author of what it likes or shares.
fn undo_recipient<'a>(facts: &'a Facts, undone: &'a Kept) -> Option<&'a Iri>
    ensures { option_copied result ≡ undo_recipient facts.now.town (Some undone.now) }
{
    match undone.deed() {
        Deed::Follow => undone.object_id(),
        Deed::Like | Deed::Announce => author_of(facts.maker(undone.object_id()?)),
        Deed::Create
        | Deed::Update
        | Deed::Delete
        | Deed::Block
        | Deed::Accept
        | Deed::Reject
        | Deed::Undo
        | Deed::Other => None,
    }
}

// Who an activity goes to although it may not name them: those concerned by its side effect
// (ActivityPub, sections 6.5, 6.8, 6.10, 7.6, 7.7 and 7.11).
#[tactic(auto, unfolding(fedi_town::specs::Addressing::implied_recipient))]
fn implied_recipient<'a>(
    facts: &'a Facts,
    deed: Deed,
    object: &'a ObjectRef,
    subject: Option<&'a Kept>,
) -> Option<&'a Iri>
    requires { option_copied subject
        ≡ subject_of facts.now.town deed (ref_id object.now) }
    ensures { option_copied result
        ≡ implied_recipient facts.now.town deed (ref_id object.now) }
{
    match deed {
        Deed::Follow => ref_id(object),
        Deed::Like | Deed::Announce | Deed::Accept | Deed::Reject => author_of(subject),
        Deed::Undo => undo_recipient(facts, subject?),
        Deed::Create | Deed::Update | Deed::Delete | Deed::Block | Deed::Other => None,
    }
}

// Whether an activity goes to nobody: a Block (ActivityPub, section 6.9), and the Undo of one.
fn is_silent(facts: &Facts, deed: Deed, object: &ObjectRef, subject: Option<&Kept>) -> bool
    requires { option_copied subject
        ≡ subject_of facts.now.town deed (ref_id object.now) }
    ensures { result ≡ is_silent facts.now.town deed (ref_id object.now) }
{
    match deed {
        Deed::Block => true,
        Deed::Undo => match subject {
            Some(undone) => is_block(undone),
            None => false,
        },
        Deed::Create
        | Deed::Update
        | Deed::Delete
        | Deed::Follow
        | Deed::Like
        | Deed::Announce
        | Deed::Accept
        | Deed::Reject
        | Deed::Other => false,
    }
}

// Adds one more to `to`, unless it is named already or is the author.
fn add_implied(
    author: &Iri,
    implied: Option<&Iri>,
    recipients: &mut Recipients,
) -> Result<(), AllocError>
    ensures { OnOk result (recipients.new
        ≡ with_implied author.now (option_copied implied.entry) recipients.old) }
{
    match implied {
        Some(iri) if !recipients.names(iri) && iri != author => { recipients.to.push(iri.clone()?) }
        Some(_) | None => Ok(()),
    }
}

/// Completes the recipients of a member's activity: nobody if it is to stay hidden, and otherwise
/// those it implies are named too. The error is out of memory.
#[tactic(auto, unfolding(fedi_town::specs::Addressing::complete_recipients))]
pub fn complete_recipients(
    alloc: Global,
    facts: &Facts,
    author: &Iri,
    deed: Deed,
    object: &ObjectRef,
    subject: Option<&Kept>,
    recipients: &mut Recipients,
) -> Result<(), AllocError>
    requires { option_copied subject
        ≡ subject_of facts.now.town deed (ref_id object.now) }
    ensures { OnOk result (recipients.new ≡ complete_recipients facts.now.town author.now deed
        (ref_id object.now) recipients.old) }
{
    if is_silent(facts, deed, object, subject) {
        *recipients = Recipients::empty(alloc);
        return Ok(());
    }
    let implied = implied_recipient(facts, deed, object, subject);
    add_implied(author, implied, recipients)
}
