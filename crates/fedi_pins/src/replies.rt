//! The replies to readers of collections that members make. Out of memory is the only error.

ghost use Rattle.std.specs.Prelude.{◌≡◌, ◌<◌, IfOk, IsTrue, OnErr, Some, false, option_copied};
ghost use Rattle.fedi_model.specs.Memory.{finds_board};
ghost use Rattle.fedi_model.specs.Reading.{board_answer, is_malformed};
ghost use Rattle.fedi_model.specs.Replies.{reply_of};
ghost use Rattle.fedi_town.specs.Towns.{id_of};

use crate::texts::{pin_page, pin_summary};
use fedi_address::{Iri, LocalName};
use fedi_effects::Steps;
use fedi_model::{Form, PageAsk, Reply, refusal_reply};
use fedi_town::{Caller, Refusal};
use fedi_visible::Shelf;
use http::StatusCode;
use std::alloc::{AllocError, Global};
use std::marker::Brand;
use std::sync::ledger::{Blank, Ledger};

// The reply to a reader of this part of the member's collection. The reads of activities are counted
// here, and the bounds are those of `pin_summary` and `pin_page`.
fn part_reply<S: Shelf, L: Ledger>(
    alloc: Global,
    shelf: &S,
    caller: &Caller,
    name: &LocalName,
    member: &Iri,
    slug: Option<&LocalName>,
    part: &PageAsk,
    blank: Blank,
) -> Result<Reply, AllocError>
    requires name { blank.name ≡ L.name }
    requires parts { blank.parts ≡ L.parts }
    requires some { 0 < blank.parts }
    requires member { id_of (S.holding shelf.now).town name.now ≡ Some member.now }
    ensures reply { IfOk result (λ r. r ≡ reply_of (board_answer (S.holding shelf.now).town
        caller.now (option_copied slug.entry) part.now (Some member.now))) }
    ensures memory { OnErr result (is_malformed part.now ≡ false) }
{
    let mut steps = Steps::<L>::new(blank);
    match part {
        PageAsk::Summary => {
            let text = pin_summary(alloc, shelf, caller, name, member, slug, &mut steps)?;
            Ok(Reply::document(StatusCode::OK, Form::Activity, text))
        }
        PageAsk::Page(number) => {
            match pin_page(
                alloc, shelf, caller, name, member, slug, *number, &mut steps,
            )? {
                Some(text) => Ok(Reply::document(StatusCode::OK, Form::Activity, text)),
                None => Ok(refusal_reply(Refusal::NotFound)),
            }
        }
        PageAsk::Malformed => Ok(refusal_reply(Refusal::BadQuery)),
    }
}

/// The reply to a reader of the collection of this name that the member makes, or without a name of
/// the list of the member's collections, or of a page of one of them (ActivityPub, sections 6.6 and
/// 6.7). `NotFound` if there is no such member or no page of that number; `BadQuery` if the page is
/// not a number.
pub fn board_reply<S: Shelf>(
    alloc: Global,
    shelf: &S,
    caller: &Caller,
    name: &LocalName,
    slug: Option<&LocalName>,
    part: &PageAsk,
) -> Result<Reply, AllocError>
    ensures reply { IfOk result (λ r. r ≡ reply_of (board_answer (S.holding shelf.now).town
        caller.now (option_copied slug.entry) part.now
        (id_of (S.holding shelf.now).town name.now))) }
    // A refusal never runs out of memory, except for a page above the highest, since the collection
    // is put together to find that.
    ensures memory { OnErr result (IsTrue (finds_board part.now
        (id_of (S.holding shelf.now).town name.now))) }
{
    match shelf.facts().id_of(name) {
        Some(member) => part_reply::<S, Brand>(
            alloc,
            shelf,
            caller,
            name,
            member,
            slug,
            part,
            Blank::new(1),
        ),
        None => Ok(refusal_reply(Refusal::NotFound)),
    }
}
