//! Pages of the list of a member's collections.

ghost use Rattle.std.specs.Prelude.{◌≡◌, ◌+◌, ◌≤◌, ◌&&◌, IfOk, Some, None};
ghost use Rattle.fedi_town.specs.Boards.{boards};
ghost use Rattle.fedi_town.specs.Towns.{id_of};
ghost use Rattle.fedi_pins.specs.Costs.{board_cost, cost_if, items_cost};
ghost use Rattle.fedi_pins.specs.Held.{is_filled, is_place, item_at};
ghost use Rattle.fedi_pins.specs.Maps.{place_in};
ghost use Rattle.fedi_pins.specs.Pages.{IsPage};
ghost use Rattle.fedi_pins.specs.declared.pins.Listing.TheVariants.{Boards};

use crate::held::{hold, is_held};
use crate::items::item_at;
use crate::pages::board_page;
use crate::pins::{Listing, board_slug};
use fedi_address::{Iri, LocalName};
use fedi_effects::Steps;
use fedi_town::Caller;
use fedi_visible::{Shelf, VisiblePage};
use std::alloc::{AllocError, Global};
use std::collections::BTreeMap;
use std::sync::ledger::Ledger;

// Whether this is the id of one of the member's collections, and the caller sees something in it.
// The error is out of memory.
fn is_filled<S: Shelf, L: Ledger>(
    alloc: Global,
    shelf: &S,
    caller: &Caller,
    name: &LocalName,
    member: &Iri,
    board: &str,
    steps: &mut Steps<L>,
) -> Result<bool, AllocError>
    requires { id_of (S.holding shelf.now).town name.now ≡ Some member.now }
    ensures value { IfOk result (λ filled. filled
        ≡ is_filled (S.holding shelf.now).town caller.now member.now board.now) }
    ensures cost { steps.new ≤ steps.old
        + board_cost (S.pin_cost shelf.now) (S.holding shelf.now).town board.now }
{
    match board_slug(member, board) {
        Some(slug) => {
            let page = board_page(alloc, shelf, caller, name, member, &slug, board, 0, steps)?;
            Ok(page.total > 0)
        }
        None => Ok(false),
    }
}

// Whether the activity at this position is the one by which a collection is listed, and the caller
// sees something in that. The error is out of memory.
fn is_filled_first<S: Shelf, L: Ledger>(
    alloc: Global,
    shelf: &S,
    caller: &Caller,
    name: &LocalName,
    member: &Iri,
    held: &BTreeMap<&str, usize>,
    place: usize,
    steps: &mut Steps<L>,
) -> Result<bool, AllocError>
    requires { id_of (S.holding shelf.now).town name.now ≡ Some member.now }
    ensures value { let id = item_at (S.holding shelf.now).town Boards place in
        IfOk result (λ listed. listed
        ≡ (is_filled (S.holding shelf.now).town caller.now member.now id
        && is_place place (place_in held.now id))) }
    ensures cost { let id = item_at (S.holding shelf.now).town Boards place in
        steps.new ≤ (steps.old + 1) + cost_if (is_place place (place_in held.now id))
        (S.pin_cost shelf.now) (S.holding shelf.now).town id }
{
    let board = item_at(shelf.facts(), Listing::Boards, place, steps);
    if !is_held(held, board, place) {
        return Ok(false);
    }
    is_filled(alloc, shelf, caller, name, member, board, steps)
}

/// The page of this number of the list of the member's collections in which the caller sees
/// something. Each Add and Remove by the member is read twice, and each collection once to which
/// the caller sees an Add. The error is out of memory.
pub(crate) fn boards_page<S: Shelf, L: Ledger>(
    alloc: Global,
    shelf: &S,
    caller: &Caller,
    name: &LocalName,
    member: &Iri,
    number: u64,
    steps: &mut Steps<L>,
) -> Result<VisiblePage, AllocError>
    requires { id_of (S.holding shelf.now).town name.now ≡ Some member.now }
    ensures page { IfOk result (IsPage (S.holding shelf.now).town Boards
        (boards (S.holding shelf.now).town caller.now member.now) number) }
    ensures cost { steps.new ≤ steps.old + items_cost (S.pin_cost shelf.now)
        (S.holding shelf.now).town caller.now member.now None }
{
    let found = shelf.pins(alloc, name, member, steps)?;
    let places = found.as_slice();
    let facts = shelf.facts();
    let held = hold(
        alloc,
        facts,
        caller,
        Listing::Boards,
        member,
        "",
        places,
        steps,
    )?;
    let mut page = VisiblePage::empty();
    for place in places {
        if is_filled_first(alloc, shelf, caller, name, member, &held, *place, steps)? {
            page.add(number, *place);
        }
    }
    Ok(page)
}
