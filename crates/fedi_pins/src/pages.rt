//! Pages of a collection that a member makes.

ghost use Rattle.std.specs.Prelude.{◌≡◌, ◌+◌, ◌*◌, ◌≤◌, IfOk, Some, length};
ghost use Rattle.fedi_town.specs.Boards.{board_id, pinned, pinned_by};
ghost use Rattle.fedi_town.specs.Seeing.{seen};
ghost use Rattle.fedi_town.specs.Towns.{id_of};
ghost use Rattle.fedi_visible.specs.Pins.{directed_places};
ghost use Rattle.fedi_pins.specs.Costs.{board_cost};
ghost use Rattle.fedi_pins.specs.Pages.{IsPage};
ghost use Rattle.fedi_pins.specs.declared.pins.Listing.TheVariants.{Objects};

use crate::held::{hold, lists_item};
use crate::pins::Listing;
use fedi_address::{Iri, LocalName};
use fedi_effects::{Facts, Steps};
use fedi_town::Caller;
use fedi_visible::{Shelf, VisiblePage};
use std::alloc::{AllocError, Global};
use std::sync::ledger::Ledger;

// The page of this number of the author's collection with this id, by the positions of the
// activities that are directed to it. Each of them is read twice. The error is out of memory.
fn pinned_page<L: Ledger>(
    alloc: Global,
    facts: &Facts,
    caller: &Caller,
    author: &Iri,
    board: &str,
    places: &[usize],
    number: u64,
    steps: &mut Steps<L>,
) -> Result<VisiblePage, AllocError>
    requires { places.now ≡ directed_places facts.now.town board.now }
    ensures page { IfOk result (IsPage facts.now.town Objects
        (pinned_by author.now board.now (seen facts.now.town caller.now)) number) }
    ensures cost { steps.new ≤ steps.old + 2 * length places.now }
{
    let held = hold(
        alloc,
        facts,
        caller,
        Listing::Objects,
        author,
        board,
        places,
        steps,
    )?;
    let mut page = VisiblePage::empty();
    for place in places {
        if lists_item(&held, facts, Listing::Objects, *place, steps) {
            page.add(number, *place);
        }
    }
    Ok(page)
}

/// The page of this number of what the caller sees in the member's collection of this name, whose
/// id is `board`. Each Add and Remove that is directed to it is read twice, and no other activity
/// but those that are read to find these. The error is out of memory.
pub(crate) fn board_page<S: Shelf, L: Ledger>(
    alloc: Global,
    shelf: &S,
    caller: &Caller,
    name: &LocalName,
    member: &Iri,
    slug: &LocalName,
    board: &str,
    number: u64,
    steps: &mut Steps<L>,
) -> Result<VisiblePage, AllocError>
    requires member { id_of (S.holding shelf.now).town name.now ≡ Some member.now }
    requires board { board.now ≡ board_id member.now slug.now }
    ensures page { IfOk result (IsPage (S.holding shelf.now).town Objects
        (pinned (S.holding shelf.now).town caller.now member.now slug.now) number) }
    ensures cost { steps.new ≤ steps.old
        + board_cost (S.pin_cost shelf.now) (S.holding shelf.now).town board.now }
{
    let places = shelf.directed(alloc, name, member, slug, board, steps)?;
    pinned_page(
        alloc,
        shelf.facts(),
        caller,
        member,
        board,
        places.as_slice(),
        number,
        steps,
    )
}
