//! The documents of collections that members make, and of their pages.

ghost use Rattle.std.specs.Prelude.{◌≡◌, ◌+◌, ◌≤◌, ◌++◌, IfOk, Some, map, option_copied};
ghost use Rattle.std.specs.Prelude.{option_map, reverse};
ghost use Rattle.serde_json.specs.Data.{string};
ghost use Rattle.serde_json.specs.Written.{compact_text};
ghost use Rattle.fedi_town.specs.Boards.{board_address, board_items};
ghost use Rattle.fedi_town.specs.Towns.{id_of};
ghost use Rattle.fedi_model.specs.Documents.{page_form};
ghost use Rattle.fedi_pins.specs.Costs.{items_cost};
ghost use Rattle.fedi_pins.specs.Held.{item_at};
ghost use Rattle.fedi_pins.specs.Pages.{IsPage, listing_of, page_text, summary_of};

use crate::items::write_items;
use crate::lists::boards_page;
use crate::pages::board_page;
use crate::pins::Listing;
use fedi_address::{Iri, LocalName};
use fedi_collections::{Address, begin_page, end_page, highest_page, summary_text};
use fedi_effects::{Facts, Steps};
use fedi_town::Caller;
use fedi_visible::{Shelf, VisiblePage};
use json::Writer;
use std::alloc::{AllocError, Global};
use std::sync::ledger::Ledger;

// The room for what is written besides the items, and for an item, in bytes. It grows if it is too
// small.
const FRAME: usize = 768;

const ITEM: usize = 128;

// What the member's collection of this name lists, or without a name the list of them.
fn listing_of(slug: Option<&LocalName>) -> Listing
    ensures { result ≡ listing_of (option_copied slug.entry) }
{
    match slug {
        Some(_) => Listing::Objects,
        None => Listing::Boards,
    }
}

// The collection whose id is that of the member with this path and this name after it.
fn address_at(
    alloc: Global,
    member: &Iri,
    path: &'static str,
    name: &str,
) -> Result<Address, AllocError>
    ensures { IfOk result (λ address. address ≡ member.now ++ (path.now ++ name.now)) }
{
    let mut id = String::with_capacity(alloc, member.text().len() + 3 + LocalName::LONGEST)?;
    id.push_str(member.text())?;
    id.push_str(path)?;
    id.push_str(name)?;
    Address::of_text(alloc, id)
}

// The member's collection of this name, or without a name the list of them.
fn board_address(
    alloc: Global,
    member: &Iri,
    slug: Option<&LocalName>,
) -> Result<Address, AllocError>
    ensures { IfOk result (λ address.
        address ≡ board_address member.now (option_copied slug.entry)) }
{
    match slug {
        Some(slug) => address_at(alloc, member, "/c/", slug.text()),
        None => address_at(alloc, member, "/c", ""),
    }
}

// The page of this number of what the caller sees in the member's collection of this name, which
// has this id, or without a name in the list of them. The error is out of memory.
fn visible_page<S: Shelf, L: Ledger>(
    alloc: Global,
    shelf: &S,
    caller: &Caller,
    name: &LocalName,
    member: &Iri,
    slug: Option<&LocalName>,
    id: &str,
    number: u64,
    steps: &mut Steps<L>,
) -> Result<VisiblePage, AllocError>
    requires member { id_of (S.holding shelf.now).town name.now ≡ Some member.now }
    requires id { id.now ≡ board_address member.now (option_copied slug) }
    ensures page { IfOk result (IsPage (S.holding shelf.now).town
        (listing_of (option_copied slug.entry)) (board_items (S.holding shelf.now).town
        caller.now member.now (option_copied slug.entry)) number) }
    ensures cost { steps.new ≤ steps.old + items_cost (S.pin_cost shelf.now)
        (S.holding shelf.now).town caller.now member.now (option_copied slug.entry) }
{
    match slug {
        Some(slug) => board_page(alloc, shelf, caller, name, member, slug, id, number, steps),
        None => boards_page(alloc, shelf, caller, name, member, number, steps),
    }
}

/// The JSON of the member's collection of this name, or without a name of the list of the member's
/// collections, without its items (ActivityStreams 2.0 Core, section 5): its id, the number of
/// items that the caller sees, and its newest and its oldest page if it has items. The error is out
/// of memory.
///
/// Of a collection, each Add and Remove that is directed to it is read twice; for the list, each
/// Add and Remove by the member is, and each collection once to which the caller sees an Add.
pub fn pin_summary<S: Shelf, L: Ledger>(
    alloc: Global,
    shelf: &S,
    caller: &Caller,
    name: &LocalName,
    member: &Iri,
    slug: Option<&LocalName>,
    steps: &mut Steps<L>,
) -> Result<Vec<u8>, AllocError>
    requires member { id_of (S.holding shelf.now).town name.now ≡ Some member.now }
    ensures text { IfOk result (λ text. text.items ≡ compact_text
        (summary_of (S.holding shelf.now).town caller.now member.now
        (option_copied slug.entry))) }
    ensures cost { steps.new ≤ steps.old + items_cost (S.pin_cost shelf.now)
        (S.holding shelf.now).town caller.now member.now (option_copied slug.entry) }
{
    let address = board_address(alloc, member, slug)?;
    let id = address.id();
    let page = visible_page(alloc, shelf, caller, name, member, slug, id, 0, steps)?;
    summary_text(alloc, address, page.total)
}

fn page_text<L: Ledger>(
    alloc: Global,
    facts: &Facts,
    listing: Listing,
    address: Address,
    number: u64,
    page: &VisiblePage,
    steps: &mut Steps<L>,
) -> Result<Vec<u8>, AllocError>
    ensures text { IfOk result (λ text. text.items ≡ compact_text
        (page_form address number page.now.total (map string
        (reverse (map (item_at facts.now.town listing) page.now.places.items))))) }
    ensures cost { steps.new ≤ steps.old + 20 }
{
    let mut address = address;
    let items = page.places.as_slice();
    let mut out = Writer::new(Vec::with_capacity(alloc, FRAME + ITEM * items.len())?);
    begin_page(&mut out, &mut address, number)?;
    write_items(&mut out, facts, listing, items, steps)?;
    end_page(&mut out, &mut address, number, page.total)?;
    Ok(out.into_inner())
}

/// The JSON of the page of this number of the member's collection of this name, or without a name
/// of the list of the member's collections (ActivityStreams 2.0 Core, section 5.2): the ids of up
/// to 20 of the items that the caller sees, the newest first, and the pages before and after it.
/// `None` is returned exactly if the page is above the highest, which has the newest item and is 0
/// for an empty collection. The error is out of memory.
///
/// It reads what `pin_summary` reads, and each of its items once more.
pub fn pin_page<S: Shelf, L: Ledger>(
    alloc: Global,
    shelf: &S,
    caller: &Caller,
    name: &LocalName,
    member: &Iri,
    slug: Option<&LocalName>,
    number: u64,
    steps: &mut Steps<L>,
) -> Result<Option<Vec<u8>>, AllocError>
    requires member { id_of (S.holding shelf.now).town name.now ≡ Some member.now }
    ensures text { IfOk result (λ page. option_map (λ text. text.items) page
        ≡ page_text (S.holding shelf.now).town caller.now member.now
        (option_copied slug.entry) number) }
    ensures cost { steps.new ≤ (steps.old + items_cost (S.pin_cost shelf.now)
        (S.holding shelf.now).town caller.now member.now (option_copied slug.entry)) + 20 }
{
    let address = board_address(alloc, member, slug)?;
    let id = address.id();
    let page = visible_page(alloc, shelf, caller, name, member, slug, id, number, steps)?;
    if number > highest_page(page.total) {
        return Ok(None);
    }
    let listing = listing_of(slug);
    let text = page_text(alloc, shelf.facts(), listing, address, number, &page, steps)?;
    Ok(Some(text))
}
