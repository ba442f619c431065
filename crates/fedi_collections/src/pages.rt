//! The documents of collections and of their pages. Out of memory is the only error.

ghost use Rattle.std.specs.Prelude.{◌≡◌, ◌+◌, ◌≤◌, IfOk, List, OnErr, OnOk, Some, map, reverse};
ghost use Rattle.std.specs.Prelude.{option_map, slice_get};
ghost use Rattle.serde_json.specs.Written.{compact_text};
ghost use Rattle.fedi_model.specs.Documents.{collection_id, embedded_form, item_form, page_form};
ghost use Rattle.fedi_model.specs.Documents.{summary_form};
ghost use Rattle.fedi_collections.specs.Drafts.{page_data, page_reply, reply_in};
ghost use Rattle.fedi_collections.specs.Items.{has_activities};
ghost use Rattle.fedi_collections.specs.Pages.{page_or_none, summary_of, total_of};
ghost use Rattle.fedi_objects.specs.Writing.{IsWritten};
ghost use Rattle.fedi_town.specs.Collections.{highest, owner_of};
ghost use Rattle.fedi_town.specs.declared.act.Act.{Act};

use crate::address::Address;
use crate::documents::{begin_page, end_page, highest_page, write_summary};
use crate::drafts::CollectionDraft;
use crate::items::{excerpts_of, write_excerpts, write_items};
use fedi_address::Iri;
use fedi_effects::{Facts, Steps};
use fedi_model::{Form, Reply};
use fedi_town::{Caller, Which};
use fedi_visible::{Excerpt, PAGE, Shelf, VisiblePage};
use http::StatusCode;
use json::Writer;
use std::alloc::{AllocError, Global};
use std::sync::ledger::Ledger;

// The room for what is written besides the items, and for an item, in bytes. It grows if it is too
// small.
const FRAME: usize = 768;

const EMBEDDED: usize = 640;

const ADDRESS: usize = 128;

// The number of a page above the highest of any collection, for which no item is kept.
const NO_PAGE: u64 = u64::MAX;

// The room for a page with this many items.
fn page_room(has_activities: bool, items: usize) -> usize
    ensures { result ≤ 13568 }
{
    let each = if has_activities { EMBEDDED } else { ADDRESS };
    FRAME + each * items.min(PAGE)
}

/// The JSON of the collection at this address, which has this many items, without them
/// (ActivityStreams 2.0 Core, section 5). The error is out of memory.
pub fn summary_text(alloc: Global, address: Address, total: u64) -> Result<Vec<u8>, AllocError>
    ensures { IfOk result (λ text. text.items ≡ compact_text (summary_form address total)) }
{
    let mut address = address;
    let mut out = Writer::new(Vec::with_capacity(alloc, FRAME)?);
    write_summary(&mut out, &mut address, total)?;
    Ok(out.into_inner())
}

/// The JSON of the owner's collection without its items (ActivityStreams 2.0 Core, section 5): its
/// id, the number of items that the reader sees, and its newest and its oldest page if it has
/// items. The owner is the member or the object with this id. It reads as many activities as a page
/// of the shelf.
pub fn summary<S: Shelf, L: Ledger>(
    alloc: Global,
    shelf: &S,
    caller: &Caller,
    which: &Which,
    owner: &Iri,
    steps: &mut Steps<L>,
) -> Result<Vec<u8>, AllocError>
    requires owner { owner_of (S.holding shelf.now).town which.now ≡ Some owner.now }
    ensures text { IfOk result (λ text. text.items ≡ compact_text
        (summary_of (S.holding shelf.now).town caller.now which.now owner.now)) }
    ensures cost { steps.new ≤ steps.old + S.page_cost shelf.now which.now owner.now }
{
    let page = shelf.visible_page(caller, which, owner, NO_PAGE, steps);
    summary_text(alloc, Address::of(alloc, which, owner)?, page.total)
}

// ---- pages that are written later

/// A page of activities. It no longer depends on the facts.
#[derive(Drop)]
pub struct PageDraft {
    address: Address,
    number: u64,
    // The number of items in the whole collection.
    total: u64,
    // The newest first.
    excerpts: Vec<Excerpt>,
}

impl PageDraft {
    fn write_in(&mut self, out: &mut Writer) -> Result<(), AllocError>
        ensures { OnOk result (IsWritten (page_data self.old) out.old out.new) }
    {
        begin_page(out, &mut self.address, self.number)?;
        write_excerpts(out, self.excerpts.as_slice())?;
        end_page(out, &mut self.address, self.number, self.total)
    }

    /// The JSON of the page. The error is out of memory.
    pub fn write(self, alloc: Global) -> Result<Vec<u8>, AllocError>
        ensures { IfOk result (λ text. text.items ≡ compact_text (page_data self)) }
    {
        let mut page = self;
        let room = page_room(true, page.excerpts.len());
        let mut out = Writer::new(Vec::with_capacity(alloc, room)?);
        page.write_in(&mut out)?;
        Ok(out.into_inner())
    }
}

// The page of this number, with the activities at its positions.
fn draft_activities<L: Ledger>(
    alloc: Global,
    facts: &Facts,
    which: &Which,
    owner: &Iri,
    number: u64,
    page: &VisiblePage,
    steps: &mut Steps<L>,
) -> Result<PageDraft, AllocError>
    ensures page { IfOk result (λ draft. (xs : List Act)
        → map (slice_get facts.now.town.acts) page.now.places.items ≡ map Some xs
        → page_data draft ≡ page_form (collection_id which.now owner.now) number page.now.total
        (map (embedded_form facts.now.town) (reverse xs))) }
    ensures cost { steps.new ≤ steps.old + 20 }
{
    let address = Address::of(alloc, which, owner)?;
    let excerpts = excerpts_of(alloc, facts, page.places.as_slice(), steps)?;
    Ok(PageDraft {
        address,
        number,
        total: page.total,
        excerpts,
    })
}

// ---- pages that are written at once

// Writes the page of this number, with the items at its positions among the activities.
fn write_page<L: Ledger>(
    out: &mut Writer,
    address: &mut Address,
    facts: &Facts,
    which: &Which,
    number: u64,
    page: &VisiblePage,
    steps: &mut Steps<L>,
) -> Result<(), AllocError>
    ensures written { OnOk result ((xs : List Act)
        → map (slice_get facts.now.town.acts) page.now.places.items ≡ map Some xs
        → IsWritten (page_form address.old number page.now.total
        (map (item_form facts.now.town which.now) (reverse xs))) out.old out.new) }
    ensures cost { steps.new ≤ steps.old + 20 }
{
    begin_page(out, address, number)?;
    write_items(out, facts, which, page.places.as_slice(), steps)?;
    end_page(out, address, number, page.total)
}

// The JSON of the page of this number, with the items at its positions among the activities.
fn page_text<L: Ledger>(
    alloc: Global,
    facts: &Facts,
    which: &Which,
    owner: &Iri,
    number: u64,
    page: &VisiblePage,
    steps: &mut Steps<L>,
) -> Result<Vec<u8>, AllocError>
    ensures text { IfOk result (λ text. (xs : List Act)
        → map (slice_get facts.now.town.acts) page.now.places.items ≡ map Some xs
        → text.items ≡ compact_text
        (page_form (collection_id which.now owner.now) number page.now.total
        (map (item_form facts.now.town which.now) (reverse xs)))) }
    ensures cost { steps.new ≤ steps.old + 20 }
{
    let mut address = Address::of(alloc, which, owner)?;
    let room = page_room(has_activities(which), page.places.as_slice().len());
    let mut out = Writer::new(Vec::with_capacity(alloc, room)?);
    write_page(&mut out, &mut address, facts, which, number, page, steps)?;
    Ok(out.into_inner())
}

// ---- pages

// Whether the items of the collection are activities, and not their ids.
fn has_activities(which: &Which) -> bool
    ensures { result ≡ has_activities which.now }
{
    matches!(which, Which::Inbox(_) | Which::Outbox(_))
}

// The page of this number, with the items at its positions among the activities. Ids have a limit,
// so a page of them is written at once.
fn draft_found<L: Ledger>(
    alloc: Global,
    facts: &Facts,
    which: &Which,
    owner: &Iri,
    number: u64,
    page: &VisiblePage,
    steps: &mut Steps<L>,
) -> Result<CollectionDraft, AllocError>
    ensures page { IfOk result (λ draft. (xs : List Act)
        → map (slice_get facts.now.town.acts) page.now.places.items ≡ map Some xs
        → reply_in draft ≡ page_reply
        (page_form (collection_id which.now owner.now) number page.now.total
        (map (item_form facts.now.town which.now) (reverse xs)))) }
    ensures cost { steps.new ≤ steps.old + 20 }
{
    if has_activities(which) && !page.is_brief {
        let draft = draft_activities(alloc, facts, which, owner, number, page, steps)?;
        return Ok(CollectionDraft::Page(draft));
    }
    let text = page_text(alloc, facts, which, owner, number, page, steps)?;
    let reply = Reply::document(StatusCode::OK, Form::Activity, text);
    Ok(CollectionDraft::Ready(reply))
}

/// The reply that shows the page of this number (ActivityStreams 2.0 Core, section 5.2): up to 20 of
/// the items that the reader sees, the newest first, and the pages before and after it. `None` is
/// returned exactly if the page is above the highest, which has the newest item and is 0 for an
/// empty collection; then it takes no memory. The owner is the member or the object with this id.
/// Besides the activities that a page of the shelf reads, each item is read once.
pub fn draft_page<S: Shelf, L: Ledger>(
    alloc: Global,
    shelf: &S,
    caller: &Caller,
    which: &Which,
    owner: &Iri,
    number: u64,
    steps: &mut Steps<L>,
) -> Result<Option<CollectionDraft>, AllocError>
    requires owner { owner_of (S.holding shelf.now).town which.now ≡ Some owner.now }
    ensures page { IfOk result (λ page. option_map reply_in page ≡ option_map page_reply
        (page_or_none (S.holding shelf.now).town caller.now which.now owner.now number)) }
    ensures memory { OnErr result (number
        ≤ highest (total_of (S.holding shelf.now).town caller.now which.now owner.now)) }
    ensures cost { steps.new ≤ steps.old + S.page_cost shelf.now which.now owner.now + 20 }
{
    let page = shelf.visible_page(caller, which, owner, number, steps);
    if number > highest_page(page.total) {
        return Ok(None);
    }
    let draft = draft_found(alloc, shelf.facts(), which, owner, number, &page, steps)?;
    Ok(Some(draft))
}
