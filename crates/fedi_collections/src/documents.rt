//! What a collection and a page hold besides their items. Out of memory is the only error.

ghost use Rattle.std.specs.Prelude.{◌≡◌, OnOk, codes};
ghost use Rattle.fedi_model.specs.Documents.{page_id, summary_form};
ghost use Rattle.fedi_collections.specs.Members.{first_member, last_member, next_member, page_end};
ghost use Rattle.fedi_collections.specs.Members.{page_start, prev_member};
ghost use Rattle.fedi_objects.specs.Writing.{Adds, IsWritten};
ghost use Rattle.fedi_town.specs.Collections.{highest};

use crate::address::Address;
use crate::members::{begin_document, end_document, write_total};
use fedi_objects::write_str;
use fedi_visible::PAGE;
use json::Writer;
use std::alloc::AllocError;

/// The number of the highest page for this many items. It has the newest.
pub fn highest_page(total: u64) -> u64
    ensures { result ≡ highest total }
{
    total.saturating_sub(1) / PAGE as u64
}

// Writes which page is the newest, if there are items.
#[tactic(auto, using(crate::proofs::DocumentParts::some_first))]
fn write_first(out: &mut Writer, address: &mut Address, total: u64) -> Result<(), AllocError>
    ensures written { OnOk result (Adds (first_member address.old total) out.old out.new) }
    ensures same { address.new ≡ address.old }
{
    if total > 0 {
        address.write_page(out, "first", highest_page(total))
    } else {
        Ok(())
    }
}

// Writes which page is the oldest, if there are items.
#[tactic(auto, using(crate::proofs::DocumentParts::some_last))]
fn write_last(out: &mut Writer, address: &mut Address, total: u64) -> Result<(), AllocError>
    ensures written { OnOk result (Adds (last_member address.old total) out.old out.new) }
    ensures same { address.new ≡ address.old }
{
    if total > 0 {
        address.write_page(out, "last", 0)
    } else {
        Ok(())
    }
}

/// Writes a collection without its items (ActivityStreams 2.0 Core, section 5).
pub(crate) fn write_summary(
    out: &mut Writer,
    address: &mut Address,
    total: u64,
) -> Result<(), AllocError>
    ensures { OnOk result (IsWritten (summary_form address.old total) out.old out.new) }
{
    begin_document(out)?;
    write_first(out, address, total)?;
    write_str(out, "id", address.id())?;
    write_last(out, address, total)?;
    write_total(out, total)?;
    end_document(out, "OrderedCollection")
}

// Writes which page has older items, if there are any.
#[tactic(auto, using(crate::proofs::DocumentParts::some_next))]
fn write_next(out: &mut Writer, address: &mut Address, number: u64) -> Result<(), AllocError>
    ensures written { OnOk result (Adds (next_member address.old number) out.old out.new) }
    ensures same { address.new ≡ address.old }
{
    if number > 0 {
        address.write_page(out, "next", number - 1)
    } else {
        Ok(())
    }
}

// Writes which page has newer items, if there are any.
#[tactic(auto, unfolding(crate::specs::Members::prev_member))]
fn write_prev(
    out: &mut Writer,
    address: &mut Address,
    number: u64,
    highest: u64,
) -> Result<(), AllocError>
    ensures written { OnOk result
        (Adds (prev_member address.old number highest) out.old out.new) }
    ensures same { address.new ≡ address.old }
{
    if number < highest {
        address.write_page(out, "prev", number + 1)
    } else {
        Ok(())
    }
}

/// Writes the beginning of a page (ActivityStreams 2.0 Core, section 5.2), up to its items. The
/// error is out of memory.
pub fn begin_page(out: &mut Writer, address: &mut Address, number: u64) -> Result<(), AllocError>
    ensures written { OnOk result (Adds (page_start address.old number) out.old out.new) }
    ensures same { address.new ≡ address.old }
{
    begin_document(out)?;
    address.write_page(out, "id", number)?;
    write_next(out, address, number)?;
    out.key("orderedItems")
}

/// Writes what follows the items of a page of a collection with this many items. The error is out of
/// memory.
pub fn end_page(
    out: &mut Writer,
    address: &mut Address,
    number: u64,
    total: u64,
) -> Result<(), AllocError>
    ensures { OnOk result (Adds (page_end address.old number total) out.old out.new) }
{
    write_str(out, "partOf", address.id())?;
    write_prev(out, address, number, highest_page(total))?;
    end_document(out, "OrderedCollectionPage")
}
