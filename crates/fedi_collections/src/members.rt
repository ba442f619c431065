//! Members of a document, written directly. Out of memory is the only error.

ghost use Rattle.std.specs.Prelude.{OnOk};
ghost use Rattle.fedi_collections.specs.Members.{document_end, document_start, total_member};
ghost use Rattle.fedi_objects.specs.Writing.{Adds};

use fedi_objects::{CONTEXT, write_str};
use json::Writer;
use std::alloc::AllocError;

/// Writes the beginning of a document, with its context (ActivityStreams 2.0 Core, section 2.1).
#[tactic(auto, unfolding(crate::specs::Members::document_start))]
pub(crate) fn begin_document(out: &mut Writer) -> Result<(), AllocError>
    ensures { OnOk result (Adds document_start out.old out.new) }
{
    out.begin_object()?;
    write_str(out, "@context", CONTEXT)
}

/// Writes the type of a document, which is its last member.
#[tactic(auto, unfolding(crate::specs::Members::document_end))]
pub(crate) fn end_document(out: &mut Writer, kind: &str) -> Result<(), AllocError>
    ensures { OnOk result (Adds (document_end kind.now) out.old out.new) }
{
    write_str(out, "type", kind)?;
    out.end_object()
}

/// Writes the number of items in a collection.
#[tactic(auto, unfolding(crate::specs::Members::total_member))]
pub(crate) fn write_total(out: &mut Writer, total: u64) -> Result<(), AllocError>
    ensures { OnOk result (Adds (total_member total) out.old out.new) }
{
    out.key("totalItems")?;
    out.u64(total)
}
