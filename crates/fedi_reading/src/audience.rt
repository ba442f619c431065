//! The recipients of an activity or an object.

ghost use Rattle.std.specs.Prelude.{◌≡◌, length, map, IfOk, OnOk};
ghost use Rattle.serde_json.specs.View.{view};
ghost use Rattle.fedi_address.specs.Recipients as recipients;
ghost use Rattle.fedi_reading.specs.Activities as activities;
ghost use Rattle.fedi_reading.specs.Reading as reading;
ghost use Rattle.fedi_reading.specs.Reading.{Checks};
ghost use Rattle.fedi_reading.specs.Shapes.{Gives};

use crate::properties::{entries_at, iri_of, named};
use crate::shape_fault::ShapeFault;
use fedi_address::{Iri, Items, Recipients, is_among};
use serde_json::Value;
use std::alloc::{AllocError, Global};

/// The maximum number of entries that the five fields of recipients may have, as they are written.
pub(crate) const MOST_ENTRIES: usize = 500;

// The recipient that a text names. The short names denote everyone (ActivityPub, section 5.6).
#[tactic(auto, unfolding(crate::specs::Reading::recipient, crate::specs::Reading::is_everyone))]
fn recipient(alloc: Global, text: &str) -> Result<Option<Iri>, AllocError>
    ensures { IfOk result (λ iri. iri ≡ reading.recipient text.now) }
{
    if text == "Public" || text == "as:Public" {
        Ok(Some(Iri::public(alloc)?))
    } else {
        iri_of(alloc, text)
    }
}

// The recipient that an entry names. An entry that names nothing is skipped.
#[tactic(auto, unfolding(crate::specs::Reading::reads_entry, crate::specs::Reading::is_bad, crate::specs::Reading::recipient_of))]
fn read_entry(alloc: Global, entry: &Value) -> Result<Option<Iri>, ShapeFault>
    ensures { Gives result (reading.reads_entry (view entry.now)) }
{
    let Some(text) = named(entry) else {
        return Ok(None);
    };
    match recipient(alloc, text)? {
        Some(iri) => Ok(Some(iri)),
        None => Err(ShapeFault::BadIri),
    }
}

// Adds an address that is not in the list yet.
fn add_new(kept: &mut Items<Iri>, iri: Iri) -> Result<(), AllocError>
    ensures { OnOk result (kept.new ≡ recipients.add_new kept.old iri) }
{
    if is_among(&iri, kept) {
        return Ok(());
    }
    kept.push(iri)
}

// Refuses an entry that names a recipient by an invalid address.
fn check_entries(alloc: Global, entries: &[Value]) -> Result<(), ShapeFault>
    ensures { Checks result (map view entries.now) }
{
    for entry in entries {
        read_entry(alloc, entry)?;
    }
    Ok(())
}

// Refuses such an entry in any of the five fields. The time is linear in the entries, while
// `read_recipients` compares each entry with all earlier ones.
#[tactic(auto, unfolding(crate::specs::Reading::all_entries))]
fn check_recipients(alloc: Global, value: &Value) -> Result<(), ShapeFault>
    ensures { Checks result (reading.all_entries (view value.now)) }
{
    check_entries(alloc, entries_at(value, "to"))?;
    check_entries(alloc, entries_at(value, "cc"))?;
    check_entries(alloc, entries_at(value, "bto"))?;
    check_entries(alloc, entries_at(value, "bcc"))?;
    check_entries(alloc, entries_at(value, "audience"))
}

// Adds each address of a field that is not in the list yet.
fn add_entries(alloc: Global, kept: &mut Items<Iri>, entries: &[Value]) -> Result<(), ShapeFault>
    ensures bad { Checks result (map view entries.now) }
    ensures added { OnOk result (kept.new ≡ reading.add_all kept.old (map view entries.now)) }
{
    for entry in entries {
        if let Some(iri) = read_entry(alloc, entry)? {
            add_new(kept, iri)?;
        }
    }
    Ok(())
}

// The addresses of a field, each once.
#[tactic(auto, unfolding(crate::specs::Reading::reads_entries, fedi_address::specs::Recipients::distinct))]
fn read_entries(alloc: Global, entries: &[Value]) -> Result<Items<Iri>, ShapeFault>
    ensures { Gives result (reading.reads_entries (map view entries.now)) }
{
    let mut kept = Items::empty(alloc);
    add_entries(alloc, &mut kept, entries)?;
    Ok(kept)
}

// The five fields of recipients.
#[tactic(auto, unfolding(crate::specs::Reading::reads_recipients, crate::specs::Reading::reads_fields))]
fn read_recipients(alloc: Global, value: &Value) -> Result<Recipients, ShapeFault>
    ensures { Gives result (reading.reads_recipients (view value.now)) }
{
    Ok(Recipients {
        to: read_entries(alloc, entries_at(value, "to"))?,
        cc: read_entries(alloc, entries_at(value, "cc"))?,
        bto: read_entries(alloc, entries_at(value, "bto"))?,
        bcc: read_entries(alloc, entries_at(value, "bcc"))?,
        audience: read_entries(alloc, entries_at(value, "audience"))?,
    })
}

// How many entries the five fields have, as they are written.
#[tactic(auto, unfolding(crate::specs::Reading::all_entries))]
fn entry_count(value: &Value) -> usize
    ensures { result ≡ length (reading.all_entries (view value.now)) }
{
    entries_at(value, "to").len()
        + entries_at(value, "cc").len()
        + entries_at(value, "bto").len()
        + entries_at(value, "bcc").len()
        + entries_at(value, "audience").len()
}

// The five fields of recipients, if they have at most `most` entries. The time is linear in the
// entries, however many there are.
#[tactic(auto, unfolding(crate::specs::Reading::reads_few))]
pub(crate) fn read_few(alloc: Global, value: &Value, most: usize) -> Result<Recipients, ShapeFault>
    ensures { Gives result (reading.reads_few most (view value.now)) }
{
    if entry_count(value) > most {
        check_recipients(alloc, value)?;
        return Err(ShapeFault::TooManyRecipients);
    }
    read_recipients(alloc, value)
}

// The recipients of an activity and those of its object, if each have at most `most` entries. The
// time is linear in the entries, however many there are.
#[tactic(auto, unfolding(crate::specs::Reading::reads_both))]
pub(crate) fn read_both(
    alloc: Global,
    value: &Value,
    object: &Value,
    most: usize,
) -> Result<(Recipients, Recipients), ShapeFault>
    ensures { Gives result (reading.reads_both most (view value.now) (view object.now)) }
{
    if entry_count(value) > most || entry_count(object) > most {
        check_recipients(alloc, value)?;
        check_recipients(alloc, object)?;
        return Err(ShapeFault::TooManyRecipients);
    }
    let recipients = read_recipients(alloc, value)?;
    let others = read_recipients(alloc, object)?;
    Ok((recipients, others))
}

// The recipients of a Create and its object: each field has those of the Create, followed by those
// of its object that the Create does not name.
#[tactic(auto, unfolding(crate::specs::Activities::reads_audience))]
pub(crate) fn read_audience(
    alloc: Global,
    value: &Value,
    object: &Value,
) -> Result<Recipients, ShapeFault>
    ensures { Gives result (activities.reads_audience (view value.now) (view object.now)) }
{
    let (mut recipients, others) = read_both(alloc, value, object, MOST_ENTRIES)?;
    recipients.merge(&others)?;
    if recipients.count() > MOST_ENTRIES {
        return Err(ShapeFault::TooManyRecipients);
    }
    Ok(recipients)
}
