//! The items of a page: written from the facts, or found there and written later. Out of memory is
//! the only error.

ghost use Rattle.std.specs.Prelude.{◌≡◌, ◌+◌, ◌++◌, ◌≤◌, IfOk, List, OnOk, Some, length, map};
ghost use Rattle.std.specs.Prelude.{option_copied, reverse, slice_get};
ghost use Rattle.serde_json.specs.Data.{array};
ghost use Rattle.serde_json.specs.View.{items_of};
ghost use Rattle.fedi_model.specs.Documents.{embedded_form, item_form};
ghost use Rattle.fedi_collections.specs.Items.{excerpt_form, forms_at, tokens_at};
ghost use Rattle.fedi_objects.specs.Writing.{Adds, IsWritten};
ghost use Rattle.fedi_town.specs.Collections.{text_of};
ghost use Rattle.fedi_town.specs.declared.act.Act.{Act};

use fedi_address::Iri;
use fedi_effects::{Facts, Steps};
use fedi_objects::write_activity;
use fedi_register::Kept;
use fedi_town::Which;
use fedi_visible::{Excerpt, excerpt_of, shown_of};
use json::Writer;
use std::alloc::{AllocError, Global};
use std::sync::ledger::Ledger;

// ---- items that are written from the facts

// Writes an activity as it appears in a page.
fn write_embedded(out: &mut Writer, facts: &Facts, act: &Kept) -> Result<(), AllocError>
    ensures { OnOk result (IsWritten (embedded_form facts.now.town act.now) out.old out.new) }
{
    write_activity(out, &shown_of(facts, act), false)
}

fn text_or_empty(iri: Option<&Iri>) -> &str
    ensures { result.now ≡ text_of (option_copied iri.entry) }
{
    match iri {
        Some(iri) => iri.text(),
        None => "",
    }
}

// Writes an item of this collection.
fn write_item(out: &mut Writer, facts: &Facts, which: &Which, act: &Kept) -> Result<(), AllocError>
    ensures { OnOk result
        (IsWritten (item_form facts.now.town which.now act.now) out.old out.new) }
{
    match which {
        Which::Inbox(_) | Which::Outbox(_) => write_embedded(out, facts, act),
        Which::Followers(_) => out.string(act.author().text()),
        Which::Following(_) | Which::Liked(_) => out.string(text_or_empty(act.object_id())),
        Which::Likes(..) | Which::Shares(..) => out.string(text_or_empty(act.id())),
    }
}

// Writes the item at this position among the activities, if there is one.
fn write_place<L: Ledger>(
    out: &mut Writer,
    facts: &Facts,
    which: &Which,
    place: usize,
    steps: &mut Steps<L>,
) -> Result<(), AllocError>
    ensures written { OnOk result (Adds (tokens_at (item_form facts.now.town which.now)
        (slice_get facts.now.town.acts place)) out.old out.new) }
    ensures cost { steps.new ≤ steps.old + 1 }
{
    if place < facts.activities() {
        write_item(out, facts, which, facts.shown(place, steps))
    } else {
        Ok(())
    }
}

/// Writes the items at these positions among the activities, the last one first. Each is read once.
pub(crate) fn write_items<L: Ledger>(
    out: &mut Writer,
    facts: &Facts,
    which: &Which,
    places: &[usize],
    steps: &mut Steps<L>,
) -> Result<(), AllocError>
    ensures written { OnOk result ((xs : List Act)
        → map (slice_get facts.now.town.acts) places.now ≡ map Some xs
        → IsWritten (array (items_of (map (item_form facts.now.town which.now) (reverse xs))))
        out.old out.new) }
    ensures cost { steps.new ≤ steps.old + length places.now }
{
    out.begin_array()?;
    for place in places.iter().rev() {
        write_place(out, facts, which, *place, steps)?;
    }
    out.end_array()
}

// ---- activities that are written later

// Adds an excerpt of the activity at this position, if there is one.
fn add_excerpt<L: Ledger>(
    alloc: Global,
    excerpts: &mut Vec<Excerpt>,
    facts: &Facts,
    place: usize,
    steps: &mut Steps<L>,
) -> Result<(), AllocError>
    ensures added { OnOk result (map excerpt_form excerpts.new.items
        ≡ map excerpt_form excerpts.old.items
        ++ forms_at (embedded_form facts.now.town) (slice_get facts.now.town.acts place)) }
    ensures cost { steps.new ≤ steps.old + 1 }
{
    if place < facts.activities() {
        let excerpt = excerpt_of(alloc, facts, facts.shown(place, steps))?;
        excerpts.push(excerpt)?;
    }
    Ok(())
}

/// Excerpts of the activities at these positions, the last one first. Each is read once.
pub(crate) fn excerpts_of<L: Ledger>(
    alloc: Global,
    facts: &Facts,
    places: &[usize],
    steps: &mut Steps<L>,
) -> Result<Vec<Excerpt>, AllocError>
    ensures forms { IfOk result (λ excerpts. (xs : List Act)
        → map (slice_get facts.now.town.acts) places.now ≡ map Some xs
        → map excerpt_form excerpts.items ≡ map (embedded_form facts.now.town) (reverse xs)) }
    ensures cost { steps.new ≤ steps.old + length places.now }
{
    let mut excerpts = Vec::with_capacity(alloc, places.len())?;
    for place in places.iter().rev() {
        add_excerpt(alloc, &mut excerpts, facts, *place, steps)?;
    }
    Ok(excerpts)
}

// Writes an activity as it appears in a page.
fn write_excerpt(out: &mut Writer, excerpt: &Excerpt) -> Result<(), AllocError>
    ensures { OnOk result (IsWritten (excerpt_form excerpt.now) out.old out.new) }
{
    write_activity(out, &excerpt.shown(), false)
}

/// Writes the activities, in order.
pub(crate) fn write_excerpts(out: &mut Writer, excerpts: &[Excerpt]) -> Result<(), AllocError>
    ensures { OnOk result
        (IsWritten (array (items_of (map excerpt_form excerpts.now))) out.old out.new) }
{
    out.begin_array()?;
    for excerpt in excerpts {
        write_excerpt(out, excerpt)?;
    }
    out.end_array()
}
