//! By which Adds the items are listed.

ghost use Rattle.std.specs.Prelude.{◌≡◌, ℕ, List, ◌+◌, ◌<◌, ◌≤◌, IfOk, IsTrue, None, OnOk, Some};
ghost use Rattle.std.specs.Prelude.{length, unwrap_or, if◌then◌else◌};
ghost use Rattle.std.specs.Str.{bytes_eq};
ghost use Rattle.fedi_pins.specs.Held.{held_at, held_by, holder, is_place, item_at};
ghost use Rattle.fedi_pins.specs.Maps.{HasAddsAlone, are_there, place_in};

use crate::pins::{Listing, is_remove, is_seen_change, item_key};
use fedi_address::Iri;
use fedi_effects::{Facts, Steps};
use fedi_register::Kept;
use fedi_town::Caller;
use std::alloc::{AllocError, Global};
use std::collections::BTreeMap;
use std::sync::ledger::Ledger;

// Puts the id in at this position, unless it is in already. Most ids are new, so it is put in at
// once, and one that was in gets its position back.
fn put<'a>(held: &mut BTreeMap<&'a str, usize>, id: &'a str, place: usize) -> Result<(), AllocError>
    ensures { OnOk result ((other : List ℕ) → place_in held.new other
        ≡ (if bytes_eq id.now other then Some (unwrap_or (place_in held.old other) place)
        else place_in held.old other)) }
{
    if let Some(first) = held.insert(id, place)? {
        held.insert(id, first)?;
    }
    Ok(())
}

// Takes the id out.
fn take_out(held: &mut BTreeMap<&str, usize>, id: &str)
    ensures { (other : List ℕ) → place_in held.new other
        ≡ (if bytes_eq id.now other then None else place_in held.old other) }
{
    let _ = held.remove(id);
}

// What the activity at this position does, if it changes what is listed and the caller sees it.
fn change<'a>(
    held: &mut BTreeMap<&'a str, usize>,
    facts: &Facts,
    caller: &Caller,
    listing: Listing,
    author: &Iri,
    board: &str,
    act: &'a Kept,
    place: usize,
) -> Result<(), AllocError>
    ensures { OnOk result ((id : List ℕ) → place_in held.new id
        ≡ held_by facts.now.town caller.now listing author.now board.now id
        (place_in held.old id) place act.now) }
{
    if !is_seen_change(facts, caller, listing, author, board, act) {
        return Ok(());
    }
    if is_remove(act.kind()) {
        take_out(held, item_key(listing, act));
        Ok(())
    } else {
        put(held, item_key(listing, act), place)
    }
}

// The same, for the activity at this position, which is read once.
fn change_at<'a, L: Ledger>(
    held: &mut BTreeMap<&'a str, usize>,
    facts: &'a Facts,
    caller: &Caller,
    listing: Listing,
    author: &Iri,
    board: &str,
    place: usize,
    steps: &mut Steps<L>,
) -> Result<(), AllocError>
    requires { place < length facts.now.town.acts }
    ensures held { OnOk result ((id : List ℕ) → place_in held.new id
        ≡ held_at facts.now.town caller.now listing author.now board.now id
        (place_in held.old id) place) }
    ensures cost { steps.new ≡ steps.old + 1 }
{
    let act = facts.shown(place, steps);
    change(held, facts, caller, listing, author, board, act, place)
}

/// The items that are listed for the caller after the activities at these positions, each with the
/// position of the Add by which it is listed. Each activity is read once. The error is out of
/// memory.
#[tactic(auto, using(crate::proofs::Positions::held_all))]
pub(crate) fn hold<'a, L: Ledger>(
    alloc: Global,
    facts: &'a Facts,
    caller: &Caller,
    listing: Listing,
    author: &Iri,
    board: &str,
    places: &[usize],
    steps: &mut Steps<L>,
) -> Result<BTreeMap<&'a str, usize>, AllocError>
    requires { IsTrue (are_there facts.now.town places.now) }
    ensures held { IfOk result (λ held. (id : List ℕ) → place_in held id
        ≡ holder facts.now.town caller.now listing author.now board.now places.now id) }
    ensures cost { steps.new ≤ steps.old + length places.now }
{
    let mut held = BTreeMap::new(alloc);
    for place in places {
        change_at(
            &mut held, facts, caller, listing, author, board, *place, steps,
        )?;
    }
    Ok(held)
}

/// Whether the Add at this position is the one by which this item is listed.
pub(crate) fn is_held(held: &BTreeMap<&str, usize>, id: &str, place: usize) -> bool
    ensures { result ≡ is_place place (place_in held.now id.now) }
{
    match held.get(id) {
        Some(holder) => *holder == place,
        None => false,
    }
}

/// Whether the activity at this position is the Add by which its item is listed. It is read once.
/// Nothing is listed by a Remove, so the map is not asked about its item.
pub(crate) fn lists_item<L: Ledger>(
    held: &BTreeMap<&str, usize>,
    facts: &Facts,
    listing: Listing,
    place: usize,
    steps: &mut Steps<L>,
) -> bool
    requires there { place < length facts.now.town.acts }
    requires adds { HasAddsAlone facts.now.town held.now }
    ensures value { result
        ≡ is_place place (place_in held.now (item_at facts.now.town listing place)) }
    ensures cost { steps.new ≡ steps.old + 1 }
{
    let act = facts.shown(place, steps);
    !is_remove(act.kind()) && is_held(held, item_key(listing, act), place)
}
