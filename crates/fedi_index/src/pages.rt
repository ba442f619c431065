//! Pages of a collection. Only the candidates of the collection are read.

ghost use Rattle.std.specs.Prelude.{◌≡◌, ◌+◌, ◌*◌, ◌≤◌, drop, filter, length, take, true};
ghost use Rattle.std.specs.List.{list_any};
ghost use Rattle.fedi_index.specs.Candidates.{is_candidate};
ghost use Rattle.fedi_index.specs.Readers.{GoesTo, reader_id};
ghost use Rattle.fedi_town.specs.Collections.{is_item};
ghost use Rattle.fedi_town.specs.declared.act.Act.{Act};
ghost use Rattle.fedi_visible.specs.Places.{is_first, is_listed, is_same_seen, places_from};

use crate::reader::Reader;
use fedi_address::Iri;
use fedi_effects::{Facts, Steps, object_key};
use fedi_register::Kept;
use fedi_town::{Caller, Which};
use fedi_visible::{VisiblePage, is_item, is_same_seen};
use std::sync::ledger::Ledger;

// Whether an activity before this position is the same item and the caller sees it: an earlier
// Follow of the same actor by the same author. In all other collections no two activities are the
// same item.
fn comes_again(
    facts: &Facts,
    caller: &Caller,
    which: &Which,
    owner: &Iri,
    act: &Kept,
    place: usize,
) -> bool
    ensures { result ≡ list_any
        (is_same_seen facts.now.town caller.now which.now owner.now act.now)
        (take place facts.now.town.acts) }
{
    let is_same = |earlier: &Kept| is_same_seen(facts, caller, which, owner, act, earlier);
    match which {
        Which::Followers(_) => {
            facts.is_related_before(place, act.author(), owner.text(), is_same)
        }
        Which::Following(_) => facts.is_related_before(place, owner, object_key(act), is_same),
        _ => false,
    }
}

// Whether every candidate of the collection goes to the caller: those of the caller's own inbox do.
#[tactic(auto, using(crate::proofs::Readers::all_go))]
fn go_to_reader(reader: &Reader<'_>, which: &Which, owner: &Iri) -> bool
    ensures { (x : Act) → is_candidate which.now owner.now x ≡ true
        → GoesTo result (reader_id reader.now.town reader.now.caller) x }
{
    match which {
        Which::Inbox(_) => reader.is(owner),
        _ => false,
    }
}

// Whether the candidate is an item. In an inbox and an outbox all are.
#[tactic(auto, unfolding(crate::specs::Candidates::belongs, fedi_town::specs::Collections::is_item))]
fn is_item_too(act: &Kept, which: &Which, owner: &Iri) -> bool
    requires { is_candidate which.now owner.now act.now ≡ true }
    ensures { result ≡ is_item which.now owner.now act.now }
{
    match which {
        Which::Inbox(_) | Which::Outbox(_) => true,
        _ => is_item(act, which, owner),
    }
}

// Whether the candidate is an item that the caller sees, and no activity before this position is the
// same item.
#[tactic(auto, unfolding(fedi_visible::specs::Places::is_first, fedi_visible::specs::Places::is_seen_item))]
fn is_first<'a>(
    reader: &mut Reader<'a>,
    which: &Which,
    owner: &Iri,
    act: &'a Kept,
    place: usize,
    goes_to: bool,
) -> bool
    requires candidate { is_candidate which.now owner.now act.now ≡ true }
    requires goes { GoesTo goes_to (reader_id reader.old.town reader.old.caller) act.now }
    ensures value { result ≡ is_first reader.old.town reader.old.caller which.now owner.now
        (take place reader.old.town.acts) act.now }
    ensures same { reader.new ≡ reader.old }
{
    is_item_too(act, which, owner)
        && reader.sees(act, goes_to)
        && !comes_again(reader.facts(), reader.caller(), which, owner, act, place)
}

/// The page with this number of the collection that has these candidates. Each candidate is read
/// once.
pub(crate) fn page<L: Ledger>(
    facts: &Facts,
    candidates: &[usize],
    caller: &Caller,
    which: &Which,
    owner: &Iri,
    number: u64,
    steps: &mut Steps<L>,
) -> VisiblePage
    requires { candidates.now
        ≡ places_from (is_candidate which.now owner.now) 0 facts.now.town.acts }
    ensures total { result.total ≡ length
        (filter (is_listed facts.now.town caller.now which.now owner.now) candidates.now) }
    ensures places { result.places.items ≡ take 20 (drop (20 * number)
        (filter (is_listed facts.now.town caller.now which.now owner.now) candidates.now)) }
    ensures cost { steps.new ≤ steps.old + length candidates.now }
{
    let mut page = VisiblePage::empty();
    let mut reader = Reader::new(facts, caller);
    let goes_to = go_to_reader(&reader, which, owner);
    for place in candidates {
        let act = facts.shown(*place, steps);
        if is_first(&mut reader, which, owner, act, *place, goes_to) {
            page.add_act(number, *place, facts, act);
        }
    }
    page
}
