//! The Adds and Removes, from which the contents of the collections that members make follow
//! (ActivityPub, sections 6.6 and 6.7).

ghost use Rattle.std.specs.Prelude.{◌≡◌, ◌≤◌, ◌+◌, Bool, IfOk, length};
ghost use Rattle.std.specs.Fn.{FnReturnsAt};
ghost use Rattle.fedi_register.specs.Marks.{Decides};
ghost use Rattle.fedi_town.specs.declared.act.Act.{Act};
ghost use Rattle.fedi_town.specs.Boards.{is_pin_kind};
ghost use Rattle.fedi_visible.specs.Pins.{directed_places, is_directed, is_pin_kind_by, pin_places};
ghost use Rattle.fedi_visible.specs.Places.{places_from};

use fedi_address::Iri;
use fedi_effects::{Facts, Steps, is_by};
use fedi_objects::Kind;
use fedi_register::Kept;
use std::alloc::{AllocError, Global};
use std::sync::ledger::Ledger;

/// Whether an activity of this type puts something into a collection or takes it out.
pub fn is_pin_kind(kind: Kind) -> bool
    ensures { result ≡ is_pin_kind kind }
{
    matches!(kind, Kind::Add | Kind::Remove)
}

/// Whether the activity is an Add or a Remove that is directed to the collection with this id,
/// whoever made that collection.
#[tactic(auto, unfolding(crate::specs::Pins::is_directed))]
pub fn is_directed(act: &Kept, board: &str) -> bool
    ensures { result ≡ is_directed board.now act.now }
{
    is_pin_kind(act.kind()) && act.target().is_some_and(|target| target.text() == board)
}

#[tactic(auto, unfolding(crate::specs::Pins::is_pin_kind_by))]
fn is_pin_kind_by(act: &Kept, author: &Iri) -> bool
    ensures { result ≡ is_pin_kind_by author.now act.now }
{
    is_pin_kind(act.kind()) && is_by(act, author)
}

// The positions of the activities that pass the test, in order. Each activity is read once. The
// error is out of memory.
fn places_where<L: Ledger, F: Fn(&Kept) -> bool>(
    alloc: Global,
    facts: &Facts,
    passes: F,
    steps: &mut Steps<L>,
) -> Result<Vec<usize>, AllocError>
    requires { F.IsAlwaysCallable passes }
    ensures places { (p : Act → Bool) → Decides (FnReturnsAt F.Fn passes) p
        → IfOk result (λ places. places.items ≡ places_from p 0 facts.now.town.acts) }
    ensures cost { steps.new ≤ steps.old + length facts.now.town.acts }
{
    let mut places = Vec::new(alloc);
    for place in 0..facts.activities() {
        if passes(facts.shown(place, steps)) {
            places.push(place)?;
        }
    }
    Ok(places)
}

/// The positions of the Adds and Removes by the author, in order. Each activity is read once. The
/// error is out of memory.
pub fn pin_places<L: Ledger>(
    alloc: Global,
    facts: &Facts,
    author: &Iri,
    steps: &mut Steps<L>,
) -> Result<Vec<usize>, AllocError>
    ensures places { IfOk result (λ places. places.items ≡ pin_places facts.now.town author.now) }
    ensures cost { steps.new ≤ steps.old + length facts.now.town.acts }
{
    places_where(alloc, facts, |act| is_pin_kind_by(act, author), steps)
}

/// The positions of the Adds and Removes that are directed to the collection with this id, in
/// order. Each activity is read once. The error is out of memory.
pub fn directed_places<L: Ledger>(
    alloc: Global,
    facts: &Facts,
    board: &str,
    steps: &mut Steps<L>,
) -> Result<Vec<usize>, AllocError>
    ensures places { IfOk result (λ places. places.items
        ≡ directed_places facts.now.town board.now) }
    ensures cost { steps.new ≤ steps.old + length facts.now.town.acts }
{
    places_where(alloc, facts, |act| is_directed(act, board), steps)
}
