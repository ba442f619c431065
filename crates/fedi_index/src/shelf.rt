//! A shelf that keeps the positions of the candidates of each collection.

ghost use Rattle.std.specs.Prelude.{◌≡◌, ◌≤◌, ◌++◌, ◌∷◌, [], ◌+◌, ◌*◌, IfOk, IsTrue, None, OnErr};
ghost use Rattle.std.specs.Prelude.{OnOk, Some, drop, length, map, slice_get, take};
ghost use Rattle.fedi_effects.specs.Holdings.{Holding};
ghost use Rattle.fedi_index.specs.Candidates.{is_candidate};
ghost use Rattle.fedi_index.specs.Shelves.{IsNamed};
ghost use Rattle.fedi_town.specs.Boards.{board_id};
ghost use Rattle.fedi_town.specs.Collections.{items, owner_of};
ghost use Rattle.fedi_town.specs.Histories.{town};
ghost use Rattle.fedi_town.specs.Legal.{IsLegal, is_admissible};
ghost use Rattle.fedi_town.specs.Towns.{empty_town, id_of};
ghost use Rattle.fedi_visible.specs.Pins.{directed_places, pin_places};
ghost use Rattle.fedi_visible.specs.Places.{places_from};

use crate::collection::Collection;
use crate::growing::{add_coming, reserve_coming};
use crate::lists::Lists;
use crate::pages::page;
use fedi_address::{Iri, LocalName};
use fedi_effects::{Facts, Seed, Steps};
use fedi_objects::Entry;
use fedi_town::{Caller, Which};
use fedi_visible::{Shelf, VisiblePage};
use std::alloc::{AllocError, Global};
use std::marker::Model;
use std::sync::ledger::Ledger;

/// The facts of a legal history, with the positions of the candidates of each collection of this
/// host, and of the Adds and Removes by each member and to each collection that a member makes. A
/// page reads each of its candidates once, and no other activity.
pub struct IndexedShelf {
    facts: Facts,
    lists: Lists,
}

// Written out, so that a caller does not prove again how each part is dropped.
impl Drop for IndexedShelf {
    fn drop(self) {
        let IndexedShelf { facts: _, lists: _ } = self;
    }
}

impl Model for IndexedShelf {
    ghost use Rattle.fedi_effects.specs.Holdings.{Holding};
    ghost use Rattle.fedi_index.specs.Shelves.{IsShelf};

    ghost Value = { Holding };

    ghost view = { λ shelf. shelf.facts };

    ghost invariant = { λ shelf. IsShelf shelf.facts shelf.lists };
}

// A collection of an object has the name of a member and a number.
fn is_named(which: &Which)
    ensures { IsNamed which.now }
{
    match which {
        Which::Likes(name, number) | Which::Shares(name, number) => {
            let _name = name.text();
            let _number = *number;
        }
        _ => {}
    }
}

// A copy of the positions. The error is out of memory.
fn copy_of(alloc: Global, places: &[usize]) -> Result<Vec<usize>, AllocError>
    ensures { IfOk result (λ copy. copy.items ≡ places.now) }
{
    let mut copy = Vec::new(alloc);
    copy.extend_from_slice(places)?;
    Ok(copy)
}

impl IndexedShelf {
    /// An empty shelf, without entries. The seed is for the marks used in all look-ups. The error
    /// is out of memory.
    pub fn empty(alloc: Global, seed: Seed) -> Result<IndexedShelf, AllocError>
        ensures { IfOk result (λ shelf.
            shelf ≡ record { history = []; town = empty_town; room = None }) }
    {
        let facts = Facts::empty(alloc, seed)?;
        Ok(IndexedShelf {
            facts,
            lists: Lists::empty(alloc, seed),
        })
    }

    /// The positions, among the activities, of the candidates of the owner's collection, in order.
    /// The candidates are the activities that match its rule (ActivityPub, section 5), in any state
    /// and whoever may see them. The owner is the member or the object that the collection belongs
    /// to. This allocates nothing.
    pub fn candidates(&self, which: &Which, owner: &Iri) -> &[usize]
        requires { owner_of self.now.town which.now ≡ Some owner.now }
        ensures { result.now
            ≡ places_from (is_candidate which.now owner.now) 0 self.now.town.acts }
    {
        is_named(which);
        self.lists.places(Collection::of(which), owner.text())
    }

    /// The positions, among the activities, of the Adds and Removes by the member with this name
    /// and this id, in order, whoever may see them (ActivityPub, sections 6.6 and 6.7). This
    /// allocates nothing.
    pub fn pins_by(&self, name: &LocalName, member: &Iri) -> &[usize]
        requires { id_of self.now.town name.now ≡ Some member.now }
        ensures { result.now ≡ pin_places self.now.town member.now }
    {
        self.lists.places(Collection::Pins, member.text())
    }

    /// The positions, among the activities, of the Adds and Removes that are directed to the
    /// member's collection with this name, whose id is `board`, in order, by anybody and whoever may
    /// see them (ActivityPub, sections 6.6 and 6.7). This allocates nothing.
    pub fn pins_of(&self, name: &LocalName, member: &Iri, slug: &LocalName, board: &str) -> &[usize]
        requires member { id_of self.now.town name.now ≡ Some member.now }
        requires board { board.now ≡ board_id member.now slug.now }
        ensures { result.now ≡ directed_places self.now.town board.now }
    {
        let _slug = slug.text();
        self.lists.places(Collection::Board, board)
    }
}

impl Shelf for IndexedShelf {
    ghost holding = { λ shelf. shelf };

    ghost page_cost = { λ shelf which owner.
        length (places_from (is_candidate which owner) 0 shelf.town.acts) };

    ghost pin_cost = { λ shelf. 0 };

    fn facts(&self) -> &Facts {
        &self.facts
    }

    fn reserve(&mut self, alloc: Global, entry: &Entry) -> Result<(), AllocError> {
        self.facts.reserve(alloc, entry)?;
        match reserve_coming(&mut self.lists, alloc, &self.facts) {
            Ok(()) => Ok(()),
            Err(error) => {
                self.facts.release();
                Err(error)
            }
        }
    }

    fn push(&mut self, entry: &Entry) {
        add_coming(&mut self.lists, &self.facts);
        self.facts.apply(entry);
    }

    fn visible_page<L: Ledger>(
        &self,
        caller: &Caller,
        which: &Which,
        owner: &Iri,
        number: u64,
        steps: &mut Steps<L>,
    ) -> VisiblePage {
        let candidates = self.candidates(which, owner);
        page(&self.facts, candidates, caller, which, owner, number, steps)
    }

    fn pins<L: Ledger>(
        &self,
        alloc: Global,
        name: &LocalName,
        member: &Iri,
        _steps: &mut Steps<L>,
    ) -> Result<Vec<usize>, AllocError> {
        copy_of(alloc, self.pins_by(name, member))
    }

    fn directed<L: Ledger>(
        &self,
        alloc: Global,
        name: &LocalName,
        member: &Iri,
        slug: &LocalName,
        board: &str,
        _steps: &mut Steps<L>,
    ) -> Result<Vec<usize>, AllocError> {
        copy_of(alloc, self.pins_of(name, member, slug, board))
    }
}
