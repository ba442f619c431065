//! A shelf that keeps nothing but the facts.

ghost use Rattle.std.specs.Prelude.{◌≡◌, ◌≤◌, ◌++◌, ◌∷◌, [], ◌+◌, ◌*◌, IfOk, IsTrue, None, OnErr};
ghost use Rattle.std.specs.Prelude.{OnOk, Some, drop, length, map, slice_get, take};
ghost use Rattle.fedi_effects.specs.Holdings.{Holding};
ghost use Rattle.fedi_town.specs.Boards.{board_id};
ghost use Rattle.fedi_town.specs.Collections.{items, owner_of};
ghost use Rattle.fedi_town.specs.Histories.{town};
ghost use Rattle.fedi_town.specs.Legal.{IsLegal, is_admissible};
ghost use Rattle.fedi_town.specs.Towns.{empty_town, id_of};
ghost use Rattle.fedi_visible.specs.Pins.{directed_places, pin_places};

use crate::pins::{directed_places, pin_places};
use crate::places::page;
use crate::shelf::{Shelf, VisiblePage};
use fedi_address::{Iri, LocalName};
use fedi_effects::{Facts, Seed, Steps};
use fedi_objects::Entry;
use fedi_town::{Caller, Which};
use std::alloc::{AllocError, Global};
use std::marker::Model;
use std::sync::ledger::Ledger;

/// The facts of a history, whose activities are scanned for each page of a collection, and for the
/// candidates of a collection that a member makes. For each Follow in the collections of followers
/// and of the followed, the activities before it are scanned too.
#[derive(Drop)]
pub struct PlainShelf {
    facts: Facts,
}

impl Model for PlainShelf {
    ghost use Rattle.fedi_effects.specs.Holdings.{Holding};

    ghost Value = { Holding };

    ghost view = { λ shelf. shelf.facts };
}

impl PlainShelf {
    /// The shelf of no entry, which looks texts up by the seed. The error is out of memory.
    pub fn empty(alloc: Global, seed: Seed) -> Result<PlainShelf, AllocError>
        ensures { IfOk result (λ shelf.
            shelf ≡ record { history = []; town = empty_town; room = None }) }
    {
        let facts = Facts::empty(alloc, seed)?;
        Ok(PlainShelf { facts })
    }
}

impl Shelf for PlainShelf {
    ghost holding = { λ shelf. shelf };

    ghost page_cost = { λ shelf which owner.
        length shelf.town.acts * (length shelf.town.acts + 1) };

    ghost pin_cost = { λ shelf. length shelf.town.acts };

    fn facts(&self) -> &Facts {
        &self.facts
    }

    fn reserve(&mut self, alloc: Global, entry: &Entry) -> Result<(), AllocError> {
        self.facts.reserve(alloc, entry)
    }

    fn push(&mut self, entry: &Entry) {
        self.facts.apply(entry);
    }

    #[tactic(auto, using(crate::proofs::Items::places_counted, crate::proofs::Items::page_placed))]
    fn visible_page<L: Ledger>(
        &self,
        caller: &Caller,
        which: &Which,
        owner: &Iri,
        number: u64,
        steps: &mut Steps<L>,
    ) -> VisiblePage {
        page(&self.facts, caller, which, owner, number, steps)
    }

    fn pins<L: Ledger>(
        &self,
        alloc: Global,
        _name: &LocalName,
        member: &Iri,
        steps: &mut Steps<L>,
    ) -> Result<Vec<usize>, AllocError> {
        pin_places(alloc, &self.facts, member, steps)
    }

    fn directed<L: Ledger>(
        &self,
        alloc: Global,
        _name: &LocalName,
        _member: &Iri,
        _slug: &LocalName,
        board: &str,
        steps: &mut Steps<L>,
    ) -> Result<Vec<usize>, AllocError> {
        directed_places(alloc, &self.facts, board, steps)
    }
}
