//! What holds a history, with what its readers see of its collections.

ghost use Rattle.std.specs.Prelude.{◌≡◌, ◌≤◌, ◌<◌, ◌+◌, ◌*◌, ◌/◌, ◌^◌, ◌++◌, ◌∷◌, [], ℕ, IfOk};
ghost use Rattle.std.specs.Prelude.{IsTrue, List, None, OnErr, OnOk, Some, drop, if◌then◌else◌, length};
ghost use Rattle.std.specs.Prelude.{map, nat_eq, slice_get, take};
ghost use Rattle.arrayvec.specs.ArrayVec.{array_vec_len};
ghost use Rattle.fedi_effects.specs.Holdings.{Holding};
ghost use Rattle.fedi_town.specs.declared.caller.Which.{Which};
ghost use Rattle.fedi_town.specs.Boards.{board_id};
ghost use Rattle.fedi_town.specs.Collections.{items, owner_of};
ghost use Rattle.fedi_town.specs.Histories.{town};
ghost use Rattle.fedi_town.specs.Legal.{IsLegal, is_admissible};
ghost use Rattle.fedi_town.specs.Towns.{id_of};
ghost use Rattle.fedi_visible.specs.Pins.{directed_places, pin_places};

use crate::brief::is_brief;
use arrayvec::ArrayVec;
use fedi_address::{Iri, LocalName};
use fedi_effects::{Facts, Steps};
use fedi_objects::Entry;
use fedi_register::Kept;
use fedi_town::{Caller, Which};
use std::alloc::{AllocError, Global};
use std::sync::ledger::Ledger;

/// The most items on a page of a collection (ActivityStreams 2.0 Core, section 5.2).
pub const PAGE: usize = 20;

/// A page of a collection, as its reader sees it.
#[derive(Drop)]
pub struct VisiblePage {
    /// The number of items in the whole collection.
    pub total: u64,
    /// The positions of the page's items among the activities, the oldest first. A page above the
    /// highest has none.
    pub places: ArrayVec<usize, 20>,
    /// Whether the document of each of these activities is brief.
    pub is_brief: bool,
}

impl VisiblePage {
    /// A page without items, of a collection without items.
    pub fn empty() -> VisiblePage
        ensures total { result.total ≡ 0 }
        ensures places { result.places.items ≡ [] }
    {
        VisiblePage {
            total: 0,
            places: ArrayVec::new(),
            is_brief: true,
        }
    }

    /// Counts the item at this position, which comes after those that were counted, and keeps the
    /// position if the item is on the page of this number.
    pub fn add(&mut self, number: u64, place: usize)
        requires total { self.old.total < 2 ^ 63 }
        requires room { self.old.total / 20 ≡ number → array_vec_len self.old.places < 20 }
        ensures total { self.new.total ≡ self.old.total + 1 }
        ensures places { self.new.places.items ≡ (if nat_eq (self.old.total / 20) number
            then self.old.places.items ++ place ∷ [] else self.old.places.items) }
    {
        if self.total / PAGE as u64 == number {
            self.places.push(place);
        }
        self.total += 1;
    }

    /// The same for an activity, which is at this position.
    pub fn add_act(&mut self, number: u64, place: usize, facts: &Facts, act: &Kept)
        requires total { self.old.total < 2 ^ 63 }
        requires room { self.old.total / 20 ≡ number → array_vec_len self.old.places < 20 }
        ensures total { self.new.total ≡ self.old.total + 1 }
        ensures places { self.new.places.items ≡ (if nat_eq (self.old.total / 20) number
            then self.old.places.items ++ place ∷ [] else self.old.places.items) }
    {
        if self.total / PAGE as u64 == number && self.is_brief {
            self.is_brief = is_brief(facts, act);
        }
        self.add(number, place);
    }
}

/// What holds a history: its facts, and the collections of those it made (ActivityPub, section 5).
/// The items of a collection are those that its reader sees, the first of each, in the order of
/// acceptance. An item is identified by its position among the activities of the facts. The owner
/// of a collection is the member or the object with this id.
pub trait Shelf {
    /// The history that is held, the town that it has made, and the entry for which room was made.
    ghost holding: { Self → Holding };

    /// The most steps that a page of the owner's collection takes: how often an activity is read.
    ghost page_cost: { Self → Which → List ℕ → ℕ };

    /// The most steps that finding the candidates of a member's own collections takes: how often an
    /// activity is read.
    ghost pin_cost: { Self → ℕ };

    /// The facts of the history.
    fn facts(&self) -> &Facts
        ensures { result.now ≡ holding self.now };

    /// Makes room for an entry that may come next, with all that it adds. After an error, which is
    /// out of memory, there is room for no entry, and everything else is as before.
    fn reserve(&mut self, alloc: Global, entry: &Entry) -> Result<(), AllocError>
        requires legal { IsLegal (holding self.old).history }
        requires admissible { IsTrue (is_admissible (holding self.old).town entry.now) }
        ensures ok { OnOk result
            (holding self.new ≡ record (holding self.old) { room = Some entry.now }) }
        ensures err { OnErr result (holding self.new ≡ record (holding self.old) { room = None }) };

    /// Adds the entry for which there is room. It takes no memory.
    fn push(&mut self, entry: &Entry)
        requires { (holding self.old).room ≡ Some entry.now }
        ensures { holding self.new ≡ record {
          history = (holding self.old).history ++ entry.now ∷ [];
          town = town ((holding self.old).history ++ entry.now ∷ []);
          room = None;
        } };

    /// The number of items that the reader sees in the owner's collection, and those on the page of
    /// this number: page 0 has the oldest. It takes no memory, and counts the activities that it
    /// reads.
    fn visible_page<L: Ledger>(
        &self,
        caller: &Caller,
        which: &Which,
        owner: &Iri,
        number: u64,
        steps: &mut Steps<L>,
    ) -> VisiblePage
        requires owner { owner_of (holding self.now).town which.now ≡ Some owner.now }
        ensures total { result.total
            ≡ length (items (holding self.now).town caller.now which.now owner.now) }
        ensures places { map (slice_get (holding self.now).town.acts) result.places.items
            ≡ map Some (take 20 (drop (20 * number)
            (items (holding self.now).town caller.now which.now owner.now))) }
        ensures cost { steps.new ≤ steps.old + page_cost self.now which.now owner.now };

    /// The positions, among the activities, of the Adds and Removes by the member with this name
    /// and this id, in order, whoever may see them (ActivityPub, sections 6.6 and 6.7). The error
    /// is out of memory.
    fn pins<L: Ledger>(
        &self,
        alloc: Global,
        name: &LocalName,
        member: &Iri,
        steps: &mut Steps<L>,
    ) -> Result<Vec<usize>, AllocError>
        requires member { id_of (holding self.now).town name.now ≡ Some member.now }
        ensures places { IfOk result (λ places. places.items
            ≡ pin_places (holding self.now).town member.now) }
        ensures cost { steps.new ≤ steps.old + pin_cost self.now };

    /// The positions, among the activities, of the Adds and Removes that are directed to the
    /// member's collection of this name, whose id is `board`, in order, by anybody and whoever may
    /// see them (ActivityPub, sections 6.6 and 6.7). The error is out of memory.
    fn directed<L: Ledger>(
        &self,
        alloc: Global,
        name: &LocalName,
        member: &Iri,
        slug: &LocalName,
        board: &str,
        steps: &mut Steps<L>,
    ) -> Result<Vec<usize>, AllocError>
        requires member { id_of (holding self.now).town name.now ≡ Some member.now }
        requires board { board.now ≡ board_id member.now slug.now }
        ensures places { IfOk result (λ places. places.items
            ≡ directed_places (holding self.now).town board.now) }
        ensures cost { steps.new ≤ steps.old + pin_cost self.now };
}
