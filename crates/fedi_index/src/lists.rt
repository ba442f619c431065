//! Lists of positions, one for each collection of an owner.

ghost use Rattle.std.specs.Prelude.{◌≡◌, ◌∷◌, ◌++◌, [], ◌+◌, ◌-◌, ◌<◌, ◌≤◌, IfOk, OnErr, OnOk};
ghost use Rattle.std.specs.Prelude.{Some, false, length, map, option_copied, set, slice_get};
ghost use Rattle.std.specs.Prelude.{vec_capacity, vec_len};
ghost use Rattle.std.specs.List.{find};
ghost use Rattle.fedi_register.specs.Changes.{place_where};
ghost use Rattle.fedi_register.specs.Marks.{every, marks_from};
ghost use Rattle.fedi_register.specs.Seeds.{mark_of};
ghost use Rattle.fedi_index.specs.Lists.{AddsOnce, AreRoomier, CanAdd, HasOneMore, IsRoomier};
ghost use Rattle.fedi_index.specs.Lists.{at_index, ends_in, first_from, grown_at, is_list, is_row};
ghost use Rattle.fedi_index.specs.Lists.{is_same_list, list_mark, listing_in, listings, new_list};
ghost use Rattle.fedi_index.specs.Lists.{places_found, places_of, pushed_at, room_found, room_of};
ghost use Rattle.fedi_index.specs.Lists.{row_mark};

use crate::collection::{Collection, is_same};
use fedi_address::Iri;
use fedi_register::{MOST_ITEMS, Marks, Seed};
use std::alloc::{AllocError, Global};
use std::marker::Model;

#[derive(Drop)]
struct Row {
    collection: Collection,
    owner: Iri,
    places: Vec<usize>,
}

/// Lists of positions, one for each collection of an owner. An empty list takes no memory unless
/// room was made in it.
pub(crate) struct Lists {
    seed: Seed,
    rows: Vec<Row>,
    index: Marks,
}

// Written out, so that a caller does not prove again how each part is dropped.
impl Drop for Lists {
    fn drop(self) {
        let Lists {
            seed: _,
            rows: _,
            index: _,
        } = self;
    }
}

impl Model for Lists {
    ghost use Rattle.std.specs.Prelude.{List};
    ghost use Rattle.fedi_index.specs.Lists.{AreIndexed, Listing, lists_in};

    ghost Value = { List Listing };

    ghost view = { lists_in };

    ghost invariant = { AreIndexed };
}

#[tactic(auto, unfolding(crate::specs::Lists::is_row, crate::specs::Lists::is_list))]
fn is_row(row: &Row, collection: Collection, owner: &str) -> bool
    ensures { result ≡ is_row collection owner.now row.now }
{
    is_same(row.collection, collection) && row.owner.text() == owner
}

// The mark by which lists are looked up.
fn mark_of_list(seed: &Seed, owner: &str) -> u32
    ensures { result ≡ mark_of seed.now owner.now }
{
    seed.mark_of(owner.as_bytes())
}

// The list of this collection and this owner.
fn row_of<'a>(
    seed: &Seed,
    rows: &'a [Row],
    index: &Marks,
    collection: Collection,
    owner: &str,
) -> Option<&'a Row>
    requires { index.now.marks ≡ marks_from every (list_mark seed.now) 0 (listings rows.now) }
    ensures { option_copied result ≡ find (is_row collection owner.now) rows.now }
{
    index.first_of(
        rows,
        mark_of_list(seed, owner),
        |row| is_row(row, collection, owner),
    )
}

// The index of this list.
fn position_of(
    seed: &Seed,
    rows: &[Row],
    index: &Marks,
    collection: Collection,
    owner: &str,
) -> Option<usize>
    requires { index.now.marks ≡ marks_from every (list_mark seed.now) 0 (listings rows.now) }
    ensures { result ≡ first_from (is_list collection owner.now) 0 (listings rows.now) }
{
    index.position_of(
        rows,
        mark_of_list(seed, owner),
        |row| is_row(row, collection, owner),
    )
}

fn ends_in(place: usize, places: &[usize]) -> bool
    ensures { result ≡ ends_in place places.now }
{
    match places.last() {
        Some(last) => *last == place,
        None => false,
    }
}

// Appends a position to the list at index `at`, unless the list ends in it. If it does not, it has
// room for the position.
fn push_at(rows: &mut Vec<Row>, at: usize, place: usize)
    requires there { at < length rows.old.items }
    requires room { ends_in place (places_found (slice_get (listings rows.old.items) at)) ≡ false
        → 1 ≤ room_found (slice_get (listings rows.old.items) at) }
    ensures { listings rows.new.items ≡ pushed_at at place (listings rows.old.items) }
{
    if !ends_in(place, &rows[at].places) {
        rows[at].places.push_reserved(place);
    }
}

// Inserts a position into the list at index `at`, which has room for it, before the position at
// `index`.
fn insert_at(rows: &mut Vec<Row>, at: usize, index: usize, place: usize)
    requires there { at < length rows.old.items }
    requires room { 1 ≤ room_found (slice_get (listings rows.old.items) at) }
    requires index { index ≤ length (places_found (slice_get (listings rows.old.items) at)) }
    ensures { listings rows.new.items
        ≡ grown_at at (at_index index place) (listings rows.old.items) }
{
    let _ = rows[at].places.insert(index, place);
}

// Makes room for this many more positions in the list at index `at`. The error is out of memory.
fn reserve_at(rows: &mut Vec<Row>, at: usize, more: usize) -> Result<(), AllocError>
    requires there { at < length rows.old.items }
    ensures roomier { AreRoomier (listings rows.old.items) (listings rows.new.items) }
    ensures room { OnOk result (more ≤ room_found (slice_get (listings rows.new.items) at)) }
{
    rows[at].places.reserve(more)
}

impl Lists {
    /// No lists. The seed is for the marks by which they are looked up.
    pub(crate) fn empty(alloc: Global, seed: Seed) -> Lists
        ensures { result ≡ [] }
    {
        Lists {
            seed,
            rows: Vec::new(alloc),
            index: Marks::empty(alloc),
        }
    }

    /// The positions in this collection of the owner with this id.
    pub(crate) fn places(&self, collection: Collection, owner: &str) -> &[usize]
        ensures { result.now ≡ places_of collection owner.now self.now }
    {
        match row_of(&self.seed, &self.rows, &self.index, collection, owner) {
            Some(row) => row.places.as_slice(),
            None => &[],
        }
    }

    /// Appends a position to a list, unless the list ends in it. If it does not, it has room for the
    /// position. This looks the list up once, and allocates nothing.
    pub(crate) fn push_unless_last(&mut self, collection: Collection, owner: &Iri, place: usize)
        requires { CanAdd (λ k o. is_same_list k o collection owner.now) place self.old }
        ensures { AddsOnce (λ k o. is_same_list k o collection owner.now) place
            self.old self.new }
    {
        match position_of(
            &self.seed,
            &self.rows,
            &self.index,
            collection,
            owner.text(),
        ) {
            None => unreachable!(),
            Some(at) => push_at(&mut self.rows, at, place),
        }
    }

    /// Inserts a position into a list that has room for it, before the position at this index. This
    /// allocates nothing.
    pub(crate) fn insert(&mut self, collection: Collection, owner: &Iri, index: usize, place: usize)
        requires room { 1 ≤ room_of collection owner.now self.old }
        requires index { index ≤ length (places_of collection owner.now self.old) }
        ensures { HasOneMore collection owner.now (at_index index place) self.old self.new }
    {
        match position_of(
            &self.seed,
            &self.rows,
            &self.index,
            collection,
            owner.text(),
        ) {
            None => unreachable!(),
            Some(at) => insert_at(&mut self.rows, at, index, place),
        }
    }

    // Adds a list that does not exist yet, without room, and returns its index.
    fn add(
        &mut self,
        alloc: Global,
        collection: Collection,
        owner: &Iri,
    ) -> Result<usize, AllocError>
        ensures added { IfOk result (λ at.
            (self.new ≡ self.old ++ new_list collection owner.now ∷ []) × (at ≡ length self.old)) }
        ensures err { OnErr result (self.new ≡ self.old) }
    {
        let at = self.rows.len();
        if at > MOST_ITEMS {
            return Err(AllocError);
        }
        self.index.reserve()?;
        let owner = owner.copy()?;
        let mark = mark_of_list(&self.seed, owner.text());
        self.rows.push(Row {
            collection,
            owner,
            places: Vec::new(alloc),
        })?;
        self.index.push(mark, at as u32);
        Ok(at)
    }

    // The index of this list. The list is added if it does not exist yet.
    fn find_or_add(
        &mut self,
        alloc: Global,
        collection: Collection,
        owner: &Iri,
    ) -> Result<usize, AllocError>
        ensures roomier { IsRoomier self.old self.new }
        ensures known { IfOk result (λ at.
            first_from (is_list collection owner.now) 0 self.new ≡ Some at) }
    {
        match position_of(
            &self.seed,
            &self.rows,
            &self.index,
            collection,
            owner.text(),
        ) {
            Some(at) => Ok(at),
            None => {
                let at = self.add(alloc, collection, owner)?;
                Ok(at)
            }
        }
    }

    /// Makes room for this many more positions in this collection of this owner. The error is out
    /// of memory.
    pub(crate) fn reserve(
        &mut self,
        alloc: Global,
        collection: Collection,
        owner: &Iri,
        more: usize,
    ) -> Result<(), AllocError>
        ensures roomier { IsRoomier self.old self.new }
        ensures room { OnOk result (more ≤ room_of collection owner.now self.new) }
    {
        let at = self.find_or_add(alloc, collection, owner)?;
        reserve_at(&mut self.rows, at, more)?;
        Ok(())
    }
}
