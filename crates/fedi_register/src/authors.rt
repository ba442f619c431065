//! The authors of the activities.

ghost use Rattle.std.specs.Prelude.{◌≡◌, ◌+◌, ◌^◌, ◌<◌, [], IsTrue, OnErr, OnOk, option_copied};
ghost use Rattle.std.specs.List.{find};
ghost use Rattle.fedi_address.specs.Recipients.{add_new, is_among};
ghost use Rattle.fedi_register.specs.Authors.{CountsOne, SameCounts, count_in, ids_of, is_author};
ghost use Rattle.fedi_register.specs.Changes.{place_where};

use crate::marks::{MOST_ITEMS, Marks};
use crate::seeds::Seed;
use fedi_address::Iri;
use std::alloc::{AllocError, Global};
use std::marker::Model;

// An author, and how many activities they have.
#[derive(Drop)]
pub(crate) struct Author {
    id: Iri,
    count: usize,
}

/// The authors in the order in which they became known, looked up by id.
#[derive(Drop)]
pub(crate) struct Authors {
    seed: Seed,
    list: Vec<Author>,
    ids: Marks,
}

impl Model for Authors {
    ghost use Rattle.std.specs.Prelude.{List};
    ghost use Rattle.fedi_register.specs.declared.authors.Author.{Author as Counted};

    ghost Value = { List Counted };

    ghost use Rattle.fedi_register.specs.Authors.{AreAuthors, authors_in};

    ghost view = { authors_in };

    ghost invariant = { AreAuthors };
}

#[tactic(auto, unfolding(crate::specs::Authors::is_author))]
fn is_author(author: &Author, id: &Iri) -> bool
    ensures { result ≡ is_author id.now author.now }
{
    author.id == *id
}

fn count_more(author: &mut Author)
    requires { author.old.count < 2 ^ 63 }
    ensures { author.new ≡ record author.old { count = author.old.count + 1 } }
{
    author.count += 1;
}

impl Authors {
    /// No authors.
    pub(crate) fn empty(alloc: Global, seed: Seed) -> Authors
        ensures { result ≡ [] }
    {
        Authors {
            seed,
            list: Vec::new(alloc),
            ids: Marks::empty(alloc),
        }
    }

    fn find(&self, id: &Iri) -> Option<&Author>
        ensures { option_copied result ≡ find (is_author id.now) self.now }
    {
        self.ids.first_of(
            &self.list,
            self.seed.mark_of_iri(id),
            |author| is_author(author, id),
        )
    }

    fn position_of(&self, id: &Iri) -> Option<usize>
        ensures { result ≡ place_where (is_author id.now) self.now }
    {
        self.ids.position_of(
            &self.list,
            self.seed.mark_of_iri(id),
            |author| is_author(author, id),
        )
    }

    /// The number of activities counted for the author.
    #[tactic(auto, unfolding(crate::specs::Authors::count_in))]
    pub(crate) fn count_of(&self, id: &Iri) -> usize
        ensures { result ≡ count_in self.now id.now }
    {
        match self.find(id) {
            Some(author) => author.count,
            None => 0,
        }
    }

    fn is_known(&self, id: &Iri) -> bool
        ensures { result ≡ is_among id.now (ids_of self.now) }
    {
        self.find(id).is_some()
    }

    /// Adds the author with no activities, unless already present. The error is out of memory, and
    /// then nothing has changed.
    pub(crate) fn add(&mut self, id: &Iri) -> Result<(), AllocError>
        ensures known { OnOk result (ids_of self.new ≡ add_new (ids_of self.old) id.now) }
        ensures err { OnErr result (ids_of self.new ≡ ids_of self.old) }
        ensures counts { SameCounts self.old self.new }
    {
        if self.is_known(id) {
            return Ok(());
        }
        let place = self.list.len();
        if place > MOST_ITEMS {
            return Err(AllocError);
        }
        self.ids.reserve()?;
        let id = id.clone()?;
        let mark = self.seed.mark_of_iri(&id);
        self.list.push(Author { id, count: 0 })?;
        self.ids.push(mark, place as u32);
        Ok(())
    }

    /// Counts one more activity of an author who is present.
    pub(crate) fn count_one(&mut self, id: &Iri)
        requires known { IsTrue (is_among id.now (ids_of self.old)) }
        requires few { count_in self.old id.now < 2 ^ 63 }
        ensures known { ids_of self.new ≡ ids_of self.old }
        ensures counts { CountsOne self.old self.new id.now }
    {
        match self.position_of(id) {
            Some(place) => count_more(&mut self.list[place]),
            None => unreachable!(),
        }
    }
}
