//! Lists of IRIs that take little memory.

ghost use Rattle.std.specs.Prelude.{◌≡◌, ◌∷◌, ◌++◌, [], true, false, IfOk};

use crate::pool::Pool;
use fedi_address::{Iri, Items};
use std::alloc::{AllocError, Global};
use std::marker::Model;
use std::slice;
use std::sync::Arc;

// The storage of the IRIs. Most lists have none or one.
#[derive(Drop)]
enum Held {
    Nothing,
    One(Iri),
    Many(Arc<Vec<Iri>>),
}

/// An immutable list of IRIs. A single IRI is stored in place, and several are stored once and
/// shared by all owners of the list.
#[derive(Drop)]
pub struct Iris {
    held: Held,
}

impl Model for Iris {
    ghost use Rattle.std.specs.Prelude.{ℕ, List};

    ghost Value = { List (List ℕ) };

    ghost use Rattle.fedi_register.specs.Lists.{iris_in};

    ghost view = { λ a. iris_in a.held };
}

fn differ(left: &Iri, right: &Iri) -> bool
    ensures { result ≡ false → left.now ≡ right.now }
{
    left.text() != right.text()
}

/// Whether two lists contain the same IRIs in the same order.
#[tactic(auto, using(std::proofs::lemmas::List::take_more_same))]
pub(crate) fn are_same(left: &[Iri], right: &[Iri]) -> bool
    ensures { result ≡ true → left.now ≡ right.now }
{
    if left.len() != right.len() {
        return false;
    }
    for place in 0..left.len() {
        if differ(&left[place], &right[place]) {
            return false;
        }
    }
    true
}

/// The same list without the spare capacity left over from parsing.
pub(crate) fn shrunk<T: Drop>(list: Items<T>) -> Items<T>
    ensures { result ≡ list }
{
    let mut values = list.into_vec();
    values.shrink_to_fit();
    Items::new(values)
}

fn many_of(alloc: Global, iris: Items<Iri>) -> Result<Arc<Vec<Iri>>, AllocError>
    ensures { IfOk result (λ many. many.value.items ≡ iris) }
{
    let iris = shrunk(iris).into_vec();
    let many = Arc::new(alloc, iris)?;
    Ok(many)
}

fn copies_of(alloc: Global, iris: &[Iri]) -> Result<Vec<Iri>, AllocError>
    ensures { IfOk result (λ copies. copies.items ≡ iris.now) }
{
    let mut copies = Vec::with_capacity(alloc, iris.len())?;
    for iri in iris {
        copies.push(iri.copy()?)?;
    }
    Ok(copies)
}

fn longer(alloc: Global, iris: &[Iri], last: &Iri) -> Result<Items<Iri>, AllocError>
    ensures { IfOk result (λ list. list ≡ iris.now ++ last.now ∷ []) }
{
    let mut all = copies_of(alloc, iris)?;
    all.push(last.copy()?)?;
    Ok(Items::new(all))
}

impl Iris {
    /// These IRIs and one more at the end. The error is out of memory.
    pub fn with_one(alloc: Global, iris: &[Iri], last: &Iri) -> Result<Iris, AllocError>
        ensures { IfOk result (λ list. list ≡ iris.now ++ last.now ∷ []) }
    {
        let all = longer(alloc, iris, last)?;
        Iris::new(alloc, all)
    }

    /// The same IRIs. The error is out of memory.
    pub(crate) fn new(alloc: Global, iris: Items<Iri>) -> Result<Iris, AllocError>
        ensures { IfOk result (λ list. list ≡ iris) }
    {
        let held = match iris.as_slice() {
            [] => Held::Nothing,
            [iri] => Held::One(iri.copy()?),
            _ => Held::Many(many_of(alloc, iris)?),
        };
        Ok(Iris { held })
    }

    /// The IRIs, in order.
    pub(crate) fn as_slice(&self) -> &[Iri]
        ensures { result.now ≡ self.now }
    {
        match &self.held {
            Held::Nothing => &[],
            Held::One(iri) => slice::from_ref(iri),
            Held::Many(iris) => iris.as_slice(),
        }
    }

    /// No IRIs.
    pub(crate) fn none() -> Iris
        ensures { result ≡ [] }
    {
        Iris {
            held: Held::Nothing,
        }
    }

    /// A copy, which shares the IRIs. The error means that they have too many owners.
    pub(crate) fn copy(&self) -> Result<Iris, AllocError>
        ensures { IfOk result (λ list. list ≡ self.now) }
    {
        let held = match &self.held {
            Held::Nothing => Held::Nothing,
            Held::One(iri) => Held::One(iri.copy()?),
            Held::Many(iris) => Held::Many(Arc::try_clone(iris)?),
        };
        Ok(Iris { held })
    }

    /// Makes a single IRI share the text of an equal one, and several share the memory of an equal
    /// list. The effect cannot be observed, and nothing is allocated.
    pub fn share(&mut self, pool: &mut Pool)
        ensures { self.new ≡ self.old }
    {
        match &mut self.held {
            Held::Nothing => {}
            Held::One(iri) => pool.share(iri),
            Held::Many(iris) => pool.share_list(iris),
        }
    }
}
