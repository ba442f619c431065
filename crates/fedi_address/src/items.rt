//! Lists whose capacity is hidden from every clause.

ghost use Rattle.std.specs.Prelude.{◌≡◌, ◌==◌, [], ◌∷◌, ◌++◌, length, OnOk, OnErr};

use std::alloc::{AllocError, Global};
use std::marker::Model;
use std::ops::DerefSlice;

/// A list. It is made from a `Vec` and turned back into one without allocating.
#[derive(Drop)]
pub struct Items<T> {
    values: Vec<T>,
}

impl<T> Model for Items<T> {
    ghost use Rattle.std.specs.Prelude.{List};

    ghost Value = { List T };

    ghost view = { λ a. a.values.items };
}

impl<T> Items<T> {
    /// The list of these values.
    pub fn new(values: Vec<T>) -> Self
        ensures { result ≡ values.items }
    {
        Items { values }
    }

    /// A list without values. It takes no memory.
    pub fn empty(alloc: Global) -> Self
        ensures { result ≡ [] }
    {
        Items {
            values: Vec::new(alloc),
        }
    }

    /// How many values the list has.
    pub fn len(&self) -> usize
        ensures { result ≡ length self.now }
    {
        self.values.len()
    }

    /// Whether the list has no value.
    pub fn is_empty(&self) -> bool
        ensures { result ≡ (length self.now == 0) }
    {
        self.values.is_empty()
    }

    /// The values, in order.
    pub fn as_slice(&self) -> &[T]
        ensures { result.now ≡ self.now }
    {
        self.values.as_slice()
    }

    /// Appends a value. Out of memory, the list is unchanged and the value is dropped.
    pub fn push(&mut self, value: T) -> Result<(), AllocError>
    where
        T: Drop,
        ensures ok { OnOk result (self.new ≡ self.old ++ value ∷ []) }
        ensures err { OnErr result (self.new ≡ self.old) }
    {
        self.values.push(value)?;
        Ok(())
    }

    /// Clears the list and keeps its capacity.
    pub fn clear(&mut self)
    where
        T: Drop,
        ensures { self.new ≡ [] }
    {
        self.values.clear();
    }

    /// The allocator that the list takes its memory from.
    pub fn allocator(&self) -> Global {
        *self.values.allocator()
    }

    /// The list as a `Vec`. It takes no memory.
    pub fn into_vec(self) -> Vec<T>
        ensures { result.items ≡ self }
    {
        let Items { values } = self;
        values
    }
}

// If each value's clone is equal to it, the list's clone is equal to the list.
impl<T: Clone + Drop> Clone for Items<T> {
    ghost is_clone = { λ xs ys. ((x y : T) → T.is_clone x y → y ≡ x) → ys ≡ xs };

    #[tactic(auto, using(std::proofs::lemmas::List::Elements::same_from_all_zip))]
    fn clone(&self) -> Result<Items<T>, AllocError> {
        Ok(Items {
            values: self.values.clone()?,
        })
    }
}

impl<T> DerefSlice for Items<T> {
    type Elem = T;

    ghost deref_gives = { λ list values. values ≡ list };

    fn deref(&self) -> &[T] {
        self.values.as_slice()
    }
}
