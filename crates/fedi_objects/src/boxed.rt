//! A value on the heap that clauses treat as the value itself.

ghost use Rattle.std.specs.Prelude.{◌≡◌, IfOk};

use std::alloc::{AllocError, Global};
use std::marker::Model;
use std::ops::Deref;

/// A value on the heap. A type that holds it stays small, and a clause sees the value itself.
#[derive(Drop)]
pub struct Boxed<T> {
    inner: Box<T>,
}

impl<T> Model for Boxed<T> {
    ghost Value = { T };

    ghost view = { λ a. a.inner.value };
}

impl<T: Drop> Boxed<T> {
    /// Moves a value to the heap. Out of memory, the value is dropped.
    pub fn new(alloc: Global, value: T) -> Result<Boxed<T>, AllocError>
        ensures { IfOk result (λ x. x ≡ value) }
    {
        let inner = Box::new(alloc, value)?;
        Ok(Boxed { inner })
    }
}

impl<T> Boxed<T> {
    ghost use Rattle.std.specs.Borrow.{Lends, sem};
    ghost use Rattle.fedi_objects.specs.contracts.boxed.Boxed.{the_row};

    /// The value.
    pub fn get(&self) -> &T
        ensures { result.now ≡ self.now }
    {
        &*self.inner
    }

    /// The value, for changing it.
    pub fn get_mut(&mut self) -> &mut T
        ensures* writes_back { sem 𝓛 (Lends (the_row T.row) T.row self.entry result (λ w. w)) }
        ensures value { result.now ≡ self.old }
    {
        &mut *self.inner
    }

    /// Moves the value out.
    pub fn into_inner(self) -> T
        ensures { result ≡ self }
    {
        let Boxed { inner } = self;
        Box::into_inner(inner)
    }

    /// The allocator that the value's memory comes from.
    pub fn allocator(&self) -> Global {
        *Box::allocator(&self.inner)
    }
}

impl<T: Clone + Drop> Clone for Boxed<T> {
    ghost is_clone = { λ a b. T.is_clone a b };

    fn clone(&self) -> Result<Boxed<T>, AllocError> {
        Boxed::new(self.allocator(), self.get().clone()?)
    }
}

impl<T> Deref for Boxed<T> {
    type Target = T;

    ghost deref_gives = { λ s v. v ≡ s };

    fn deref(&self) -> &T {
        self.get()
    }
}
