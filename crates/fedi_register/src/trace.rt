//! A list whose items are not stored.

ghost use Rattle.std.specs.Prelude.{◌≡◌, ◌++◌, ◌∷◌, []};

use std::marker::Model;
use std::snapshot::Snapshot;

#[cycle(trace)]
#[derive(Drop)]
struct Step<T> {
    before: Snapshot<Trace<T>>,
    last: Snapshot<T>,
}

/// A list whose items are not stored: it takes one byte, however long it is. A contract sees the
/// list, so it can say what a value was made from after the items themselves are gone.
#[cycle(trace)]
#[derive(Drop)]
pub struct Trace<T> {
    step: Option<Step<T>>,
}

impl<T> Model for Trace<T> {
    ghost use Rattle.std.specs.Prelude.{List, length};

    ghost Value = { List T };

    ghost use Rattle.fedi_register.specs.Traces.{ended};

    ghost view = { λ t. ended t.step };

    ghost size = { length };
}

impl<T> Trace<T> {
    /// The empty list.
    pub fn new() -> Trace<T>
        ensures { result ≡ [] }
    {
        Trace { step: None }
    }

    /// The list with one more item at its end. The item is only borrowed, and nothing of it is
    /// stored.
    pub fn and(&self, item: &T) -> Trace<T>
        ensures { result ≡ self.now ++ item.now ∷ [] }
    {
        Trace {
            step: Some(Step {
                before: Snapshot::of(self),
                last: Snapshot::of(item),
            }),
        }
    }

    /// Appends an item, which is only borrowed.
    pub fn push(&mut self, item: &T)
        ensures { self.new ≡ self.old ++ item.now ∷ [] }
    {
        *self = self.and(item);
    }
}
