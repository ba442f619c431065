//! Shelves that a server that starts again can be opened on.

ghost use Rattle.std.specs.Prelude.{◌≡◌, IfOk};
ghost use Rattle.fedi_visible.specs.Shelves.{empty_holding};

use fedi_index::IndexedShelf;
use fedi_register::Seed;
use fedi_visible::Shelf;
use std::alloc::{AllocError, Global};

/// A shelf that can be made without a history.
pub trait Blank: Shelf {
    /// An empty shelf. The error is out of memory.
    fn blank(alloc: Global) -> Result<Self, AllocError>
        ensures { IfOk result (λ shelf. Self.holding shelf ≡ empty_holding) };
}

impl Blank for IndexedShelf {
    // Nobody outside chooses the ids that are looked up, so the seed need not be secret.
    fn blank(alloc: Global) -> Result<IndexedShelf, AllocError> {
        IndexedShelf::empty(alloc, Seed::new(b""))
    }
}
