//! Where the activities of a town are laid, to be picked by author and type.
ghost use Rattle.std.specs.Prelude.{◌≡◌, IfOk, IfSome};
ghost use Rattle.fedi_selection.specs.ActRows.{AreInOrder, picked};
ghost use Rattle.fedi_selection.specs.Selections.{SelectionState, after_lay, after_pick};

use crate::act_rows::ActRow;
use std::alloc::{AllocError, Global};
use thiserror::Error;

/// Why no rows were laid or picked.
#[derive(Clone, Copy, Debug, PartialEq, Eq, Error)]
pub enum SelectionFault {
    /// The selection failed, and has counted it.
    #[error("the selection failed")]
    Failed,
    /// Out of memory.
    #[error("out of memory")]
    Memory,
}

impl From<AllocError> for SelectionFault {
    ghost use Rattle.std.specs.Prelude.{◌≡◌};
    ghost use Rattle.fedi_selection.specs.declared.selections.SelectionFault.TheVariants.{Memory};

    ghost from_gives = { λ _ fault. fault ≡ Memory };

    fn from(_: AllocError) -> Self {
        SelectionFault::Memory
    }
}

/// A place where rows of activities are laid, and are picked by author and type.
pub trait Selection {
    /// The selection, as its callers see it.
    ghost shown: { Self → SelectionState };

    /// Lays these rows in place of those that were laid before. After an error all is as before:
    /// `Failed` if the selection failed, which it counts, and `Memory`.
    fn lay(&mut self, alloc: Global, rows: &[ActRow]) -> Result<(), SelectionFault>
        requires order { AreInOrder rows.now }
        ensures { shown self.new ≡ after_lay result rows.now (shown self.old) };

    /// The rows of this author and this type, in the order of their places. Nothing changes: after
    /// `Failed` the selection has counted it, and `Memory` is out of memory.
    fn pick(
        &mut self,
        alloc: Global,
        actor: &str,
        kind: &str,
    ) -> Result<Vec<ActRow>, SelectionFault>
        ensures found { IfSome (shown self.old).laid (λ laid.
            IfOk result (λ rows. rows.items ≡ picked actor.now kind.now laid)) }
        ensures after { shown self.new ≡ after_pick result (shown self.old) };
}
