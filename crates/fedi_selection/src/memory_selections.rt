//! A selection in memory that may be made to fail.
ghost use Rattle.std.specs.Prelude.{◌≡◌, ◌↔◌, [], IfOk, IsErrOf, IsTrue, OnErr, OnOk};
ghost use Rattle.fedi_outside.specs.Plans.{after_call, is_to_fail, no_faults};
ghost use Rattle.fedi_selection.specs.ActRows.{AreInOrder, is_by, picked};
ghost use Rattle.fedi_selection.specs.MemorySelections.{selection_shown};

use crate::act_rows::ActRow;
use crate::plans::FaultPlan;
use crate::selections::{Selection, SelectionFault};
use std::alloc::{AllocError, Global};
use std::marker::Model;

/// A selection in memory that can be made to fail. It reports what is laid in it. All calls of
/// `lay` and `pick` are counted, from 0.
#[derive(Drop)]
pub struct MemorySelection {
    laid: Vec<ActRow>,
    plan: FaultPlan,
}

impl Model for MemorySelection {
    ghost use Rattle.fedi_selection.specs.MemorySelections.{MemorySelectionState};

    ghost Value = { MemorySelectionState };

    ghost view = { λ s. record { laid = s.laid.items; plan = s.plan } };
}

impl MemorySelection {
    /// A selection in which nothing is laid. It does not fail.
    pub fn new(alloc: Global) -> Self
        ensures { result ≡ record { laid = []; plan = no_faults } }
    {
        MemorySelection {
            laid: Vec::new(alloc),
            plan: FaultPlan::new(alloc),
        }
    }

    /// The same selection, except that the calls with these numbers fail, counted from 0.
    pub fn failing(self, calls: Vec<u64>) -> Self
        ensures { result ≡ record self { plan = record self.plan { failing = calls.items } } }
    {
        let mut selection = self;
        selection.plan.set_failing(calls);
        selection
    }
}

// Copies of these rows. The error is out of memory.
fn copies(alloc: Global, rows: &[ActRow]) -> Result<Vec<ActRow>, AllocError>
    ensures { IfOk result (λ copies. copies.items ≡ rows.now) }
{
    let mut copies = Vec::with_capacity(alloc, rows.len())?;
    for row in rows {
        copies.push(row.clone()?)?;
    }
    Ok(copies)
}

// Whether the row's activity is by this author and of this type.
fn is_by(row: &ActRow, actor: &str, kind: &str) -> bool
    ensures { result ≡ is_by actor.now kind.now row.now }
{
    row.actor() == actor && row.kind() == kind
}

// Copies of the rows of this author and this type. The error is out of memory.
fn picked(
    alloc: Global,
    rows: &[ActRow],
    actor: &str,
    kind: &str,
) -> Result<Vec<ActRow>, AllocError>
    ensures { IfOk result (λ found. found.items ≡ picked actor.now kind.now rows.now) }
{
    let mut found = Vec::new(alloc);
    for row in rows {
        if is_by(row, actor, kind) {
            found.push(row.clone()?)?;
        }
    }
    Ok(found)
}

impl Selection for MemorySelection {
    ghost shown = { selection_shown };

    fn lay(&mut self, alloc: Global, rows: &[ActRow]) -> Result<(), SelectionFault>
        requires order { AreInOrder rows.now }
        ensures failed { IsErrOf result SelectionFault.Failed ↔ IsTrue (is_to_fail self.old.plan) }
        ensures laid { OnOk result (self.new.laid ≡ rows.now) }
        ensures same { OnErr result (self.new.laid ≡ self.old.laid) }
        ensures plan { self.new.plan ≡ after_call self.old.plan }
    {
        if self.plan.next_fails() {
            return Err(SelectionFault::Failed);
        }
        self.laid = copies(alloc, rows)?;
        Ok(())
    }

    fn pick(
        &mut self,
        alloc: Global,
        actor: &str,
        kind: &str,
    ) -> Result<Vec<ActRow>, SelectionFault>
        ensures failed { IsErrOf result SelectionFault.Failed ↔ IsTrue (is_to_fail self.old.plan) }
        ensures found { IfOk result (λ found.
            found.items ≡ picked actor.now kind.now self.old.laid) }
        ensures after { self.new ≡ record self.old { plan = after_call self.old.plan } }
    {
        if self.plan.next_fails() {
            return Err(SelectionFault::Failed);
        }
        Ok(picked(alloc, &self.laid, actor, kind)?)
    }
}
