//! A selection over a file.
ghost use Rattle.std.specs.Prelude.{◌≡◌, IfErr, IfOk, None};
ghost use Rattle.fedi_tables.specs.Vaults.{counted, selection_shown};

use crate::databases::{Log, Unopened, close_database, open_database};
use fedi_selection::{ActRow, Selection, SelectionFault, TableSelection};
use sqlite::{File, FileStore};
use std::alloc::Global;

/// The table of activities in a file. The first call opens the file, or makes it, and it is locked
/// until `finish`. If it cannot be opened, that call and each later one fails, and is counted. Only
/// if memory was short, the next call tries again. It reports nothing of its rows.
pub struct FileSelection<'a> {
    rt: &'a HostRuntime,
    path: &'a str,
    // None before the file is open.
    selection: Option<TableSelection<FileStore<File>>>,
    // How many calls failed because it is not.
    faults: u64,
}

// Written out, so that a caller does not prove again how each part is dropped.
impl Drop for FileSelection<'_> {
    fn drop(self) {
        let FileSelection {
            rt: _,
            path: _,
            selection: _,
            faults: _,
        } = self;
    }
}

impl<'a> FileSelection<'a> {
    /// The selection in the file at this path. Nothing is opened or made yet.
    pub fn new(rt: &'a HostRuntime, path: &'a str) -> Self
        ensures { ⟦<FileSelection<'a> as Selection>⟧.shown result
            ≡ record { laid = None; faults = 0 } }
    {
        FileSelection {
            rt,
            path,
            selection: None,
            faults: 0,
        }
    }

    // The selection over the open file. The file is opened if it was not.
    fn take(&mut self) -> Result<TableSelection<FileStore<File>>, Unopened>
        ensures taken { IfOk result (λ selection.
            ⟦<TableSelection<FileStore<File>> as Selection>⟧.shown selection
            ≡ ⟦<FileSelection<'a> as Selection>⟧.shown self.old) }
        ensures refused { IfErr result (λ why. ⟦<FileSelection<'a> as Selection>⟧.shown self.new
            ≡ record (⟦<FileSelection<'a> as Selection>⟧.shown self.old) {
              faults = counted why (⟦<FileSelection<'a> as Selection>⟧.shown self.old).faults;
            }) }
    {
        if let Some(selection) = self.selection.take() {
            return Ok(selection);
        }
        if self.faults > 0 {
            self.faults = self.faults.saturating_add(1);
            return Err(Unopened::Failed);
        }
        match open_database(self.rt, self.path) {
            Ok(conn) => Ok(TableSelection::over(conn)),
            Err(Unopened::Failed) => {
                self.faults = 1;
                Err(Unopened::Failed)
            }
            Err(Unopened::Memory) => Err(Unopened::Memory),
        }
    }

    /// Closes the file, if it was opened: all rows are then in this one file, and the log beside it
    /// is removed. If that fails, both files are left, which together hold all rows.
    pub fn finish(self) {
        let FileSelection {
            rt,
            path,
            selection,
            faults: _,
        } = self;
        if let Some(selection) = selection {
            // A selection does not give its connection back, so the file is opened again.
            drop(selection);
            if let Ok(conn) = open_database(rt, path) {
                let log = Log::find(rt, path).ok();
                close_database(rt, conn, log);
            }
        }
    }
}

impl<'a> Selection for FileSelection<'a> {
    ghost shown = { λ s. selection_shown ⟦<TableSelection<FileStore<File>> as Selection>⟧.shown
        s.selection s.faults };

    fn lay(&mut self, alloc: Global, rows: &[ActRow]) -> Result<(), SelectionFault> {
        match self.take() {
            Ok(mut selection) => {
                let laid = selection.lay(alloc, rows);
                self.selection = Some(selection);
                laid
            }
            Err(Unopened::Failed) => Err(SelectionFault::Failed),
            Err(Unopened::Memory) => Err(SelectionFault::Memory),
        }
    }

    fn pick(
        &mut self,
        alloc: Global,
        actor: &str,
        kind: &str,
    ) -> Result<Vec<ActRow>, SelectionFault> {
        match self.take() {
            Ok(mut selection) => {
                let picked = selection.pick(alloc, actor, kind);
                self.selection = Some(selection);
                picked
            }
            Err(Unopened::Failed) => Err(SelectionFault::Failed),
            Err(Unopened::Memory) => Err(SelectionFault::Memory),
        }
    }
}
