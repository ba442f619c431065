//! A selection over a table of a database.
ghost use Rattle.std.specs.Prelude.{◌≡◌, IfErr, IfOk, List, None, Some, []};
ghost use Rattle.sqlite.specs.Held.{state};
ghost use Rattle.fedi_selection.specs.ActRows.{ActFields, AreInOrder};
ghost use Rattle.fedi_selection.specs.Databases.{IsSteady};
ghost use Rattle.fedi_selection.specs.Tables.{FindsRows, LaysOver, table_shown};

use crate::act_rows::ActRow;
use crate::laying::{lay_rows, read_rows};
use crate::selections::{Selection, SelectionFault};
use crate::statements::{make_acts, pick_acts};
use sqlite::{Alter, Connection, Error, MemStore};
use std::alloc::Global;
use std::marker::Model;

/// The table `act` of a database, in which rows of activities are laid. It counts each refusal of a
/// statement as a fault, want of memory too.
#[derive(Drop)]
pub struct TableSelection<S: Alter + Drop> {
    conn: Connection<S>,
    faults: u64,
    // Whether it reports its rows.
    reports: bool,
}

impl<S: Alter + Drop> Model for TableSelection<S> {
    ghost use Rattle.fedi_selection.specs.Tables.{IsKnown, TableState, table_code};

    ghost Value = { TableState S };

    ghost coded = { table_code S.code };

    ghost view = { λ t. record { conn = t.conn; faults = t.faults; reports = t.reports } };

    ghost invariant = { λ t. IsKnown S.Store t.conn t.reports };
}

impl TableSelection<MemStore> {
    /// A selection over a new database in memory, in which nothing is laid. It reports its rows.
    /// The error is out of memory.
    pub fn in_memory(alloc: Global) -> Result<TableSelection<MemStore>, SelectionFault>
        ensures shown { IfOk result (λ made. ⟦<TableSelection<MemStore> as Selection>⟧.shown made
            ≡ record { laid = Some []; faults = 0 }) }
        ensures memory { IfErr result (λ fault. fault ≡ SelectionFault.Memory) }
    {
        let mut conn = Connection::open_in_memory(alloc)?;
        match make_acts(&mut conn) {
            Ok(_) => Ok(TableSelection {
                conn,
                faults: 0,
                reports: true,
            }),
            Err(_) => Err(SelectionFault::Memory),
        }
    }
}

impl<S: Alter + Drop> TableSelection<S> {
    /// A selection over the database of a connection. It reports nothing of its rows.
    pub fn over(conn: Connection<S>) -> TableSelection<S>
        ensures { ⟦<TableSelection<S> as Selection>⟧.shown result
            ≡ record { laid = None; faults = 0 } }
    {
        TableSelection {
            conn,
            faults: 0,
            reports: false,
        }
    }
}

// Makes the table where it is missing, and lays the rows.
fn lay<S: Alter>(conn: &mut Connection<S>, rows: &[ActRow]) -> Result<(), Error>
    requires order { AreInOrder rows.now }
    ensures { IsSteady S.Store
        → LaysOver rows.now (state S.Store conn.old) (state S.Store conn.new) result }
{
    let _ = make_acts(conn)?;
    lay_rows(conn, rows)
}

// The rows of this author and this type.
fn pick<S: Alter>(
    conn: &mut Connection<S>,
    alloc: Global,
    actor: &str,
    kind: &str,
) -> Result<Vec<ActRow>, Error>
    ensures { IsSteady S.Store → FindsRows actor.now kind.now (state S.Store conn.old)
        (state S.Store conn.new) result }
{
    let rows = pick_acts(conn, actor, kind)?;
    read_rows(alloc, &rows)
}

impl<S: Alter + Drop> Selection for TableSelection<S> {
    ghost shown = { table_shown S.Store };

    fn lay(&mut self, _: Global, rows: &[ActRow]) -> Result<(), SelectionFault> {
        match lay(&mut self.conn, rows) {
            Ok(()) => Ok(()),
            Err(_) => {
                self.faults = self.faults.saturating_add(1);
                Err(SelectionFault::Failed)
            }
        }
    }

    fn pick(
        &mut self,
        alloc: Global,
        actor: &str,
        kind: &str,
    ) -> Result<Vec<ActRow>, SelectionFault> {
        match pick(&mut self.conn, alloc, actor, kind) {
            Ok(rows) => Ok(rows),
            Err(_) => {
                self.faults = self.faults.saturating_add(1);
                Err(SelectionFault::Failed)
            }
        }
    }
}
