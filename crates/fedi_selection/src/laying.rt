//! Laying rows of activities in a table in one transaction, and reading those that are picked.
ghost use Rattle.std.specs.Prelude.{◌≡◌, IfOk, List, map};
ghost use Rattle.sqlite.specs.Held.{state};
ghost use Rattle.fedi_selection.specs.ActRows.{ActFields, AreInOrder};
ghost use Rattle.fedi_selection.specs.Acts.{shown_row};
ghost use Rattle.fedi_selection.specs.Databases.{IsSteady};
ghost use Rattle.fedi_selection.specs.Laying.{LaysIn, LaysRows};

use crate::act_rows::ActRow;
use crate::statements::{clear_acts, insert_act};
use sqlite::{Alter, Connection, Error, ErrorCode, Row, Transaction};
use std::alloc::Global;

// Puts these rows in place of all rows.
fn replace_rows<S: Alter>(tx: &mut Transaction<'_, S>, rows: &[ActRow]) -> Result<(), Error>
    requires order { AreInOrder rows.now }
    ensures same_reference { tx.new.conn.ghost_name ≡ tx.old.conn.ghost_name }
    ensures rows { IsSteady S.Store → LaysIn rows.now (state S.Store tx.old.conn.now)
        (state S.Store tx.new.conn.now) result }
{
    let _ = clear_acts(tx)?;
    for row in rows {
        let _ = insert_act(tx, row)?;
    }
    Ok(())
}

/// Puts these rows in place of all rows, in one transaction: after an error the table is as before.
pub(crate) fn lay_rows<S: Alter>(conn: &mut Connection<S>, rows: &[ActRow]) -> Result<(), Error>
    requires order { AreInOrder rows.now }
    ensures { IsSteady S.Store
        → LaysRows rows.now (state S.Store conn.old) (state S.Store conn.new) result }
{
    if !conn.is_autocommit() {
        return Err(Error::SqliteFailure(ErrorCode::TransactionState));
    }
    let mut tx = conn.transaction();
    replace_rows(&mut tx, rows)?;
    tx.commit()
}

/// The least moment that is too late for a row.
const TOO_LATE: u64 = 253_402_300_800;

/// The least place that is too high for a row.
const TOO_HIGH: u64 = 1 << 62;

// The activity that a query shows.
fn read_row(row: &Row) -> Result<ActRow, Error>
    ensures { (act : ActFields) → row.now ≡ shown_row act → IfOk result (λ read. read ≡ act) }
{
    let place: u64 = row.get(0)?;
    if place >= TOO_HIGH {
        return Err(Error::IntegralValueOutOfRange(0));
    }
    let id: String = row.get(1)?;
    let actor: String = row.get(2)?;
    let kind: String = row.get(3)?;
    let state: String = row.get(4)?;
    let moment: u64 = row.get(5)?;
    if moment >= TOO_LATE {
        return Err(Error::IntegralValueOutOfRange(5));
    }
    Ok(ActRow::of_texts(place, id, actor, kind, state, moment))
}

/// The activities that a query shows.
pub(crate) fn read_rows(alloc: Global, rows: &[Row]) -> Result<Vec<ActRow>, Error>
    ensures { (acts : List ActFields) → rows.now ≡ map shown_row acts
        → IfOk result (λ read. read.items ≡ acts) }
{
    let mut read = Vec::new(alloc);
    for row in rows {
        read.push(read_row(row)?)?;
    }
    Ok(read)
}
