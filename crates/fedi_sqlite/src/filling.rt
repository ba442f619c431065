//! Filling a table from a keeper, in one transaction.
ghost use Rattle.std.specs.Prelude.{◌≡◌, ◌^◌, ◌<◌, ◌≤◌, [], IsErrOf};
ghost use Rattle.sqlite.specs.Held.{state};
ghost use Rattle.fedi_outside.specs.Vaults.{after_fill};
ghost use Rattle.fedi_sqlite.specs.Filling.{CopiesAll, CopiesOne, Fills, FillsEmpty};
ghost use Rattle.fedi_sqlite.specs.Tables.{IsSteady};

use crate::places::begin;
use crate::statements::insert_within;
use crate::tables::LIMIT;
use fedi_outside::{FillFault, Keeper, LoadFault, VaultFault};
use sqlite::{Alter, Connection, Transaction};
use std::alloc::Global;

// Adds the record of a keeper at this place, within a transaction.
fn copy_row<S: Alter, P: Keeper>(
    within: &mut Transaction<'_, S>,
    alloc: Global,
    from: &mut P,
    place: u64,
) -> Result<(), FillFault>
    requires inside { place < (P.shown from.old).held }
    requires bound { place < 2 ^ 63 }
    ensures same_reference { within.new.conn.ghost_name ≡ within.old.conn.ghost_name }
    ensures copied { IsSteady S.Store → CopiesOne (P.shown from.old).records
        (state S.Store within.old.conn.now) (state S.Store within.new.conn.now) place result }
    ensures free { IsErrOf result FillFault.Exists → ⊥ }
    ensures source { P.shown from.new ≡ after_fill result (P.shown from.old) }
    ensures outside { P.only_read from.old from.new }
{
    let bytes = match from.load(alloc, place) {
        Ok(Some(bytes)) => bytes,
        Ok(None) => unreachable!(),
        Err(LoadFault::Failed) => return Err(FillFault::Source),
        Err(LoadFault::Memory) => return Err(FillFault::Memory),
    };
    match insert_within(within, place, &bytes) {
        Ok(_) => Ok(()),
        Err(_) => Err(FillFault::Failed),
    }
}

// Adds all records of a keeper, within a transaction.
fn copy_rows<S: Alter, P: Keeper>(
    within: &mut Transaction<'_, S>,
    alloc: Global,
    from: &mut P,
) -> Result<(), FillFault>
    requires { (P.shown from.old).held ≤ 2 ^ 62 }
    ensures same_reference { within.new.conn.ghost_name ≡ within.old.conn.ghost_name }
    ensures copied { IsSteady S.Store → CopiesAll (P.shown from.old).records
        (state S.Store within.old.conn.now) (state S.Store within.new.conn.now) result }
    ensures free { IsErrOf result FillFault.Exists → ⊥ }
    ensures source { P.shown from.new ≡ after_fill result (P.shown from.old) }
    ensures outside { P.only_read from.old from.new }
{
    let count = from.count();
    let mut place = 0;
    'records: while place < count {
        match copy_row(within, alloc, from, place) {
            Ok(()) => place += 1,
            Err(fault) => return Err(fault),
        }
    }
    Ok(())
}

// Adds all records of a keeper to a table without records. After an error the transaction is
// rolled back.
fn fill_empty<S: Alter, P: Keeper>(
    conn: &mut Connection<S>,
    alloc: Global,
    from: &mut P,
) -> Result<(), FillFault>
    requires { (P.shown from.old).held ≤ 2 ^ 62 }
    ensures filled { IsSteady S.Store → FillsEmpty (P.shown from.old).records
        (state S.Store conn.old) (state S.Store conn.new) result }
    ensures free { IsErrOf result FillFault.Exists → ⊥ }
    ensures source { P.shown from.new ≡ after_fill result (P.shown from.old) }
    ensures outside { P.only_read from.old from.new }
{
    if !conn.is_autocommit() {
        return Err(FillFault::Failed);
    }
    let mut within = conn.transaction();
    copy_rows(&mut within, alloc, from)?;
    match within.commit() {
        Ok(()) => Ok(()),
        Err(_) => Err(FillFault::Failed),
    }
}

/// Adds all records of a keeper to the table in one transaction, if it has none. The table is made
/// if it is missing. `Exists` if it has a record, `Source` if the keeper failed, `Failed` if a
/// statement was refused or there are more than 2^62 records, and `Memory` if there is none for a
/// record. After an error the table has what it had.
pub(crate) fn fill_table<S: Alter, P: Keeper>(
    conn: &mut Connection<S>,
    alloc: Global,
    from: &mut P,
) -> Result<(), FillFault>
    ensures filled { IsSteady S.Store → Fills (P.shown from.old).records
        (state S.Store conn.old) (state S.Store conn.new) result }
    ensures source { P.shown from.new ≡ after_fill result (P.shown from.old) }
    ensures outside { P.only_read from.old from.new }
{
    match begin(conn) {
        Ok(()) => {}
        Err(VaultFault::Exists) => return Err(FillFault::Exists),
        Err(_) => return Err(FillFault::Failed),
    }
    if from.count() > LIMIT {
        return Err(FillFault::Failed);
    }
    fill_empty(conn, alloc, from)
}
