//! Which places of the table have a record, and whether a keeper may be made or opened over it.
ghost use Rattle.std.specs.Prelude.{◌≡◌, ◌≤◌, ◌^◌, ℕ, All, IfOk, IsErrOf, length, true};
ghost use Rattle.sqlite.specs.Held.{state};
ghost use Rattle.fedi_sqlite.specs.Kept.{IsPlaceBelow, Lists};
ghost use Rattle.fedi_sqlite.specs.Tables.{IsSteady};
ghost use Rattle.fedi_sqlite.specs.Vaults.{Begins, Counts, Resumes};

use crate::statements::{list_places, make_table};
use crate::tables::LIMIT;
use fedi_outside::VaultFault;
use sqlite::{Alter, Connection, Error, Row};

/// Which places of a table have a record.
#[derive(Clone, Copy, Debug, PartialEq, Eq)]
pub(crate) enum Places {
    /// The first so many, from 0 on, and no others.
    Whole(u64),
    /// Not those: this is the first that has none.
    Gap(u64),
}

// The first place from 0 on that no row shows. The rows ascend, and a place below 0 does not count.
fn first_missing(rows: &[Row]) -> Result<u64, Error> {
    let mut place: u64 = 0;
    for row in rows {
        let found: i64 = row.get(0)?;
        match u64::try_from(found) {
            Ok(found) if found == place => place = place.saturating_add(1),
            Ok(_) => return Ok(place),
            Err(_) => {}
        }
    }
    Ok(place)
}

// Whether the row shows a place from 0 on that is below this one.
fn is_below(row: &Row, count: u64) -> Result<bool, Error>
    ensures { IsPlaceBelow count row.now → IfOk result (λ below. below ≡ true) }
{
    match row.get::<u64>(0) {
        Ok(place) => Ok(place < count),
        Err(Error::IntegralValueOutOfRange(_)) => Ok(false),
        Err(error) => Err(error),
    }
}

// Whether each row shows a place that is below the number of rows. As no two rows have the same
// place, these are then all places below it.
fn are_below(rows: &[Row]) -> Result<bool, Error>
    ensures { All (IsPlaceBelow (length rows.now)) rows.now → IfOk result (λ all. all ≡ true) }
{
    let count = rows.len() as u64;
    for row in rows {
        if !is_below(row, count)? {
            return Ok(false);
        }
    }
    Ok(true)
}

// Makes the table if it is missing, and lists its places.
fn make_and_list<S: Alter>(conn: &mut Connection<S>) -> Result<Vec<Row>, Error>
    ensures { IsSteady S.Store → Lists (state S.Store conn.old) (state S.Store conn.new) result }
{
    let _ = make_table(conn)?;
    list_places(conn)
}

/// Which places have a record. The table is made if it is missing.
pub(crate) fn find_places<S: Alter>(conn: &mut Connection<S>) -> Result<Places, Error>
    ensures { IsSteady S.Store → Counts (state S.Store conn.old) (state S.Store conn.new) result }
{
    let rows = make_and_list(conn)?;
    if are_below(&rows)? {
        Ok(Places::Whole(rows.len() as u64))
    } else {
        Ok(Places::Gap(first_missing(&rows)?))
    }
}

/// Whether a keeper may be made over the table. `Exists` if it has a record, and `Failed` if a
/// statement was refused. The table is made if it is missing.
pub(crate) fn begin<S: Alter>(conn: &mut Connection<S>) -> Result<(), VaultFault>
    ensures begun { IsSteady S.Store
        → Begins (state S.Store conn.old) (state S.Store conn.new) result }
    ensures whole { (place : ℕ) → IsErrOf result (VaultFault.Gap place) → ⊥ }
{
    match find_places(conn) {
        Ok(Places::Whole(count)) => {
            if count == 0 {
                Ok(())
            } else {
                Err(VaultFault::Exists)
            }
        }
        Ok(Places::Gap(_)) => Err(VaultFault::Exists),
        Err(_) => Err(VaultFault::Failed),
    }
}

/// How many records the table has. `Gap` if the places are not those from 0 on, and `Failed` if a
/// statement was refused or there are more than 2^62. The table is made if it is missing.
pub(crate) fn resume<S: Alter>(conn: &mut Connection<S>) -> Result<u64, VaultFault>
    ensures resumed { IsSteady S.Store
        → Resumes (state S.Store conn.old) (state S.Store conn.new) result }
    ensures bound { IfOk result (λ count. count ≤ 2 ^ 62) }
    ensures free { IsErrOf result VaultFault.Exists → ⊥ }
{
    match find_places(conn) {
        Ok(Places::Whole(count)) => {
            if count <= LIMIT {
                Ok(count)
            } else {
                Err(VaultFault::Failed)
            }
        }
        Ok(Places::Gap(place)) => Err(VaultFault::Gap { place }),
        Err(_) => Err(VaultFault::Failed),
    }
}
