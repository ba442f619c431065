//! The statements on the table of records, each in a function with one call of the database.
ghost use Rattle.std.specs.Prelude.{◌≡◌, ◌^◌, ◌<◌};
ghost use Rattle.sqlite.specs.Held.{state};
ghost use Rattle.fedi_sqlite.specs.Kept.{Appends, AppendsWithin, IsCalm, Lists, Loads, Makes};

use sqlite::{Alter, Connection, Error, Row, Transaction, params};

/// Adds a record.
const INSERT: &str = "INSERT INTO kept (place, payload) VALUES (?1, ?2)";

/// Makes the table if it is missing.
pub(crate) fn make_table<S: Alter>(conn: &mut Connection<S>) -> Result<usize, Error>
    ensures { IsCalm (state S.Store conn.old) (state S.Store conn.new)
        → Makes (state S.Store conn.old) (state S.Store conn.new) result }
{
    conn.execute(
        "CREATE TABLE IF NOT EXISTS kept (place INTEGER PRIMARY KEY, payload BLOB NOT NULL) STRICT",
        &[],
    )
}

/// The places of all records, in ascending order.
pub(crate) fn list_places<S: Alter>(conn: &mut Connection<S>) -> Result<Vec<Row>, Error>
    ensures { IsCalm (state S.Store conn.old) (state S.Store conn.new)
        → Lists (state S.Store conn.old) (state S.Store conn.new) result }
{
    conn.query_all("SELECT place FROM kept ORDER BY place", &[])
}

/// The row with the payload at this place.
pub(crate) fn load_row<S: Alter>(conn: &mut Connection<S>, place: u64) -> Result<Row, Error>
    requires { place < 2 ^ 63 }
    ensures { IsCalm (state S.Store conn.old) (state S.Store conn.new)
        → Loads (state S.Store conn.old) (state S.Store conn.new) place result }
{
    let at = place as i64;
    conn.query_row("SELECT payload FROM kept WHERE place = ?1", params![at])
}

/// Adds a record at this place.
pub(crate) fn insert_row<S: Alter>(
    conn: &mut Connection<S>,
    place: u64,
    payload: &[u8],
) -> Result<usize, Error>
    requires { place < 2 ^ 63 }
    ensures { IsCalm (state S.Store conn.old) (state S.Store conn.new)
        → Appends (state S.Store conn.old) (state S.Store conn.new) place payload.now result }
{
    let at = place as i64;
    conn.execute(INSERT, params![at, payload])
}

/// Adds a record at this place, within a transaction.
pub(crate) fn insert_within<S: Alter>(
    within: &mut Transaction<'_, S>,
    place: u64,
    payload: &[u8],
) -> Result<usize, Error>
    requires { place < 2 ^ 63 }
    ensures same_reference { within.new.conn.ghost_name ≡ within.old.conn.ghost_name }
    ensures rows { IsCalm (state S.Store within.old.conn.now) (state S.Store within.new.conn.now)
        → AppendsWithin (state S.Store within.old.conn.now) (state S.Store within.new.conn.now)
        place payload.now result }
{
    let at = place as i64;
    within.execute(INSERT, params![at, payload])
}
