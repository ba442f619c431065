//! The statements on the tables, each in a function of its own.
ghost use Rattle.std.specs.Prelude.{◌≡◌};
ghost use Rattle.sqlite.specs.Held.{state};
ghost use Rattle.fedi_selection.specs.Acts.{AddsIn, ClearsIn, MakesActs, ShowsPicked, act_row};
ghost use Rattle.fedi_selection.specs.Databases.{IsCalm};

use crate::act_rows::ActRow;
use sqlite::{Alter, Connection, Error, Row, Transaction, params};

/// Makes the table of activities where it is missing.
pub(crate) fn make_acts<S: Alter>(conn: &mut Connection<S>) -> Result<usize, Error>
    ensures { IsCalm (state S.Store conn.old) (state S.Store conn.new)
        → MakesActs (state S.Store conn.old) (state S.Store conn.new) result }
{
    conn.execute(
        "CREATE TABLE IF NOT EXISTS act (place INTEGER PRIMARY KEY, id TEXT NOT NULL, \
         actor TEXT NOT NULL, kind TEXT NOT NULL, state TEXT NOT NULL, moment INTEGER NOT NULL) \
         STRICT",
        &[],
    )
}

/// Deletes all activities.
pub(crate) fn clear_acts<S: Alter>(tx: &mut Transaction<'_, S>) -> Result<usize, Error>
    ensures same_reference { tx.new.conn.ghost_name ≡ tx.old.conn.ghost_name }
    ensures rows { IsCalm (state S.Store tx.old.conn.now) (state S.Store tx.new.conn.now)
        → ClearsIn (state S.Store tx.old.conn.now) (state S.Store tx.new.conn.now) result }
{
    tx.execute("DELETE FROM act", &[])
}

/// Adds an activity.
pub(crate) fn insert_act<S: Alter>(
    tx: &mut Transaction<'_, S>,
    row: &ActRow,
) -> Result<usize, Error>
    ensures same_reference { tx.new.conn.ghost_name ≡ tx.old.conn.ghost_name }
    ensures rows { IsCalm (state S.Store tx.old.conn.now) (state S.Store tx.new.conn.now)
        → AddsIn (act_row row.now) (state S.Store tx.old.conn.now)
        (state S.Store tx.new.conn.now) result }
{
    let at = row.place() as i64;
    let when = row.moment() as i64;
    tx.execute(
        "INSERT INTO act (place, id, actor, kind, state, moment) VALUES (?1, ?2, ?3, ?4, ?5, ?6)",
        params![at, row.id(), row.actor(), row.kind(), row.state(), when],
    )
}

/// The activities of this author and this type, in the order of their places.
pub(crate) fn pick_acts<S: Alter>(
    conn: &mut Connection<S>,
    actor: &str,
    kind: &str,
) -> Result<Vec<Row>, Error>
    ensures { IsCalm (state S.Store conn.old) (state S.Store conn.new)
        → ShowsPicked actor.now kind.now (state S.Store conn.old) (state S.Store conn.new) result }
{
    conn.query_all(
        "SELECT place, id, actor, kind, state, moment FROM act WHERE actor = ?1 AND kind = ?2 \
         ORDER BY place",
        params![actor, kind],
    )
}
