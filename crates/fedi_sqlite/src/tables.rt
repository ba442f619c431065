//! A keeper of records in a table.
ghost use Rattle.std.specs.Prelude.{◌≡◌, ◌+◌, ◌^◌, ◌<◌, ◌≤◌};
ghost use Rattle.sqlite.specs.Held.{state};
ghost use Rattle.fedi_outside.specs.MemoryKeepers.{no_crashes};
ghost use Rattle.fedi_sqlite.specs.Kept.{IsCalm};
ghost use Rattle.fedi_sqlite.specs.Tables.{LoadsBytes, reported, reported_is_held, table_shown};
ghost use Rattle.std.proofs.Common.{refl, ◌∙◌};

use crate::statements::{insert_row, load_row};
use fedi_outside::{Failed, Keeper, LoadFault, ReserveFault};
use sqlite::{Alter, Connection, Error};
use std::alloc::Global;
use std::marker::Model;

/// The greatest number of records.
pub(crate) const LIMIT: u64 = 1 << 62;

// The bytes of the record at this place.
fn load_bytes<S: Alter>(conn: &mut Connection<S>, place: u64) -> Result<Vec<u8>, Error>
    requires { place < 2 ^ 63 }
    ensures { IsCalm (state S.Store conn.old) (state S.Store conn.new)
        → LoadsBytes (state S.Store conn.old) (state S.Store conn.new) place result }
{
    let row = load_row(conn, place)?;
    row.get(0)
}

/// A keeper of records in the table `kept` of a database. A record counts 1, and it is full at 2^62
/// records. It counts each statement that is refused as a fault, also if that was for lack of
/// memory. An append is one statement, which adds the whole record or nothing, so no record is ever
/// in doubt. It reports nothing about crashes.
#[derive(Drop)]
pub struct Table<S: Alter + Drop> {
    pub(crate) conn: Connection<S>,
    pub(crate) held: u64,
    pub(crate) faults: u64,
    // Whether it reports its records.
    pub(crate) reports: bool,
}

impl<S: Alter + Drop> Model for Table<S> {
    ghost use Rattle.fedi_sqlite.specs.Tables.{IsKnown, TableState, table_code};

    ghost Value = { TableState S };

    ghost coded = { table_code S.code };

    ghost view = { λ t. record {
      conn = t.conn;
      held = t.held;
      faults = t.faults;
      reports = t.reports;
    } };

    ghost invariant = { λ t. IsKnown S.Store t.conn t.held t.reports };
}

impl<S: Alter + Drop> Keeper for Table<S> {
    ghost shown = { table_shown S.Store };

    ghost crashes = { λ _. no_crashes };

    ghost growth = { λ _. 1 };

    ghost room = { λ _. 1 };

    ghost only_read = { λ before after. reported after.reports (state S.Store after.conn)
        ≡ reported before.reports (state S.Store before.conn) };

    ghost crash_now = { λ _. tt };

    ghost read_none = { λ _. refl };

    ghost read_both = { λ _ _ _ one two. two ∙ one };

    ghost told_held = { λ t. reported_is_held t.reports _ t.held };

    fn count(&self) -> u64 {
        self.held
    }

    fn load(&mut self, _: Global, place: u64) -> Result<Option<Vec<u8>>, LoadFault> {
        if place >= self.held {
            return Ok(None);
        }
        match load_bytes(&mut self.conn, place) {
            Ok(bytes) => Ok(Some(bytes)),
            Err(_) => {
                self.faults = self.faults.saturating_add(1);
                Err(LoadFault::Failed)
            }
        }
    }

    fn reserve(&mut self, _: usize) -> Result<(), ReserveFault> {
        if self.held >= LIMIT {
            return Err(ReserveFault::Full);
        }
        Ok(())
    }

    fn settle(&mut self) -> Result<(), Failed> {
        Ok(())
    }

    fn append(&mut self, payload: &[u8]) -> Result<(), Failed> {
        match insert_row(&mut self.conn, self.held, payload) {
            Ok(_) => {
                self.held += 1;
                Ok(())
            }
            Err(_) => {
                self.faults = self.faults.saturating_add(1);
                Err(Failed)
            }
        }
    }
}
