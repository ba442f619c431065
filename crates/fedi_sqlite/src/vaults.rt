//! A vault over a database.
ghost use Rattle.std.specs.Prelude.{◌≡◌, [], IfErr, IfOk, None, Some, false, is_some, not};
ghost use Rattle.fedi_outside.specs.Vaults.{IsFilled, after_fill};
ghost use Rattle.fedi_sqlite.specs.Vaults.{counted_fault, counted_unfilled, vault_shown};

use crate::filling::fill_table;
use crate::places::{begin, resume};
use crate::statements::make_table;
use crate::tables::Table;
use fedi_outside::{FillFault, Keeper, Vault, VaultFault};
use sqlite::{Alter, Connection, MemStore};
use std::alloc::Global;
use std::marker::Model;

/// The table `kept` of a database, with the records between two runs. It counts each statement that
/// is refused as a fault, also if that was for lack of memory.
#[derive(Drop)]
pub struct TableVault<S: Alter + Drop> {
    // None while the keeper is out.
    conn: Option<Connection<S>>,
    faults: u64,
    // Whether it reports its records.
    reports: bool,
}

impl<S: Alter + Drop> Model for TableVault<S> {
    ghost use Rattle.fedi_sqlite.specs.Vaults.{IsAtHome, TableVaultState, vault_code};

    ghost Value = { TableVaultState S };

    ghost coded = { vault_code S.code };

    ghost view = { λ v. record { conn = v.conn; faults = v.faults; reports = v.reports } };

    ghost invariant = { λ v. IsAtHome S.Store v.conn v.reports };
}

impl TableVault<MemStore> {
    /// A vault over a new database in memory, in which nothing was made. It reports its records.
    /// The error is out of memory.
    pub fn in_memory(alloc: Global) -> Result<TableVault<MemStore>, VaultFault>
        ensures shown { IfOk result (λ vault. ⟦<TableVault<MemStore> as Vault>⟧.shown vault
            ≡ record { kept = Some []; out = false; faults = 0 }) }
        ensures memory { IfErr result (λ fault. fault ≡ VaultFault.Memory) }
    {
        let mut conn = Connection::open_in_memory(alloc)?;
        match make_table(&mut conn) {
            Ok(_) => Ok(TableVault {
                conn: Some(conn),
                faults: 0,
                reports: true,
            }),
            Err(_) => Err(VaultFault::Memory),
        }
    }
}

impl<S: Alter + Drop> TableVault<S> {
    /// A vault over the database of a connection. It reports nothing about its records.
    pub fn over(conn: Connection<S>) -> TableVault<S>
        ensures { ⟦<TableVault<S> as Vault>⟧.shown result
            ≡ record { kept = None; out = false; faults = 0 } }
    {
        TableVault {
            conn: Some(conn),
            faults: 0,
            reports: false,
        }
    }

    /// The connection to its database, unless a keeper is out.
    pub fn into_connection(self) -> Option<Connection<S>>
        ensures { is_some result ≡ not (⟦<TableVault<S> as Vault>⟧.shown self).out }
    {
        self.conn
    }
}

// The count of faults after a call that ended with this one.
fn counted(faults: u64, fault: VaultFault) -> u64
    ensures { result ≡ counted_fault fault faults }
{
    match fault {
        VaultFault::Failed => faults.saturating_add(1),
        _ => faults,
    }
}

// The same of a filling.
fn counted_unfilled(faults: u64, fault: FillFault) -> u64
    ensures { result ≡ counted_unfilled fault faults }
{
    match fault {
        FillFault::Failed => faults.saturating_add(1),
        _ => faults,
    }
}

impl<S: Alter + Drop> Vault for TableVault<S> {
    type K = Table<S>;

    ghost shown = { vault_shown S.Store };

    fn make(&mut self, _: Global) -> Result<Table<S>, VaultFault> {
        let Some(mut conn) = self.conn.take() else {
            unreachable!();
        };
        match begin(&mut conn) {
            Ok(()) => Ok(Table {
                conn,
                held: 0,
                faults: self.faults,
                reports: self.reports,
            }),
            Err(fault) => {
                self.conn = Some(conn);
                self.faults = counted(self.faults, fault);
                Err(fault)
            }
        }
    }

    fn open(&mut self, _: Global) -> Result<Table<S>, VaultFault> {
        let Some(mut conn) = self.conn.take() else {
            unreachable!();
        };
        match resume(&mut conn) {
            Ok(held) => Ok(Table {
                conn,
                held,
                faults: self.faults,
                reports: self.reports,
            }),
            Err(fault) => {
                self.conn = Some(conn);
                self.faults = counted(self.faults, fault);
                Err(fault)
            }
        }
    }

    fn close(&mut self, keeper: Table<S>) {
        self.faults = self.faults.max(keeper.faults);
        self.reports = keeper.reports;
        self.conn = Some(keeper.conn);
    }

    // It reports its records after the filling if it did before.
    fn fill<P: Keeper>(&mut self, alloc: Global, from: &mut P) -> Result<(), FillFault>
        requires home { (vault_shown S.Store self.old).out ≡ false }
        ensures filled { IsFilled (P.shown from.old).records (vault_shown S.Store self.old)
            (vault_shown S.Store self.new) result }
        ensures source { P.shown from.new ≡ after_fill result (P.shown from.old) }
        ensures outside { P.only_read from.old from.new }
        ensures reports { self.new.reports ≡ self.old.reports }
    {
        let Some(mut conn) = self.conn.take() else {
            unreachable!();
        };
        match fill_table(&mut conn, alloc, from) {
            Ok(()) => {
                self.conn = Some(conn);
                Ok(())
            }
            Err(fault) => {
                self.conn = Some(conn);
                self.faults = counted_unfilled(self.faults, fault);
                Err(fault)
            }
        }
    }
}
