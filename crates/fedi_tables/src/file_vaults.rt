//! A vault over a file.
ghost use Rattle.std.specs.Prelude.{◌≡◌, IfErr, IfOk, None, false};
ghost use Rattle.fedi_tables.specs.Vaults.{counted, vault_shown};

use crate::databases::{Log, Unopened, close_database, open_database};
use fedi_outside::{FillFault, Keeper, Vault, VaultFault};
use fedi_sqlite::{Table, TableVault};
use sqlite::{File, FileStore};
use std::alloc::Global;

/// The table of records in a file. The first call opens the file, or makes it, and it is locked
/// until `finish`. If it cannot be opened, that call and each later one fails, and is counted. Only
/// if memory was short, the next call tries again. It reports nothing of its records.
pub struct FileVault<'a> {
    rt: &'a HostRuntime,
    path: &'a str,
    // None before the file is open.
    vault: Option<TableVault<FileStore<File>>>,
    log: Option<Log>,
    // How many calls failed because it is not.
    faults: u64,
}

// Written out, so that a caller does not prove again how each part is dropped.
impl Drop for FileVault<'_> {
    fn drop(self) {
        let FileVault {
            rt: _,
            path: _,
            vault: _,
            log: _,
            faults: _,
        } = self;
    }
}

impl<'a> FileVault<'a> {
    /// The vault of the file at this path. Nothing is opened or made yet.
    pub fn new(rt: &'a HostRuntime, path: &'a str) -> Self
        ensures { ⟦<FileVault<'a> as Vault>⟧.shown result
            ≡ record { kept = None; out = false; faults = 0 } }
    {
        FileVault {
            rt,
            path,
            vault: None,
            log: None,
            faults: 0,
        }
    }

    // The vault over the open file. The file is opened if it was not.
    fn take(&mut self) -> Result<TableVault<FileStore<File>>, Unopened>
        ensures taken { IfOk result (λ vault. ⟦<TableVault<FileStore<File>> as Vault>⟧.shown vault
            ≡ ⟦<FileVault<'a> as Vault>⟧.shown self.old) }
        ensures refused { IfErr result (λ why. ⟦<FileVault<'a> as Vault>⟧.shown self.new
            ≡ record (⟦<FileVault<'a> as Vault>⟧.shown self.old) {
              faults = counted why (⟦<FileVault<'a> as Vault>⟧.shown self.old).faults;
            }) }
    {
        if let Some(vault) = self.vault.take() {
            return Ok(vault);
        }
        if self.faults > 0 {
            self.faults = self.faults.saturating_add(1);
            return Err(Unopened::Failed);
        }
        match open_database(self.rt, self.path) {
            Ok(conn) => {
                self.log = Log::find(self.rt, self.path).ok();
                Ok(TableVault::over(conn))
            }
            Err(Unopened::Failed) => {
                self.faults = 1;
                Err(Unopened::Failed)
            }
            Err(Unopened::Memory) => Err(Unopened::Memory),
        }
    }

    /// Closes the file, if it is open: all records are then in this one file, and the log beside it
    /// is removed. If that fails, both files are left, which together hold all records.
    pub fn finish(self) {
        let FileVault {
            rt,
            path: _,
            vault,
            log,
            faults: _,
        } = self;
        if let Some(vault) = vault {
            if let Some(conn) = vault.into_connection() {
                close_database(rt, conn, log);
            }
        }
    }
}

impl<'a> Vault for FileVault<'a> {
    type K = Table<FileStore<File>>;

    ghost shown = { λ v. vault_shown ⟦<TableVault<FileStore<File>> as Vault>⟧.shown v.vault
        v.faults };

    fn make(&mut self, alloc: Global) -> Result<Table<FileStore<File>>, VaultFault> {
        match self.take() {
            Ok(mut vault) => {
                let made = vault.make(alloc);
                self.vault = Some(vault);
                made
            }
            Err(Unopened::Failed) => Err(VaultFault::Failed),
            Err(Unopened::Memory) => Err(VaultFault::Memory),
        }
    }

    fn open(&mut self, alloc: Global) -> Result<Table<FileStore<File>>, VaultFault> {
        match self.take() {
            Ok(mut vault) => {
                let opened = vault.open(alloc);
                self.vault = Some(vault);
                opened
            }
            Err(Unopened::Failed) => Err(VaultFault::Failed),
            Err(Unopened::Memory) => Err(VaultFault::Memory),
        }
    }

    fn close(&mut self, keeper: Table<FileStore<File>>) {
        let Some(vault) = &mut self.vault else {
            unreachable!();
        };
        vault.close(keeper);
    }

    fn fill<P: Keeper>(&mut self, alloc: Global, from: &mut P) -> Result<(), FillFault> {
        match self.take() {
            Ok(mut vault) => {
                let filled = vault.fill(alloc, from);
                self.vault = Some(vault);
                filled
            }
            Err(Unopened::Failed) => Err(FillFault::Failed),
            Err(Unopened::Memory) => Err(FillFault::Memory),
        }
    }
}
