//! Vaults over a table of a file: what a vault does in turn, and over rows that other statements
//! wrote.

ghost use Rattle.std.specs.Prelude.{◌≡◌, IfOk, false};

use crate::files::remove;
use crate::vaults::{RECORDS, expect_filled, expect_kept, keeper_of, makes_with, opens_with};
use fedi_outside::{FillFault, Vault, VaultFault};
use fedi_rows::{expect, expect_at, leaked};
use fedi_selection::TableSelection;
use fedi_sqlite::TableVault;
use fedi_tables::FileVault;
use sqlite::{Alter, Connection, Error};
use std::test::Fail;

// What a vault over a new file of this name does in turn.
fn expect_turns(rt: &HostRuntime, path: &str) -> Result<(), Fail> {
    remove(rt, path)?;
    let mut vault = FileVault::new(rt, path);
    let kept = expect_kept(rt.alloc(), &mut vault);
    vault.finish();
    kept?;
    remove(rt, path)?;
    let mut vault = FileVault::new(rt, path);
    let filled = expect_filled(rt.alloc(), &mut vault);
    vault.finish();
    filled?;
    remove(rt, path)
}

#[test]
fn a_table_keeps_records_and_is_filled_whole_or_not(rt: HostRuntime) -> Result<(), Fail> {
    expect_turns(&rt, "turns.table")
}

/// The table as the program makes it.
const KEPT: &str = "CREATE TABLE kept (place INTEGER PRIMARY KEY, payload BLOB NOT NULL) STRICT";

// What was written before a vault is made over the database, what opening then answers, and what
// making does.
type Written = (
    &'static str,
    Result<bool, VaultFault>,
    Result<bool, VaultFault>,
);

const WRITTEN: [Written; 6] = [
    ("", Ok(true), Ok(true)),
    (KEPT, Ok(true), Ok(true)),
    (
        "CREATE TABLE kept (place INTEGER PRIMARY KEY, payload BLOB NOT NULL) STRICT;
        INSERT INTO kept (place, payload) VALUES (1, x'00')",
        Err(VaultFault::Gap { place: 0 }),
        Err(VaultFault::Exists),
    ),
    (
        "CREATE TABLE kept (place INTEGER PRIMARY KEY, payload BLOB NOT NULL) STRICT;
        INSERT INTO kept (place, payload) VALUES (0, x'00'), (2, x'02'), (-1, x'01')",
        Err(VaultFault::Gap { place: 1 }),
        Err(VaultFault::Exists),
    ),
    (
        "CREATE TABLE kept (place INTEGER PRIMARY KEY, payload BLOB NOT NULL) STRICT;
        INSERT INTO kept (place, payload) VALUES (0, x'00'), (3, x'03'), (1, x'01')",
        Err(VaultFault::Gap { place: 2 }),
        Err(VaultFault::Exists),
    ),
    (
        "CREATE TABLE kept (other TEXT)",
        Err(VaultFault::Failed),
        Err(VaultFault::Failed),
    ),
];

// Writes this in a database that was opened, and does not close it as a vault does. What is done
// with a connection is proved for every store, which is much shorter than for one over files.
fn write<S: Alter + Drop>(opened: Result<Connection<S>, Error>, sql: &str) -> Result<(), Fail> {
    let mut conn = opened?;
    conn.execute_batch(sql)?;
    Ok(())
}

// A vault over a new file in which this was written, and which was not closed as a vault is.
fn written<'a>(rt: &'a HostRuntime, path: &'a str, sql: &str) -> Result<FileVault<'a>, Fail>
    ensures { IfOk result (λ vault. (⟦<FileVault<'a> as Vault>⟧.shown vault).out ≡ false) }
{
    remove(rt, path)?;
    write(Connection::open(rt, path), sql)?;
    Ok(FileVault::new(rt, path))
}

fn expect_written(rt: &HostRuntime, row: &Written, number: usize) -> Result<(), Fail> {
    let path = "written.table";
    let mut vault = written(rt, path, row.0)?;
    let opened = opens_with(rt.alloc(), &mut vault, &[]);
    drop(vault);
    expect_at(opened == row.1, "opened over row", number)?;
    let mut vault = written(rt, path, row.0)?;
    let made = makes_with(rt.alloc(), &mut vault, &[]);
    drop(vault);
    expect_at(made == row.2, "made over row", number)?;
    remove(rt, path)
}

#[test]
fn a_table_that_was_written_elsewhere_is_judged(rt: HostRuntime) -> Result<(), Fail> {
    for number in 0..WRITTEN.len() {
        expect_written(&rt, &WRITTEN[number], number)?;
    }
    Ok(())
}

// A table of other columns is not filled.
#[test]
fn a_refused_statement_is_a_fault(rt: HostRuntime) -> Result<(), Fail> {
    let path = "refused.table";
    let mut from = keeper_of(rt.alloc(), &RECORDS, &[])?;
    let mut vault = written(&rt, path, WRITTEN[5].0)?;
    let filled = vault.fill(rt.alloc(), &mut from);
    drop(vault);
    drop(from);
    expect_at(filled == Err(FillFault::Failed), "filled over row", 5)?;
    remove(&rt, path)
}

// A table in memory is made if there is memory. What it then does, its contract says.
#[test]
fn a_table_in_memory_is_made(rt: HostRuntime) -> Result<(), Fail> {
    let vault = leaked(TableVault::in_memory(rt.alloc()));
    let selection = leaked(TableSelection::in_memory(rt.alloc()));
    expect(vault.is_ok(), "a vault")?;
    expect(selection.is_ok(), "a selection")
}
