//! Vaults over files: what is beside the file, and who else may open it; and paths that are refused.

use crate::vaults::{RECORDS, keeper_of, makes_with, opens_with};
use fedi_outside::{FillFault, Vault, VaultFault};
use fedi_rows::{expect, expect_at};
use fedi_selection::{Selection, SelectionFault};
use fedi_tables::{FileSelection, FileVault};
use std::fs;
use std::os::unix::fs::MetadataExt;
use std::test::Fail;

/// Removes the file of this name and its log, where an earlier run left them.
pub fn remove(rt: &HostRuntime, path: &str) -> Result<(), Fail> {
    let log = format!(in rt.alloc(); "{path}-wal")?;
    let _ = fs::remove_file(rt, path);
    let _ = fs::remove_file(rt, log.as_str());
    Ok(())
}

/// Whether there is a file of this name, and one of its log, or `None` if that cannot be asked.
pub fn are_there(rt: &HostRuntime, path: &str, log: &str) -> Option<(bool, bool)> {
    Some((fs::exists(rt, path).ok()?, fs::exists(rt, log).ok()?))
}

// What is made is in one file once the vault is finished, which is its owner's alone, and is opened
// again by another.
#[test]
fn a_vault_leaves_one_file(rt: HostRuntime) -> Result<(), Fail> {
    let (path, log) = ("one.table", "one.table-wal");
    let alloc = rt.alloc();
    let mut first = FileVault::new(&rt, path);
    let before = are_there(&rt, path, log);
    let made = makes_with(alloc, &mut first, &RECORDS);
    let while_open = are_there(&rt, path, log);
    let mut second = FileVault::new(&rt, path);
    let while_locked = opens_with(alloc, &mut second, &RECORDS);
    first.finish();
    let finished = are_there(&rt, path, log);
    let refused_once = opens_with(alloc, &mut second, &RECORDS);
    drop(second);
    let mut third = FileVault::new(&rt, path);
    let opened = opens_with(alloc, &mut third, &RECORDS);
    third.finish();
    expect_at(before == Some((false, false)), path, 0)?;
    expect_at(made == Ok(true), path, 1)?;
    expect_at(while_open == Some((true, true)), path, 2)?;
    let busy = Err(VaultFault::Failed);
    expect_at(while_locked == busy, path, 3)?;
    expect_at(finished == Some((true, false)), path, 4)?;
    // It was refused once, and stays so.
    expect_at(refused_once == busy, path, 5)?;
    expect_at(opened == Ok(true), path, 6)?;
    expect_at(are_there(&rt, path, log) == Some((true, false)), path, 7)?;
    let mode = fs::metadata(&rt, path)?.mode();
    expect_at(mode & 0o777 == 0o600, path, 8)?;
    fs::remove_file(&rt, path)?;
    Ok(())
}

const NO_DATABASE: &[u8] = b"This is a text, and no database at all, though it is long enough.";

// A file that is no database is refused and left as it was, and nothing is left beside it.
#[test]
fn a_file_that_is_no_database_is_refused(rt: HostRuntime) -> Result<(), Fail> {
    let (path, log) = ("text.table", "text.table-wal");
    let alloc = rt.alloc();
    fs::write(&rt, path, NO_DATABASE)?;
    let mut from = keeper_of(alloc, &RECORDS, &[])?;
    let mut vault = FileVault::new(&rt, path);
    let opened = opens_with(alloc, &mut vault, &[]);
    let made = makes_with(alloc, &mut vault, &[]);
    let filled = vault.fill(alloc, &mut from);
    vault.finish();
    drop(from);
    let refused = Err(VaultFault::Failed);
    expect_at(opened == refused, path, 1)?;
    expect_at(made == refused, path, 2)?;
    expect_at(filled == Err(FillFault::Failed), path, 3)?;
    expect_at(are_there(&rt, path, log) == Some((true, false)), path, 4)?;
    let left = fs::read(&rt, path)?;
    expect_at(left.as_slice() == NO_DATABASE, path, 5)?;
    fs::remove_file(&rt, path)?;
    Ok(())
}

// A folder that is missing is not made.
#[test]
fn a_missing_folder_is_refused(rt: HostRuntime) -> Result<(), Fail> {
    let alloc = rt.alloc();
    let mut vault = FileVault::new(&rt, "missing/one.table");
    let made = makes_with(alloc, &mut vault, &[]);
    drop(vault);
    let mut selection = FileSelection::new(&rt, "missing/one.table");
    let laid = selection.lay(alloc, &[]);
    drop(selection);
    expect(made == Err(VaultFault::Failed), "a vault")?;
    expect(laid == Err(SelectionFault::Failed), "a selection")?;
    expect(!fs::exists(&rt, "missing")?, "no folder")
}
