//! What a vault is asked in turn, and what is then found in it.

ghost use Rattle.std.specs.Prelude.{◌≡◌, false};

use fedi_outside::{FillFault, Keeper, LoadFault, MemoryKeeper, MemoryVault, Vault, VaultFault};
use fedi_rows::expect;
use std::alloc::Global;
use std::test::Fail;

/// Eight records, one of them empty.
pub const RECORDS: [&[u8]; 8] = [
    b"one", b"two", b"", b"four", b"five\0", b"six", b"seven", b"8",
];

// Adds a record, and says whether it was added.
fn adds<K: Keeper>(keeper: &mut K, record: &[u8]) -> bool {
    keeper.reserve(record.len()).is_ok() && keeper.settle().is_ok() && keeper.append(record).is_ok()
}

// Adds these records, and says whether all were added.
fn adds_all<K: Keeper>(keeper: &mut K, records: &[&[u8]]) -> bool {
    for record in records {
        if !adds(keeper, record) {
            return false;
        }
    }
    true
}

// Whether the keeper has exactly these records.
fn has<K: Keeper>(alloc: Global, keeper: &mut K, records: &[&[u8]]) -> Result<bool, LoadFault> {
    if keeper.count() != records.len() as u64 {
        return Ok(false);
    }
    for place in 0..records.len() {
        match keeper.load(alloc, place as u64)? {
            Some(bytes) => {
                if bytes.as_slice() != records[place] {
                    return Ok(false);
                }
            }
            None => return Ok(false),
        }
    }
    Ok(keeper.load(alloc, records.len() as u64)?.is_none())
}

/// Makes a keeper and adds these records, and says whether all were added.
pub fn makes_with<V: Vault>(
    alloc: Global,
    vault: &mut V,
    records: &[&[u8]],
) -> Result<bool, VaultFault>
    requires home { (V.shown vault.old).out ≡ false }
    ensures stays { (V.shown vault.new).out ≡ false }
{
    let mut keeper = vault.make(alloc)?;
    let added = adds_all(&mut keeper, records);
    vault.close(keeper);
    Ok(added)
}

// Opens the keeper and adds these records, and says whether all were added.
fn opens_and_adds<V: Vault>(
    alloc: Global,
    vault: &mut V,
    records: &[&[u8]],
) -> Result<bool, VaultFault>
    requires home { (V.shown vault.old).out ≡ false }
    ensures stays { (V.shown vault.new).out ≡ false }
{
    let mut keeper = vault.open(alloc)?;
    let added = adds_all(&mut keeper, records);
    vault.close(keeper);
    Ok(added)
}

/// Opens the keeper, and says whether it has exactly these records.
pub fn opens_with<V: Vault>(
    alloc: Global,
    vault: &mut V,
    records: &[&[u8]],
) -> Result<bool, VaultFault>
    requires home { (V.shown vault.old).out ≡ false }
    ensures stays { (V.shown vault.new).out ≡ false }
{
    let mut keeper = vault.open(alloc)?;
    let found = has(alloc, &mut keeper, records);
    vault.close(keeper);
    match found {
        Ok(same) => Ok(same),
        Err(_) => Err(VaultFault::Failed),
    }
}

/// A keeper in memory with these records, whose calls with these numbers fail after that.
pub fn keeper_of(alloc: Global, records: &[&[u8]], failing: &[u64]) -> Result<MemoryKeeper, Fail> {
    let mut keeper = MemoryKeeper::new(alloc);
    expect(adds_all(&mut keeper, records), "records in memory")?;
    Ok(keeper.failing(failing.to_vec(alloc)?))
}

/// What is made is opened again with its records, takes more of them, and is made once.
pub fn expect_kept<V: Vault>(alloc: Global, vault: &mut V) -> Result<(), Fail>
    requires home { (V.shown vault.old).out ≡ false }
    ensures stays { (V.shown vault.new).out ≡ false }
{
    expect(opens_with(alloc, vault, &[]) == Ok(true), "nothing made")?;
    expect(
        makes_with(alloc, vault, &[]) == Ok(true),
        "made without records",
    )?;
    expect(makes_with(alloc, vault, &RECORDS[..3]) == Ok(true), "made")?;
    expect(
        opens_and_adds(alloc, vault, &RECORDS[3..]) == Ok(true),
        "opened",
    )?;
    expect(
        opens_with(alloc, vault, &RECORDS) == Ok(true),
        "opened again",
    )?;
    let again = makes_with(alloc, vault, &[]);
    expect(again == Err(VaultFault::Exists), "made twice")
}

// The calls of a keeper for eight records are 16, and the fifth load after them is the one that
// fails.
const FIFTH_LOAD: [u64; 1] = [20];

/// A vault is filled with all records of a keeper or none, and only once.
pub fn expect_filled<V: Vault>(alloc: Global, vault: &mut V) -> Result<(), Fail>
    requires home { (V.shown vault.old).out ≡ false }
    ensures stays { (V.shown vault.new).out ≡ false }
{
    let mut failing = keeper_of(alloc, &RECORDS, &FIFTH_LOAD)?;
    let part = vault.fill(alloc, &mut failing);
    drop(failing);
    let empty = makes_with(alloc, vault, &[]);
    expect(part == Err(FillFault::Source), "a source that fails")?;
    expect(empty == Ok(true), "no part of it")?;
    let mut whole = keeper_of(alloc, &RECORDS, &[])?;
    let filled = vault.fill(alloc, &mut whole);
    let opened = opens_with(alloc, vault, &RECORDS);
    let again = vault.fill(alloc, &mut whole);
    drop(whole);
    expect(filled == Ok(()), "filled")?;
    expect(opened == Ok(true), "all records")?;
    expect(again == Err(FillFault::Exists), "filled twice")
}

// The first call fails, and then the one that adds the second record. No clause says which do.
#[test]
fn a_vault_in_memory_fails_by_a_plan(rt: HostRuntime) -> Result<(), Fail> {
    let alloc = rt.alloc();
    let mut vault = MemoryVault::new(alloc).failing([0, 5].to_vec(alloc)?);
    let first = makes_with(alloc, &mut vault, &RECORDS);
    let second = makes_with(alloc, &mut vault, &RECORDS);
    let opened = opens_with(alloc, &mut vault, &RECORDS[..1]);
    drop(vault);
    expect(first == Err(VaultFault::Failed), "the first call")?;
    expect(second == Ok(false), "a record")?;
    expect(opened == Ok(true), "what was added")
}
