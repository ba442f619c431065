//! Stores that are moved between a disk and a vault, and reports by selection: what is printed, and
//! what is left.

ghost use Rattle.std.specs.Prelude.{◌≡◌, false};

use crate::cases::{
    Case, arguments_of, benches_of, calm, connection_of, disk_in, entropy_of, seed,
};
use crate::example::CLUB;
use crate::runs::are_texts;
use fedi_outside::{
    FixedClock, MemoryDisk, MemoryDoor, MemoryEntropy, MemoryLink, MemorySink, MemorySource,
    MemoryVault, Vault,
};
use fedi_program::{address_of, run_alone};
use fedi_rows::{disk_of, expect, leaked, store_of};
use fedi_selection::{MemorySelection, Selection, TableSelection};
use fedi_sqlite::TableVault;
use std::alloc::{AllocError, Global};
use std::mem::ManuallyDrop;
use std::test::Fail;

/// What a run left: its status, what it printed, and the bytes of the two disks.
#[derive(Drop)]
struct Outcome {
    status: u8,
    out: Vec<u8>,
    disk: Vec<u8>,
    second: Vec<u8>,
}

impl Outcome {
    fn prints(&self, status: u8, text: &str) -> bool {
        self.status == status && are_texts(&self.out, &[text])
    }
}

/// What the run leaves over a disk of these bytes. What lies outside is made here alone, except for
/// the vault and the selection.
fn make_run<V: Vault, N: Selection>(
    alloc: Global,
    line: &str,
    bytes: &[u8],
    vault: &mut V,
    selection: &mut N,
) -> Result<Outcome, AllocError>
    requires home { (V.shown vault.old).out ≡ false }
    ensures stays { (V.shown vault.new).out ≡ false }
{
    let case = Case {
        bytes,
        ..calm(line, &[])
    };
    let arguments = arguments_of(alloc, case.line)?;
    // No case serves.
    let None = address_of(&arguments) else {
        return Err(AllocError);
    };
    let mut entropy = leaked(entropy_of(alloc, &case)?);
    let mut connection = leaked(connection_of(alloc, &case)?);
    let disk = leaked(disk_in(alloc, &case)?);
    let second = leaked(disk_of(alloc, b"")?);
    let benches = benches_of(alloc, &case)?;
    let ended = leaked(run_alone::<
        MemorySource,
        MemorySink,
        MemoryDisk,
        V,
        N,
        MemoryDoor,
        MemoryLink,
        FixedClock,
        MemoryEntropy,
    >(
        alloc,
        seed(),
        &arguments,
        &mut connection,
        ManuallyDrop::into_inner(disk),
        ManuallyDrop::into_inner(second),
        vault,
        selection,
        benches,
        &mut entropy,
    ));
    Ok(Outcome {
        status: ended.status,
        out: connection.out.bytes().to_vec(alloc)?,
        disk: ended.disk.bytes().to_vec(alloc)?,
        second: ended.second.bytes().to_vec(alloc)?,
    })
}

/// The activities of the town, as `export` prints them.
const ACTIVITIES: &str = "place,id,actor,type,state,moment
0,https://club.example/users/ana/a/1,https://club.example/users/ana,Create,done,1994-11-06T08:49:37Z
";

/// The names of the columns alone.
const NAMES: &str = "place,id,actor,type,state,moment\n";

/// A store that is moved to a table and back is the same, and is not moved over another.
fn expect_moves<V: Vault, N: Selection>(
    alloc: Global,
    vault: &mut V,
    selection: &mut N,
) -> Result<(), Fail>
    requires home { (V.shown vault.old).out ≡ false }
    ensures stays { (V.shown vault.new).out ≡ false }
{
    let store = store_of(alloc, &CLUB)?;
    let filled = make_run(alloc, "fedi migrate s table:t", &store, vault, selection)?;
    expect(filled.prints(0, "moved 8 entries\n"), "moved to a table")?;
    expect(
        filled.disk == store && filled.second.is_empty(),
        "the store",
    )?;
    let table = make_run(
        alloc,
        "fedi export table:t activities",
        b"",
        vault,
        selection,
    )?;
    expect(table.prints(0, ACTIVITIES), "a table that was filled")?;
    let again = make_run(alloc, "fedi migrate s table:t", &store, vault, selection)?;
    expect(again.prints(9, "exists\n"), "moved twice")?;
    let moved = make_run(alloc, "fedi migrate table:t u", b"", vault, selection)?;
    expect(moved.prints(0, "moved 8 entries\n"), "moved to a file")?;
    expect(
        moved.second == store && moved.disk.is_empty(),
        "the same file",
    )?;
    let table = make_run(
        alloc,
        "fedi export table:t activities",
        b"",
        vault,
        selection,
    )?;
    expect(table.prints(0, ACTIVITIES), "a table that was moved")
}

/// The activities by a member and of a type are printed, of a file and of a table.
fn expect_reports<V: Vault, N: Selection>(
    alloc: Global,
    vault: &mut V,
    selection: &mut N,
) -> Result<(), Fail>
    requires home { (V.shown vault.old).out ≡ false }
    ensures stays { (V.shown vault.new).out ≡ false }
{
    let store = store_of(alloc, &CLUB)?;
    let created = make_run(alloc, "fedi report s ana Create", &store, vault, selection)?;
    expect(
        created.prints(0, ACTIVITIES) && created.disk == store,
        "Creates",
    )?;
    let liked = make_run(alloc, "fedi report s ana Like", &store, vault, selection)?;
    expect(liked.prints(0, NAMES), "Likes")?;
    let others = make_run(
        alloc,
        "fedi report table:t ben Create",
        b"",
        vault,
        selection,
    )?;
    expect(others.prints(0, NAMES), "Creates of another member")?;
    let created = make_run(
        alloc,
        "fedi report table:t ana Create",
        b"",
        vault,
        selection,
    )?;
    expect(created.prints(0, ACTIVITIES), "Creates of a table")
}

/// Words that are refused, and stores that are not there.
fn expect_refusals<V: Vault, N: Selection>(
    alloc: Global,
    vault: &mut V,
    selection: &mut N,
) -> Result<(), Fail>
    requires home { (V.shown vault.old).out ≡ false }
    ensures stays { (V.shown vault.new).out ≡ false }
{
    let song = make_run(alloc, "fedi report s ana Song", b"", vault, selection)?;
    expect(song.prints(10, "refused: bad kind\n"), "a type")?;
    let name = make_run(alloc, "fedi report s Ana Song", b"", vault, selection)?;
    expect(name.prints(10, "refused: bad name\n"), "a name")?;
    let none = make_run(alloc, "fedi report s ana Like", b"", vault, selection)?;
    expect(none.prints(3, "not a store\n"), "no file")?;
    let none = make_run(alloc, "fedi report table:t ana Like", b"", vault, selection)?;
    expect(none.prints(3, "not a store\n"), "no table")?;
    let none = make_run(alloc, "fedi migrate table:t u", b"", vault, selection)?;
    expect(none.prints(3, "not a store\n"), "nothing to be moved")?;
    let both = make_run(alloc, "fedi migrate table:t table:u", b"", vault, selection)?;
    expect(both.status == 2, "two tables")
}

fn expect_all<V: Vault, N: Selection>(
    alloc: Global,
    vault: &mut V,
    selection: &mut N,
) -> Result<(), Fail>
    requires home { (V.shown vault.old).out ≡ false }
{
    expect_refusals(alloc, vault, selection)?;
    expect_moves(alloc, vault, selection)?;
    expect_reports(alloc, vault, selection)
}

#[test]
fn stores_are_moved_and_reported_of_in_memory(rt: HostRuntime) -> Result<(), Fail> {
    let alloc = rt.alloc();
    expect_all(
        alloc,
        &mut MemoryVault::new(alloc),
        &mut MemorySelection::new(alloc),
    )
}

#[test]
fn stores_are_moved_and_reported_of_in_a_database(rt: HostRuntime) -> Result<(), Fail> {
    let alloc = rt.alloc();
    let Ok(mut vault) = TableVault::in_memory(alloc) else {
        return Err(Fail::new("a table of records"));
    };
    let Ok(mut selection) = TableSelection::in_memory(alloc) else {
        return Err(Fail::new("a table of activities"));
    };
    expect_all(alloc, &mut vault, &mut selection)
}

/// A vault or a selection that fails is reported, and leaves the store.
#[test]
fn a_vault_or_a_selection_that_fails_is_reported(rt: HostRuntime) -> Result<(), Fail> {
    let alloc = rt.alloc();
    let store = store_of(alloc, &CLUB)?;
    let mut vault = MemoryVault::new(alloc).failing([0].as_slice().to_vec(alloc)?);
    let mut selection = MemorySelection::new(alloc).failing([0].as_slice().to_vec(alloc)?);
    let moved = make_run(
        alloc,
        "fedi migrate s table:t",
        &store,
        &mut vault,
        &mut selection,
    )?;
    expect(moved.prints(5, "disk fault\n"), "a vault that fails")?;
    expect(vault.kept().records().is_empty(), "no record")?;
    let laid = make_run(
        alloc,
        "fedi report s ana Create",
        &store,
        &mut vault,
        &mut selection,
    )?;
    expect(laid.prints(5, "disk fault\n"), "a selection that fails")?;
    let again = make_run(
        alloc,
        "fedi report s ana Create",
        &store,
        &mut vault,
        &mut selection,
    )?;
    expect(again.prints(0, ACTIVITIES), "the same again")
}
