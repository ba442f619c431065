//! Selections in memory and over a table of a file, which do the same.

ghost use Rattle.std.specs.Prelude.{◌≡◌, ◌<◌, ◌^◌, IfOk};
ghost use Rattle.fedi_selection.specs.ActRows.{AreInOrder};

use crate::files::{are_there, remove};
use fedi_rows::{expect, expect_at};
use fedi_selection::{ActRow, MemorySelection, Selection};
use fedi_tables::FileSelection;
use std::alloc::{AllocError, Global};
use std::test::Fail;

/// The moment of each row: 1994-11-06T08:49:37Z.
const MOMENT: u64 = 784_111_777;

// An activity by this author and of this type.
fn row(alloc: Global, place: u64, actor: &str, kind: &str) -> Result<ActRow, AllocError>
    requires { place < 2 ^ 62 }
    ensures { IfOk result (λ row. row.place ≡ place) }
{
    ActRow::new(
        alloc,
        place,
        "an id, \"quoted\"",
        actor,
        kind,
        "done",
        MOMENT,
    )
}

// Four activities, two of which are ana's Creates.
fn rows(alloc: Global) -> Result<[ActRow; 4], AllocError>
    ensures { IfOk result (λ rows. AreInOrder rows) }
{
    Ok([
        row(alloc, 0, "ana", "Create")?,
        row(alloc, 1, "ben", "Create")?,
        row(alloc, 3, "ana", "Like")?,
        row(alloc, 4, "ana", "Create")?,
    ])
}

// The places of the rows that are picked, or 9 if none were.
fn places<S: Selection>(
    alloc: Global,
    selection: &mut S,
    actor: &str,
    kind: &str,
) -> Result<Vec<u64>, AllocError> {
    let mut places = Vec::new(alloc);
    match selection.pick(alloc, actor, kind) {
        Ok(found) => {
            for row in found.as_slice() {
                if row.moment() == MOMENT && row.state() == "done" {
                    places.push(row.place())?;
                }
            }
        }
        Err(_) => places.push(9)?,
    }
    Ok(places)
}

// An author and a type, and the places of what is picked.
const PICKS: [(&str, &str, &[u64]); 4] = [
    ("ana", "Create", &[0, 4]),
    ("ana", "Like", &[3]),
    ("ben", "Like", &[]),
    ("an", "Create", &[]),
];

fn expect_picks<S: Selection>(alloc: Global, selection: &mut S) -> Result<(), Fail> {
    for (number, pick) in PICKS.iter().enumerate() {
        let found = places(alloc, selection, pick.0, pick.1)?;
        expect_at(found.as_slice() == pick.2, "what is picked", number)?;
    }
    Ok(())
}

fn expect_selection<S: Selection>(alloc: Global, selection: &mut S) -> Result<(), Fail> {
    let rows = rows(alloc)?;
    expect(selection.lay(alloc, &[]) == Ok(()), "no rows")?;
    expect(selection.lay(alloc, &rows) == Ok(()), "rows")?;
    expect(selection.lay(alloc, &rows) == Ok(()), "rows again")?;
    expect_picks(alloc, selection)?;
    let one = [row(alloc, 2, "ben", "Like")?];
    expect(selection.lay(alloc, &one) == Ok(()), "one row")?;
    let found = places(alloc, selection, "ana", "Create")?;
    expect(found.is_empty(), "the rows before are gone")
}

// A selection over a new file of this name, which is then in this one file.
fn expect_table(rt: &HostRuntime, path: &str, log: &str) -> Result<(), Fail> {
    remove(rt, path)?;
    let mut table = FileSelection::new(rt, path);
    let selected = expect_selection(rt.alloc(), &mut table);
    table.finish();
    selected?;
    expect(are_there(rt, path, log) == Some((true, false)), path)?;
    remove(rt, path)
}

#[test]
fn a_table_selects_as_memory_does_and_leaves_one_file(rt: HostRuntime) -> Result<(), Fail> {
    let mut memory = MemorySelection::new(rt.alloc());
    let selected = expect_selection(rt.alloc(), &mut memory);
    drop(memory);
    selected?;
    expect_table(&rt, "one.report", "one.report-wal")
}
