//! Reports by selection: what is written of the rows of a small town.

ghost use Rattle.std.specs.Prelude.{IfOk};
ghost use Rattle.fedi_selection.specs.ActRows.{AreInOrder};

use fedi_outside::MemorySink;
use fedi_report::{SelectFault, csv_selected};
use fedi_rows::expect;
use fedi_selection::{ActRow, MemorySelection, Selection, TableSelection};
use std::alloc::{AllocError, Global};
use std::test::Fail;

const ANA: &str = "https://club.example/users/ana";

/// The names of the columns, and the row of ana's Create.
const CREATED: &[u8] = b"place,id,actor,type,state,moment
0,https://club.example/users/ana/a/1,https://club.example/users/ana,Create,done,1994-11-06T08:49:37Z
";

/// The names of the columns alone.
const NAMES: &[u8] = b"place,id,actor,type,state,moment\n";

// A Create of ana, and one of ben.
fn rows(alloc: Global) -> Result<[ActRow; 2], AllocError>
    ensures { IfOk result (λ rows. AreInOrder rows) }
{
    Ok([
        ActRow::new(
            alloc,
            0,
            "https://club.example/users/ana/a/1",
            ANA,
            "Create",
            "done",
            784_111_777,
        )?,
        ActRow::new(
            alloc,
            1,
            "https://club.example/users/ben/a/1",
            "https://club.example/users/ben",
            "Create",
            "done",
            784_111_778,
        )?,
    ])
}

fn writes<S: Selection>(
    alloc: Global,
    selection: &mut S,
    kind: &str,
    text: &[u8],
) -> Result<bool, AllocError> {
    let rows = rows(alloc)?;
    let mut sink = MemorySink::new(alloc);
    let result = csv_selected(alloc, &rows, selection, ANA, kind, &mut sink);
    Ok(result == Ok(()) && sink.bytes() == text)
}

fn expect_reports<S: Selection>(alloc: Global, selection: &mut S) -> Result<(), Fail> {
    expect(writes(alloc, selection, "Create", CREATED)?, "Creates")?;
    expect(writes(alloc, selection, "Like", NAMES)?, "Likes")
}

#[test]
fn a_report_has_the_rows_of_an_author_and_a_type(rt: HostRuntime) -> Result<(), Fail> {
    let alloc = rt.alloc();
    expect_reports(alloc, &mut MemorySelection::new(alloc))?;
    match TableSelection::in_memory(alloc) {
        Ok(mut table) => expect_reports(alloc, &mut table),
        Err(_) => Err(Fail::new("a table")),
    }
}

fn faults<S: Selection>(alloc: Global, selection: &mut S) -> Result<bool, AllocError> {
    let rows = rows(alloc)?;
    let mut sink = MemorySink::new(alloc);
    let result = csv_selected(alloc, &rows, selection, ANA, "Create", &mut sink);
    Ok(result == Err(SelectFault::StoreFault) && sink.bytes().is_empty())
}

#[test]
fn a_selection_that_fails_writes_nothing(rt: HostRuntime) -> Result<(), Fail> {
    let alloc = rt.alloc();
    let calls = [0, 2].as_slice().to_vec(alloc)?;
    let mut selection = MemorySelection::new(alloc).failing(calls);
    expect(faults(alloc, &mut selection)?, "rows that are not laid")?;
    expect(faults(alloc, &mut selection)?, "rows that are not picked")?;
    expect_reports(alloc, &mut selection)
}
