//! The activities of a town as rows, and those by one author and of one type as a table.

ghost use Rattle.std.specs.Prelude.{◌≡◌, ◌∷◌, ◌++◌, ◌<◌, ◌^◌, IfOk, IfSome, IsErrOf, OnOk, map};
ghost use Rattle.csv.specs.Writing.{default_writer, row_text};
ghost use Rattle.fedi_logged.specs.Endings.{output_by};
ghost use Rattle.fedi_report.specs.Exports.{activity_columns};
ghost use Rattle.fedi_report.specs.Selections.{HasLaid, Selects, act_fields, acts_fields};
ghost use Rattle.fedi_report.specs.Selections.{call_count, fault_of, store_count};
ghost use Rattle.fedi_report.specs.Selections.{picked_text, selected_row, selection_text};
ghost use Rattle.fedi_report.specs.Selections.{write_count};
ghost use Rattle.fedi_report.specs.Tables.{IsBetweenRows, rows_text, written};
ghost use Rattle.fedi_selection.specs.ActRows.{AreInOrder, picked};
ghost use Rattle.fedi_town.specs.Histories.{town};
ghost use Rattle.fedi_town.specs.Towns.{Town};

use crate::exports::{activity_at, id_text, kind_text, state_text, write_activity_table};
use crate::tables::{ReportFault, Table, csv_row};
use csv::Writer;
use fedi_core::Core;
use fedi_effects::Facts;
use fedi_outside::{Keeper, Sink};
use fedi_register::Kept;
use fedi_selection::{ActRow, Selection, SelectionFault};
use fedi_text::Moment;
use fedi_visible::Shelf;
use itoa::Buffer;
use std::alloc::{AllocError, Global};

/// Why a report by selection was not written completely.
#[derive(Clone, Copy, Debug, PartialEq, Eq)]
pub enum SelectFault {
    /// The selection failed, and has counted it.
    StoreFault,
    /// A write failed, which the sink counts.
    WriteFault,
    /// Out of memory.
    Memory,
}

// ---- the activities as rows

/// How many activities may have a place.
const LIMIT: usize = 1 << 62;

fn act_row(alloc: Global, position: usize, act: &Kept) -> Result<ActRow, AllocError>
    requires { position < 2 ^ 62 }
    ensures { IfOk result (λ row. row ≡ act_fields position act.now) }
{
    ActRow::new(
        alloc,
        position as u64,
        id_text(act.id()),
        act.author().text(),
        kind_text(act),
        state_text(act),
        act.moment().seconds(),
    )
}

#[tactic(auto, using(crate::proofs::Selecting::next_row, crate::proofs::Selecting::none_past))]
fn rows_of(alloc: Global, facts: &Facts) -> Result<Vec<ActRow>, AllocError>
    ensures { IfOk result (λ rows. rows.items ≡ acts_fields 0 facts.now.town.acts) }
{
    let count = facts.activities();
    // So many rows would find no memory.
    if count >= LIMIT {
        return Err(AllocError);
    }
    let mut rows = Vec::with_capacity(alloc, count)?;
    let mut position = 0;
    'acts: while position < count {
        let Some(act) = activity_at(facts, position) else {
            unreachable!();
        };
        rows.push(act_row(alloc, position, act)?)?;
        position += 1;
    }
    Ok(rows)
}

/// A row for each activity, in the order of acceptance, with the values of the export of
/// activities. The places are counted from 0. The error is out of memory.
pub fn act_rows<S: Shelf + Drop, P: Keeper>(
    alloc: Global,
    core: &Core<S, P>,
) -> Result<Vec<ActRow>, AllocError>
    ensures rows { IfOk result (λ rows. rows.items ≡ acts_fields 0 (town core.now.history).acts) }
    ensures order { IfOk result (λ rows. AreInOrder rows.items) }
{
    rows_of(alloc, core.facts())
}

// ---- those that were picked

#[derive(Drop)]
struct Picked<'a> {
    rows: &'a [ActRow],
}

fn moment_of(row: &ActRow) -> Moment
    ensures { result ≡ row.now.moment }
{
    Moment::clamped(row.moment())
}

fn write_picked(row: &ActRow, text: &mut Writer<Vec<u8>>) -> Result<(), AllocError>
    requires { IsBetweenRows text.old }
    ensures between { OnOk result (IsBetweenRows text.new) }
    ensures row { OnOk result (written text.new
        ≡ written text.old ++ row_text default_writer (selected_row row.now)) }
{
    let mut digits = Buffer::new();
    let moment = moment_of(row).text();
    csv_row(
        text,
        &[
            digits.format(row.place()).as_bytes(),
            row.id().as_bytes(),
            row.actor().as_bytes(),
            row.kind().as_bytes(),
            row.state().as_bytes(),
            moment.as_slice(),
        ],
    )
}

impl Table for Picked<'_> {
    ghost rows = { λ p. map selected_row p.rows.now };

    fn count(&self) -> usize {
        self.rows.len()
    }

    #[tactic(auto, using(crate::proofs::Exported::mapped_row_at))]
    fn write_row(
        &self,
        _alloc: Global,
        position: usize,
        text: &mut Writer<Vec<u8>>,
    ) -> Result<(), AllocError> {
        match self.rows.get(position) {
            Some(row) => write_picked(row, text),
            None => Ok(()),
        }
    }
}

// Lays the rows, and picks those of this author and this type.
fn laid_and_picked<V: Selection>(
    alloc: Global,
    rows: &[ActRow],
    selection: &mut V,
    actor: &str,
    kind: &str,
) -> Result<Vec<ActRow>, SelectionFault>
    requires order { AreInOrder rows.now }
    ensures found { IfSome (V.shown selection.new).laid (λ _.
        IfOk result (λ found. found.items ≡ picked actor.now kind.now rows.now)) }
    ensures laid { HasLaid rows.now (V.shown selection.old) (V.shown selection.new) result }
    ensures faults { (V.shown selection.new).faults
        ≡ call_count result (V.shown selection.old).faults }
{
    match selection.lay(alloc, rows) {
        Ok(()) => selection.pick(alloc, actor, kind),
        Err(fault) => Err(fault),
    }
}

// A fault of the selection, as one of the report.
fn fault_of(fault: SelectionFault) -> SelectFault
    ensures { result ≡ fault_of fault }
{
    match fault {
        SelectionFault::Failed => SelectFault::StoreFault,
        SelectionFault::Memory => SelectFault::Memory,
    }
}

// Writes rows as a table.
fn write_rows<K: Sink>(alloc: Global, rows: &[ActRow], sink: &mut K) -> Result<(), SelectFault>
    ensures text { Selects (output_by K.sent K.write_faults sink.old)
        (output_by K.sent K.write_faults sink.new)
        (rows_text (activity_columns ∷ map selected_row rows.now)) result }
    ensures writes { K.write_faults sink.new ≡ write_count result (K.write_faults sink.old) }
    ensures free { IsErrOf result SelectFault.StoreFault → ⊥ }
{
    match write_activity_table(alloc, &Picked { rows }, sink) {
        Ok(()) => Ok(()),
        Err(ReportFault::WriteFault) => Err(SelectFault::WriteFault),
        Err(ReportFault::Memory) => Err(SelectFault::Memory),
    }
}

/// Lays these rows, picks those by this author and of this type, and writes them as
/// comma-separated values (RFC 4180) with the columns of the export of activities. `StoreFault`
/// means that the selection failed, which it counts once, and that nothing was written, `WriteFault`
/// that a write failed, which the sink counts once, and `Memory` that memory ran out; after these
/// two a prefix of the text was written. After each of them the rows are laid, or those that were
/// laid before.
pub fn csv_selected<V: Selection, K: Sink>(
    alloc: Global,
    rows: &[ActRow],
    selection: &mut V,
    actor: &str,
    kind: &str,
    sink: &mut K,
) -> Result<(), SelectFault>
    requires order { AreInOrder rows.now }
    ensures text { IfSome (V.shown selection.new).laid (λ _.
        Selects (output_by K.sent K.write_faults sink.old)
        (output_by K.sent K.write_faults sink.new)
        (picked_text actor.now kind.now rows.now) result) }
    ensures export { (t : Town) → rows.now ≡ acts_fields 0 t.acts
        → IfSome (V.shown selection.new).laid (λ _.
        Selects (output_by K.sent K.write_faults sink.old)
        (output_by K.sent K.write_faults sink.new)
        (selection_text actor.now kind.now t) result) }
    ensures silent { IsErrOf result SelectFault.StoreFault → sink.new ≡ sink.old }
    ensures laid { HasLaid rows.now (V.shown selection.old) (V.shown selection.new) result }
    ensures faults { (V.shown selection.new).faults
        ≡ store_count result (V.shown selection.old).faults }
    ensures writes { K.write_faults sink.new ≡ write_count result (K.write_faults sink.old) }
{
    match laid_and_picked(alloc, rows, selection, actor, kind) {
        Ok(found) => write_rows(alloc, &found, sink),
        Err(fault) => Err(fault_of(fault)),
    }
}
