//! Tables as comma-separated values, written block by block.

ghost use Rattle.std.specs.Prelude.{◌≡◌, ◌≤◌, ◌-◌, ◌++◌, ◌∷◌, [], ℕ, List, IfOk, OnOk, length, map};
ghost use Rattle.csv.specs.Writing.{default_writer, row_text};
ghost use Rattle.fedi_logged.specs.Endings.{output_by};
ghost use Rattle.fedi_report.specs.Tables.{IsBetweenRows, Reports, row_at, rows_from, rows_text};
ghost use Rattle.fedi_report.specs.Tables.{written};

use csv::Writer;
use fedi_http::send;
use fedi_outside::{Failed, Sink};
use std::alloc::{AllocError, Global};

/// Why a report was not written completely.
#[derive(Clone, Copy, Debug, PartialEq, Eq)]
pub enum ReportFault {
    /// A write failed, which the sink counts.
    WriteFault,
    /// Out of memory.
    Memory,
}

/// How many rows are written at once.
const BLOCK: usize = 64;

/// A table whose rows are made one at a time.
pub(crate) trait Table {
    /// Its rows, each by its fields.
    ghost rows: { Self → List (List (List ℕ)) };

    /// How many rows it has.
    fn count(&self) -> usize
        ensures { result ≡ length (rows self.now) };

    /// Writes the row at this position, if there is one. The error is out of memory.
    fn write_row(
        &self,
        alloc: Global,
        position: usize,
        text: &mut Writer<Vec<u8>>,
    ) -> Result<(), AllocError>
        requires between { IsBetweenRows text.old }
        ensures between { OnOk result (IsBetweenRows text.new) }
        ensures row { OnOk result
            (written text.new ≡ written text.old ++ row_at (rows self.now) position) };
}

/// A writer of rows to memory. The error is out of memory.
#[tactic(auto, unfolding(crate::specs::Tables::written))]
fn begin(alloc: Global, room: usize) -> Result<Writer<Vec<u8>>, AllocError>
    ensures between { IfOk result (λ text. IsBetweenRows text) }
    ensures none { IfOk result (λ text. written text ≡ []) }
{
    let bytes = Vec::with_capacity(alloc, room)?;
    Ok(Writer::from_writer(bytes))
}

/// Writes a row of these fields. A field with a comma, a quote or a line break is in quotes (RFC
/// 4180, section 2), and the row ends with a line feed. The error is out of memory.
#[tactic(auto, unfolding(crate::specs::Tables::written))]
pub(crate) fn csv_row(text: &mut Writer<Vec<u8>>, fields: &[&[u8]]) -> Result<(), AllocError>
    requires { IsBetweenRows text.old }
    ensures between { OnOk result (IsBetweenRows text.new) }
    ensures row { OnOk result (written text.new
        ≡ written text.old ++ row_text default_writer (map (λ f. f.now) fields.now)) }
{
    // A write to memory fails only if memory runs out.
    match text.write_fields(fields) {
        Ok(()) => Ok(()),
        Err(_) => Err(AllocError),
    }
}

// What was written. The error is out of memory.
#[tactic(auto, unfolding(crate::specs::Tables::written))]
fn end(text: Writer<Vec<u8>>) -> Result<Vec<u8>, AllocError>
    ensures { IfOk result (λ bytes. bytes.items ≡ written text) }
{
    match text.into_inner() {
        Ok(bytes) => Ok(bytes),
        Err(_) => Err(AllocError),
    }
}

/// The room for the text of a block.
const ROOM: usize = 8192;

// The text of the rows from the position `from` up to, but not including, `to`.
fn rows_block<T: Table>(
    alloc: Global,
    table: &T,
    from: usize,
    to: usize,
) -> Result<Vec<u8>, AllocError>
    requires { from ≤ to }
    ensures { IfOk result (λ bytes. bytes.items
        ≡ rows_text (rows_from (T.rows table.now) from (to - from))) }
{
    let mut text = begin(alloc, ROOM)?;
    let mut next = from;
    'rows: while next < to {
        table.write_row(alloc, next, &mut text)?;
        next += 1;
    }
    end(text)
}

// The text of the row of column names.
fn names_row(alloc: Global, names: &[&[u8]]) -> Result<Vec<u8>, AllocError>
    ensures { IfOk result (λ bytes. bytes.items
        ≡ row_text default_writer (map (λ f. f.now) names.now)) }
{
    let mut text = begin(alloc, ROOM)?;
    csv_row(&mut text, names)?;
    end(text)
}

// Writes a piece of a report, or reports that there was no memory for it.
fn send_piece<K: Sink>(sink: &mut K, piece: Result<Vec<u8>, AllocError>) -> Result<(), ReportFault>
    ensures { (text : List ℕ) → IfOk piece (λ bytes. bytes.items ≡ text)
        → Reports (output_by K.sent K.write_faults sink.old)
        (output_by K.sent K.write_faults sink.new) text result }
{
    let Ok(bytes) = piece else {
        return Err(ReportFault::Memory);
    };
    match send(sink, &bytes) {
        Ok(()) => Ok(()),
        Err(Failed) => Err(ReportFault::WriteFault),
    }
}

/// Writes a table: a row of the names of its columns, and its rows. The rows are made and sent in
/// blocks, so the table takes the memory of one block, however many rows it has. After an error a
/// prefix of the text was sent.
pub(crate) fn write_table<T: Table, K: Sink>(
    alloc: Global,
    table: &T,
    names: &[&[u8]],
    sink: &mut K,
) -> Result<(), ReportFault>
    ensures { Reports (output_by K.sent K.write_faults sink.old)
        (output_by K.sent K.write_faults sink.new)
        (rows_text (map (λ f. f.now) names.now ∷ T.rows table.now)) result }
{
    send_piece(sink, names_row(alloc, names))?;
    let count = table.count();
    let mut done = 0;
    'rest: while done < count {
        let next = done + BLOCK.min(count - done);
        send_piece(sink, rows_block(alloc, table, done, next))?;
        done = next;
    }
    Ok(())
}
