//! What an operator reads about a store.
#![tactic(auto)]

mod exports;
mod selections;
mod tables;

ghost use Rattle.std.specs.Prelude.{◌≡◌, ◌++◌, IfOk, OnOk, decimal};
ghost use Rattle.fedi_report.specs.Reports.{check_text, waiting};
ghost use Rattle.fedi_town.specs.Histories.{town};
ghost use Rattle.fedi_town.specs.Legal.{IsLegal};

pub use exports::{csv_activities, csv_actors, csv_queue};
use fedi_core::Core;
use fedi_outside::Keeper;
use fedi_visible::Shelf;
use itoa::Buffer;
pub use selections::{SelectFault, act_rows, csv_selected};
use std::alloc::{AllocError, Global};
pub use tables::ReportFault;

/// The room for a line of counts, with at most 20 digits for each.
const LINE: usize = 128;

// Appends a label and a count.
fn push_count(line: &mut Vec<u8>, label: &[u8], count: u64) -> Result<(), AllocError>
    ensures { OnOk result (line.new.items ≡ line.old.items ++ (label.now ++ decimal count)) }
{
    let mut digits = Buffer::new();
    line.extend_from_slice(label)?;
    line.extend_from_slice(digits.format(count).as_bytes())
}

// How many deliveries have not ended.
#[tactic(auto, using(crate::proofs::RowLemmas::row_for_each))]
fn waiting<S: Shelf + Drop, P: Keeper>(core: &Core<S, P>) -> u64
    requires { IsLegal core.now.history }
    ensures { result ≡ waiting (town core.now.history) }
{
    core.rows().len() as u64
}

/// The line that says how much a store holds, as `entries 12 actors 3 activities 8 queue 2`: how
/// many entries its history has, how many members and activities these have made, and how many
/// deliveries have not ended. It ends with a line feed. The error is out of memory.
pub fn check_line<S: Shelf + Drop, P: Keeper>(
    alloc: Global,
    core: &Core<S, P>,
) -> Result<Vec<u8>, AllocError>
    requires { IsLegal core.now.history }
    ensures { IfOk result (λ line. line.items ≡ check_text core.now.history) }
{
    let facts = core.facts();
    let mut line = Vec::with_capacity(alloc, LINE)?;
    push_count(&mut line, b"entries ", core.count())?;
    push_count(&mut line, b" actors ", facts.actors().len() as u64)?;
    push_count(&mut line, b" activities ", facts.activities() as u64)?;
    push_count(&mut line, b" queue ", waiting(core))?;
    line.push(b'\n')?;
    Ok(line)
}
