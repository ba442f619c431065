//! Runs, and what they leave.

use crate::cases::{
    Case, arguments_of, benches_of, calm, connection_of, disk_in, entropy_of, seed,
};
use fedi_outside::{
    Bench, FixedClock, MemoryDisk, MemoryDoor, MemoryEntropy, MemoryLink, MemorySink, MemorySource,
    MemoryVault,
};
use fedi_program::{Connection, Ended, address_of, run_alone};
use fedi_rows::{disk_of, has_records, leaked};
use fedi_selection::MemorySelection;
use std::alloc::{AllocError, Global};
use std::mem::ManuallyDrop;

/// What a run left: its status, what it wrote, the bytes of the disk, how many calls the disk
/// received, and the requests that were sent to other servers, one after another.
#[derive(Drop)]
pub struct Left {
    pub status: u8,
    pub out: Vec<u8>,
    pub disk: Vec<u8>,
    pub calls: u64,
    pub asked: Vec<u8>,
}

fn asked_by(
    alloc: Global,
    benches: &[Bench<MemoryDoor, MemoryLink>],
) -> Result<Vec<u8>, AllocError> {
    let mut asked = Vec::new(alloc);
    for bench in benches {
        for row in bench.link.asked() {
            asked.extend_from_slice(&row.request)?;
        }
    }
    Ok(asked)
}

fn left_of(
    alloc: Global,
    ended: &Ended<MemoryDisk, MemoryDoor, MemoryLink>,
    connection: &Connection<MemorySource, MemorySink, FixedClock>,
) -> Result<Left, AllocError> {
    Ok(Left {
        status: ended.status,
        out: connection.out.bytes().to_vec(alloc)?,
        disk: ended.disk.bytes().to_vec(alloc)?,
        calls: ended.disk.calls().len() as u64,
        asked: asked_by(alloc, &ended.benches)?,
    })
}

// What the run leaves. What lies outside is made here alone, and never dropped.
fn left_with(alloc: Global, case: &Case, arguments: &[String]) -> Result<Left, AllocError> {
    // No case serves.
    let None = address_of(arguments) else {
        return Err(AllocError);
    };
    let mut entropy = leaked(entropy_of(alloc, case)?);
    let mut connection = leaked(connection_of(alloc, case)?);
    let disk = leaked(disk_in(alloc, case)?);
    let second = leaked(disk_of(alloc, b"")?);
    let mut vault = leaked(MemoryVault::new(alloc));
    let mut selection = leaked(MemorySelection::new(alloc));
    let benches = benches_of(alloc, case)?;
    let ended = leaked(run_alone::<
        MemorySource,
        MemorySink,
        MemoryDisk,
        MemoryVault,
        MemorySelection,
        MemoryDoor,
        MemoryLink,
        FixedClock,
        MemoryEntropy,
    >(
        alloc,
        seed(),
        arguments,
        &mut connection,
        ManuallyDrop::into_inner(disk),
        ManuallyDrop::into_inner(second),
        &mut vault,
        &mut selection,
        benches,
        &mut entropy,
    ));
    left_of(alloc, &ended, &connection)
}

/// What the run leaves. The error is out of memory.
pub fn left_by(alloc: Global, case: &Case) -> Result<Left, AllocError> {
    let arguments = arguments_of(alloc, case.line)?;
    left_with(alloc, case, &arguments)
}

/// Whether these bytes are those of the texts, one after another.
pub fn are_texts(bytes: &[u8], texts: &[&str]) -> bool {
    let mut rest = bytes;
    for text in texts {
        match rest.strip_prefix(text.as_bytes()) {
            Some(behind) => rest = behind,
            None => return false,
        }
    }
    rest.is_empty()
}

/// Whether the run ends with this status, writes these texts, and leaves a store of the records
/// that it began with and this many more. The error is out of memory.
pub fn ends(
    alloc: Global,
    case: &Case,
    status: u8,
    wanted: &[&str],
    more: usize,
) -> Result<bool, AllocError> {
    let left = left_by(alloc, case)?;
    Ok(
        left.status == status
            && are_texts(&left.out, wanted)
            && has_records(alloc, &left.disk, case.records, more)?,
    )
}

/// How many calls of the disk the opening of a store of these records takes: as many as a run that
/// counts it. The error is out of memory.
pub fn calls_of_an_opening(alloc: Global, records: &[&[u8]]) -> Result<u64, AllocError> {
    let left = left_by(alloc, &calm("fedi check s", records))?;
    Ok(left.calls)
}

/// These calls, counted from the first after an opening of this many. The error is out of memory.
pub fn calls_after(alloc: Global, opening: u64, calls: &[u64]) -> Result<Vec<u64>, AllocError> {
    let mut after = Vec::new(alloc);
    for call in calls {
        after.push(opening.saturating_add(*call))?;
    }
    Ok(after)
}
