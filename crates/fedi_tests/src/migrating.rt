//! Moving the records of a store to a second disk: what a run prints, and what it leaves of the two
//! disks, also if one of them fails or stops at any call.

ghost use Rattle.std.specs.Prelude.{◌<◌, vec_len};

use crate::cases::{Case, arguments_of, benches_of, calm, connection_of, entropy_of, seed};
use crate::example::{HOSTED, TOWN};
use crate::runs::{are_texts, left_by};
use fedi_outside::{
    Bench, Call, FixedClock, MemoryDisk, MemoryDoor, MemoryEntropy, MemoryLink, MemorySink,
    MemorySource, MemoryVault,
};
use fedi_program::{Connection, address_of, run_alone};
use fedi_rows::{disk_of, expect, expect_at, first_store_of, has_records, store_of};
use fedi_selection::MemorySelection;
use std::alloc::{AllocError, Global};
use std::test::Fail;

/// What a run left: its status, what it printed, the bytes of the two disks, how many calls each
/// received, and whether the first one was written.
#[derive(Drop)]
struct Moved {
    status: u8,
    out: Vec<u8>,
    old: Vec<u8>,
    new: Vec<u8>,
    old_calls: u64,
    new_calls: u64,
    is_written: bool,
}

fn moved_of(
    alloc: Global,
    status: u8,
    out: &MemorySink,
    old: &MemoryDisk,
    new: &MemoryDisk,
) -> Result<Moved, AllocError> {
    let mut writes = old.calls().iter();
    Ok(Moved {
        status,
        out: out.bytes().to_vec(alloc)?,
        old: old.bytes().to_vec(alloc)?,
        new: new.bytes().to_vec(alloc)?,
        old_calls: old.calls().len() as u64,
        new_calls: new.calls().len() as u64,
        is_written: writes.any(|call| matches!(call, Call::Write { .. })),
    })
}

// What the run leaves, over what lies outside, which is lent.
fn moved_in(
    alloc: Global,
    arguments: &[String],
    connection: &mut Connection<MemorySource, MemorySink, FixedClock>,
    disks: (MemoryDisk, MemoryDisk),
    benches: Vec<Bench<MemoryDoor, MemoryLink>>,
    entropy: &mut MemoryEntropy,
) -> Result<Moved, AllocError>
    requires { 0 < vec_len benches }
{
    let (old, new) = disks;
    // No case serves.
    let None = address_of(arguments) else {
        return moved_of(alloc, u8::MAX, &connection.out, &old, &new);
    };
    let mut vault = MemoryVault::new(alloc);
    let ended = run_alone(
        alloc,
        seed(),
        arguments,
        connection,
        old,
        new,
        &mut vault,
        &mut MemorySelection::new(alloc),
        benches,
        entropy,
    );
    moved_of(
        alloc,
        ended.status,
        &connection.out,
        &ended.disk,
        &ended.second,
    )
}

/// What a run leaves that moves the records of one disk to another. The error is out of memory.
fn moved_by(alloc: Global, old: MemoryDisk, new: MemoryDisk) -> Result<Moved, AllocError> {
    let case = calm("fedi migrate s t", &[]);
    let arguments = arguments_of(alloc, case.line)?;
    let mut entropy = entropy_of(alloc, &case)?;
    let mut connection = connection_of(alloc, &case)?;
    let benches = benches_of(alloc, &case)?;
    moved_in(
        alloc,
        &arguments,
        &mut connection,
        (old, new),
        benches,
        &mut entropy,
    )
}

/// What is printed of a store that is counted: its status, and its lines.
fn is_counted(alloc: Global, bytes: &[u8], status: u8, lines: &str) -> Result<bool, AllocError> {
    let case = Case {
        bytes,
        ..calm("fedi check s", &[])
    };
    let left = left_by(alloc, &case)?;
    Ok(left.status == status && are_texts(&left.out, &[lines]) && left.disk.as_slice() == bytes)
}

/// The lines of a store that has its first entry alone.
const COUNT: &str = "entries 1 actors 0 activities 0 queue 0\n\
tip 05d67ca874d52c1a1a84694e592dd4b09626d3f5513b918b99774800588e168c\n";

fn expect_first_store(alloc: Global) -> Result<(), Fail> {
    let first = first_store_of(alloc, &[HOSTED])?;
    let is_old = is_counted(alloc, &first, 14, "old format\n")?;
    expect(is_old, "a store of the first format")?;
    let moved = moved_by(alloc, disk_of(alloc, &first)?, disk_of(alloc, b"")?)?;
    let is_moved = moved.status == 0 && are_texts(&moved.out, &["moved 1 entries\n"]);
    expect(
        is_moved && !moved.is_written && moved.old == first,
        "a move",
    )?;
    expect(
        moved.new == store_of(alloc, &[HOSTED])?,
        "a store that was moved",
    )?;
    expect(is_counted(alloc, &moved.new, 0, COUNT)?, COUNT)?;
    // With another kind of entry in it, it is damaged.
    let mut damaged = moved.new.to_vec(alloc)?;
    if let Some(kind) = damaged.get_mut(17) {
        *kind = 9;
    }
    let is_damaged = is_counted(alloc, &damaged, 4, "damaged at byte 8\n")?;
    expect(is_damaged, "a store that is damaged")
}

/// What the other commands print of a store of the first format, and their status.
const OTHERS: [(&str, u8, &str); 7] = [
    ("fedi check s", 14, "old format\n"),
    ("fedi add-actor s ana", 14, "old format\n"),
    ("fedi add-peer s hill.example 00 x", 14, "old format\n"),
    ("fedi export s actors", 14, "old format\n"),
    ("fedi deliver s", 14, "old format\n"),
    ("fedi inetd s", 14, ""),
    ("fedi init s club.example", 9, "exists\n"),
];

fn is_refused(alloc: Global, row: &(&str, u8, &str)) -> Result<bool, AllocError> {
    let (line, status, printed) = *row;
    let first = first_store_of(alloc, &TOWN)?;
    let case = Case {
        bytes: &first,
        ..calm(line, &[])
    };
    let left = left_by(alloc, &case)?;
    Ok(left.status == status && are_texts(&left.out, &[printed]) && left.disk == first)
}

#[test]
fn a_store_of_the_first_format_is_moved_and_no_other_command_opens_it(
    rt: HostRuntime,
) -> Result<(), Fail> {
    expect_first_store(rt.alloc())?;
    for (number, row) in OTHERS.iter().enumerate() {
        expect_at(is_refused(rt.alloc(), row)?, row.0, number)?;
    }
    Ok(())
}

/// Bytes that are not a store of the first format, and what a move of them prints: its gate is
/// malformed, its record extends past the end, it has none, and its second entry may not be there.
const BROKEN: [(&[u8], u8, &str); 5] = [
    (b"", 3, "not a store\n"),
    (b"FEDIJRN1\0", 3, "not a store\n"),
    (b"FEDIJRN1\x02", 4, "damaged at byte 8\n"),
    (
        b"FEDIJRN1\x01\0\0\0\0\0\0\0\x01\x01",
        4,
        "damaged at byte 8\n",
    ),
    (
        b"FEDIJRN1\x01\0\0\0\0\0\0\0\0\0",
        4,
        "damaged at record 0\n",
    ),
];

fn is_not_moved(alloc: Global, row: &(&[u8], u8, &str)) -> Result<bool, AllocError> {
    let (bytes, status, printed) = *row;
    let moved = moved_by(alloc, disk_of(alloc, bytes)?, disk_of(alloc, b"")?)?;
    let is_told = moved.status == status && are_texts(&moved.out, &[printed]);
    // The second disk is not asked.
    Ok(is_told && moved.old.as_slice() == bytes && moved.new_calls == 0)
}

/// What the second disk has before, and what a move to it prints.
const OCCUPIED: [(&[u8], u8, &str); 4] = [
    (b"", 0, "moved 7 entries\n"),
    (b"123456789", 0, "moved 7 entries\n"),
    (b"FEDIJRN0\x01what was left", 0, "moved 7 entries\n"),
    (b"whatever else", 9, "exists\n"),
];

fn is_moved_over(alloc: Global, row: &(&[u8], u8, &str)) -> Result<bool, AllocError> {
    let (bytes, status, printed) = *row;
    // A store of this format is moved too.
    let store = store_of(alloc, &TOWN)?;
    let moved = moved_by(alloc, disk_of(alloc, &store)?, disk_of(alloc, bytes)?)?;
    let is_told = moved.status == status && are_texts(&moved.out, &[printed]);
    let is_left = if status == 0 {
        has_records(alloc, &moved.new, &TOWN, 0)?
    } else {
        moved.new.as_slice() == bytes
    };
    Ok(is_told && is_left && !moved.is_written && moved.old == store)
}

#[test]
fn what_is_no_store_is_not_moved_and_other_bytes_are_not_written_over(
    rt: HostRuntime,
) -> Result<(), Fail> {
    for (number, row) in BROKEN.iter().enumerate() {
        expect_at(is_not_moved(rt.alloc(), row)?, row.2, number)?;
    }
    for (number, row) in OCCUPIED.iter().enumerate() {
        expect_at(is_moved_over(rt.alloc(), row)?, row.2, number)?;
    }
    Ok(())
}

/// Whether a move whose second disk stops at this call reports it, writes nothing on the first, and
/// leaves no store or a whole one; and whether it can be repeated over the first.
fn survives(alloc: Global, first: &[u8], stop: u64) -> Result<bool, AllocError> {
    let new = disk_of(alloc, b"")?.stopping(stop);
    let moved = moved_by(alloc, disk_of(alloc, first)?, new)?;
    let is_told = moved.status == 5 && are_texts(&moved.out, &["disk fault\n"]);
    let is_read = !moved.is_written && moved.old.as_slice() == first;
    let is_whole = has_records(alloc, &moved.new, &TOWN, 0)?;
    if is_whole {
        return Ok(is_told && is_read);
    }
    let is_none = is_counted(alloc, &moved.new, 3, "not a store\n")?;
    let again = moved_by(alloc, disk_of(alloc, first)?, disk_of(alloc, &moved.new)?)?;
    let is_repeated = again.status == 0 && has_records(alloc, &again.new, &TOWN, 0)?;
    Ok(is_told && is_read && is_none && is_repeated)
}

/// Whether a move whose first disk fails at this call reports it, and leaves no store.
fn fails(alloc: Global, first: &[u8], call: u64) -> Result<bool, AllocError> {
    let mut calls = Vec::new(alloc);
    calls.push(call)?;
    let old = disk_of(alloc, first)?.failing(calls);
    let moved = moved_by(alloc, old, disk_of(alloc, b"")?)?;
    let is_told = moved.status == 5 && are_texts(&moved.out, &["disk fault\n"]);
    let is_read = !moved.is_written && moved.old.as_slice() == first;
    Ok(is_told && is_read && is_counted(alloc, &moved.new, 3, "not a store\n")?)
}

#[test]
fn a_disk_fails_or_stops_at_each_call_of_a_move(rt: HostRuntime) -> Result<(), Fail> {
    let first = first_store_of(rt.alloc(), &TOWN)?;
    let old = disk_of(rt.alloc(), &first)?;
    let whole = moved_by(rt.alloc(), old, disk_of(rt.alloc(), b"")?)?;
    for stop in 0..whole.new_calls {
        let is_right = survives(rt.alloc(), &first, stop)?;
        expect_at(is_right, "a second disk that stops at", stop as usize)?;
    }
    for call in 0..whole.old_calls {
        let is_right = fails(rt.alloc(), &first, call)?;
        expect_at(is_right, "a first disk that fails at", call as usize)?;
    }
    Ok(())
}
