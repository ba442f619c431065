//! Files that were written by hand, and how they are read.

use fedi_journal::{InitFault, Journal, JournalFault};
use fedi_outside::{Keeper, MemoryDisk};
use fedi_rows::{disk_of, expect_at};
use std::alloc::{AllocError, Global};
use std::test::Fail;

/// How a disk is read: as the records of a journal, each after a bar, or as a fault.
pub fn found_in(alloc: Global, disk: MemoryDisk) -> Result<String, Fail> {
    let mut text = String::new(alloc);
    let mut opened = Journal::open(alloc, disk);
    push_found(alloc, &mut text, &mut opened)?;
    Ok(text)
}

type Opened = Result<Journal<MemoryDisk>, (JournalFault, MemoryDisk)>;

fn push_found(alloc: Global, text: &mut String, opened: &mut Opened) -> Result<(), Fail> {
    match opened {
        Ok(journal) => push_records(alloc, text, journal),
        Err(back) => Ok(push_fault(alloc, text, back.0)?),
    }
}

fn push_fault(alloc: Global, text: &mut String, fault: JournalFault) -> Result<(), AllocError> {
    match fault {
        JournalFault::Damaged { place } => {
            text.push_str(&format!(in alloc; "damaged at {place}")?)
        }
        JournalFault::NotAStore => text.push_str("not a store"),
        JournalFault::OldFormat => text.push_str("old format"),
        JournalFault::Failed => text.push_str("failed"),
        JournalFault::Memory => text.push_str("out of memory"),
    }
}

fn push_records(
    alloc: Global,
    text: &mut String,
    journal: &mut Journal<MemoryDisk>,
) -> Result<(), Fail> {
    for place in 0..journal.count() {
        text.push_str("|")?;
        if let Some(payload) = journal.load(alloc, place)? {
            text.push_str(str::from_utf8(&payload)?)?;
        }
    }
    Ok(())
}

/// How these bytes are read.
pub fn found(alloc: Global, bytes: &[u8]) -> Result<String, Fail> {
    found_in(alloc, disk_of(alloc, bytes)?)
}

fn expect_found(alloc: Global, bytes: &[u8], wanted: &str, place: usize) -> Result<(), Fail> {
    let found = found(alloc, bytes)?;
    if found.as_str() == wanted {
        Ok(())
    } else {
        Err(Fail::new(format_args!("{found}, and not {wanted}: {place}")))
    }
}

// Files, and how they are read.
const FILES: [(&[u8], &str); 11] = [
    (b"", "not a store"),
    (b"FEDIJRN2", "not a store"),
    (b"FEDIJRN1", "not a store"),
    (b"FEDIJRN0\0", "not a store"),
    (b"FEDIJRN3\0", "not a store"),
    (b"FEDIJRN1\0", "old format"),
    (b"FEDIJRN2\0", ""),
    (b"FEDIJRN2\0and then anything", ""),
    (b"FEDIJRN2\x02", "damaged at 8"),
    (
        b"FEDIJRN2\x01\0\0\0\0\0\0\0\x02his\xab%\xf4.\xf9\x9dB\xf8K\x88f|\x96\xcd\x0d\xf1\
        \x5c\xc4\xd7\xfd\xfd\xd3\x9a\x1f\xbc/\xe7U.\x9f\xd4\0",
        "|hi",
    ),
    (
        b"FEDIJRN2\x01\0\0\0\0\0\0\0\x02his\xab%\xf4.\xf9\x9dB\xf8K\x88f|\x96\xcd\x0d\xf1\
        \x5c\xc4\xd7\xfd\xfd\xd3\x9a\x1f\xbc/\xe7U.\x9f\xd4\0\x01\0\0\0\0\0\0\0\0\0",
        "|hi",
    ),
];

/// How the making of a journal of this disk ends, and the disk.
pub fn made(alloc: Global, disk: MemoryDisk) -> (&'static str, MemoryDisk) {
    match Journal::init(alloc, disk) {
        Ok(journal) => ("made", journal.into_disk()),
        Err((InitFault::Exists, disk)) => ("exists", disk),
        Err((InitFault::Failed, disk)) => ("failed", disk),
    }
}

// Bytes, how the making of a journal over them ends, and the bytes afterwards.
const MAKINGS: [(&[u8], &str, &[u8]); 8] = [
    (b"", "made", b"FEDIJRN2\0"),
    (b"FEDI", "made", b"FEDIJRN2\0"),
    (b"whatever!", "made", b"FEDIJRN2\0"),
    (b"FEDIJRN2\0", "made", b"FEDIJRN2\0"),
    (b"FEDIJRN2\0rest", "made", b"FEDIJRN2\0rest"),
    (b"FEDIJRN1\0", "made", b"FEDIJRN2\0"),
    (b"whatever!!", "exists", b"whatever!!"),
    (
        b"FEDIJRN1\x01\0\0\0\0\0\0\0\0\0",
        "exists",
        b"FEDIJRN1\x01\0\0\0\0\0\0\0\0\0",
    ),
];

fn is_made(alloc: Global, row: &(&[u8], &str, &[u8])) -> Result<bool, AllocError> {
    let (end, disk) = made(alloc, disk_of(alloc, row.0)?);
    Ok(end == row.1 && disk.bytes() == row.2)
}

#[test]
fn files_are_found_by_their_bytes_and_made_if_they_hold_nothing(
    rt: HostRuntime,
) -> Result<(), Fail> {
    for row in &FILES {
        expect_found(rt.alloc(), row.0, row.1, row.0.len())?;
    }
    for (number, row) in MAKINGS.iter().enumerate() {
        expect_at(is_made(rt.alloc(), row)?, row.1, number)?;
    }
    Ok(())
}
