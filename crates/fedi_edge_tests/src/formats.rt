//! Files of the two formats, and moving records from one to the other.

use crate::images::{Images, images_of};
use crate::journals::{found, found_in};
use crate::stops::add;
use fedi_journal::{CopyFault, FirstJournal, InitFault, Journal};
use fedi_outside::{Call, Keeper, MemoryDisk};
use fedi_rows::{disk_of, expect, expect_at, first_store_of};
use std::alloc::{AllocError, Global};
use std::test::Fail;

// The record of a first entry.
const HOSTED: &[u8] = b"\x01\0\0\0\x0cclub.example\0\0\0\0\x2e\xbc\x98\xa1";

// Its file, and the chain in it.
const FILE: &[u8] =
    b"FEDIJRN2\x01\0\0\0\0\0\0\0\x19\x01\0\0\0\x0cclub.example\0\0\0\0\x2e\xbc\x98\xa1\
    \x05\xd6|\xa8t\xd5,\x1a\x1a\x84iNY-\xd4\xb0\x96&\xd3\xf5Q;\x91\x8b\x99wH\0X\x8e\x16\x8c\0";

const CHAIN: [u8; 32] =
    *b"\x05\xd6|\xa8t\xd5,\x1a\x1a\x84iNY-\xd4\xb0\x96&\xd3\xf5Q;\x91\x8b\x99wH\0X\x8e\x16\x8c";

fn expect_first_file(alloc: Global) -> Result<(), Fail> {
    let Ok(mut journal) = Journal::init(alloc, disk_of(alloc, b"")?) else {
        return Err(Fail::new("not made"));
    };
    expect(journal.tip() == [0; 32], "the tip of no records")?;
    expect(add(&mut journal, HOSTED, 1), "an append")?;
    expect(journal.tip() == CHAIN, "the tip of one record")?;
    expect(
        journal.into_disk().bytes() == FILE,
        "the file of one record",
    )
}

// The file with the byte at this offset changed.
fn changed(alloc: Global, place: usize) -> Result<Vec<u8>, AllocError> {
    let mut bytes = FILE.to_vec(alloc)?;
    if let Some(byte) = bytes.get_mut(place) {
        *byte ^= 8;
    }
    Ok(bytes)
}

fn expect_damaged(alloc: Global, place: usize) -> Result<(), Fail> {
    let found = found(alloc, &changed(alloc, place)?)?;
    expect_at(found.as_str() == "damaged at 8", &found, place)
}

#[test]
fn a_record_has_its_chain_and_each_byte_of_it_counts(rt: HostRuntime) -> Result<(), Fail> {
    expect_first_file(rt.alloc())?;
    for place in 8..74 {
        expect_damaged(rt.alloc(), place)?;
    }
    let first = first_store_of(rt.alloc(), &[HOSTED])?;
    let found = found(rt.alloc(), &first)?;
    expect(found.as_str() == "old format", &found)
}

// Records that are moved.
const RECORDS: [&[u8]; 2] = [b"one", b"two"];

// Moves the records of a keeper to a disk. Says how that ended, and returns the disk.
fn moved<K: Keeper>(alloc: Global, from: &mut K, disk: MemoryDisk) -> (&'static str, MemoryDisk) {
    let hidden = match Journal::hide(alloc, disk) {
        Ok(hidden) => hidden,
        Err((InitFault::Exists, disk)) => return ("exists", disk),
        Err((InitFault::Failed, disk)) => return ("not hidden", disk),
    };
    match hidden.fill(alloc, from) {
        Ok(journal) => ("moved", journal.into_disk()),
        Err((CopyFault::Failed, disk)) => ("failed", disk),
        Err((CopyFault::Source, disk)) => ("source", disk),
        Err((CopyFault::Full, disk)) => ("full", disk),
        Err((CopyFault::Memory, disk)) => ("memory", disk),
    }
}

// Moves the records of a file of the first format, which is only read.
fn moved_from(
    alloc: Global,
    old: &[u8],
    disk: MemoryDisk,
) -> Result<(&'static str, MemoryDisk), Fail> {
    let Ok(mut journal) = FirstJournal::read(alloc, disk_of(alloc, old)?) else {
        return Err(Fail::new("the first format"));
    };
    let ended = moved(alloc, &mut journal, disk);
    let disk = journal.into_disk();
    let is_read = disk
        .calls()
        .iter()
        .all(|call| !matches!(call, Call::Write { .. }));
    expect(is_read && disk.bytes() == old, "a file that is only read")?;
    Ok(ended)
}

fn expect_whole_or_hidden(alloc: Global, images: &Images, stop: u64) -> Result<(), Fail> {
    for image in images {
        let found = found(alloc, image)?;
        let is_one = found.as_str() == "not a store" || found.as_str() == "|one|two";
        expect_at(is_one, &found, stop as usize)?;
    }
    Ok(())
}

// How many calls the hiding of an empty disk and its filling take.
const CALLS: u64 = 13;

fn expect_moved(alloc: Global, old: &[u8], stop: u64) -> Result<(), Fail> {
    let (end, disk) = moved_from(alloc, old, disk_of(alloc, b"")?.stopping(stop))?;
    expect_at((end == "moved") == (stop >= CALLS), end, stop as usize)?;
    expect_whole_or_hidden(alloc, &images_of(alloc, b"", disk.calls())?, stop)?;
    // Unless the last write was done, what is left is hidden, and the records can be moved again.
    let again = disk_of(alloc, disk.bytes())?;
    let (end, disk) = moved_from(alloc, old, again)?;
    expect_at((end == "exists") == (stop >= CALLS - 1), end, stop as usize)?;
    let found = found_in(alloc, disk)?;
    expect_at(found.as_str() == "|one|two", &found, stop as usize)
}

#[test]
fn a_stop_at_each_call_of_a_move_leaves_a_hidden_file_or_a_whole_one(
    rt: HostRuntime,
) -> Result<(), Fail> {
    let old = first_store_of(rt.alloc(), &RECORDS)?;
    for stop in 0..CALLS.saturating_add(2) {
        expect_moved(rt.alloc(), &old, stop)?;
    }
    let other = disk_of(rt.alloc(), b"whatever else")?;
    let (end, disk) = moved_from(rt.alloc(), &old, other)?;
    expect(
        end == "exists" && disk.bytes() == b"whatever else".as_slice(),
        end,
    )
}
