//! Real files: the calls of a file as a disk, the disks that it refuses, and journals over files.

use fedi_adapters::FileDisk;
use fedi_journal::{InitFault, Journal, JournalFault};
use fedi_outside::{Disk, Failed, Keeper};
use fedi_rows::{expect, store_of};
use std::alloc::Global;
use std::fs;
use std::os::unix::fs::PermissionsExt;
use std::test::Fail;

// Whether each call of this disk that does nothing is refused.
fn is_refused<D: Disk>(disk: &mut D) -> bool {
    disk.sync() == Err(Failed)
        && disk.len() == Err(Failed)
        && disk.read_at(0, &mut []) == Err(Failed)
        && disk.write_at(0, b"") == Err(Failed)
}

// Whether each call of this disk that does nothing succeeds, and it has this many bytes.
fn has_len<D: Disk>(disk: &mut D, len: u64) -> bool {
    disk.sync().is_ok() && disk.len() == Ok(len) && disk.read_at(0, &mut []).is_ok()
}

// Whether two writes to this disk succeed, the second of which begins inside the first.
fn writes<D: Disk>(disk: &mut D) -> bool {
    disk.write_at(0, b"hello").is_ok()
        && disk.write_at(4, b"p me").is_ok()
        && disk.sync().is_ok()
        && has_len(disk, 8)
}

fn expect_created<D: Disk>(rt: &HostRuntime, disk: &mut D, path: &str) -> Result<(), Fail> {
    expect(has_len(disk, 0), "no file")?;
    expect(!fs::exists(rt, path)?, "no file before a write")?;
    expect(writes(disk), "writes")
}

// Fails unless the file has these bytes.
fn expect_bytes(rt: &HostRuntime, path: &str, bytes: &[u8]) -> Result<(), Fail> {
    let found = fs::read(rt, path)?;
    expect(found.as_slice() == bytes, path)
}

// The first write creates the file for its owner.
fn expect_first_write(rt: &HostRuntime) -> Result<(), Fail> {
    let path = "created.disk";
    let _ = fs::remove_file(rt, path);
    expect_created(rt, &mut FileDisk::new(rt, path), path)?;
    expect_bytes(rt, path, b"hellp me")?;
    let mode = fs::metadata(rt, path)?.permissions().mode();
    expect(mode & 0o777 == 0o600, "for its owner alone")?;
    fs::remove_file(rt, path)?;
    Ok(())
}

fn expect_refused<D: Disk + Drop>(first: D, second: &mut D) -> Result<(), Fail> {
    let mut first = first;
    let was_first = first.len() == Ok(4) && is_refused(second) && is_refused(second);
    drop(first);
    expect(was_first && second.len() == Ok(4), "two disks")
}

// A second disk is refused until the first is dropped.
fn expect_one_disk(rt: &HostRuntime) -> Result<(), Fail> {
    let path = "shared.disk";
    fs::write(rt, path, "mine")?;
    expect_refused(FileDisk::new(rt, path), &mut FileDisk::new(rt, path))?;
    fs::remove_file(rt, path)?;
    Ok(())
}

fn expect_one_creates<D: Disk + Drop>(first: D, second: &mut D) -> Result<(), Fail> {
    let mut first = first;
    let was_first = first.len() == Ok(0)
        && second.len() == Ok(0)
        && first.write_at(0, b"first").is_ok();
    drop(first);
    let is_refused = second.write_at(0, b"second") == Err(Failed);
    expect(was_first && is_refused, "two disks of no file")
}

// If two disks found no file, only one of them creates it.
fn expect_one_creator(rt: &HostRuntime) -> Result<(), Fail> {
    let path = "raced.disk";
    let _ = fs::remove_file(rt, path);
    expect_one_creates(FileDisk::new(rt, path), &mut FileDisk::new(rt, path))?;
    expect_bytes(rt, path, b"first")?;
    fs::remove_file(rt, path)?;
    Ok(())
}

fn expect_too_short(rt: &HostRuntime, path: &str) -> Result<(), Fail> {
    let mut disk = FileDisk::new(rt, path);
    let Ok(4) = disk.len() else {
        return Err(Fail::new("four bytes"));
    };
    fs::write(rt, path, "two")?;
    let read = disk.read_at(0, &mut [0; 4]);
    expect(read == Err(Failed), "a file that is too short")
}

#[test]
fn a_file_is_a_disk_of_one_process(rt: HostRuntime) -> Result<(), Fail> {
    expect_first_write(&rt)?;
    expect_one_disk(&rt)?;
    expect_one_creator(&rt)?;
    expect(is_refused(&mut FileDisk::new(&rt, ".")), "a folder")?;
    let path = "short.disk";
    fs::write(&rt, path, "four")?;
    expect_too_short(&rt, path)?;
    fs::remove_file(&rt, path)?;
    Ok(())
}

// Appends the records of a keeper, each after a bar.
fn push_records<K: Keeper>(alloc: Global, text: &mut Vec<u8>, keeper: &mut K) -> Result<(), Fail> {
    for place in 0..keeper.count() {
        text.extend_from_slice(b"|")?;
        if let Some(payload) = keeper.load(alloc, place)? {
            text.extend_from_slice(&payload)?;
        }
    }
    Ok(())
}

fn expect_records<K: Keeper>(alloc: Global, keeper: &mut K, wanted: &str) -> Result<(), Fail> {
    let mut text = Vec::new(alloc);
    push_records(alloc, &mut text, keeper)?;
    expect(text.as_slice() == wanted.as_bytes(), wanted)
}

// Adds this record, and says whether it was added.
fn add<K: Keeper>(keeper: &mut K, payload: &[u8]) -> bool {
    keeper.reserve(payload.len()).is_ok()
        && keeper.settle().is_ok()
        && keeper.append(payload).is_ok()
}

// Makes a journal of three records.
fn has_made<D: Disk + Drop>(alloc: Global, disk: D) -> bool {
    let mut made = Journal::init(alloc, disk);
    match &mut made {
        Ok(journal) => add(journal, b"one") && add(journal, b"") && add(journal, b"three"),
        Err(_) => false,
    }
}

// Opens a journal, which must have these records, and adds another.
fn expect_opened<D: Disk + Drop>(
    alloc: Global,
    disk: D,
    wanted: &str,
    payload: &[u8],
) -> Result<(), Fail> {
    let mut opened = Journal::open(alloc, disk);
    match &mut opened {
        Ok(journal) => {
            expect_records(alloc, journal, wanted)?;
            expect(add(journal, payload), wanted)
        }
        Err(_) => expect(false, wanted),
    }
}

// What each opening finds, and what is then added.
const OPENINGS: [(&str, &[u8]); 3] = [
    ("|one||three", b"four"),
    ("|one||three|four", b"5"),
    ("|one||three|four|5", b""),
];

const KEPT: [&[u8]; 6] = [b"one", b"", b"three", b"four", b"5", b""];

// Records outlive the disk.
fn expect_kept(rt: &HostRuntime) -> Result<(), Fail> {
    let path = "kept.journal";
    let _ = fs::remove_file(rt, path);
    expect(has_made(rt.alloc(), FileDisk::new(rt, path)), path)?;
    for row in &OPENINGS {
        expect_opened(rt.alloc(), FileDisk::new(rt, path), row.0, row.1)?;
    }
    expect_bytes(rt, path, &store_of(rt.alloc(), &KEPT)?)?;
    fs::remove_file(rt, path)?;
    Ok(())
}

// Whether this disk is found not to be a store.
fn is_no_store<D: Disk + Drop>(alloc: Global, disk: D) -> bool {
    let opened = Journal::open(alloc, disk);
    matches!(&opened, Err((JournalFault::NotAStore, _)))
}

// How the making of a journal is refused, if it is.
fn refusal<D: Disk + Drop>(alloc: Global, disk: D) -> Option<InitFault> {
    match Journal::init(alloc, disk) {
        Ok(_) => None,
        Err((fault, _)) => Some(fault),
    }
}

// A file of another kind is not a store, and stays as it is.
fn expect_no_store(rt: &HostRuntime) -> Result<(), Fail> {
    let path = "other.journal";
    fs::write(rt, path, "whatever else")?;
    expect(is_no_store(rt.alloc(), FileDisk::new(rt, path)), path)?;
    let refusal = refusal(rt.alloc(), FileDisk::new(rt, path));
    expect(refusal == Some(InitFault::Exists), "it exists")?;
    expect_bytes(rt, path, b"whatever else")?;
    fs::remove_file(rt, path)?;
    Ok(())
}

#[test]
fn a_file_keeps_the_records_of_a_journal(rt: HostRuntime) -> Result<(), Fail> {
    expect_kept(&rt)?;
    expect_no_store(&rt)?;
    for path in ["missing.journal", "missing/below.journal"] {
        expect(is_no_store(rt.alloc(), FileDisk::new(&rt, path)), path)?;
        expect(!fs::exists(&rt, path)?, path)?;
    }
    let refusal = refusal(rt.alloc(), FileDisk::new(&rt, "missing/below.journal"));
    expect(refusal == Some(InitFault::Failed), "it fails")
}
