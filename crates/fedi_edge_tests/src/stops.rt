//! Journals whose disk stops or fails at each call.

use crate::images::{Images, images_of};
use crate::journals::{found, found_in, made};
use fedi_journal::Journal;
use fedi_outside::{Call, Keeper, MemoryDisk};
use fedi_rows::{disk_of, expect, expect_at, store_of};
use std::alloc::{AllocError, Global};
use std::test::Fail;

/// Adds a record, trying at most this often if the disk fails, and says whether it was added.
pub fn add<K: Keeper>(keeper: &mut K, payload: &[u8], tries: usize) -> bool {
    for _ in 0..tries {
        if keeper.reserve(payload.len()).is_ok()
            && keeper.settle().is_ok()
            && keeper.append(payload).is_ok()
        {
            return true;
        }
    }
    false
}

// Appends a word for the call.
fn push_word(alloc: Global, words: &mut String, call: &Call) -> Result<(), AllocError> {
    match call {
        Call::Len => words.push_str("len "),
        Call::Read { at, count } => words.push_str(&format!(in alloc; "read {count} at {at} ")?),
        Call::Write { at, bytes, .. } => {
            words.push_str(&format!(in alloc; "write {} at {at} ", bytes.len())?)
        }
        Call::Sync { .. } => words.push_str("sync "),
    }
}

// The calls, each by a word.
fn words_of(alloc: Global, calls: &[Call]) -> Result<String, AllocError> {
    let mut words = String::new(alloc);
    for call in calls {
        push_word(alloc, &mut words, call)?;
    }
    Ok(words)
}

// Opens the records of a disk, adds one, and gives the disk back with whether that was
// acknowledged.
fn added(alloc: Global, disk: MemoryDisk, payload: &[u8]) -> (bool, MemoryDisk) {
    match Journal::open(alloc, disk) {
        Ok(journal) => {
            let mut journal = journal;
            let done = add(&mut journal, payload, 1);
            (done, journal.into_disk())
        }
        Err((_, disk)) => (false, disk),
    }
}

// The calls of an append, which are the last ones.
const CALLS: &str = "write 46 at 94 sync write 1 at 93 sync ";

fn expect_calls(alloc: Global, disk: &MemoryDisk) -> Result<(), Fail> {
    let words = words_of(alloc, disk.calls())?;
    expect(words.ends_with(CALLS), &words)
}

// How many calls the opening of a journal with these bytes takes.
fn calls_of_an_opening(alloc: Global, bytes: &[u8]) -> Result<u64, AllocError> {
    let disk = match Journal::open(alloc, disk_of(alloc, bytes)?) {
        Ok(journal) => journal.into_disk(),
        Err((_, disk)) => disk,
    };
    Ok(disk.calls().len() as u64)
}

fn expect_bytes(alloc: Global, disk: &MemoryDisk, records: &[&[u8]]) -> Result<(), Fail> {
    let wanted = store_of(alloc, records)?;
    expect(disk.bytes() == wanted.as_slice(), "the bytes of the disk")
}

fn expect_appended(alloc: Global) -> Result<(), Fail> {
    let file = store_of(alloc, &[b"one", b""])?;
    let (done, disk) = added(alloc, MemoryDisk::new(alloc, file)?, b"three");
    expect(done, "an append")?;
    expect_calls(alloc, &disk)?;
    expect_bytes(alloc, &disk, &[b"one", b"", b"three"])
}

// A file of one record, with something after its closed gate.
const ONE: &[u8] =
    b"FEDIJRN2\x01\0\0\0\0\0\0\0\x03one\x1c\x08\x9b\xa0\xc0\xb2\xa2\x8a\x9bI|\x16\x15]\x09$\xae\
    \x86=\xbf \x8b\x89\xb7\x9b:\x0b]>\xf8\xbcG\0\x01 left of others";

// What an image is found to hold after a crash at this call, if the opening takes this many calls
// and the append the next four: what was acknowledged, and all or nothing of the record of the
// append.
fn expect_image(alloc: Global, image: &[u8], opening: u64, stop: u64) -> Result<(), Fail> {
    let found = found(alloc, image)?;
    let before = found.as_str() == "|one";
    let after = found.as_str() == "|one|three";
    expect_at(
        (before && stop < opening.saturating_add(4)) || (after && stop > opening.saturating_add(1)),
        &found,
        stop as usize,
    )
}

fn expect_images(alloc: Global, images: &Images, opening: u64, stop: u64) -> Result<(), Fail> {
    for image in images {
        expect_image(alloc, image, opening, stop)?;
    }
    Ok(())
}

fn expect_after_append(alloc: Global, opening: u64, stop: u64) -> Result<(), Fail> {
    let (done, disk) = added(alloc, disk_of(alloc, ONE)?.stopping(stop), b"three");
    expect_at(
        done == (stop == opening.saturating_add(4)),
        "an append",
        stop as usize,
    )?;
    expect_images(alloc, &images_of(alloc, ONE, disk.calls())?, opening, stop)
}

#[test]
fn a_crash_at_each_call_of_an_append_leaves_what_was_acknowledged(
    rt: HostRuntime,
) -> Result<(), Fail> {
    expect_appended(rt.alloc())?;
    let opening = calls_of_an_opening(rt.alloc(), ONE)?;
    for stop in 0..opening.saturating_add(5) {
        expect_after_append(rt.alloc(), opening, stop)?;
    }
    Ok(())
}

fn expect_made_again(alloc: Global, image: &[u8], stop: u64) -> Result<(), Fail> {
    let (end, disk) = made(alloc, disk_of(alloc, image)?);
    expect_at(end == "made", end, stop as usize)?;
    let found = found_in(alloc, disk)?;
    expect_at(found.as_str() == "", &found, stop as usize)
}

fn expect_all_made_again(alloc: Global, images: &Images, stop: u64) -> Result<(), Fail> {
    for image in images {
        expect_made_again(alloc, image, stop)?;
    }
    Ok(())
}

fn expect_after_making(alloc: Global, base: &[u8], stop: u64) -> Result<(), Fail> {
    let (_, disk) = made(alloc, disk_of(alloc, base)?.stopping(stop));
    expect_all_made_again(alloc, &images_of(alloc, base, disk.calls())?, stop)
}

#[test]
fn a_crash_at_each_call_of_the_making_leaves_a_disk_that_can_be_made(
    rt: HostRuntime,
) -> Result<(), Fail> {
    for stop in 0..4 {
        expect_after_making(rt.alloc(), b"", stop)?;
        expect_after_making(rt.alloc(), b"whatever!", stop)?;
    }
    Ok(())
}

// Whether each record was added at last, and how many there are.
fn has_added<K: Keeper>(keeper: &mut K) -> bool {
    add(keeper, b"one", 9) && add(keeper, b"", 9) && add(keeper, b"three", 9) && keeper.count() == 3
}

// Whether each record was added to the journal of a disk, and the disk.
fn kept(alloc: Global, disk: MemoryDisk) -> (bool, MemoryDisk) {
    match Journal::open(alloc, disk) {
        Ok(journal) => {
            let mut journal = journal;
            let done = has_added(&mut journal);
            (done, journal.into_disk())
        }
        Err((_, disk)) => (false, disk),
    }
}

fn expect_kept(alloc: Global, call: u64, other: u64) -> Result<(), Fail> {
    let failing = [call, other].to_vec(alloc)?;
    let (done, disk) = kept(alloc, disk_of(alloc, b"FEDIJRN2\0")?.failing(failing));
    expect_at(done, "records added", call as usize)?;
    let found = found(alloc, disk.bytes())?;
    expect_at(found.as_str() == "|one||three", &found, call as usize)
}

#[test]
fn records_are_kept_once_each_whichever_call_fails(rt: HostRuntime) -> Result<(), Fail> {
    let opening = calls_of_an_opening(rt.alloc(), b"FEDIJRN2\0")?;
    for call in 0..12 {
        for more in 1..4 {
            let first = opening.saturating_add(call);
            expect_kept(rt.alloc(), first, first.saturating_add(more))?;
        }
    }
    Ok(())
}
