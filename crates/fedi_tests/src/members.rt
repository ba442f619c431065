//! Runs that make a member of the example town, byte for byte.

use crate::cases::{Case, KEY, calm};
use crate::example::{MEMBERS, TOWN};
use crate::runs::{are_texts, calls_after, calls_of_an_opening, left_by};
use fedi_rows::{expect_at, has_records, records_of};
use std::alloc::{AllocError, Global};
use std::test::Fail;

/// A run of this command line over the example town without posts, whose writes take at most six
/// bytes.
pub(crate) fn making(line: &str) -> Case<'_> {
    Case {
        write_limit: 6,
        ..calm(line, &MEMBERS)
    }
}

/// The record of the making of eva: her name, the digest of the key, whether she is locked, and the
/// moment.
const UNLOCKED: &[u8] = b"\
    \x02\0\0\0\x03eva\
    \x73\x33\x7f\x47\x9f\xe1\x70\xd7\x3e\x53\xe2\x47\xf3\x05\x2e\x42\
    \x43\xcc\x9c\x2a\x0f\xfa\x62\x18\x53\xd9\x38\x5c\x61\x9e\xfb\x77\
    \0\0\0\0\0\x2e\xbc\x98\xa1";

const LOCKED: &[u8] = b"\
    \x02\0\0\0\x03eva\
    \x73\x33\x7f\x47\x9f\xe1\x70\xd7\x3e\x53\xe2\x47\xf3\x05\x2e\x42\
    \x43\xcc\x9c\x2a\x0f\xfa\x62\x18\x53\xd9\x38\x5c\x61\x9e\xfb\x77\
    \x01\0\0\0\0\x2e\xbc\x98\xa1";

/// The line with her key.
pub const EVA: &str = "eva 303132333435363738396162636465666768696a6b6c6d6e6f70717273747576\n";

/// No record.
pub(crate) const NOTHING: &[u8] = &[];

/// Ana's key, and too few bytes for one.
const ANAS_KEY: &[u8] = &[0; 32];

const TOO_FEW: &[u8] = &[0; 31];

/// The command line, how much of the example town there is, the bytes that keys are drawn from,
/// which draws fail; then the status, what is printed, and the record that is kept.
const DRAWS: [(&str, usize, &[u8], &[u64], u8, &str, &[u8]); 9] = [
    (
        "fedi add-actor s eva",
        5,
        ANAS_KEY,
        &[],
        10,
        "refused: key taken\n",
        NOTHING,
    ),
    (
        "fedi add-actor s ana",
        5,
        ANAS_KEY,
        &[],
        10,
        "refused: name taken\n",
        NOTHING,
    ),
    // No key can be drawn, which is checked before the name.
    ("fedi add-actor s eva", 5, TOO_FEW, &[], 6, "", NOTHING),
    ("fedi add-actor s Ana", 5, TOO_FEW, &[], 6, "", NOTHING),
    // There is no host, which is checked before the draw.
    (
        "fedi add-actor s eva",
        0,
        TOO_FEW,
        &[],
        3,
        "not a store\n",
        NOTHING,
    ),
    // The host alone is enough, and members may exist already.
    ("fedi add-actor s eva", 1, KEY, &[], 0, EVA, UNLOCKED),
    ("fedi add-actor s eva", 7, KEY, &[], 0, EVA, UNLOCKED),
    ("fedi add-actor s --locked eva", 5, KEY, &[], 0, EVA, LOCKED),
    // The draw fails.
    ("fedi add-actor s eva", 5, KEY, &[0], 6, "", NOTHING),
];

/// Which calls of the disk fail, counted from the first of the append, which makes four, and which
/// writes; then the status, what is printed, and the record that is kept.
const FAULTS: [(&[u64], &[u64], u8, &str, &[u8]); 10] = [
    (&[0], &[], 5, "disk fault\n", NOTHING),
    (&[1], &[], 5, "disk fault\n", NOTHING),
    (&[2], &[], 5, "disk fault\n", NOTHING),
    // The record's gate is open, and that is not synced: it is closed again, unless that fails too,
    // at its write or at its sync.
    (&[3], &[], 5, "disk fault\n", NOTHING),
    (&[3, 4], &[], 5, "disk fault\n", UNLOCKED),
    (&[3, 5], &[], 5, "disk fault\n", NOTHING),
    (&[4], &[], 0, EVA, UNLOCKED),
    // A write fails: the member was made.
    (&[], &[1], 7, "eva 30", UNLOCKED),
    (&[0], &[0], 5, "", NOTHING),
    (&[], &[0], 7, "", UNLOCKED),
];

/// Whether a run ends with this status, prints this, and keeps this record or none.
pub(crate) fn ends(
    alloc: Global,
    case: &Case,
    status: u8,
    printed: &str,
    kept: &[u8],
) -> Result<bool, AllocError> {
    let left = left_by(alloc, case)?;
    let is_left = left.status == status && are_texts(&left.out, &[printed]);
    Ok(is_left && has_kept(alloc, &left.disk, case.records, kept)?)
}

/// Whether a disk has a store of these records, followed by this one, if it is not empty.
fn has_kept(
    alloc: Global,
    disk: &[u8],
    records: &[&[u8]],
    kept: &[u8],
) -> Result<bool, AllocError> {
    if records.is_empty() {
        return Ok(disk.is_empty());
    }
    if kept.is_empty() {
        return has_records(alloc, disk, records, 0);
    }
    Ok(has_records(alloc, disk, records, 1)? && is_last(alloc, disk, kept)?)
}

fn ends_with(found: Option<&Vec<Vec<u8>>>, record: &[u8]) -> bool {
    match found {
        Some(found) => found.last().is_some_and(|last| last.as_slice() == record),
        None => false,
    }
}

/// Whether this is the last record of the store on a disk.
fn is_last(alloc: Global, disk: &[u8], record: &[u8]) -> Result<bool, AllocError> {
    let found = records_of(alloc, disk)?;
    Ok(ends_with(found.as_ref(), record))
}

fn has_drawn(
    alloc: Global,
    row: &(&str, usize, &[u8], &[u64], u8, &str, &[u8]),
) -> Result<bool, AllocError> {
    let (line, entries, drawn, failing_draws, status, printed, kept) = *row;
    let case = Case {
        records: &TOWN[..entries.min(7)],
        drawn,
        failing_draws,
        ..making(line)
    };
    ends(alloc, &case, status, printed, kept)
}

fn has_fault(
    alloc: Global,
    opening: u64,
    row: &(&[u64], &[u64], u8, &str, &[u8]),
) -> Result<bool, AllocError> {
    let (failing, failing_writes, status, printed, kept) = *row;
    let failing_calls = calls_after(alloc, opening, failing)?;
    let case = Case {
        failing_calls: &failing_calls,
        failing_writes,
        ..making("fedi add-actor s eva")
    };
    ends(alloc, &case, status, printed, kept)
}

#[test]
fn a_member_is_kept_under_a_drawn_key_and_then_told(rt: HostRuntime) -> Result<(), Fail> {
    for (number, row) in DRAWS.iter().enumerate() {
        expect_at(has_drawn(rt.alloc(), row)?, row.0, number)?;
    }
    let opening = calls_of_an_opening(rt.alloc(), &MEMBERS)?;
    for (number, row) in FAULTS.iter().enumerate() {
        expect_at(has_fault(rt.alloc(), opening, row)?, "a fault", number)?;
    }
    Ok(())
}
